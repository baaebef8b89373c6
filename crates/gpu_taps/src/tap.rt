// Observers of notes.
ghost use Rattle.std.specs.Prelude.{◌≡◌, ◌<◌, ◌+◌, length, slice_index};
ghost use Rattle.gpu_taps.specs.Bare.{bare_note, bare_notes, after_notes};
ghost use Rattle.gpu_taps.specs.Tally.{Reading, reading_after};

use gp0_packets::Note;

/// Observes notes. Its reading is its kind, which never changes, and a list of numbers.
pub trait Tap: Drop {
    /// The kind and the numbers.
    ghost reading: { Self → Reading };

    /// Returns the kind.
    fn kind(&self) -> u8
        ensures { result ≡ (reading self.now).kind };

    /// Records a note. It cannot fail.
    fn note(&mut self, note: &Note)
        ensures { reading self.new ≡ reading_after note.now (reading self.old) };

    /// Records one note per word: class `class`, head the word, no area, events from `played + 1` on. Event numbers
    /// stop at 2^64 - 1.
    fn bare_notes(&mut self, class: u8, played: u64, words: &[u32])
        ensures { reading self.new ≡ after_notes (bare_notes class (played + 1) words.now) (reading self.old) }
    {
        for i in 0..words.len() {
            self.note(&bare_note(played.saturating_add(i as u64 + 1), class, words[i]));
        }
    }

    /// Returns how many numbers there are.
    fn len(&self) -> u32
        ensures { result ≡ length (reading self.now).numbers };

    /// Returns number `i`, counted from 0.
    fn number(&self, i: u32) -> u64
        requires { i < length (reading self.now).numbers }
        ensures { result ≡ slice_index (reading self.now).numbers i };
}

/// Returns a note without an area.
pub fn bare_note(event: u64, class: u8, head: u32) -> Note
    ensures { result ≡ bare_note class event head }
{
    Note {
        event,
        class,
        head,
        area: None,
    }
}
