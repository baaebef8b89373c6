// Receivers of notes, and sending a note to a list of them.
ghost use Rattle.std.specs.Prelude.{◌≡◌, ◌<◌, ◌+◌, length, map, slice_index, vec_len};
ghost use Rattle.gpu_taps.specs.Bare.{bare_notes, after_notes};
ghost use Rattle.gpu_taps.specs.Tally.{Reading, reading_after};

use crate::tap::Tap;
use gp0_packets::Note;

/// Receives notes, and reports its reading: a kind and numbers. A boxed tap is a listener, so code that sends notes to
/// a list of taps is generic and borrows no boxed tap.
pub trait Listener: Drop {
    /// Its reading: its kind and numbers.
    ghost heard: { Self → Reading };

    /// Receives a note.
    fn tell(&mut self, note: &Note)
        ensures { heard self.new ≡ reading_after note.now (heard self.old) };

    /// Receives one note per word: class `class`, head the word, no area, events from `played + 1` on. Event numbers
    /// stop at 2^64 - 1.
    fn tell_bare(&mut self, class: u8, played: u64, words: &[u32])
        ensures { heard self.new ≡ after_notes (bare_notes class (played + 1) words.now) (heard self.old) };

    /// Returns the kind of its reading.
    fn kind(&self) -> u8
        ensures { result ≡ (heard self.now).kind };

    /// Returns how many numbers its reading has.
    fn len(&self) -> u32
        ensures { result ≡ length (heard self.now).numbers };

    /// Returns number `i` of its reading, counted from 0.
    fn number(&self, i: u32) -> u64
        requires { i < length (heard self.now).numbers }
        ensures { result ≡ slice_index (heard self.now).numbers i };
}

impl Listener for Box<dyn Tap> {
    ghost heard = { λ b. (Tap-box b).reading b.value };

    fn tell(&mut self, note: &Note) {
        (**self).note(note)
    }

    fn tell_bare(&mut self, class: u8, played: u64, words: &[u32]) {
        (**self).bare_notes(class, played, words)
    }

    fn kind(&self) -> u8 {
        (**self).kind()
    }

    fn len(&self) -> u32 {
        (**self).len()
    }

    fn number(&self, i: u32) -> u64 {
        (**self).number(i)
    }
}

/// Sends a note to every listener, in order.
pub fn tell_all<T: Listener>(taps: &mut Vec<T>, note: &Note)
    ensures len { vec_len taps.new ≡ vec_len taps.old }
    ensures told { map T.heard taps.new.items ≡ map (reading_after note.now) (map T.heard taps.old.items) }
{
    for i in 0..taps.len() {
        taps[i].tell(note);
    }
}

/// Sends every listener, in order, one note per word: class `class`, head the word, no area, events from `played + 1`
/// on. Each listener receives all of them before the next listener.
pub fn tell_all_bare<T: Listener>(taps: &mut Vec<T>, class: u8, played: u64, words: &[u32])
    ensures len { vec_len taps.new ≡ vec_len taps.old }
    ensures told { map T.heard taps.new.items
        ≡ map (after_notes (bare_notes class (played + 1) words.now)) (map T.heard taps.old.items) }
{
    for k in 0..taps.len() {
        taps[k].tell_bare(class, played, words);
    }
}
