// The tap of kind 1.
ghost use Rattle.std.specs.Prelude.{◌≡◌, ◌<◌, ◌≤◌, ◌+◌, ◌++◌, IfOk, [], length, map, slice_index};
ghost use Rattle.circular_buffer.specs.Buffer.{keep_last};
ghost use Rattle.gpu_taps.specs.Bare.{bare_notes};
ghost use Rattle.gpu_taps.specs.Tally.{noted_of, trace_numbers};

use crate::noted::Noted;
use crate::tap::Tap;
use circular_buffer::HeapCircularBuffer;
use gp0_packets::Note;
use px_num::OutOfMemory;
use std::alloc::Global;

/// How many notes a trace records.
const KEPT: usize = 64;

/// The last 64 notes, the oldest first. Each is three numbers: its event, its class and its head.
#[derive(Drop)]
pub struct Trace {
    notes: HeapCircularBuffer<Noted>,
    ghost size: { notes.capacity ≡ 64 },
    ghost fits: { length notes.items ≤ 64 },
}

impl Trace {
    /// Returns the tap before any note: no numbers. Allocates memory for 64 notes, so a note allocates none. Fails if
    /// memory runs out.
    pub fn new(alloc: Global) -> Result<Trace, OutOfMemory>
        ensures { IfOk result (λ t. ⟦<Trace as Tap>⟧.reading t ≡ record { kind = 1; numbers = [] }) }
    {
        let notes = HeapCircularBuffer::with_capacity(alloc, KEPT)?;
        Ok(Trace { notes })
    }
}

impl Tap for Trace {
    ghost use Rattle.std.specs.Prelude.{◌≡◌, ◌<◌, ◌+◌, length, slice_index};
    ghost use Rattle.gpu_taps.specs.Bare.{bare_notes};
    ghost use Rattle.gpu_taps.specs.Tally.{trace_numbers, reading_after};

    ghost reading = { λ t. record { kind = 1; numbers = trace_numbers t.notes.items } };

    fn kind(&self) -> u8 {
        1
    }

    #[tactic(auto, unfolding(crate::specs::Tally::tally, crate::specs::Tally::reading_after))]
    fn note(&mut self, note: &Note) {
        self.notes.push_back(Noted::of(note));
    }

    // Only the last 64 words are recorded.
    fn bare_notes(&mut self, class: u8, played: u64, words: &[u32]) {
        let gone = words.len().saturating_sub(KEPT);
        keep_words(
            &mut self.notes,
            class,
            played.saturating_add(gone as u64),
            &words[gone..],
        );
    }

    fn len(&self) -> u32 {
        3 * self.notes.len() as u32
    }

    fn number(&self, i: u32) -> u64 {
        number_of(&self.notes, i)
    }
}

/// Records one note per word, events from `played + 1` on.
fn keep_words(notes: &mut HeapCircularBuffer<Noted>, class: u8, played: u64, words: &[u32])
    requires size { notes.old.capacity ≡ 64 }
    requires fits { length notes.old.items ≤ 64 }
    ensures size { notes.new.capacity ≡ 64 }
    ensures items { notes.new.items
        ≡ keep_last 64 (notes.old.items ++ map noted_of (bare_notes class (played + 1) words.now)) }
{
    for i in 0..words.len() {
        let event = played.saturating_add(i as u64 + 1);
        let head = words[i];
        notes.push_back(Noted { event, class, head });
    }
}

/// Returns number `i` of the numbers of these notes, counted from 0.
fn number_of(notes: &HeapCircularBuffer<Noted>, i: u32) -> u64
    requires { i < length (trace_numbers notes.now.items) }
    ensures { result ≡ slice_index (trace_numbers notes.now.items) i }
{
    match notes.get((i / 3) as usize) {
        Some(note) => note.number(i % 3),
        None => 0,
    }
}
