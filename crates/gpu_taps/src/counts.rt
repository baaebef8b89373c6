// The tap of kind 0.
ghost use Rattle.std.specs.Prelude.{◌≡◌, ◌+◌, ◌<◌, ◌^◌, replicate};
ghost use Rattle.gpu_taps.specs.Tally.{capped};

use crate::tap::Tap;
use gp0_packets::Note;

/// The number of notes of each class: ten numbers, indexed by class.
#[derive(Drop)]
pub struct Counts {
    counts: [u64; 10],
}

impl Counts {
    /// Returns the tap before any note: ten zeros.
    pub fn new() -> Counts
        ensures { ⟦<Counts as Tap>⟧.reading result ≡ record { kind = 0; numbers = replicate 10 0 } }
    {
        Counts { counts: [0; 10] }
    }
}

/// Returns `count + by`, at most 2^64 - 1.
fn grown(count: u64, by: u64) -> u64
    ensures value { result ≡ capped (count + by) }
    ensures before { count < 2 ^ 64 }
{
    count.saturating_add(by)
}

impl Tap for Counts {
    ghost reading = { λ c. record { kind = 0; numbers = c.counts } };

    fn kind(&self) -> u8 {
        0
    }

    #[tactic(auto, unfolding(crate::specs::Tally::tally, crate::specs::Tally::reading_after))]
    fn note(&mut self, note: &Note) {
        let class = usize::from(note.class);
        if class < 10 {
            self.counts[class] = self.counts[class].saturating_add(1);
        }
    }

    #[tactic(auto, unfolding(crate::specs::Tally::tally, crate::specs::Tally::reading_after))]
    fn bare_notes(&mut self, class: u8, _played: u64, words: &[u32]) {
        let class = usize::from(class);
        if class < 10 {
            self.counts[class] = grown(self.counts[class], words.len() as u64);
        }
    }

    fn len(&self) -> u32 {
        10
    }

    fn number(&self, i: u32) -> u64 {
        self.counts[i as usize]
    }
}
