// The tap of kind 2.
ghost use Rattle.std.specs.Prelude.{◌≡◌, ◌^◌, ◌≤◌, [], ◌∷◌, replicate};
ghost use Rattle.gpu_taps.specs.Tally.{capped, side_of, cells_of};

use crate::tap::Tap;
use gp0_packets::Note;
use px_num::Box2;

/// The number of notes with an area, the sum of the areas' cells, and the most cells of one area.
#[derive(Drop)]
pub struct Cover {
    notes: u64,
    cells: u64,
    most: u64,
}

impl Cover {
    /// Returns the tap before any note: three zeros.
    pub fn new() -> Cover
        ensures { ⟦<Cover as Tap>⟧.reading result ≡ record { kind = 2; numbers = replicate 3 0 } }
    {
        Cover {
            notes: 0,
            cells: 0,
            most: 0,
        }
    }
}

/// Returns how many cells are from `first` to `last` in one direction, both included, and 0 if `last < first`.
fn side(first: i32, last: i32) -> u64
    ensures value { result ≡ side_of first last }
    ensures fits { result ≤ 2 ^ 32 }
{
    if last < first {
        0
    } else {
        (i64::from(last) + 1 - i64::from(first)) as u64
    }
}

/// Returns how many cells a box has, at most 2^64 - 1.
fn cell_count(area: &Box2) -> u64
    ensures { result ≡ capped (cells_of area.now) }
{
    side(area.x1, area.x2).saturating_mul(side(area.y1, area.y2))
}

impl Tap for Cover {
    ghost reading = { λ c. record { kind = 2; numbers = c.notes ∷ c.cells ∷ c.most ∷ [] } };

    fn kind(&self) -> u8 {
        2
    }

    #[tactic(auto, unfolding(crate::specs::Tally::tally, crate::specs::Tally::reading_after))]
    fn note(&mut self, note: &Note) {
        if let Some(area) = &note.area {
            let cells = cell_count(area);
            self.notes = self.notes.saturating_add(1);
            self.cells = self.cells.saturating_add(cells);
            self.most = self.most.max(cells);
        }
    }

    fn bare_notes(&mut self, _class: u8, _played: u64, _words: &[u32]) {}

    fn len(&self) -> u32 {
        3
    }

    fn number(&self, i: u32) -> u64 {
        match i {
            0 => self.notes,
            1 => self.cells,
            _ => self.most,
        }
    }
}
