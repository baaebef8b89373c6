// A transfer with the position of its next pixel.
ghost use Rattle.std.specs.Prelude.{ℕ, ◌≡◌, ◌≤◌, ◌<◌, ◌+◌, ◌*◌, ◌/◌, ◌%◌, ◌^◌, length, min, nat_lt};
ghost use Rattle.vram_copy.specs.Words.{advanced, advanced_by, pixels_in, pixels_next, words_left};
ghost use Rattle.vram_copy.specs.Words.{loaded_word, loaded_words, stored_word};

use crate::loads::{Stretch, load_run};
use crate::place::{Place, cell_at, place_behind};
use crate::transfer::Transfer;
use std::marker::Model;
use std::sync::ledger::Ledger;
use vram_store::{Steps, Vram};

/// A transfer together with the column and row of its next pixel, so that no pixel needs a division. In contracts it
/// is the transfer.
#[derive(Drop)]
pub struct Cursor {
    job: Transfer,
    place: Place,
}

impl Model for Cursor {
    ghost use Rattle.vram_copy.specs.Places.{IsPlace};
    ghost use Rattle.vram_copy.specs.declared.transfer.Transfer.{Transfer};

    ghost Value = { Transfer };

    ghost view = { λ c. c.job };

    ghost invariant = { λ c. IsPlace c.job.w c.place c.job.at };
}

// Returns the number of pixels in the next `n` words.
fn count_pixels(job: &Transfer, n: usize) -> u32
    requires { n ≤ words_left job.now }
    ensures { result ≡ pixels_in job.now n }
{
    let left = (job.w as u32 * job.h as u32).saturating_sub(job.at);
    left.min(2 * n as u32)
}

impl Cursor {
    /// Returns a cursor for `job`, at its next pixel. At least one pixel must be left.
    pub fn new(job: Transfer) -> Cursor
        requires { job.at < job.w * job.h }
        ensures { result ≡ job }
    {
        let place = Place {
            column: (job.at % job.w as u32) as u16,
            row: (job.at / job.w as u32) as u16,
        };
        Cursor { job, place }
    }

    /// Returns the transfer.
    pub fn job(&self) -> Transfer
        ensures { result ≡ self.now }
    {
        self.job
    }

    /// Returns whether a pixel is left.
    pub fn has_more(&self) -> bool
        ensures { result ≡ nat_lt self.now.at (self.now.w * self.now.h) }
    {
        self.job.at < self.job.w as u32 * self.job.h as u32
    }

    /// Plots the next two pixels from `word`, the low half first, under the mask setting. If only one pixel is left,
    /// the high half is dropped. At least one pixel must be left. Costs at most two steps per pixel.
    pub fn load_word<L: Ledger>(
        &mut self,
        vram: &mut Vram,
        mask: u8,
        word: u32,
        steps: &mut Steps<L>,
    )
        requires more { self.old.at < self.old.w * self.old.h }
        ensures cells { vram.new ≡ loaded_word vram.old mask self.old word }
        ensures long { length vram.new ≡ length vram.old }
        ensures job { self.new ≡ advanced self.old }
        ensures cost { steps.new ≤ steps.old + 2 * pixels_next self.old }
    {
        self.load_words(vram, mask, &[word], steps);
    }

    /// Plots the next two pixels from each of the words, in order and the low half first, under the mask setting. If
    /// only one pixel is left for the last word, its high half is dropped. There must be no more words than the
    /// transfer needs. Costs at most two steps per pixel.
    pub fn load_words<L: Ledger>(
        &mut self,
        vram: &mut Vram,
        mask: u8,
        words: &[u32],
        steps: &mut Steps<L>,
    )
        requires wanted { length words.now ≤ words_left self.old }
        ensures cells { vram.new ≡ loaded_words vram.old mask self.old words.now }
        ensures long { length vram.new ≡ length vram.old }
        ensures job { self.new ≡ advanced_by self.old (length words.now) }
        ensures cost { steps.new ≤ steps.old + 2 * pixels_in self.old (length words.now) }
    {
        let height = vram.height();
        let job = self.job;
        let count = count_pixels(&job, words.len());
        let mut place = self.place;
        let mut done = 0;
        while done < count {
            let to = cell_at(&job, place, height);
            let n = run_len(count - done, job.w - place.column, 1024 - to.x);
            let stretch = Stretch {
                to,
                first: done as usize,
                n,
            };
            load_run(vram, mask, words, stretch, steps);
            place = place_behind(&job, place, n);
            done += n as u32;
        }
        self.place = place;
        self.job.at += count;
    }

    /// Returns the next two pixels as a word, the low half first, as they are in video memory now. If only one pixel
    /// is left, the high half is 0. At least one pixel must be left. Costs one step per pixel.
    pub fn store_word<L: Ledger>(&mut self, vram: &Vram, steps: &mut Steps<L>) -> u32
        requires more { self.old.at < self.old.w * self.old.h }
        ensures word { result ≡ stored_word vram.now self.old }
        ensures job { self.new ≡ advanced self.old }
        ensures cost { steps.new ≡ steps.old + pixels_next self.old }
    {
        let height = vram.height();
        let first = self.place;
        let from = cell_at(&self.job, first, height);
        let low = vram.get(from.x, from.y, steps);
        let second = place_behind(&self.job, first, 1);
        if self.job.at + 1 < self.job.w as u32 * self.job.h as u32 {
            let from = cell_at(&self.job, second, height);
            let high = vram.get(from.x, from.y, steps);
            self.place = place_behind(&self.job, second, 1);
            self.job.at += 2;
            joined(low, high)
        } else {
            self.place = second;
            self.job.at += 1;
            joined(low, 0)
        }
    }
}

// Returns the number of pixels until the words, the row of the rectangle or the row of video memory ends.
fn run_len(left: u32, in_row: u16, room: u16) -> u16
    ensures { result ≡ min left (min in_row room) }
{
    left.min(in_row.min(room) as u32) as u16
}

fn joined(low: u16, high: u16) -> u32
    ensures { result ≡ low + high * 2 ^ 16 }
{
    low as u32 | (high as u32) << 16
}
