// Pixels of several words, plotted sixteen at a time.
ghost use Rattle.std.specs.Prelude.{◌≡◌, ◌≤◌, ◌<◌, ◌+◌, ◌*◌, ◌%◌, length, slice_index};
ghost use Rattle.px_num.specs.Lanes.{EachLane};
ghost use Rattle.vram_store.specs.Vram.{height_of};
ghost use Rattle.vram_copy.specs.Loads.{loaded_run};
ghost use Rattle.vram_copy.specs.Rect.{LieInRow};
ghost use Rattle.vram_copy.specs.Words.{pixel_of};

use crate::plots::{open_cells, plot_pixel};
use px_num::Cell;
use std::simd::prelude::*;
use std::sync::ledger::Ledger;
use vram_store::mask::{force_lanes, forces, tests};
use vram_store::{Steps, Vram};

/// Consecutive cells of a row, and the pixels of words that are plotted there.
#[derive(Clone, Copy)]
pub struct Stretch {
    /// The first cell.
    pub to: Cell,
    /// The index of its pixel in the words, two pixels per word.
    pub first: usize,
    /// The number of cells.
    pub n: u16,
}

/// Plots the pixels of `words` in the cells of `stretch`, which are in one row. Costs at most two steps per cell. The
/// mask setting is tested once for all cells.
pub fn load_run<L: Ledger>(
    vram: &mut Vram,
    mask: u8,
    words: &[u32],
    stretch: Stretch,
    steps: &mut Steps<L>,
)
    requires target_in { LieInRow (height_of vram.old) stretch.to stretch.n }
    requires in_words { stretch.first + stretch.n ≤ 2 * length words.now }
    ensures cells { vram.new ≡ loaded_run vram.old mask words.now stretch }
    ensures long { length vram.new ≡ length vram.old }
    ensures cost { steps.new ≤ steps.old + 2 * stretch.n }
{
    if tests(mask) {
        load_each(vram, mask, words, stretch, steps);
    } else if forces(mask) {
        load_each(vram, 1, words, stretch, steps);
    } else {
        load_each(vram, 0, words, stretch, steps);
    }
}

// As `load_run`, compiled separately for each constant mask setting.
#[inline(always)]
fn load_each<L: Ledger>(
    vram: &mut Vram,
    mask: u8,
    words: &[u32],
    stretch: Stretch,
    steps: &mut Steps<L>,
)
    requires target_in { LieInRow (height_of vram.old) stretch.to stretch.n }
    requires in_words { stretch.first + stretch.n ≤ 2 * length words.now }
    ensures cells { vram.new ≡ loaded_run vram.old mask words.now stretch }
    ensures long { length vram.new ≡ length vram.old }
    ensures cost { steps.new ≤ steps.old + 2 * stretch.n }
{
    let mut done = 0;
    while done < stretch.n {
        let cell = Cell {
            x: stretch.to.x + done,
            y: stretch.to.y,
        };
        let next = stretch.first + done as usize;
        if next % 2 == 0 && stretch.n - done >= 16 {
            load_sixteen(vram, mask, cell, words, next, steps);
            done += 16;
        } else {
            plot_pixel(vram, mask, cell, pixel_at(words, next), steps);
            done += 1;
        }
    }
}

// Plots sixteen pixels of words with one store. The first must be the low half of its word.
#[inline(always)]
fn load_sixteen<L: Ledger>(
    vram: &mut Vram,
    mask: u8,
    to: Cell,
    words: &[u32],
    first: usize,
    steps: &mut Steps<L>,
)
    requires target_in { LieInRow (height_of vram.old) to 16 }
    requires whole { first % 2 ≡ 0 }
    requires in_words { first + 16 ≤ 2 * length words.now }
    ensures cells { vram.new ≡ loaded_run vram.old mask words.now (record { to = to; first = first; n = 16 }) }
    ensures long { length vram.new ≡ length vram.old }
    ensures cost { steps.new ≤ steps.old + 2 }
{
    let lanes = force_lanes(mask, pixels_at(words, first));
    let open = open_cells(vram, mask, to, 16, steps);
    vram.store16(to.x, to.y, 16, lanes, open, steps);
}

// Returns pixel `i` of the words.
fn pixel_at(words: &[u32], i: usize) -> u16
    requires { i < 2 * length words.now }
    ensures { result ≡ pixel_of words.now i }
{
    let shift = 16 * (i % 2) as u32;
    (words[i / 2] >> shift & 0xffff) as u16
}

// Returns the sixteen pixels of eight words. `first` must be even.
#[inline(always)]
fn pixels_at(words: &[u32], first: usize) -> u16x16
    requires whole { first % 2 ≡ 0 }
    requires in_words { first + 16 ≤ 2 * length words.now }
    ensures long { length result ≡ 16 }
    ensures value { EachLane (λ j. slice_index result j ≡ pixel_of words.now (first + j)) }
{
    let eight = u32x8::from_slice(&words[first / 2..]);
    u16x16::from_le_bytes(eight.to_le_bytes())
}
