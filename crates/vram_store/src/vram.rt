// The cells of video memory, and four of the seven counted accesses.
ghost use Rattle.std.specs.Prelude.{◌≡◌, ◌≤◌, ◌<◌, ◌+◌, ◌*◌, ◌++◌, ◌-◌, ℕ, List, length, vec_len, vec_capacity, IfOk};
ghost use Rattle.px_num.specs.Height.{IsHeight, tall_height};
ghost use Rattle.px_num.specs.Zeros.{zeros};
ghost use Rattle.vram_store.specs.Vram.{at, height_of, set, blank, tall, IsLoaded, IsStored};

use crate::firsts::{load_lanes, store_first, store_lanes};
use crate::steps::Steps;
use crate::whole::load_whole;
use px_num::OutOfMemory;
use px_num::halves::{first_lanes, wanted_lanes};
use px_num::lanes::splat;
use std::alloc::{AllocError, Global};
use std::marker::Model;
use std::simd::prelude::*;
use std::sync::ledger::Ledger;

/// The number of cells of the console's video memory: 512 rows of 1024.
const SHORT_CELLS: usize = 524_288;

/// The number of cells in the tall profile: 1024 rows of 1024.
const TALL_CELLS: usize = 1_048_576;

/// Video memory of 512 or 1024 rows. In contracts it is the list of its halfwords, row by row.
#[derive(Drop)]
pub struct Vram {
    pub(crate) cells: Vec<u16>,
}

impl Model for Vram {
    ghost use Rattle.std.specs.Prelude.{ℕ, List, vec_len, vec_capacity};
    ghost use Rattle.vram_store.specs.Room.{KeepsRoom};

    ghost Value = { List ℕ };

    ghost view = { λ v. v.cells.items };

    ghost invariant = { λ v. KeepsRoom (vec_len v.cells) (vec_capacity v.cells) };
}

// Returns `n` cells of 0 with capacity for `room` cells. Both are parameters, not constants, so that no proof
// computes the list.
#[tactic(auto, unfolding(px_num::specs::Zeros::zeros))]
fn zeroed(alloc: Global, n: usize, room: usize) -> Result<Vec<u16>, AllocError>
    requires { n ≤ room }
    ensures items { IfOk result (λ v. v.items ≡ zeros n) }
    ensures len { IfOk result (λ v. vec_len v ≡ n) }
    ensures room { IfOk result (λ v. room ≤ vec_capacity v) }
{
    let mut cells = vec![in alloc; 0u16; room]?;
    cells.truncate(n);
    Ok(cells)
}

// Appends zeros until there are `n` cells. Requires capacity for `n` cells.
fn lengthen(cells: &mut Vec<u16>, n: usize)
    requires shorter { vec_len cells.old ≤ n }
    requires room { n ≤ vec_capacity cells.old }
    ensures items { cells.new.items ≡ cells.old.items ++ zeros (n - vec_len cells.old) }
    ensures len { vec_len cells.new ≡ n }
    ensures room { n ≤ vec_capacity cells.new }
{
    for i in cells.len()..n {
        let _ = i;
        match cells.push(0) {
            Ok(()) => {}
            Err(_) => unreachable!(),
        }
    }
}

impl Vram {
    /// Returns video memory of 512 rows, with every cell 0. Allocates memory for 1024 rows, so that no later call
    /// allocates. Returns `OutOfMemory` if the allocation fails.
    #[tactic(auto, unfolding(crate::specs::Vram::blank))]
    pub fn new(alloc: Global) -> Result<Self, OutOfMemory>
        ensures cells { IfOk result (λ vram. vram ≡ blank) }
        ensures long { IfOk result (λ vram. length vram ≡ 1024 * 512) }
    {
        match zeroed(alloc, SHORT_CELLS, TALL_CELLS) {
            Ok(cells) => Ok(Vram { cells }),
            Err(_) => Err(OutOfMemory),
        }
    }

    /// Extends video memory to 1024 rows. Rows 512 to 1023 are 0; other cells keep their values. Does nothing if the
    /// height is already 1024. Costs no step.
    #[tactic(auto, unfolding(crate::specs::Vram::tall))]
    pub fn set_tall(&mut self)
        ensures cells { self.new ≡ tall self.old }
        ensures long { length self.new ≡ 1024 * tall_height }
    {
        lengthen(&mut self.cells, TALL_CELLS);
    }

    /// Returns the number of rows of 1024 cells: 512 or 1024.
    pub fn height(&self) -> u16
        ensures rows { result ≡ height_of self.now }
        ensures cells { length self.now ≡ 1024 * result }
        ensures known { IsHeight result }
    {
        (self.cells.len() / 1024) as u16
    }

    /// Returns cell (`x`, `y`). Requires a column below 1024 and a row below the height. Costs one step.
    pub fn get<L: Ledger>(&self, x: u16, y: u16, steps: &mut Steps<L>) -> u16
        requires in_row { x < 1024 }
        requires in_height { y < height_of self.now }
        ensures value { result ≡ at self.now x y }
        ensures cost { steps.new ≡ steps.old + 1 }
    {
        steps.tick();
        self.cells[1024 * y as usize + x as usize]
    }

    /// Writes `h` to cell (`x`, `y`). Requires a column below 1024 and a row below the height. Costs one step.
    pub fn put<L: Ledger>(&mut self, x: u16, y: u16, h: u16, steps: &mut Steps<L>)
        requires in_row { x < 1024 }
        requires in_height { y < height_of self.old }
        ensures cells { self.new ≡ set self.old x y h }
        ensures long { length self.new ≡ length self.old }
        ensures cost { steps.new ≡ steps.old + 1 }
    {
        steps.tick();
        self.cells[1024 * y as usize + x as usize] = h;
    }

    /// Returns the `n` cells of row `y` from column `x` on in the first lanes, and 0 in the others. `n` is 1 to 16,
    /// and the cells must not pass the end of the row. Costs one step.
    pub fn load16<L: Ledger>(&self, x: u16, y: u16, n: u8, steps: &mut Steps<L>) -> u16x16
        requires some { 1 ≤ n }
        requires lanes { n ≤ 16 }
        requires in_row { x + n ≤ 1024 }
        requires in_height { y < height_of self.now }
        ensures lanes { IsLoaded self.now (1024 * y + x) n result }
        ensures cost { steps.new ≡ steps.old + 1 }
    {
        steps.tick();
        let start = 1024 * y as usize + x as usize;
        if start + 16 <= self.cells.len() {
            first_lanes(n, load_whole(&self.cells, start), splat(0))
        } else {
            u16x16::from_array(load_lanes(&self.cells[start..start + n as usize]))
        }
    }

    /// Writes each of the first `n` lanes whose bit of `mask` is 1 to row `y` from column `x` on. Other cells keep
    /// their values. `n` is 1 to 16, and the cells must not pass the end of the row. Costs one step.
    pub fn store16<L: Ledger>(
        &mut self,
        x: u16,
        y: u16,
        n: u8,
        lanes: u16x16,
        mask: u16,
        steps: &mut Steps<L>,
    )
        requires some { 1 ≤ n }
        requires lanes { n ≤ 16 }
        requires in_row { x + n ≤ 1024 }
        requires in_height { y < height_of self.old }
        ensures cells { IsStored self.old (1024 * y + x) (record { n = n; lanes = lanes; bits = mask }) self.new }
        ensures long { length self.new ≡ length self.old }
        ensures cost { steps.new ≡ steps.old + 1 }
    {
        steps.tick();
        let kept = wanted_lanes(n, lanes);
        let start = 1024 * y as usize + x as usize;
        if start + 16 <= self.cells.len() {
            store_first(&mut self.cells, start, n, kept, mask);
        } else {
            store_lanes(&mut self.cells, start, n as usize, &kept.to_array(), mask);
        }
    }
}
