// Copies of runs of cells.
ghost use Rattle.std.specs.Prelude.{◌≡◌, ◌≤◌, ◌<◌, ◌⊎◌, ◌+◌, ◌*◌, ◌/◌, length, drop};
ghost use Rattle.vram_store.specs.Runs.{AreApart};
ghost use Rattle.vram_store.specs.Vram.{height_of, IsPut};

use crate::steps::Steps;
use crate::vram::Vram;
use px_num::Cell;
use std::sync::ledger::Ledger;

// Returns the steps of a copy of `n` cells: a load and a store for every sixteen cells begun.
fn copy_steps(n: u16) -> u8
    requires { n ≤ 1024 }
    ensures { result ≡ 2 * ((n + 15) / 16) }
{
    (2 * ((n + 15) / 16)) as u8
}

// Returns the index of a cell.
fn index_of(cell: Cell) -> usize
    ensures { result ≡ 1024 * cell.y + cell.x }
{
    1024 * cell.y as usize + cell.x as usize
}

// Copies the `n` cells from index `from` on to the cells from index `to` on, which come later.
fn copy_up(cells: &mut [u16], from: usize, to: usize, n: usize)
    requires apart { from + n ≤ to }
    requires in_cells { to + n ≤ length cells.old }
    ensures { IsPut cells.old to n (drop from cells.old) cells.new }
{
    let (low, high) = cells.split_at_mut(to);
    high[..n].copy_from_slice(&low[from..from + n]);
}

// Copies the `n` cells from index `from` on to the cells from index `to` on, which come earlier.
fn copy_down(cells: &mut [u16], from: usize, to: usize, n: usize)
    requires apart { to + n ≤ from }
    requires in_cells { from + n ≤ length cells.old }
    ensures { IsPut cells.old to n (drop from cells.old) cells.new }
{
    let (low, high) = cells.split_at_mut(from);
    low[to..to + n].copy_from_slice(&high[..n]);
}

// Copies the `n` cells from index `from` on to the cells from index `to` on. They have no cell in common.
#[inline(always)]
fn copy_cells(cells: &mut [u16], from: usize, to: usize, n: usize)
    requires apart { (from + n ≤ to) ⊎ (to + n ≤ from) }
    requires in_cells { (from + n ≤ length cells.old) × (to + n ≤ length cells.old) }
    ensures { IsPut cells.old to n (drop from cells.old) cells.new }
{
    if from < to {
        copy_up(cells, from, to, n);
    } else {
        copy_down(cells, from, to, n);
    }
}

impl Vram {
    /// Copies the `n` cells of a row from `from` on to the cells of a row from `to` on. Other cells keep their values.
    /// `n` is at least 1. The cells must not pass the end of their row, and no cell may be read and written. Costs two
    /// steps, a load and a store, for every sixteen cells begun.
    pub fn copy_run<L: Ledger>(&mut self, from: Cell, to: Cell, n: u16, steps: &mut Steps<L>)
        requires some { 1 ≤ n }
        requires in_row { (from.x + n ≤ 1024) × (to.x + n ≤ 1024) }
        requires in_height { (from.y < height_of self.old) × (to.y < height_of self.old) }
        requires apart { AreApart from to n }
        ensures cells { IsPut self.old (1024 * to.y + to.x) n (drop (1024 * from.y + from.x) self.old) self.new }
        ensures long { length self.new ≡ length self.old }
        ensures cost { steps.new ≡ steps.old + 2 * ((n + 15) / 16) }
    {
        steps.add(copy_steps(n));
        copy_cells(&mut self.cells, index_of(from), index_of(to), n as usize);
    }
}
