// Reads of cells at up to sixteen arbitrary positions.
ghost use Rattle.std.specs.Prelude.{◌≡◌, ◌≤◌, ◌<◌, ◌+◌, ◌*◌, ◌^◌, ℕ, length, slice_index};
ghost use Rattle.px_num.specs.Lanes.{EachLane};
ghost use Rattle.vram_store.specs.Vram.{at, height_of};

use crate::steps::Steps;
use crate::vram::Vram;
use std::simd::prelude::*;
use std::sync::ledger::Ledger;

// Returns the same lane values, widened to 32 bits.
#[inline(always)]
fn widened(a: u16x16) -> u32x16
    requires { length a ≡ 16 }
    ensures long { length result ≡ 16 }
    ensures value { EachLane (λ i. slice_index result i ≡ slice_index a i) }
{
    a.cast::<u32>()
}

// Returns the product of each lane, which must fit in 32 bits.
#[inline(always)]
fn product(a: u32x16, b: u32x16) -> u32x16
    requires { EachLane (λ i. slice_index a i * slice_index b i < 2 ^ 32) }
    ensures long { length result ≡ 16 }
    ensures value { EachLane (λ i. slice_index result i ≡ slice_index a i * slice_index b i) }
{
    a.strict_mul(b)
}

// Returns the sum of each lane, which must fit in 32 bits.
#[inline(always)]
fn sum(a: u32x16, b: u32x16) -> u32x16
    requires { EachLane (λ i. slice_index a i + slice_index b i < 2 ^ 32) }
    ensures long { length result ≡ 16 }
    ensures value { EachLane (λ i. slice_index result i ≡ slice_index a i + slice_index b i) }
{
    a.strict_add(b)
}

// Returns the row length, 1024 cells, in each lane.
#[inline(always)]
fn row_lengths() -> u32x16
    ensures long { length result ≡ 16 }
    ensures value { EachLane (λ i. slice_index result i ≡ 1024) }
{
    u32x16::splat(1024)
}

// Returns the index `1024 * y + x` of each lane's cell.
#[inline(always)]
fn numbers_of(xs: u16x16, ys: u16x16) -> u32x16
    requires long { (length xs ≡ 16) × (length ys ≡ 16) }
    ensures long { length result ≡ 16 }
    ensures value { EachLane (λ i. slice_index result i ≡ 1024 * slice_index ys i + slice_index xs i) }
{
    sum(product(row_lengths(), widened(ys)), widened(xs))
}

// Returns the cells at the first `n` indexes; the other lanes are 0. If `n` is a constant, the compiler unrolls the
// loop.
#[inline(always)]
fn cells_at(cells: &[u16], numbers: u32x16, n: u8) -> u16x16
    requires few { n ≤ 16 }
    requires long { length numbers ≡ 16 }
    requires in_cells { EachLane (λ i. slice_index numbers i < length cells.now) }
    ensures long { length result ≡ 16 }
    ensures value { (j : ℕ) → j < n → slice_index result j ≡ slice_index cells.now (slice_index numbers j) }
{
    let numbers = numbers.to_array();
    let mut lanes = [0; 16];
    for j in 0..n {
        lanes[j as usize] = cells[numbers[j as usize] as usize];
    }
    u16x16::from_array(lanes)
}

// Returns the 1024 cells of row `y`.
#[inline(always)]
fn row_of(cells: &[u16], y: u16) -> &[u16]
    requires { 1024 * y + 1024 ≤ length cells.now }
    ensures long { length result.now ≡ 1024 }
    ensures value { (i : ℕ) → i < 1024 → slice_index result.now i ≡ slice_index cells.now (1024 * y + i) }
{
    let start = 1024 * y as usize;
    &cells[start..start + 1024]
}

impl Vram {
    /// Returns the cells at columns `xs` and rows `ys` in the first `n` lanes, 1 to 16. The other lanes have no
    /// specified value. Costs `n` steps.
    ///
    /// Reads `read` cells, from `n` to 16. All sixteen lanes must be cells of video memory. A constant `read` is
    /// faster than a loop over `n` cells.
    #[inline(always)]
    pub fn gather<L: Ledger>(
        &self,
        xs: u16x16,
        ys: u16x16,
        n: u8,
        read: u8,
        steps: &mut Steps<L>,
    ) -> u16x16
        requires some { 1 ≤ n }
        requires few { (n ≤ read) × (read ≤ 16) }
        requires long { (length xs ≡ 16) × (length ys ≡ 16) }
        requires in_row { EachLane (λ i. slice_index xs i < 1024) }
        requires in_height { EachLane (λ i. slice_index ys i < height_of self.now) }
        ensures long { length result ≡ 16 }
        ensures cells { (j : ℕ) → j < n → slice_index result j ≡ at self.now (slice_index xs j) (slice_index ys j) }
        ensures cost { steps.new ≡ steps.old + n }
    {
        steps.add(n);
        cells_at(&self.cells, numbers_of(xs, ys), read)
    }

    /// As [`gather`](Vram::gather), for cells of one row `y`. Only the row's start is computed, not the index of each
    /// cell.
    #[inline(always)]
    pub fn gather_in_row<L: Ledger>(
        &self,
        xs: u16x16,
        y: u16,
        n: u8,
        read: u8,
        steps: &mut Steps<L>,
    ) -> u16x16
        requires some { 1 ≤ n }
        requires few { (n ≤ read) × (read ≤ 16) }
        requires long { length xs ≡ 16 }
        requires in_row { EachLane (λ i. slice_index xs i < 1024) }
        requires in_height { y < height_of self.now }
        ensures long { length result ≡ 16 }
        ensures cells { (j : ℕ) → j < n → slice_index result j ≡ at self.now (slice_index xs j) y }
        ensures cost { steps.new ≡ steps.old + n }
    {
        steps.add(n);
        let _height = self.height();
        cells_at(row_of(&self.cells, y), widened(xs), read)
    }
}
