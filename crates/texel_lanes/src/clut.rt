// CLUTs: their rows, their entries, and tables of sixteen of them.
ghost use Rattle.std.specs.Prelude.{◌≡◌, ◌≤◌, ◌<◌, ◌+◌, ℕ, length, slice_index};
ghost use Rattle.px_num.specs.Lanes.{EachLane, AreBytes};
ghost use Rattle.texture_page.specs.Page.{clut_place};
ghost use Rattle.texel_lanes.specs.Texture.{at_cell, clut_row};
ghost use Rattle.texel_lanes.specs.Table.{IsTable, entry_at};

use crate::gather::Gather;
use px_num::bytes::{bytes_at, joined, narrowed};
use px_num::lanes::{add, low_bits, shifted_down, splat};
use std::simd::prelude::*;
use std::sync::ledger::Ledger;
use texture_page::clut_cell;
use vram_store::{Steps, Vram};

/// Returns the row of video memory that contains the CLUT, below 512. `clut` is its attribute.
#[inline(always)]
pub fn clut_row(clut: u16) -> u16
    ensures value { result ≡ clut_row clut }
    ensures low { result < 512 }
{
    clut_cell(clut, 0).y
}

// Returns the column of the CLUT entry for each index. Indexes are below 256. Columns wrap at 1024.
#[inline(always)]
fn entry_columns(clut: u16, indexes: u16x16) -> u16x16
    requires long { length indexes ≡ 16 }
    requires low { EachLane (λ i. slice_index indexes i < 256) }
    ensures long { length result ≡ 16 }
    ensures value { EachLane (λ i. slice_index result i ≡ (clut_place clut (slice_index indexes i)).x) }
    ensures in_row { EachLane (λ i. slice_index result i < 1024) }
{
    low_bits(add(splat(clut % 64 * 16), indexes), 10)
}

/// Returns the first sixteen entries of a CLUT. Its row is always one of the first 512. Costs at most one step.
#[inline(always)]
pub fn sixteen_entries<L: Ledger>(vram: &Vram, clut: u16, steps: &mut Steps<L>) -> u16x16
    ensures long { length result ≡ 16 }
    ensures value { EachLane (λ i. slice_index result i ≡ at_cell vram.now (clut_place clut i)) }
    ensures cost { steps.new ≤ steps.old + 1 }
{
    let _height = vram.height();
    vram.load16(clut % 64 * 16, clut_row(clut), 16, steps)
}

/// Returns the CLUT entries for the first `k` indexes, 1 to 16; the other lanes have no specified value. All
/// sixteen indexes must be below 256. Costs at most `k` steps.
#[inline(always)]
pub fn gather_entries<G: Gather, L: Ledger>(
    vram: &Vram,
    clut: u16,
    indexes: u16x16,
    k: u8,
    steps: &mut Steps<L>,
) -> u16x16
    requires few { (1 ≤ k) × (k ≤ 16) }
    requires long { length indexes ≡ 16 }
    requires low { EachLane (λ i. slice_index indexes i < 256) }
    ensures long { length result ≡ 16 }
    ensures value { (j : ℕ) → j < k
        → slice_index result j ≡ at_cell vram.now (clut_place clut (slice_index indexes j)) }
    ensures cost { steps.new ≤ steps.old + k }
{
    let _height = vram.height();
    let columns = entry_columns(clut, indexes);
    vram.gather_in_row(columns, clut_row(clut), k, G::width(k), steps)
}

/// Sixteen halfwords, split into low and high bytes.
#[derive(Clone, Copy)]
pub struct Table {
    /// The low bytes.
    pub low: u8x16,
    /// The high bytes.
    pub high: u8x16,
}

/// Returns the table of sixteen halfwords.
#[inline(always)]
pub fn table_of(entries: u16x16) -> Table
    requires { length entries ≡ 16 }
    ensures table { IsTable result }
    ensures value { EachLane (λ i. entry_at result i ≡ slice_index entries i) }
{
    Table {
        low: narrowed(low_bits(entries, 8)),
        high: narrowed(shifted_down(entries, 8)),
    }
}

/// Returns the table's entry for each index. Indexes are below 16.
#[inline(always)]
pub fn entries_at(table: &Table, indexes: u8x16) -> u16x16
    requires table { IsTable table.now }
    requires indexes { AreBytes indexes }
    requires low { EachLane (λ i. slice_index indexes i < 16) }
    ensures long { length result ≡ 16 }
    ensures value { EachLane (λ i. slice_index result i ≡ entry_at table.now (slice_index indexes i)) }
{
    joined(bytes_at(table.low, indexes), bytes_at(table.high, indexes))
}

// Returns lane `positions[i]` of `cells` in lane `i`. Positions are below 16.
#[inline(always)]
pub(crate) fn halfwords_at(cells: u16x16, positions: u16x16) -> u16x16
    requires long { (length cells ≡ 16) × (length positions ≡ 16) }
    requires low { EachLane (λ i. slice_index positions i < 16) }
    ensures long { length result ≡ 16 }
    ensures value { EachLane (λ i. slice_index result i ≡ slice_index cells (slice_index positions i)) }
{
    entries_at(&table_of(cells), narrowed(positions))
}
