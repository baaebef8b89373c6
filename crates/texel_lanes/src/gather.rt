// Reads of cells at any positions.
ghost use Rattle.std.specs.Prelude.{◌≡◌, ◌≤◌, ◌<◌, ◌+◌, ℕ, length, slice_index, IsTrue};
ghost use Rattle.px_num.specs.Lanes.{EachLane};
ghost use Rattle.vram_store.specs.Vram.{at, height_of};
ghost use Rattle.texel_lanes.specs.Texels.{StandNear};

use crate::clut::halfwords_at;
use px_num::halves::HALF;
use px_num::lanes::{add, same, shifted_down, splat, sub_or_zero};
use std::simd::prelude::*;
use std::sync::ledger::Ledger;
use vram_store::{Steps, Vram};

/// How many cells are read where `k` are needed, 1 to 16. The functions that read texels are compiled once for each
/// type, so each suits a range of `k`.
pub trait Gather {
    /// Returns whether callers should test for contiguous or close cells first.
    fn looks() -> bool;

    /// Returns how many cells are read for the first `k`. A constant is faster than a loop over `k` cells.
    fn width(k: u8) -> u8
        requires few { k ≤ 16 }
        ensures { (k ≤ result) × (result ≤ 16) };
}

/// Reads `k` cells in a loop.
pub struct OneByOne {}

/// Reads eight cells without a loop, or `k` if `k` exceeds eight. For few cells.
pub struct HalfAtOnce {}

/// Always reads sixteen cells without a loop. For many cells.
pub struct AllAtOnce {}

impl Gather for OneByOne {
    #[inline(always)]
    fn looks() -> bool {
        true
    }

    #[inline(always)]
    fn width(k: u8) -> u8 {
        k
    }
}

impl Gather for HalfAtOnce {
    #[inline(always)]
    fn looks() -> bool {
        false
    }

    #[inline(always)]
    fn width(k: u8) -> u8 {
        k.max(HALF)
    }
}

impl Gather for AllAtOnce {
    #[inline(always)]
    fn looks() -> bool {
        false
    }

    #[inline(always)]
    fn width(_k: u8) -> u8 {
        16
    }
}

// Returns whether all sixteen cells (`xs`, `ys`) are among the sixteen of row `y` from column `x` on. These must not
// pass column 1023.
#[inline(always)]
fn stand_near(xs: u16x16, ys: u16x16, x: u16, y: u16) -> bool
    requires long { (length xs ≡ 16) × (length ys ≡ 16) }
    requires in_row { EachLane (λ i. slice_index xs i < 1024) }
    requires x { x < 1024 }
    ensures { IsTrue result → StandNear xs ys x y }
{
    let far = sub_or_zero(xs, splat(x));
    let none_before = same(xs, add(splat(x), far));
    let none_after = same(shifted_down(far, 4), splat(0));
    let one_row = same(ys, splat(y));
    x + 16 <= 1024 && none_before && none_after && one_row
}

// Returns the halfwords of sixteen cells that are among the sixteen of row `y` from column `x` on. Costs one load.
#[inline(always)]
fn near_halfwords<L: Ledger>(
    vram: &Vram,
    xs: u16x16,
    x: u16,
    y: u16,
    steps: &mut Steps<L>,
) -> u16x16
    requires long { length xs ≡ 16 }
    requires in_row { x + 16 ≤ 1024 }
    requires in_height { y < height_of vram.now }
    requires near { EachLane (λ i. (x ≤ slice_index xs i) × (slice_index xs i < x + 16)) }
    ensures long { length result ≡ 16 }
    ensures value { EachLane (λ i. slice_index result i ≡ at vram.now (slice_index xs i) y) }
    ensures cost { steps.new ≤ steps.old + 1 }
{
    let cells = vram.load16(x, y, 16, steps);
    halfwords_at(cells, sub_or_zero(xs, splat(x)))
}

// Returns the halfwords of the first `k` cells. Uses one load if `G` tests for it, `k` exceeds eight and the cells
// are close. For fewer cells the test costs more than it saves.
#[inline(always)]
pub(crate) fn halfwords_of<G: Gather, L: Ledger>(
    vram: &Vram,
    xs: u16x16,
    ys: u16x16,
    k: u8,
    steps: &mut Steps<L>,
) -> u16x16
    requires few { (1 ≤ k) × (k ≤ 16) }
    requires long { (length xs ≡ 16) × (length ys ≡ 16) }
    requires in_row { EachLane (λ i. slice_index xs i < 1024) }
    requires in_height { EachLane (λ i. slice_index ys i < height_of vram.now) }
    ensures long { length result ≡ 16 }
    ensures value { (j : ℕ) → j < k → slice_index result j ≡ at vram.now (slice_index xs j) (slice_index ys j) }
    ensures cost { steps.new ≤ steps.old + k }
{
    let x = xs.to_array()[0].min(xs.to_array()[15]);
    let y = ys.to_array()[0];
    if G::looks() && k > HALF && stand_near(xs, ys, x, y) {
        near_halfwords(vram, xs, x, y, steps)
    } else {
        vram.gather(xs, ys, k, G::width(k), steps)
    }
}
