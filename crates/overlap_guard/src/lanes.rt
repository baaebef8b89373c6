// Texture hazards from sixteen texel positions.
ghost use Rattle.std.specs.Prelude.{◌≡◌, ◌+◌, ◌≤◌, ◌<◌, ◌↔◌, IsTrue, length, slice_index};
ghost use Rattle.px_num.specs.Lanes.{EachLane};
ghost use Rattle.overlap_guard.specs.Hazard.{HasTexelHazard, HasTextureHazard, has_texture_hazard};
ghost use Rattle.overlap_guard.specs.Lanes.{lane_cells};

use crate::texture::clut_hazard;
use px_num::lanes::{are_zero, ramp, splat, sub_or_zero, where_below, where_equal, wrapping_sub};
use px_num::{Cell, Strip};
use std::simd::prelude::*;

/// Returns whether a textured chunk has a hazard: some lane reads as its texel a cell that an earlier lane writes, or
/// some lane writes a cell of the CLUT.
///
/// The chunk has `n` lanes, 1 to 16. Lane `i` reads the cell in column `xs[i]` and row `ys[i]`. It writes the cell
/// `i` columns to the right of `to`; `to.x + n` is at most 1024. All sixteen columns `xs` must be below 1024. Without
/// a CLUT `clut` only texels count. The result equals that of [`texture_hazard`](crate::texture_hazard) for these
/// cells.
#[inline(always)]
pub fn lanes_hazard(xs: u16x16, ys: u16x16, clut: Option<Strip>, to: Cell, n: u8) -> bool
    requires count { (1 ≤ n) × (n ≤ 16) }
    requires long { (length xs ≡ 16) × (length ys ≡ 16) }
    requires in_row { EachLane (λ i. slice_index xs i < 1024) }
    requires target { to.x + n ≤ 1024 }
    ensures pairs { IsTrue result ↔ HasTextureHazard (lane_cells xs ys n) clut to n }
    ensures value { result ≡ has_texture_hazard (lane_cells xs ys n) clut to n }
{
    lanes_read_written(xs, ys, clut, to, n)
}

#[inline(always)]
fn lanes_read_written(xs: u16x16, ys: u16x16, clut: Option<Strip>, to: Cell, n: u8) -> bool
    requires count { (1 ≤ n) × (n ≤ 16) }
    requires long { (length xs ≡ 16) × (length ys ≡ 16) }
    requires in_row { EachLane (λ i. slice_index xs i < 1024) }
    requires target { to.x + n ≤ 1024 }
    ensures { IsTrue result ↔ HasTextureHazard (lane_cells xs ys n) clut to n }
{
    let texel = any_read_after_write(xs, ys, to, n);
    let entry = clut_hazard(clut, to, n);
    texel || entry
}

// Returns whether some lane reads as its texel a cell that an earlier lane writes.
#[inline(always)]
fn any_read_after_write(xs: u16x16, ys: u16x16, to: Cell, n: u8) -> bool
    requires few { n ≤ 16 }
    requires long { (length xs ≡ 16) × (length ys ≡ 16) }
    requires in_row { EachLane (λ i. slice_index xs i < 1024) }
    requires target { to.x < 1024 }
    ensures { IsTrue result ↔ HasTexelHazard (lane_cells xs ys n) to }
{
    !are_zero(read_after_write_lanes(xs, ys, to, n))
}

// Returns a lane above 0 if it is among the first `n` and its texel is a cell that an earlier lane writes. All other
// lanes are 0.
#[inline(always)]
fn read_after_write_lanes(xs: u16x16, ys: u16x16, to: Cell, n: u8) -> u16x16
    requires long { (length xs ≡ 16) × (length ys ≡ 16) }
    requires in_row { EachLane (λ i. slice_index xs i < 1024) }
    requires target { to.x < 1024 }
    ensures long { length result ≡ 16 }
    ensures late { EachLane (λ j. (0 < slice_index result j) ↔ ((j < n) × (slice_index ys j ≡ to.y)
        × (to.x ≤ slice_index xs j) × (slice_index xs j < to.x + j))) }
{
    let lanes = ramp();
    let none = splat(0);
    let before = where_below(lanes, splat(n as u16), lanes, none);
    let row = where_equal(ys, splat(to.y), before, none);
    sub_or_zero(row, wrapping_sub(xs, splat(to.x)))
}
