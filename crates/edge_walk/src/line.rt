// An attribute along a row.
ghost use Rattle.std.specs.Prelude.{◌≡◌, ◌+◌, ◌*◌, ◌/◌, ◌%◌, ◌^◌, ◌≤◌, ◌<◌, length, slice_index};
ghost use Rattle.px_num.specs.Lanes.{EachLane};
ghost use Rattle.edge_walk.specs.Line.{AreFirst, scaled, line_value};

use crate::ramp::{around, ramp_of};
use std::simd::prelude::*;

/// An attribute along a row of cells. It is the top byte of a 64-bit number that changes by the same step from cell
/// to cell. The addition wraps.
#[derive(Clone, Copy)]
pub struct RowLine {
    pub(crate) first: u64,
    pub(crate) step: u64,
}

// Returns `step` times the reciprocal `by` modulo 2^64.
#[inline(always)]
#[tactic(auto, unfolding(crate::specs::Line::scaled))]
pub(crate) fn scaled(step: i64, by: u64) -> u64
    ensures { result ≡ scaled step by }
{
    step.cast_unsigned().wrapping_mul(by)
}

impl RowLine {
    // Returns the 64-bit number of the cell `i` columns to the right.
    #[inline(always)]
    fn sum(&self, i: u32) -> u64
        ensures { result ≡ (self.now.first + self.now.step * i) % 2 ^ 64 }
    {
        self.first.wrapping_add(self.step.wrapping_mul(i as u64))
    }

    /// Returns the attribute at the sixteen cells whose first is `at` columns to the right of the line's first cell.
    ///
    /// The values are computed in 32 bits from the number of the ninth cell.
    #[inline(always)]
    #[tactic(auto, unfolding(crate::specs::Line::line_value))]
    pub fn lanes(&self, at: u16) -> u16x16
        ensures long { length result ≡ 16 }
        ensures value { EachLane (λ j. slice_index result j ≡ line_value self.now at j) }
        ensures bytes { EachLane (λ j. slice_index result j ≤ 255) }
    {
        let ninth = (self.sum(at as u32 + 8) >> 32) as u32;
        around(ninth.wrapping_add(8), &ramp_of(self.step))
    }
}

/// Returns the product of each lane and `b` modulo 2^32.
#[inline(always)]
pub(crate) fn times(a: u32x16, b: u32) -> u32x16
    requires { length a ≡ 16 }
    ensures long { length result ≡ 16 }
    ensures value { EachLane (λ j. slice_index result j ≡ slice_index a j * b % 2 ^ 32) }
{
    a * u32x16::splat(b)
}

/// Returns the sum of each lane and `b` modulo 2^32.
#[inline(always)]
pub(crate) fn plus(a: u32x16, b: u32) -> u32x16
    requires { length a ≡ 16 }
    ensures long { length result ≡ 16 }
    ensures value { EachLane (λ j. slice_index result j ≡ (slice_index a j + b) % 2 ^ 32) }
{
    a + u32x16::splat(b)
}

#[inline(always)]
fn high8(a: u32x16) -> u32x16
    requires { length a ≡ 16 }
    ensures long { length result ≡ 16 }
    ensures value { EachLane (λ j. slice_index result j ≡ slice_index a j / 2 ^ 24) }
{
    a >> u32x16::splat(24)
}

#[inline(always)]
fn narrow(a: u32x16) -> u16x16
    requires long { length a ≡ 16 }
    requires bytes { EachLane (λ j. slice_index a j ≤ 255) }
    ensures long { length result ≡ 16 }
    ensures value { EachLane (λ j. slice_index result j ≡ slice_index a j) }
{
    a.cast::<u16>()
}

/// Returns the top byte of each 32-bit lane.
#[inline(always)]
pub(crate) fn top_bytes(a: u32x16) -> u16x16
    requires long { length a ≡ 16 }
    requires word { EachLane (λ j. slice_index a j < 2 ^ 32) }
    ensures long { length result ≡ 16 }
    ensures value { EachLane (λ j. slice_index result j ≡ slice_index a j / 2 ^ 24) }
    ensures bytes { EachLane (λ j. slice_index result j ≤ 255) }
{
    narrow(high8(a))
}

// Returns the first `n` lanes, and 0 in the others.
pub(crate) fn keep_first(lanes: u16x16, n: u8) -> u16x16
    requires few { n ≤ 16 }
    requires long { length lanes ≡ 16 }
    ensures { AreFirst lanes n result }
{
    let all = lanes.to_array();
    let mut kept = [0; 16];
    for j in 0..n {
        kept[j as usize] = all[j as usize];
    }
    u16x16::from_array(kept)
}
