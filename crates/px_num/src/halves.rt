//! Vectors of which only the first lanes are used. The rest of a row often fills at most half of a vector. Then
//! nothing needs to be computed for the other half.
ghost use Rattle.std.specs.Prelude.{◌≡◌, ◌≤◌, ◌<◌, ℕ, if◌then◌else◌, nat_lt, length, slice_index};
ghost use Rattle.px_num.specs.Lanes.{EachLane};

use crate::lanes::{ramp, splat, where_below};
use std::simd::prelude::*;

/// Half the number of a vector's lanes.
pub const HALF: u8 = 8;

/// Returns the first `n` lanes of `first`, and the other lanes of `others`.
#[inline(always)]
pub fn first_lanes(n: u8, first: u16x16, others: u16x16) -> u16x16
    requires { (length first ≡ 16) × (length others ≡ 16) }
    ensures long { length result ≡ 16 }
    ensures value { EachLane (λ i. slice_index result i
        ≡ (if nat_lt i n then slice_index first i else slice_index others i)) }
{
    where_below(ramp(), splat(n as u16), first, others)
}

/// Returns a vector whose first `n` lanes are those of `lanes`. If `n` is at most 8, the last eight lanes are 0, so
/// the compiler computes nothing for them.
#[inline(always)]
pub fn wanted_lanes(n: u8, lanes: u16x16) -> u16x16
    requires { length lanes ≡ 16 }
    ensures long { length result ≡ 16 }
    ensures value { (i : ℕ) → i < n → i < 16 → slice_index result i ≡ slice_index lanes i }
{
    if n <= HALF {
        first_lanes(HALF, lanes, splat(0))
    } else {
        lanes
    }
}
