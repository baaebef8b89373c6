// The increments of an attribute along a row, computed once for many rows.
ghost use Rattle.std.specs.Prelude.{◌≡◌, ◌+◌, ◌-◌, ◌*◌, ◌%◌, ◌^◌, ◌≤◌, ℕ, length, slice_index};
ghost use Rattle.px_num.specs.Lanes.{EachLane};
ghost use Rattle.edge_walk.specs.Line.{IsRamp, short_step, short_value};

use crate::line::{plus, times, top_bytes};
use std::simd::prelude::*;

/// The 32-bit increments from the ninth of sixteen cells to each of them, for all lines with the same step.
#[derive(Clone, Copy)]
pub(crate) struct Ramp {
    lanes: u32x16,
}

const FROM_MIDDLE: [u32; 16] = [
    0xffff_fff8,
    0xffff_fff9,
    0xffff_fffa,
    0xffff_fffb,
    0xffff_fffc,
    0xffff_fffd,
    0xffff_fffe,
    0xffff_ffff,
    0,
    1,
    2,
    3,
    4,
    5,
    6,
    7,
];

// Returns the lane number minus 8 modulo 2^32 in each lane.
#[inline(always)]
fn from_middle() -> u32x16
    ensures long { length result ≡ 16 }
    ensures value { EachLane (λ j. slice_index result j ≡ (j + (2 ^ 32 - 8)) % 2 ^ 32) }
{
    u32x16::from_array(FROM_MIDDLE)
}

// Returns the upper 32 bits of `step`, rounded to the nearest.
#[inline(always)]
fn short_step(step: u64) -> u32
    ensures { result ≡ short_step step }
{
    (step.wrapping_add(0x8000_0000) >> 32) as u32
}

/// Returns the ramp of lines with this step.
#[inline(always)]
pub(crate) fn ramp_of(step: u64) -> Ramp
    ensures { IsRamp step result }
{
    Ramp {
        lanes: times(from_middle(), short_step(step)),
    }
}

/// Returns the attribute at sixteen cells. `ninth` is the upper half of the number of the ninth cell.
#[inline(always)]
pub(crate) fn around(ninth: u32, ramp: &Ramp) -> u16x16
    requires { length ramp.now.lanes ≡ 16 }
    ensures long { length result ≡ 16 }
    ensures value { (step : ℕ) → IsRamp step ramp.now
        → EachLane (λ j. slice_index result j ≡ short_value step ninth j) }
    ensures bytes { EachLane (λ j. slice_index result j ≤ 255) }
{
    top_bytes(plus(ramp.lanes, ninth))
}
