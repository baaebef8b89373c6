// Operations on sixteen lanes that only colours need.
ghost use Rattle.std.specs.Prelude.{◌≡◌, ◌<◌, ◌/◌, ◌%◌, length, slice_index, slice_index_or, pos};
ghost use Rattle.std.specs.Int.RustNames.{bit_xor};
ghost use Rattle.px_num.specs.Lanes.{EachLane};
ghost use Rattle.blend_dither.specs.Color.{IsShift, packed};
ghost use Rattle.blend_dither.specs.Bias.{IsBias};

use px_num::lanes::{add, low_bits, mul, shifted_down, splat};
use std::simd::prelude::*;

/// Returns the low five bits of each lane.
pub fn low5(a: u16x16) -> u16x16
    requires { length a ≡ 16 }
    ensures long { length result ≡ 16 }
    ensures value { EachLane (λ i. slice_index result i ≡ slice_index a i % 32) }
{
    a & u16x16::splat(31)
}

/// Returns each dither offset (-4 to 3) plus 4, which is 0 to 7.
pub fn biased(shifts: i16x16) -> u16x16
    requires long { length shifts ≡ 16 }
    requires small { EachLane (λ i. IsShift (slice_index_or shifts i (pos 0))) }
    ensures long { length result ≡ 16 }
    ensures low { EachLane (λ i. slice_index result i < 8) }
    ensures value { EachLane (λ i. IsBias (slice_index result i) (slice_index_or shifts i (pos 0))) }
{
    shifts.strict_add(i16x16::splat(4)).cast::<u16>()
}

/// Returns the bits that are 1 in exactly one of two vectors.
#[inline(always)]
pub fn xor(a: u16x16, b: u16x16) -> u16x16
    requires { (length a ≡ 16) × (length b ≡ 16) }
    ensures long { length result ≡ 16 }
    ensures value { EachLane (λ i. slice_index result i ≡ bit_xor (slice_index a i) (slice_index b i)) }
{
    a ^ b
}

/// Returns the lowest bit of each channel, at its place.
#[inline(always)]
pub fn low_ones(a: u16x16) -> u16x16
    requires { length a ≡ 16 }
    ensures long { length result ≡ 16 }
    ensures value { EachLane (λ i. slice_index result i
        ≡ packed (slice_index a i % 2) (slice_index a i / 32 % 2) (slice_index a i / 1024 % 2)) }
{
    let green = mul(low_bits(shifted_down(a, 5), 1), splat(32));
    let blue = mul(low_bits(shifted_down(a, 10), 1), splat(1024));
    add(add(low_bits(a, 1), green), blue)
}
