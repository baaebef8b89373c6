// The saturated sum of two pixels in each lane, all channels at once.
ghost use Rattle.std.specs.Prelude.{◌≡◌, ◌<◌, ◌+◌, ◌-◌, ◌/◌, ◌%◌, ◌^◌, length, slice_index, min};
ghost use Rattle.px_num.specs.Lanes.{EachLane};
ghost use Rattle.blend_dither.specs.Color.{blended_of, packed, red5_of, green5_of, blue5_of};

use crate::lanes::{low_ones, xor};
use px_num::lanes::{add, low_bits, mul, or, shifted_down, splat, sub_or_zero};
use std::simd::prelude::*;

/// Returns the sum of each channel, at most 31.
#[tactic(auto, using(crate::proofs::SumLemmas::added_is))]
pub(crate) fn added_lanes(back: u16x16, front: u16x16) -> u16x16
    requires { (length back ≡ 16) × (length front ≡ 16) }
    ensures long { length result ≡ 16 }
    ensures value { EachLane (λ i. slice_index result i ≡ blended_of 1 (slice_index back i) (slice_index front i)) }
    ensures low { EachLane (λ i. slice_index result i < 2 ^ 15) }
{
    sum_lanes(low_bits(back, 15), low_bits(front, 15))
}

/// Returns each channel of `back` minus that of `front`, at least 0.
#[tactic(auto, using(crate::proofs::SumLemmas::subtracted_is))]
pub(crate) fn subtracted_lanes(back: u16x16, front: u16x16) -> u16x16
    requires { (length back ≡ 16) × (length front ≡ 16) }
    ensures long { length result ≡ 16 }
    ensures value { EachLane (λ i. slice_index result i ≡ blended_of 2 (slice_index back i) (slice_index front i)) }
    ensures low { EachLane (λ i. slice_index result i < 2 ^ 15) }
{
    inverted(sum_lanes(inverted(low_bits(back, 15)), low_bits(front, 15)))
}

/// Returns each channel of `back` plus a quarter of that of `front`, at most 31.
pub(crate) fn quarter_added_lanes(back: u16x16, front: u16x16) -> u16x16
    requires { (length back ≡ 16) × (length front ≡ 16) }
    ensures long { length result ≡ 16 }
    ensures value { EachLane (λ i. slice_index result i ≡ blended_of 3 (slice_index back i) (slice_index front i)) }
    ensures low { EachLane (λ i. slice_index result i < 2 ^ 15) }
{
    sum_lanes(low_bits(back, 15), quarters(low_bits(front, 15)))
}

// Returns the sum of each channel, at most 31. Bit 15 of both pixels is 0.
//
// 1 is first subtracted from each odd sum. Bit 5 of a channel's sum is then the lowest bit of the next channel. It is
// removed, and all bits of its own channel are set.
fn sum_lanes(b: u16x16, f: u16x16) -> u16x16
    requires long { (length b ≡ 16) × (length f ≡ 16) }
    requires low { EachLane (λ i. (slice_index b i < 2 ^ 15) × (slice_index f i < 2 ^ 15)) }
    ensures long { length result ≡ 16 }
    ensures value { EachLane (λ i. slice_index result i ≡ packed
        (min (red5_of (slice_index b i) + red5_of (slice_index f i)) 31)
        (min (green5_of (slice_index b i) + green5_of (slice_index f i)) 31)
        (min (blue5_of (slice_index b i) + blue5_of (slice_index f i)) 31)) }
    ensures low { EachLane (λ i. slice_index result i < 2 ^ 15) }
{
    let sum = add(b, f);
    let even = sub_or_zero(sum, low_ones(xor(b, f)));
    let full = low_ones(shifted_down(even, 5));
    or(sub_or_zero(sum, mul(full, splat(32))), mul(full, splat(31)))
}

// Returns 31 minus each channel. Bit 15 is 0.
fn inverted(a: u16x16) -> u16x16
    requires long { length a ≡ 16 }
    ensures long { length result ≡ 16 }
    ensures value { EachLane (λ i. slice_index result i ≡ 32767 - slice_index a i) }
{
    sub_or_zero(splat(0x7fff), a)
}

// Returns a quarter of each channel, rounded down.
#[tactic(auto, using(crate::proofs::SumLemmas::quarter_is))]
fn quarters(a: u16x16) -> u16x16
    requires long { length a ≡ 16 }
    requires low { EachLane (λ i. slice_index a i < 2 ^ 15) }
    ensures long { length result ≡ 16 }
    ensures value { EachLane (λ i. slice_index result i ≡ packed (red5_of (slice_index a i) / 4)
        (green5_of (slice_index a i) / 4) (blue5_of (slice_index a i) / 4)) }
{
    shifted_down(sub_or_zero(a, low_twos(a)), 2)
}

// Returns the two lowest bits of each channel, at their place.
fn low_twos(a: u16x16) -> u16x16
    requires long { length a ≡ 16 }
    ensures long { length result ≡ 16 }
    ensures value { EachLane (λ i. slice_index result i
        ≡ packed (slice_index a i % 4) (slice_index a i / 32 % 4) (slice_index a i / 1024 % 4)) }
{
    let green = mul(low_bits(shifted_down(a, 5), 2), splat(32));
    let blue = mul(low_bits(shifted_down(a, 10), 2), splat(1024));
    add(add(low_bits(a, 2), green), blue)
}
