// The mean of two pixels in each lane. Each pixel is a halfword with three channels of five bits.
ghost use Rattle.std.specs.Prelude.{◌≡◌, ◌<◌, ◌^◌, length, slice_index};
ghost use Rattle.px_num.specs.Lanes.{EachLane};
ghost use Rattle.blend_dither.specs.Color.{blended_of};

use crate::lanes::{low_ones, xor};
use px_num::lanes::{add, low_bits, shifted_down, sub_or_zero};
use std::simd::prelude::*;

/// Returns half the sum of each channel, rounded down. If the sum of a channel is odd, 1 is subtracted before all
/// channels are halved by one shift. So no bit moves from one channel into the next.
#[tactic(auto, using(crate::proofs::MeanLemmas::mean_is))]
pub(crate) fn mean_lanes(back: u16x16, front: u16x16) -> u16x16
    requires { (length back ≡ 16) × (length front ≡ 16) }
    ensures long { length result ≡ 16 }
    ensures value { EachLane (λ i. slice_index result i ≡ blended_of 0 (slice_index back i) (slice_index front i)) }
    ensures low { EachLane (λ i. slice_index result i < 2 ^ 15) }
{
    let b = low_bits(back, 15);
    let f = low_bits(front, 15);
    let odd = low_ones(xor(b, f));
    shifted_down(sub_or_zero(add(b, f), odd), 1)
}
