// The colours of sixteen pixels at once.
ghost use Rattle.std.specs.Prelude.{◌≡◌, ◌≤◌, ◌<◌, ◌+◌, ◌-◌, ◌/◌, ◌*◌, ◌^◌, min, length, slice_index, slice_index_or};
ghost use Rattle.std.specs.Prelude.{pos};
ghost use Rattle.px_num.specs.Lanes.{EachLane};
ghost use Rattle.blend_dither.specs.Color.{IsShift, tone_of, packed, modulated_of, blended_of};

use crate::lanes::{biased, low5};
use crate::mean::mean_lanes;
use crate::sum::{added_lanes, quarter_added_lanes, subtracted_lanes};
use px_num::lanes::{add, mul, shifted_down, smaller, splat, sub_or_zero};
use std::simd::prelude::*;

/// Returns [`tone`](crate::tone) in each lane, with dither offsets `shifts`. The channels must be at most 255.
pub fn tone_lanes(red: u16x16, green: u16x16, blue: u16x16, shifts: i16x16) -> u16x16
    requires long { (length red ≡ 16) × (length green ≡ 16) × (length blue ≡ 16)
        × (length shifts ≡ 16) }
    requires channels { EachLane (λ i. (slice_index red i ≤ 255)
        × (slice_index green i ≤ 255) × (slice_index blue i ≤ 255)) }
    requires shifts { EachLane (λ i. IsShift (slice_index_or shifts i (pos 0))) }
    ensures long { length result ≡ 16 }
    ensures value { EachLane (λ i. slice_index result i ≡ tone_of (slice_index red i)
        (slice_index green i) (slice_index blue i) (slice_index_or shifts i (pos 0))) }
    ensures low { EachLane (λ i. slice_index result i < 2 ^ 15) }
{
    let bias = biased(shifts);
    pack_lanes(
        shifted_lanes(red, bias),
        shifted_lanes(green, bias),
        shifted_lanes(blue, bias),
    )
}

/// Returns [`tone`](crate::tone) without dither in each lane. The channels must be at most 255.
#[inline(always)]
pub fn undithered_tone_lanes(red: u16x16, green: u16x16, blue: u16x16) -> u16x16
    requires long { (length red ≡ 16) × (length green ≡ 16) × (length blue ≡ 16) }
    requires channels { EachLane (λ i. (slice_index red i ≤ 255)
        × (slice_index green i ≤ 255) × (slice_index blue i ≤ 255)) }
    ensures long { length result ≡ 16 }
    ensures value { EachLane (λ i. slice_index result i
        ≡ tone_of (slice_index red i) (slice_index green i) (slice_index blue i) (pos 0)) }
    ensures low { EachLane (λ i. slice_index result i < 2 ^ 15) }
{
    pack_lanes(
        shifted_down(red, 3),
        shifted_down(green, 3),
        shifted_down(blue, 3),
    )
}

/// Returns [`modulate`](crate::modulate) in each lane, with dither offsets `shifts`. The colours' channels must be at
/// most 255.
pub fn modulate_lanes(
    texels: u16x16,
    red: u16x16,
    green: u16x16,
    blue: u16x16,
    shifts: i16x16,
) -> u16x16
    requires long { (length texels ≡ 16) × (length red ≡ 16) × (length green ≡ 16)
        × (length blue ≡ 16) × (length shifts ≡ 16) }
    requires channels { EachLane (λ i. (slice_index red i ≤ 255)
        × (slice_index green i ≤ 255) × (slice_index blue i ≤ 255)) }
    requires shifts { EachLane (λ i. IsShift (slice_index_or shifts i (pos 0))) }
    ensures long { length result ≡ 16 }
    ensures value { EachLane (λ i. slice_index result i ≡ modulated_of (slice_index texels i)
        (slice_index red i) (slice_index green i) (slice_index blue i)
        (slice_index_or shifts i (pos 0))) }
    ensures low { EachLane (λ i. slice_index result i < 2 ^ 15) }
{
    let bias = biased(shifts);
    pack_lanes(
        modulated_lanes(low5(texels), red, bias),
        modulated_lanes(low5(shifted_down(texels, 5)), green, bias),
        modulated_lanes(low5(shifted_down(texels, 10)), blue, bias),
    )
}

/// Returns [`modulate`](crate::modulate) without dither in each lane. The colours' channels must be at most 255.
#[inline(always)]
pub fn undithered_modulate_lanes(texels: u16x16, red: u16x16, green: u16x16, blue: u16x16) -> u16x16
    requires long { (length texels ≡ 16) × (length red ≡ 16) × (length green ≡ 16) × (length blue ≡ 16) }
    requires channels { EachLane (λ i. (slice_index red i ≤ 255)
        × (slice_index green i ≤ 255) × (slice_index blue i ≤ 255)) }
    ensures long { length result ≡ 16 }
    ensures value { EachLane (λ i. slice_index result i ≡ modulated_of (slice_index texels i)
        (slice_index red i) (slice_index green i) (slice_index blue i) (pos 0)) }
    ensures low { EachLane (λ i. slice_index result i < 2 ^ 15) }
{
    pack_lanes(
        undithered_modulated(low5(texels), red),
        undithered_modulated(low5(shifted_down(texels, 5)), green),
        undithered_modulated(low5(shifted_down(texels, 10)), blue),
    )
}

// Returns each product of texel and colour, divided by 128 and at most 31.
#[inline(always)]
fn undithered_modulated(texels: u16x16, colors: u16x16) -> u16x16
    requires long { (length texels ≡ 16) × (length colors ≡ 16) }
    requires low { EachLane (λ i. (slice_index texels i < 32) × (slice_index colors i ≤ 255)) }
    ensures long { length result ≡ 16 }
    ensures value { EachLane (λ i. slice_index result i
        ≡ min (8 * slice_index texels i * slice_index colors i / 128) 255 / 8) }
{
    smaller(shifted_down(mul(texels, colors), 7), splat(31))
}

/// Returns [`blend`](crate::blend) in each lane. `mode` is at most 3.
pub fn blend_lanes(mode: u8, back: u16x16, front: u16x16) -> u16x16
    requires mode { mode ≤ 3 }
    requires long { (length back ≡ 16) × (length front ≡ 16) }
    ensures long { length result ≡ 16 }
    ensures value { EachLane (λ i. slice_index result i
        ≡ blended_of mode (slice_index back i) (slice_index front i)) }
    ensures low { EachLane (λ i. slice_index result i < 2 ^ 15) }
{
    match mode {
        0 => mean_lanes(back, front),
        1 => added_lanes(back, front),
        2 => subtracted_lanes(back, front),
        _ => quarter_added_lanes(back, front),
    }
}

fn pack_lanes(red: u16x16, green: u16x16, blue: u16x16) -> u16x16
    requires long { (length red ≡ 16) × (length green ≡ 16) × (length blue ≡ 16) }
    requires low { EachLane (λ i. (slice_index red i < 32) × (slice_index green i < 32)
        × (slice_index blue i < 32)) }
    ensures long { length result ≡ 16 }
    ensures value { EachLane (λ i. slice_index result i
        ≡ packed (slice_index red i) (slice_index green i) (slice_index blue i)) }
    ensures low { EachLane (λ i. slice_index result i < 2 ^ 15) }
{
    let green_part = mul(green, splat(32));
    let blue_part = mul(blue, splat(1024));
    add(add(red, green_part), blue_part)
}

// Returns each channel plus `bias` minus 4, clamped to 0 to 255 and divided by 8.
fn shifted_lanes(channels: u16x16, bias: u16x16) -> u16x16
    requires long { (length channels ≡ 16) × (length bias ≡ 16) }
    requires low { EachLane (λ i. slice_index channels i < 1024) }
    requires bias { EachLane (λ i. slice_index bias i < 8) }
    ensures long { length result ≡ 16 }
    ensures value { EachLane (λ i. slice_index result i
        ≡ min (slice_index channels i + slice_index bias i - 4) 255 / 8) }
{
    let raised = add(channels, bias);
    let lowered = sub_or_zero(raised, splat(4));
    shifted_down(smaller(lowered, splat(255)), 3)
}

fn modulated_lanes(texels: u16x16, colors: u16x16, bias: u16x16) -> u16x16
    requires long { (length texels ≡ 16) × (length colors ≡ 16) × (length bias ≡ 16) }
    requires low { EachLane (λ i. (slice_index texels i < 32) × (slice_index colors i ≤ 255)
        × (slice_index bias i < 8)) }
    ensures long { length result ≡ 16 }
    ensures value { EachLane (λ i. slice_index result i
        ≡ min (8 * slice_index texels i * slice_index colors i / 128 + slice_index bias i - 4) 255 / 8) }
{
    let eightfold = mul(splat(8), texels);
    let product = mul(eightfold, colors);
    shifted_lanes(shifted_down(product, 7), bias)
}
