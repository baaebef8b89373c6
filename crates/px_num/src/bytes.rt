//! Operations on sixteen bytes, each defined lane by lane.
ghost use Rattle.std.specs.Prelude.{◌≡◌, ◌<◌, ◌+◌, ◌-◌, ◌*◌, ◌/◌, ◌%◌, ◌^◌, ◌==◌, if◌then◌else◌};
ghost use Rattle.std.specs.Prelude.{length, slice_index};
ghost use Rattle.px_num.specs.Lanes.{EachLane, AreBytes};

use std::simd::prelude::*;

// Returns the sum of each lane, which must be at most 255.
#[inline(always)]
fn sums(a: u8x16, b: u8x16) -> u8x16
    requires { EachLane (λ i. slice_index a i + slice_index b i < 2 ^ 8) }
    ensures long { length result ≡ 16 }
    ensures value { EachLane (λ i. slice_index result i ≡ slice_index a i + slice_index b i) }
{
    a.strict_add(b)
}

#[inline(always)]
fn splat(byte: u8) -> u8x16
    ensures long { length result ≡ 16 }
    ensures value { EachLane (λ i. slice_index result i ≡ byte) }
{
    u8x16::splat(byte)
}

#[inline(always)]
fn ramp() -> u8x16
    ensures long { length result ≡ 16 }
    ensures value { EachLane (λ i. slice_index result i ≡ i) }
{
    u8x16::from_array([0, 1, 2, 3, 4, 5, 6, 7, 8, 9, 10, 11, 12, 13, 14, 15])
}

/// Returns the sixteen numbers from `first` on. `first` is below 240.
#[inline(always)]
pub fn bytes_from(first: u8) -> u8x16
    requires { first < 240 }
    ensures long { length result ≡ 16 }
    ensures value { EachLane (λ i. slice_index result i ≡ first + i) }
{
    sums(splat(first), ramp())
}

/// Returns each byte divided by 2^`by`, rounded down. `by` is below 8.
#[inline(always)]
pub fn bytes_down(a: u8x16, by: u8) -> u8x16
    requires long { length a ≡ 16 }
    requires by { by < 8 }
    ensures long { length result ≡ 16 }
    ensures value { EachLane (λ i. slice_index result i ≡ slice_index a i / 2 ^ by) }
{
    a >> by
}

// Returns the number whose low `count` bits are 1.
#[inline(always)]
fn ones(count: u8) -> u8
    requires { count < 8 }
    ensures { result ≡ 2 ^ count - 1 }
{
    (1 << count) - 1
}

/// Returns each byte modulo 2^`count`. `count` is below 8.
#[inline(always)]
pub fn bytes_low(a: u8x16, count: u8) -> u8x16
    requires long { length a ≡ 16 }
    requires count { count < 8 }
    ensures long { length result ≡ 16 }
    ensures value { EachLane (λ i. slice_index result i ≡ slice_index a i % 2 ^ count) }
{
    a & u8x16::splat(ones(count))
}

/// Returns lane `i` of `first` if lane `i` of `a` is 0, else lane `i` of `others`.
#[inline(always)]
pub fn where_zero(a: u8x16, first: u8x16, others: u8x16) -> u8x16
    requires tested { length a ≡ 16 }
    requires chosen { (length first ≡ 16) × (length others ≡ 16) }
    ensures long { length result ≡ 16 }
    ensures value { EachLane (λ i. slice_index result i
        ≡ (if slice_index a i == 0 then slice_index first i else slice_index others i)) }
{
    a.simd_eq(u8x16::splat(0)).select(first, others)
}

/// Returns byte `positions[i]` of `bytes` in lane `i`. Positions are below 16.
#[inline(always)]
pub fn bytes_at(bytes: u8x16, positions: u8x16) -> u8x16
    requires bytes { AreBytes bytes }
    requires long { length positions ≡ 16 }
    requires low { EachLane (λ i. slice_index positions i < 16) }
    ensures bytes { AreBytes result }
    ensures value { EachLane (λ i. slice_index result i ≡ slice_index bytes (slice_index positions i)) }
{
    bytes.swizzle_dyn_within::<16>(positions)
}

/// Returns the sixteen bytes of the first eight halfwords, the low byte of each first.
#[inline(always)]
pub fn first_bytes(cells: u16x16) -> u8x16
    requires { length cells ≡ 16 }
    ensures bytes { AreBytes result }
    ensures value { EachLane (λ i. slice_index result i ≡ slice_index cells (i / 2) / 256 ^ (i % 2) % 256) }
{
    cells.extract::<0, 8>().to_le_bytes()
}

#[inline(always)]
fn as_bytes(a: u16x16) -> u8x16
    requires long { length a ≡ 16 }
    requires low { EachLane (λ i. slice_index a i < 256) }
    ensures long { length result ≡ 16 }
    ensures value { EachLane (λ i. slice_index result i ≡ slice_index a i) }
{
    a.cast::<u8>()
}

/// Returns the lanes, which must be below 256, as bytes.
#[inline(always)]
pub fn narrowed(a: u16x16) -> u8x16
    requires long { length a ≡ 16 }
    requires low { EachLane (λ i. slice_index a i < 256) }
    ensures bytes { AreBytes result }
    ensures value { EachLane (λ i. slice_index result i ≡ slice_index a i) }
{
    as_bytes(a)
}

/// Returns the halfwords with these low and high bytes.
#[inline(always)]
pub fn joined(low: u8x16, high: u8x16) -> u16x16
    requires low { AreBytes low }
    requires high { AreBytes high }
    ensures long { length result ≡ 16 }
    ensures value { EachLane (λ i. slice_index result i ≡ slice_index low i + 256 * slice_index high i) }
{
    u16x16::from_le_bytes(low.shuffle(
        high,
        [
            0, 16, 1, 17, 2, 18, 3, 19, 4, 20, 5, 21, 6, 22, 7, 23, 8, 24, 9, 25, 10, 26, 11, 27,
            12, 28, 13, 29, 14, 30, 15, 31,
        ],
    ))
}
