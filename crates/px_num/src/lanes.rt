//! Operations on sixteen lanes of 16 bits, each defined lane by lane.
ghost use Rattle.std.specs.Prelude.{◌≡◌, ◌<◌, ◌+◌, ◌-◌, ◌*◌, ◌/◌, ◌%◌, ◌^◌, ◌==◌, ◌↔◌, IsTrue, if◌then◌else◌, nat_lt};
ghost use Rattle.std.specs.Prelude.{min, length, slice_index};
ghost use Rattle.std.specs.Int.RustNames.{bit_and, bit_or};
ghost use Rattle.px_num.specs.Lanes.{EachLane};

use std::simd::prelude::*;

/// Returns `value` in each lane.
pub fn splat(value: u16) -> u16x16
    ensures long { length result ≡ 16 }
    ensures value { EachLane (λ i. slice_index result i ≡ value) }
{
    u16x16::splat(value)
}

/// Returns the lane number, 0 to 15, in each lane.
#[inline(always)]
pub fn ramp() -> u16x16
    ensures long { length result ≡ 16 }
    ensures value { EachLane (λ i. slice_index result i ≡ i) }
{
    u16x16::from_array([0, 1, 2, 3, 4, 5, 6, 7, 8, 9, 10, 11, 12, 13, 14, 15])
}

/// Returns the sum of each lane, which must fit in 16 bits.
pub fn add(a: u16x16, b: u16x16) -> u16x16
    requires { EachLane (λ i. slice_index a i + slice_index b i < 2 ^ 16) }
    ensures long { length result ≡ 16 }
    ensures value { EachLane (λ i. slice_index result i ≡ slice_index a i + slice_index b i) }
{
    a.strict_add(b)
}

/// Returns the product of each lane, which must fit in 16 bits.
pub fn mul(a: u16x16, b: u16x16) -> u16x16
    requires { EachLane (λ i. slice_index a i * slice_index b i < 2 ^ 16) }
    ensures long { length result ≡ 16 }
    ensures value { EachLane (λ i. slice_index result i ≡ slice_index a i * slice_index b i) }
{
    a.strict_mul(b)
}

/// Returns the product of each lane modulo 2^16.
#[inline(always)]
pub fn wrapping_mul(a: u16x16, b: u16x16) -> u16x16
    requires { (length a ≡ 16) × (length b ≡ 16) }
    ensures long { length result ≡ 16 }
    ensures value { EachLane (λ i. slice_index result i ≡ slice_index a i * slice_index b i % 2 ^ 16) }
{
    a * b
}

/// Returns `a` minus `b` in each lane, or 0 if `b` is larger.
pub fn sub_or_zero(a: u16x16, b: u16x16) -> u16x16
    requires { (length a ≡ 16) × (length b ≡ 16) }
    ensures long { length result ≡ 16 }
    ensures value { EachLane (λ i. slice_index result i ≡ slice_index a i - slice_index b i) }
{
    a.saturating_sub(b)
}

/// Returns `a` minus `b` in each lane modulo 2^16.
#[inline(always)]
pub fn wrapping_sub(a: u16x16, b: u16x16) -> u16x16
    requires { (length a ≡ 16) × (length b ≡ 16) }
    ensures long { length result ≡ 16 }
    ensures value { EachLane (λ i. slice_index result i
        ≡ (slice_index a i + (2 ^ 16 - slice_index b i)) % 2 ^ 16) }
{
    a - b
}

/// Returns the smaller of the two numbers in each lane.
pub fn smaller(a: u16x16, b: u16x16) -> u16x16
    requires { (length a ≡ 16) × (length b ≡ 16) }
    ensures long { length result ≡ 16 }
    ensures value { EachLane (λ i. slice_index result i ≡ min (slice_index a i) (slice_index b i)) }
{
    a.simd_min(b)
}

/// Returns each lane divided by 2^`by`, rounded down. `by` is below 16.
pub fn shifted_down(a: u16x16, by: u16) -> u16x16
    requires long { length a ≡ 16 }
    requires by { by < 16 }
    ensures long { length result ≡ 16 }
    ensures value { EachLane (λ i. slice_index result i ≡ slice_index a i / 2 ^ by) }
{
    a >> by
}

// Returns the number whose low `count` bits are 1.
#[inline(always)]
fn ones(count: u16) -> u16
    requires { count < 16 }
    ensures { result ≡ 2 ^ count - 1 }
{
    (1 << count) - 1
}

/// Returns each lane modulo 2^`count`. `count` is below 16.
#[inline(always)]
pub fn low_bits(a: u16x16, count: u16) -> u16x16
    requires long { length a ≡ 16 }
    requires count { count < 16 }
    ensures long { length result ≡ 16 }
    ensures value { EachLane (λ i. slice_index result i ≡ slice_index a i % 2 ^ count) }
{
    a & u16x16::splat(ones(count))
}

/// Returns the bitwise AND of each lane.
#[inline(always)]
pub fn and(a: u16x16, b: u16x16) -> u16x16
    requires { (length a ≡ 16) × (length b ≡ 16) }
    ensures long { length result ≡ 16 }
    ensures value { EachLane (λ i. slice_index result i ≡ bit_and (slice_index a i) (slice_index b i)) }
{
    a & b
}

/// Returns the bitwise OR of each lane.
#[inline(always)]
pub fn or(a: u16x16, b: u16x16) -> u16x16
    requires { (length a ≡ 16) × (length b ≡ 16) }
    ensures long { length result ≡ 16 }
    ensures value { EachLane (λ i. slice_index result i ≡ bit_or (slice_index a i) (slice_index b i)) }
{
    a | b
}

/// Returns whether the two vectors are equal in all lanes.
#[inline(always)]
pub fn same(a: u16x16, b: u16x16) -> bool
    requires { (length a ≡ 16) × (length b ≡ 16) }
    ensures { IsTrue result ↔ EachLane (λ i. slice_index a i ≡ slice_index b i) }
{
    a == b
}

/// Returns whether all lanes are 0.
#[inline(always)]
pub fn are_zero(a: u16x16) -> bool
    requires { length a ≡ 16 }
    ensures { IsTrue result ↔ EachLane (λ i. slice_index a i ≡ 0) }
{
    a == u16x16::splat(0)
}

/// Returns lane `i` of `first` if lane `i` of `a` is below that of `b`, else lane `i` of `others`.
#[inline(always)]
pub fn where_below(a: u16x16, b: u16x16, first: u16x16, others: u16x16) -> u16x16
    requires tested { (length a ≡ 16) × (length b ≡ 16) }
    requires chosen { (length first ≡ 16) × (length others ≡ 16) }
    ensures long { length result ≡ 16 }
    ensures value { EachLane (λ i. slice_index result i
        ≡ (if nat_lt (slice_index a i) (slice_index b i) then slice_index first i else slice_index others i)) }
{
    a.simd_lt(b).select(first, others)
}

/// Returns lane `i` of `first` if lane `i` of `a` equals that of `b`, else lane `i` of `others`.
#[inline(always)]
pub fn where_equal(a: u16x16, b: u16x16, first: u16x16, others: u16x16) -> u16x16
    requires tested { (length a ≡ 16) × (length b ≡ 16) }
    requires chosen { (length first ≡ 16) × (length others ≡ 16) }
    ensures long { length result ≡ 16 }
    ensures value { EachLane (λ i. slice_index result i
        ≡ (if slice_index a i == slice_index b i then slice_index first i else slice_index others i)) }
{
    a.simd_eq(b).select(first, others)
}
