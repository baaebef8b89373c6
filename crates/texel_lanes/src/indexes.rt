// The CLUT indexes of texels of four and of eight bits.
ghost use Rattle.std.specs.Prelude.{◌≡◌, ◌<◌, ◌+◌, ◌/◌, ℕ, length, slice_index};
ghost use Rattle.px_num.specs.Lanes.{EachLane, AreBytes};
ghost use Rattle.texture_page.specs.Page.{index_in};
ghost use Rattle.texel_lanes.specs.Nibbles.{raise, raise_byte};

use crate::clut::{halfwords_at, table_of};
use px_num::bytes::{
    bytes_at, bytes_down, bytes_from, bytes_low, first_bytes, narrowed, where_zero,
};
use px_num::lanes::{low_bits, shifted_down, wrapping_mul};
use std::simd::prelude::*;

// Returns the factors that move the four bits of the columns 0 to 3 to the top of their halfword.
#[inline(always)]
fn raise_table() -> u16x16
    ensures long { length result ≡ 16 }
    ensures value { (i : ℕ) → i < 4 → slice_index result i ≡ raise i }
{
    u16x16::from_array([4096, 256, 16, 1, 0, 0, 0, 0, 0, 0, 0, 0, 0, 0, 0, 0])
}

// Returns for each column the factor that moves its four bits to the top of their halfword.
#[inline(always)]
#[tactic(auto, using(crate::proofs::NibbleLemmas::raise_low))]
fn raises(across: u16x16) -> u16x16
    requires { length across ≡ 16 }
    ensures long { length result ≡ 16 }
    ensures value { EachLane (λ i. slice_index result i ≡ raise (slice_index across i)) }
{
    halfwords_at(raise_table(), low_bits(across, 2))
}

// Returns the indexes of sixteen texels of four bits. `across` has their columns under the window, `halfwords` their
// cells.
#[inline(always)]
#[tactic(auto, using(crate::proofs::NibbleLemmas::nibble_is))]
fn indexes(across: u16x16, halfwords: u16x16) -> u16x16
    requires across { length across ≡ 16 }
    requires halfwords { length halfwords ≡ 16 }
    ensures long { length result ≡ 16 }
    ensures value { EachLane (λ i. slice_index result i ≡ index_in 0 (slice_index across i) (slice_index halfwords i)) }
    ensures low { EachLane (λ i. slice_index result i < 16) }
{
    shifted_down(wrapping_mul(halfwords, raises(across)), 12)
}

// As [`indexes`], as bytes.
#[inline(always)]
pub(crate) fn nibbles(across: u16x16, halfwords: u16x16) -> u8x16
    requires across { length across ≡ 16 }
    requires halfwords { length halfwords ≡ 16 }
    ensures bytes { AreBytes result }
    ensures value { EachLane (λ i. slice_index result i ≡ index_in 0 (slice_index across i) (slice_index halfwords i)) }
    ensures low { EachLane (λ i. slice_index result i < 16) }
{
    narrowed(indexes(across, halfwords))
}

// Returns the indexes of sixteen contiguous texels of four bits. The first is texel `column`, 0 to 3, of the first
// halfword.
#[inline(always)]
pub(crate) fn nibbles_from(column: u8, halfwords: u16x16) -> u8x16
    requires column { column < 4 }
    requires halfwords { length halfwords ≡ 16 }
    ensures bytes { AreBytes result }
    ensures value { EachLane (λ i. slice_index result i
        ≡ index_in 0 (column + i) (slice_index halfwords ((column + i) / 4))) }
    ensures low { EachLane (λ i. slice_index result i < 16) }
{
    let across = bytes_from(column);
    let bytes = bytes_at(first_bytes(halfwords), bytes_down(across, 1));
    where_zero(
        bytes_low(across, 1),
        bytes_low(bytes, 4),
        bytes_down(bytes, 4),
    )
}

// Returns the factors that move the eight bits of the columns 0 and 1 to the top of their halfword.
#[inline(always)]
fn byte_table() -> u16x16
    ensures long { length result ≡ 16 }
    ensures value { (i : ℕ) → i < 2 → slice_index result i ≡ raise_byte i }
{
    u16x16::from_array([256, 1, 0, 0, 0, 0, 0, 0, 0, 0, 0, 0, 0, 0, 0, 0])
}

// Returns for each column the factor that moves its eight bits to the top of their halfword.
#[inline(always)]
#[tactic(auto, using(crate::proofs::NibbleLemmas::raise_byte_low))]
fn byte_raises(across: u16x16) -> u16x16
    requires { length across ≡ 16 }
    ensures long { length result ≡ 16 }
    ensures value { EachLane (λ i. slice_index result i ≡ raise_byte (slice_index across i)) }
{
    halfwords_at(byte_table(), low_bits(across, 1))
}

// Returns the indexes of sixteen texels of eight bits. `across` has their columns under the window, `halfwords` their
// cells.
#[inline(always)]
#[tactic(auto, using(crate::proofs::NibbleLemmas::byte_is))]
pub(crate) fn octets(across: u16x16, halfwords: u16x16) -> u16x16
    requires across { length across ≡ 16 }
    requires halfwords { length halfwords ≡ 16 }
    ensures long { length result ≡ 16 }
    ensures value { EachLane (λ i. slice_index result i ≡ index_in 1 (slice_index across i) (slice_index halfwords i)) }
    ensures low { EachLane (λ i. slice_index result i < 256) }
{
    shifted_down(wrapping_mul(halfwords, byte_raises(across)), 8)
}

// Returns the bytes as halfwords.
#[inline(always)]
fn widened(a: u8x16) -> u16x16
    requires { AreBytes a }
    ensures long { length result ≡ 16 }
    ensures value { EachLane (λ i. slice_index result i ≡ slice_index a i) }
{
    a.cast::<u16>()
}

// Returns the indexes of sixteen contiguous texels of eight bits. The first is texel `column`, 0 or 1, of the first
// halfword.
#[inline(always)]
pub(crate) fn octets_from(column: u8, halfwords: u16x16) -> u16x16
    requires column { column < 2 }
    requires halfwords { length halfwords ≡ 16 }
    ensures long { length result ≡ 16 }
    ensures value { EachLane (λ i. slice_index result i
        ≡ index_in 1 (column + i) (slice_index halfwords ((column + i) / 2))) }
    ensures low { EachLane (λ i. slice_index result i < 256) }
{
    let across = bytes_from(column);
    let cells = bytes_down(across, 1);
    let table = table_of(halfwords);
    widened(where_zero(
        bytes_low(across, 1),
        bytes_at(table.low, cells),
        bytes_at(table.high, cells),
    ))
}
