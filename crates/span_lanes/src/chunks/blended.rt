// The values of cells before they are drawn, and texels that are blended with them.
ghost use Rattle.std.specs.Prelude.{◌≡◌, ◌≤◌, ◌<◌, ◌+◌, ◌||◌, ℕ, length, slice_index, ◌==◌, ◌&&◌, if◌then◌else◌};
ghost use Rattle.std.specs.Prelude.{false, IsTrue};
ghost use Rattle.vram_store.specs.Plot.{is_testing};
ghost use Rattle.span_lanes.specs.Chunks.Chunk.{chunk_place};
ghost use Rattle.span_lanes.specs.Draws.{CanDraw, IsChunk};
ghost use Rattle.span_lanes.specs.Chunks.Lanes.{DoesFor};
ghost use Rattle.blend_dither.specs.Color.{packed_pixel};
ghost use Rattle.px_num.specs.Lanes.{EachLane};
ghost use Rattle.vram_store.specs.Vram.{bit};
ghost use Rattle.span_lanes.specs.Shade.{is_high, blended_if};

use crate::Brush;
use crate::clut::modulated::ModulatedTexels;
use crate::span::Chunk;
use blend_dither::blend_lanes;
use px_num::lanes::{add, low_bits, mul, shifted_down, splat, where_equal};
use std::simd::prelude::*;
use std::sync::ledger::Ledger;
use vram_store::mask::tests;
use vram_store::{Steps, Vram};

// Returns whether a pixel depends on the previous value of its cell: it is blended or tested.
#[inline(always)]
pub(crate) fn reads_back(brush: &Brush) -> bool
    ensures { result ≡ (brush.now.semi || is_testing brush.now.mask) }
{
    brush.semi || tests(brush.mask)
}

// Returns the values of a chunk's cells in the first `chunk.k` lanes, or zeros if no pixel depends on them. Costs at
// most one step.
#[inline(always)]
pub(crate) fn back_of<L: Ledger>(vram: &Vram, chunk: &Chunk, steps: &mut Steps<L>) -> u16x16
    requires can { CanDraw chunk.now.span.now vram.now }
    requires chunk { IsChunk chunk.now }
    ensures long { length result ≡ 16 }
    ensures value { (j : ℕ) → j < chunk.now.k
        → DoesFor chunk.now.span.now.brush (slice_index vram.now (chunk_place chunk.now.span.now chunk.now.first + j))
        (slice_index result j) }
    ensures cost { steps.new ≤ steps.old + 1 }
{
    if reads_back(&chunk.span.brush) {
        vram.load16(chunk.span.x + chunk.first, chunk.span.y, chunk.k, steps)
    } else {
        splat(0)
    }
}

// Returns bit 15 of each lane, as 0 or 1.
fn high_bits(texels: u16x16) -> u16x16
    requires { length texels ≡ 16 }
    ensures long { length result ≡ 16 }
    ensures low { EachLane (λ i. slice_index result i ≤ 1) }
    ensures value { EachLane (λ i. slice_index result i ≡ bit (slice_index texels i) 15) }
{
    shifted_down(texels, 15)
}

// Returns the lane of `first` if that of `bits` is 1, else the lane of `second`.
fn choose(bits: u16x16, first: u16x16, second: u16x16) -> u16x16
    requires long { (length bits ≡ 16) × (length first ≡ 16) × (length second ≡ 16) }
    ensures long { length result ≡ 16 }
    ensures value { EachLane (λ i. slice_index result i
        ≡ (if slice_index bits i == 1 then slice_index first i else slice_index second i)) }
{
    where_equal(bits, splat(1), first, second)
}

// Returns bits 0 to 14 of each lane, with the lane of `bits` (0 or 1) as bit 15.
fn with_high(lanes: u16x16, bits: u16x16) -> u16x16
    requires long { (length lanes ≡ 16) × (length bits ≡ 16) }
    requires low { EachLane (λ i. slice_index bits i ≤ 1) }
    ensures long { length result ≡ 16 }
    ensures value { EachLane (λ i. slice_index result i
        ≡ packed_pixel (slice_index lanes i) (slice_index bits i == 1) false) }
{
    add(low_bits(lanes, 15), mul(bits, splat(0x8000)))
}

// Returns `front`, blended with `back` in each lane if `semi` is true and the lane of `bits` (0 or 1) is 1. `mode` is
// at most 3.
#[tactic(auto, unfolding(crate::specs::Shade::blended_if))]
fn blend_high(semi: bool, mode: u8, back: u16x16, front: u16x16, bits: u16x16) -> u16x16
    requires mode { mode ≤ 3 }
    requires long { (length back ≡ 16) × (length front ≡ 16) × (length bits ≡ 16) }
    requires low { EachLane (λ i. slice_index bits i ≤ 1) }
    ensures long { length result ≡ 16 }
    ensures value { EachLane (λ i. slice_index result i
        ≡ blended_if (semi && (slice_index bits i == 1)) mode (slice_index back i) (slice_index front i)) }
{
    if semi {
        choose(bits, blend_lanes(mode, back, front), front)
    } else {
        front
    }
}

// Returns the halfwords of sixteen texels. `front` has their colours, which are blended with the cells `back` if `semi`
// is true and the texel's bit 15 is 1. Bit 15 of the result is the texel's. `mode` is at most 3.
fn blended_texel_lanes(semi: bool, mode: u8, back: u16x16, texels: u16x16, front: u16x16) -> u16x16
    requires mode { mode ≤ 3 }
    requires long { (length back ≡ 16) × (length texels ≡ 16) × (length front ≡ 16) }
    ensures long { length result ≡ 16 }
    ensures value { EachLane (λ i. slice_index result i
        ≡ packed_pixel
        (blended_if (semi && is_high (slice_index texels i)) mode (slice_index back i) (slice_index front i))
        (is_high (slice_index texels i)) false) }
{
    let bits = high_bits(texels);
    with_high(blend_high(semi, mode, back, front, bits), bits)
}

// Returns the texels unchanged. Each equals bits 0 to 14 of itself with its own bit 15.
#[inline(always)]
#[tactic(auto, using(crate::proofs::TexelLemmas::as_it_is))]
fn as_they_are(texels: u16x16) -> u16x16
    requires { length texels ≡ 16 }
    ensures long { length result ≡ 16 }
    ensures value { EachLane (λ i. slice_index result i
        ≡ packed_pixel (slice_index texels i) (is_high (slice_index texels i)) false) }
{
    texels
}

// Returns the halfwords of the first `k` texels, 0 to 16. `back` has the values of their cells. If `raw` is true, the
// first `k` lanes of `drawn.texels` and `drawn.modulated` must be equal; texels that are also not blended are returned
// unchanged.
#[inline(always)]
#[tactic(auto, unfolding(crate::specs::Shade::blended_if))]
pub(crate) fn blended_of_texels(
    brush: &Brush,
    raw: bool,
    back: u16x16,
    drawn: ModulatedTexels,
    k: u8,
) -> u16x16
    requires mode { brush.now.mode ≤ 3 }
    requires long { (length back ≡ 16) × (length drawn.texels ≡ 16) × (length drawn.modulated ≡ 16) }
    requires few { k ≤ 16 }
    requires raw { IsTrue raw → (j : ℕ) → j < k → slice_index drawn.modulated j ≡ slice_index drawn.texels j }
    ensures long { length result ≡ 16 }
    ensures value { (j : ℕ) → j < k → slice_index result j
        ≡ packed_pixel
        (blended_if (brush.now.semi && is_high (slice_index drawn.texels j)) brush.now.mode (slice_index back j)
        (slice_index drawn.modulated j))
        (is_high (slice_index drawn.texels j)) false }
{
    if raw && !brush.semi {
        as_they_are(drawn.texels)
    } else {
        blended_texel_lanes(brush.semi, brush.mode, back, drawn.texels, drawn.modulated)
    }
}
