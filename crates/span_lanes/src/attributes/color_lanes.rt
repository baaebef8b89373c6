// The colours and dither offsets of sixteen cells, and sources of the colours of a span.
ghost use Rattle.std.specs.Prelude.{◌≡◌, ◌≤◌, ◌<◌, ◌+◌, ◌/◌, ◌%◌, ◌*◌, ◌^◌, ℕ, pos, length, slice_index};
ghost use Rattle.std.specs.Prelude.{slice_index_or};
ghost use Rattle.blend_dither.specs.Color.{dither_offset, tone_of, modulated_of};
ghost use Rattle.px_num.specs.Lanes.{EachLane};
ghost use Rattle.span_lanes.specs.Chunks.Lanes.{AreChannels, HasColors, AreDitherLanes, AreDitherLanesAt};

use crate::Span;
use crate::span::Chunk;
use blend_dither::{modulate_lanes, tone_lanes, undithered_modulate_lanes};
use px_num::lanes::splat;
use std::simd::prelude::*;

// The colours of sixteen cells. Each channel is 0 to 255.
#[derive(Clone, Copy)]
pub(crate) struct ColorLanes {
    pub(crate) red: u16x16,
    pub(crate) green: u16x16,
    pub(crate) blue: u16x16,
}

fn channel(color: u32) -> u16x16
    ensures channels { AreChannels result }
    ensures value { EachLane (λ i. slice_index result i ≡ color % 256) }
{
    splat((color % 256) as u16)
}

pub(crate) fn one_color(color: u32) -> ColorLanes
    ensures { (n : ℕ) → n ≤ 16 → HasColors (λ j. color) n result.red result.green result.blue }
{
    ColorLanes {
        red: channel(color),
        green: channel(color / 256),
        blue: channel(color / 65536),
    }
}

// The dither offsets of sixteen cells, or zeros.
#[derive(Clone, Copy)]
pub(crate) struct DitherLanes {
    pub(crate) lanes: i16x16,
}

// Returns zeros, for cells that are not dithered.
pub(crate) fn no_dither() -> DitherLanes
    ensures small { AreDitherLanes result.lanes }
    ensures value { EachLane (λ i. slice_index_or result.lanes i (pos 0) ≡ pos 0) }
{
    DitherLanes {
        lanes: i16x16::from_array([0; 16]),
    }
}

// The dither offsets of sixteen cells of a row. Entry `4 * (y % 4) + x % 4` is for the cells from (`x`, `y`) on.
static DITHER_ROWS: [[i16; 16]; 16] = [
    [-4, 0, -3, 1, -4, 0, -3, 1, -4, 0, -3, 1, -4, 0, -3, 1],
    [0, -3, 1, -4, 0, -3, 1, -4, 0, -3, 1, -4, 0, -3, 1, -4],
    [-3, 1, -4, 0, -3, 1, -4, 0, -3, 1, -4, 0, -3, 1, -4, 0],
    [1, -4, 0, -3, 1, -4, 0, -3, 1, -4, 0, -3, 1, -4, 0, -3],
    [2, -2, 3, -1, 2, -2, 3, -1, 2, -2, 3, -1, 2, -2, 3, -1],
    [-2, 3, -1, 2, -2, 3, -1, 2, -2, 3, -1, 2, -2, 3, -1, 2],
    [3, -1, 2, -2, 3, -1, 2, -2, 3, -1, 2, -2, 3, -1, 2, -2],
    [-1, 2, -2, 3, -1, 2, -2, 3, -1, 2, -2, 3, -1, 2, -2, 3],
    [-3, 1, -4, 0, -3, 1, -4, 0, -3, 1, -4, 0, -3, 1, -4, 0],
    [1, -4, 0, -3, 1, -4, 0, -3, 1, -4, 0, -3, 1, -4, 0, -3],
    [-4, 0, -3, 1, -4, 0, -3, 1, -4, 0, -3, 1, -4, 0, -3, 1],
    [0, -3, 1, -4, 0, -3, 1, -4, 0, -3, 1, -4, 0, -3, 1, -4],
    [3, -1, 2, -2, 3, -1, 2, -2, 3, -1, 2, -2, 3, -1, 2, -2],
    [-1, 2, -2, 3, -1, 2, -2, 3, -1, 2, -2, 3, -1, 2, -2, 3],
    [2, -2, 3, -1, 2, -2, 3, -1, 2, -2, 3, -1, 2, -2, 3, -1],
    [-2, 3, -1, 2, -2, 3, -1, 2, -2, 3, -1, 2, -2, 3, -1, 2],
];

// Returns entry `place` of the table, below 16.
fn dither_row(place: usize) -> [i16; 16]
    requires { place < 16 }
    ensures long { length result ≡ 16 }
    ensures value { EachLane (λ i. slice_index_or result i (pos 0) ≡ dither_offset (place % 4 + i) (place / 4)) }
{
    DITHER_ROWS[place]
}

// Returns the dither offsets of the sixteen cells from (`x`, `y`) on.
fn dithered(x: u16, y: u16) -> DitherLanes
    ensures small { AreDitherLanes result.lanes }
    ensures value { EachLane (λ i. slice_index_or result.lanes i (pos 0) ≡ dither_offset (x + i) y) }
{
    DitherLanes {
        lanes: i16x16::from_array(dither_row((4 * (y % 4) + x % 4) as usize)),
    }
}

// Returns the dither offsets of the sixteen cells from (`x`, `y`) on, or zeros without `dither`. They repeat every four
// columns, so they also hold for the later chunks of a span. `x` is at most 1024.
#[tactic(auto, unfolding(crate::specs::Shade::dither_of))]
pub(crate) fn dither_lanes_of(dither: bool, x: u16, y: u16) -> DitherLanes
    requires { x ≤ 1024 }
    ensures { AreDitherLanesAt dither x y result.lanes }
{
    if dither { dithered(x, y) } else { no_dither() }
}

// Returns the dithered 15-bit colours of sixteen 24-bit colours.
pub(crate) fn tones_of(colors: ColorLanes, dither_lanes: DitherLanes) -> u16x16
    requires channels { AreChannels colors.red × AreChannels colors.green × AreChannels colors.blue }
    requires dither_lanes { AreDitherLanes dither_lanes.lanes }
    ensures long { length result ≡ 16 }
    ensures low { EachLane (λ i. slice_index result i < 2 ^ 15) }
    ensures value { EachLane (λ i. slice_index result i
        ≡ tone_of (slice_index colors.red i) (slice_index colors.green i) (slice_index colors.blue i)
        (slice_index_or dither_lanes.lanes i (pos 0))) }
{
    tone_lanes(colors.red, colors.green, colors.blue, dither_lanes.lanes)
}

// Returns sixteen texels, modulated by these colours and dithered.
pub(crate) fn modulated_by(texels: u16x16, colors: ColorLanes, dither_lanes: DitherLanes) -> u16x16
    requires texels { length texels ≡ 16 }
    requires channels { AreChannels colors.red × AreChannels colors.green × AreChannels colors.blue }
    requires dither_lanes { AreDitherLanes dither_lanes.lanes }
    ensures long { length result ≡ 16 }
    ensures value { EachLane (λ i. slice_index result i
        ≡ modulated_of (slice_index texels i)
        (slice_index colors.red i) (slice_index colors.green i) (slice_index colors.blue i)
        (slice_index_or dither_lanes.lanes i (pos 0))) }
{
    modulate_lanes(
        texels,
        colors.red,
        colors.green,
        colors.blue,
        dither_lanes.lanes,
    )
}

// Returns sixteen texels, modulated by these colours, without dither.
#[inline(always)]
pub(crate) fn undithered_by(texels: u16x16, colors: ColorLanes) -> u16x16
    requires texels { length texels ≡ 16 }
    requires channels { AreChannels colors.red × AreChannels colors.green × AreChannels colors.blue }
    ensures long { length result ≡ 16 }
    ensures value { EachLane (λ i. slice_index result i
        ≡ modulated_of (slice_index texels i)
        (slice_index colors.red i) (slice_index colors.green i) (slice_index colors.blue i) (pos 0)) }
{
    undithered_modulate_lanes(texels, colors.red, colors.green, colors.blue)
}

// Computes the colours of a span's cells, chunk by chunk.
pub(crate) trait ColorSource {
    ghost use Rattle.span_lanes.specs.Draws.{IsChunk};
    ghost use Rattle.span_lanes.specs.Chunks.Lanes.{HasColors, colors_from};
    ghost use Rattle.span_lanes.specs.Shade.{IsSpan};
    ghost use Rattle.span_lanes.specs.declared.span.Span.{Span};

    // The colours are those of this span.
    ghost suits: { Self → Span → Type 0 };

    fn colors(&self, chunk: &Chunk) -> ColorLanes
        requires span { IsSpan chunk.now.span.now }
        requires suits { suits self.now chunk.now.span.now }
        requires chunk { IsChunk chunk.now }
        ensures { HasColors (colors_from chunk.now.span.now.paint (chunk.now.span.now.x + chunk.now.first)
            chunk.now.span.now.y) chunk.now.k
            result.red result.green result.blue };
}
