// Spans without a texture.
ghost use Rattle.std.specs.Prelude.{◌≡◌, ◌≤◌, ◌<◌, ◌+◌, ◌^◌, false, pos, None, length, slice_index, slice_index_or};
ghost use Rattle.std.specs.Prelude.{ℕ, ◌&&◌, ◌||◌, not, IfSome};
ghost use Rattle.blend_dither.specs.Color.{tone_of};
ghost use Rattle.px_num.specs.Lanes.{EachLane};
ghost use Rattle.span_lanes.specs.declared.attributes.shading.RowColors.TheVariants.{One};
ghost use Rattle.span_lanes.specs.Attributes.AttributeRamps.{AreColorsOf};
ghost use Rattle.span_lanes.specs.Chunks.Chunk.{HasChunk};
ghost use Rattle.span_lanes.specs.Draws.{CanDraw, IsChunk, DrawsSpan, at_stage};
ghost use Rattle.span_lanes.specs.Shade.{blended_if, IsSpan, texture_of, LiesIn};
ghost use Rattle.span_lanes.specs.Attributes.RowColors.{AreRowColors};
ghost use Rattle.span_lanes.specs.Chunks.Lanes.{AreChannels, AreDitherLanes, AreDitherLanesAt, tone_with, IsSolid};
ghost use Rattle.span_lanes.specs.Chunks.Untextured.{AreTones};
ghost use Rattle.span_lanes.specs.SpanDrawer.{DrawsCells};
ghost use Rattle.vram_store.specs.Vram.{height_of};
ghost use Rattle.vram_store.specs.Plot.{is_testing};
ghost use Rattle.span_lanes.specs.declared.span.Paint.TheVariants.{Flat};

use crate::attributes::color_lanes::{
    ColorLanes, ColorSource, DitherLanes, dither_lanes_of, one_color, tones_of,
};
use crate::attributes::ramps::ColorRamps;
use crate::chunks::blended::{back_of, reads_back};
use crate::chunks::loops::{ChunkDrawer, draw_by_brush, draw_by_mode, draw_chunks, store_chunk};
use crate::span::Chunk;
use crate::{Brush, Span};
use blend_dither::{blend_lanes, tone, undithered_tone_lanes};
use px_num::lanes::splat;
use std::simd::prelude::*;
use std::sync::ledger::Ledger;
use vram_store::mask::{force, force_lanes, over_lanes};
use vram_store::{Steps, Vram};

#[tactic(auto, unfolding(crate::specs::Shade::blended_if))]
fn blend_lanes_if(semi: bool, mode: u8, back: u16x16, front: u16x16) -> u16x16
    requires mode { mode ≤ 3 }
    requires long { (length back ≡ 16) × (length front ≡ 16) }
    requires low { EachLane (λ i. slice_index front i < 2 ^ 15) }
    ensures long { length result ≡ 16 }
    ensures low { EachLane (λ i. slice_index result i < 2 ^ 15) }
    ensures value { EachLane (λ i. slice_index result i
        ≡ blended_if semi mode (slice_index back i) (slice_index front i)) }
{
    if semi {
        blend_lanes(mode, back, front)
    } else {
        front
    }
}

// Returns the 15-bit colours of sixteen cells of one colour. Without `dither`, all dither offsets must be 0, and the
// colour is computed only once.
#[inline(always)]
fn flat_lanes(color: u32, dither: bool, dither_lanes: DitherLanes) -> u16x16
    requires dither_lanes { AreDitherLanes dither_lanes.lanes }
    requires none { dither ≡ false → EachLane (λ i. slice_index_or dither_lanes.lanes i (pos 0) ≡ pos 0) }
    ensures long { length result ≡ 16 }
    ensures low { EachLane (λ i. slice_index result i < 2 ^ 15) }
    ensures value { EachLane (λ j. slice_index result j
        ≡ tone_with color (slice_index_or dither_lanes.lanes j (pos 0))) }
{
    if dither {
        tones_of(one_color(color), dither_lanes)
    } else {
        splat(tone(color, 0))
    }
}

// Returns one colour as the 15-bit colours of a chunk's cells.
#[inline(always)]
pub(crate) fn flat_tones(color: u32, dither_lanes: DitherLanes, chunk: &Chunk) -> u16x16
    requires span { IsSpan chunk.now.span.now }
    requires chunk { IsChunk chunk.now }
    requires offsets { AreDitherLanesAt chunk.now.span.now.brush.dither chunk.now.span.now.x chunk.now.span.now.y
        dither_lanes.lanes }
    requires colors { AreRowColors chunk.now.span.now.paint chunk.now.span.now.x chunk.now.span.now.y
        chunk.now.span.now.n (One color) }
    ensures { AreTones chunk.now result }
{
    flat_lanes(color, chunk.span.brush.dither, dither_lanes)
}

// Returns the 15-bit colours of sixteen cells from their three channels. Without `dither`, all dither offsets must be
// 0.
#[inline(always)]
fn gouraud_lanes(colors: ColorLanes, dither: bool, dither_lanes: DitherLanes) -> u16x16
    requires channels { AreChannels colors.red × AreChannels colors.green × AreChannels colors.blue }
    requires dither_lanes { AreDitherLanes dither_lanes.lanes }
    requires none { dither ≡ false → EachLane (λ i. slice_index_or dither_lanes.lanes i (pos 0) ≡ pos 0) }
    ensures long { length result ≡ 16 }
    ensures low { EachLane (λ i. slice_index result i < 2 ^ 15) }
    ensures value { EachLane (λ i. slice_index result i
        ≡ tone_of (slice_index colors.red i) (slice_index colors.green i) (slice_index colors.blue i)
        (slice_index_or dither_lanes.lanes i (pos 0))) }
{
    if dither {
        tones_of(colors, dither_lanes)
    } else {
        undithered_tone_lanes(colors.red, colors.green, colors.blue)
    }
}

// Returns the 15-bit colours of a chunk's cells. `ramps` must be those of its paint.
#[inline(always)]
pub(crate) fn gouraud_tones(ramps: &ColorRamps, dither_lanes: DitherLanes, chunk: &Chunk) -> u16x16
    requires span { IsSpan chunk.now.span.now }
    requires chunk { IsChunk chunk.now }
    requires offsets { AreDitherLanesAt chunk.now.span.now.brush.dither chunk.now.span.now.x chunk.now.span.now.y
        dither_lanes.lanes }
    requires colors { AreColorsOf chunk.now.span.now.paint ramps.now }
    ensures { AreTones chunk.now result }
{
    gouraud_lanes(ramps.colors(chunk), chunk.span.brush.dither, dither_lanes)
}

// Returns the values that a chunk's cells become in its first `chunk.k` lanes. All are computed from video memory
// before the chunk is stored. Costs at most one step.
#[inline(always)]
pub(crate) fn untextured_lanes<L: Ledger>(
    vram: &Vram,
    tones: u16x16,
    chunk: &Chunk,
    steps: &mut Steps<L>,
) -> u16x16
    requires can { CanDraw chunk.now.span.now vram.now }
    requires untextured { texture_of chunk.now.span.now.paint ≡ None }
    requires tones { AreTones chunk.now tones }
    requires chunk { IsChunk chunk.now }
    ensures long { length result ≡ 16 }
    ensures lanes { HasChunk chunk.now vram.now result }
    ensures cost { steps.new ≤ steps.old + 1 }
{
    let back = back_of(vram, chunk, steps);
    let plotted = blend_lanes_if(chunk.span.brush.semi, chunk.span.brush.mode, back, tones);
    over_lanes(
        chunk.span.brush.mask,
        back,
        force_lanes(chunk.span.brush.mask, plotted),
    )
}

// Draws cells of one colour without a texture. They read no cell except their own.
#[derive(Clone, Copy)]
struct FlatCells {
    color: u32,
    dither_lanes: DitherLanes,
}

impl ChunkDrawer for FlatCells {
    ghost use Rattle.span_lanes.specs.Chunks.Untextured.{CanDrawFlat};

    ghost serves = { λ c s m. CanDrawFlat s c.color c.dither_lanes.lanes m };

    ghost spared = { λ c k. 0 };

    ghost can = { λ c s m serves. serves.span.can };

    #[inline(always)]
    fn draw_chunk<L: Ledger>(&self, vram: &mut Vram, chunk: &Chunk, steps: &mut Steps<L>) {
        let tones = flat_tones(self.color, self.dither_lanes, chunk);
        let lanes = untextured_lanes(vram, tones, chunk, steps);
        store_chunk(vram, chunk, lanes, steps);
    }
}

// Draws cells of the colours of a triangle, without a texture. They read no cell except their own.
#[derive(Clone, Copy)]
struct GouraudCells<'a> {
    ramps: &'a ColorRamps,
    dither_lanes: DitherLanes,
}

impl ChunkDrawer for GouraudCells<'_> {
    ghost use Rattle.span_lanes.specs.Chunks.Untextured.{CanDrawGouraud};

    ghost serves = { λ c s m. CanDrawGouraud s c.ramps.now c.dither_lanes.lanes m };

    ghost spared = { λ c k. 0 };

    ghost can = { λ c s m serves. serves.span.can };

    #[inline(always)]
    fn draw_chunk<L: Ledger>(&self, vram: &mut Vram, chunk: &Chunk, steps: &mut Steps<L>) {
        let tones = gouraud_tones(self.ramps, self.dither_lanes, chunk);
        let lanes = untextured_lanes(vram, tones, chunk, steps);
        store_chunk(vram, chunk, lanes, steps);
    }
}

// Draws a span of one colour without a texture.
#[inline(never)]
pub(crate) fn draw_flat_span<L: Ledger>(
    vram: &mut Vram,
    span: &Span,
    color: u32,
    steps: &mut Steps<L>,
)
    requires can { CanDraw span.now vram.old }
    requires untextured { texture_of span.now.paint ≡ None }
    requires row_colors { AreRowColors span.now.paint span.now.x span.now.y span.now.n (One color) }
    ensures drawn { DrawsSpan span.now 0 (at_stage vram.old steps.old) (at_stage vram.new steps.new) }
{
    let dither_lanes = dither_lanes_of(span.brush.dither, span.x, span.y);
    let cells = FlatCells {
        color,
        dither_lanes,
    };
    draw_by_mode(vram, span, &cells, steps);
}

// Draws a span of a triangle's colours without a texture. `ramps` must be those of its paint.
#[inline(never)]
pub(crate) fn draw_gouraud_span<L: Ledger>(
    vram: &mut Vram,
    span: &Span,
    ramps: &ColorRamps,
    steps: &mut Steps<L>,
)
    requires can { CanDraw span.now vram.old }
    requires untextured { texture_of span.now.paint ≡ None }
    requires colors { AreColorsOf span.now.paint ramps.now }
    ensures drawn { DrawsSpan span.now 0 (at_stage vram.old steps.old) (at_stage vram.new steps.new) }
{
    let dither_lanes = dither_lanes_of(span.brush.dither, span.x, span.y);
    let cells = GouraudCells {
        ramps,
        dither_lanes,
    };
    draw_by_brush(vram, span, &cells, steps);
}

// Returns whether a colour becomes the same halfword in all cells: pixels are not blended, tested or dithered.
fn is_even(brush: &Brush) -> bool
    ensures { result ≡ (not (brush.now.semi || is_testing brush.now.mask) && not brush.now.dither) }
{
    !reads_back(brush) && !brush.dither
}

// Returns the halfword that each cell becomes under one colour. Returns `None` if pixels are blended, tested or
// dithered.
pub(crate) fn solid_color(brush: &Brush, color: u32) -> Option<u16>
    ensures { IfSome result (λ h. (x y n : ℕ)
        → IsSolid (record { x = x; y = y; n = n; paint = Flat color; brush = brush.now }) h) }
{
    if is_even(brush) {
        Some(force(brush.mask, tone(color, 0)))
    } else {
        None
    }
}

// The halfword that each cell becomes.
#[derive(Clone, Copy)]
pub(crate) struct Solid {
    pub(crate) h: u16,
}

impl ChunkDrawer for Solid {
    ghost use Rattle.span_lanes.specs.Chunks.Solid.{CanFill};

    ghost serves = { λ c s m. CanFill s c.h m };

    ghost spared = { λ c k. 0 };

    #[inline(always)]
    fn draw_chunk<L: Ledger>(&self, vram: &mut Vram, chunk: &Chunk, steps: &mut Steps<L>) {
        let x = chunk.span.x + chunk.first;
        vram.store16(x, chunk.span.y, chunk.k, splat(self.h), 0xffff, steps);
    }

    ghost can = { λ c s m serves. serves.can };
}

/// Draws a span as [`draw_span`](crate::draw_span) does, under the same conditions. All its cells must become the
/// halfword `h`, whatever their values.
#[inline(always)]
pub(crate) fn draw_solid_span<L: Ledger>(vram: &mut Vram, span: &Span, h: u16, steps: &mut Steps<L>)
    requires span { IsSpan span.now }
    requires height { LiesIn (height_of vram.old) span.now }
    requires solid { IsSolid span.now h }
    ensures drawn { DrawsCells span.now
        (record { m = vram.old; steps = steps.old }) (record { m = vram.new; steps = steps.new }) }
{
    draw_chunks(vram, span, &Solid { h }, steps);
}
