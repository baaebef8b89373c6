// The loops over the chunks of a span.
ghost use Rattle.std.specs.Prelude.{ℕ, List, ◌≡◌, ◌≤◌, ◌+◌, ◌*◌, length, min, IsTrue, true, false};
ghost use Rattle.span_lanes.specs.Draws.{CanDraw, DrawsChunk, DrawsSpan, IsChunk, at_stage};
ghost use Rattle.vram_store.specs.Chunk.{AgreesApart};
ghost use Rattle.span_lanes.specs.Chunks.Chunk.{chunk_place, drawn_chunk, HasChunk};
ghost use Rattle.span_lanes.specs.Cost.{paint_steps};
ghost use Rattle.span_lanes.specs.Hazard.Guard.{HasHazard};

use crate::span::cell::draw_cell;
use crate::span::{Chunk, is_opaque, opaque};
use crate::{Brush, Span};
use px_num::halves::HALF;
use std::simd::prelude::*;
use std::sync::ledger::Ledger;
use vram_store::{Steps, Vram};

// Draws the chunks of a span.
pub(crate) trait ChunkDrawer {
    ghost use Rattle.span_lanes.specs.declared.span.Chunk.{Chunk};
    ghost use Rattle.span_lanes.specs.declared.span.Span.{Span};

    // The drawer serves this span in this video memory: it can draw its chunks.
    ghost serves: { Self → Span → List ℕ → Type 0 };

    // The number of steps that a chunk takes less than it may, from its number of cells. Those of the first chunk pay
    // for what was read before the loop.
    ghost spared: { Self → ℕ → ℕ };

    fn draw_chunk<L: Ledger>(&self, vram: &mut Vram, chunk: &Chunk, steps: &mut Steps<L>)
        requires serves { serves self.now chunk.now.span.now vram.old }
        requires chunk { IsChunk chunk.now }
        ensures drawn { DrawsChunk chunk.now (spared self.now chunk.now.k)
            (at_stage vram.old steps.old) (at_stage vram.new steps.new) }
        ensures serves { serves self.now chunk.now.span.now vram.new };

    // It serves only spans that can be drawn.
    ghost can: { (c : Self) (s : Span) (m : List ℕ) → serves c s m → CanDraw s m };
}

// Draws chunks as `chunks` does. The loop over them is one of its own for each `K`. The compiler inlines a large loop
// only if it is called in one place.
#[derive(Clone, Copy)]
pub(crate) struct OwnLoop<'a, C, K> {
    pub(crate) chunks: &'a C,
    pub(crate) kind: K,
}

// Names the loop for opaque pixels.
#[derive(Clone, Copy)]
pub(crate) struct OfOpaque {}

impl<C: ChunkDrawer, K> ChunkDrawer for OwnLoop<'_, C, K> {
    ghost serves = { λ own. C.serves own.chunks.now };

    ghost spared = { λ own. C.spared own.chunks.now };

    #[inline(always)]
    fn draw_chunk<L: Ledger>(&self, vram: &mut Vram, chunk: &Chunk, steps: &mut Steps<L>) {
        self.chunks.draw_chunk(vram, chunk, steps);
    }

    ghost can = { λ own. C.can own.chunks.now };
}

// Draws a span chunk by chunk. `chunks` must serve it.
#[inline(always)]
pub(crate) fn draw_chunks<C: ChunkDrawer, L: Ledger>(
    vram: &mut Vram,
    span: &Span,
    chunks: &C,
    steps: &mut Steps<L>,
)
    requires { C.serves chunks.now span.now vram.old }
    ensures drawn { DrawsSpan span.now (C.spared chunks.now (min span.now.n 16))
        (at_stage vram.old steps.old) (at_stage vram.new steps.new) }
    ensures serves { C.serves chunks.now span.now vram.new }
{
    let whole = span.n / 16;
    for c in 0..whole {
        let chunk = Chunk {
            span,
            first: 16 * c,
            k: 16,
        };
        chunks.draw_chunk(vram, &chunk, steps);
    }
    let rest = span.n % 16;
    let chunk = Chunk {
        span,
        first: 16 * whole,
        k: rest as u8,
    };
    // A last chunk of at most eight cells is compiled separately, so that the compiler may drop the other eight lanes.
    if rest > HALF as u16 {
        chunks.draw_chunk(vram, &chunk, steps);
    } else if rest > 0 {
        chunks.draw_chunk(vram, &chunk, steps);
    }
}

// Draws a span chunk by chunk, with a separate loop for opaque pixels. `chunks` must serve it.
#[inline(always)]
pub(crate) fn draw_by_brush<C: ChunkDrawer, L: Ledger>(
    vram: &mut Vram,
    span: &Span,
    chunks: &C,
    steps: &mut Steps<L>,
)
    requires { C.serves chunks.now span.now vram.old }
    ensures drawn { DrawsSpan span.now (C.spared chunks.now (min span.now.n 16))
        (at_stage vram.old steps.old) (at_stage vram.new steps.new) }
    ensures serves { C.serves chunks.now span.now vram.new }
{
    if is_opaque(&span.brush) {
        let kind = OfOpaque {};
        draw_chunks(vram, &opaque(span), &OwnLoop { chunks, kind }, steps);
    } else {
        let span = *span;
        draw_chunks(vram, &span, chunks, steps);
    }
}

// Draws the cells of a chunk one after another. Costs at most two steps per cell, plus those of the texels.
#[inline(never)]
pub(crate) fn draw_cells<L: Ledger>(vram: &mut Vram, chunk: &Chunk, steps: &mut Steps<L>)
    requires can { CanDraw chunk.now.span.now vram.old }
    requires chunk { IsChunk chunk.now }
    ensures cells { vram.new ≡ drawn_chunk chunk.now vram.old }
    ensures long { length vram.new ≡ length vram.old }
    ensures cost { steps.new ≤ steps.old + (paint_steps chunk.now.span.now.paint + 2) * chunk.now.k }
{
    for j in 0..chunk.k {
        draw_cell(vram, chunk.span, chunk.first + j as u16, steps);
    }
}

// Stores a chunk without a hazard. `lanes` has the values that its cells become. Costs at most one step.
#[inline(always)]
pub(crate) fn store_chunk<L: Ledger>(
    vram: &mut Vram,
    chunk: &Chunk,
    lanes: u16x16,
    steps: &mut Steps<L>,
)
    requires can { CanDraw chunk.now.span.now vram.old }
    requires chunk { IsChunk chunk.now }
    requires free { HasHazard chunk.now.span.now chunk.now.first chunk.now.k → ⊥ }
    requires long { length lanes ≡ 16 }
    requires lanes { HasChunk chunk.now vram.old lanes }
    ensures cells { vram.new ≡ drawn_chunk chunk.now vram.old }
    ensures others { AgreesApart (chunk_place chunk.now.span.now chunk.now.first) chunk.now.k vram.old vram.new }
    ensures cost { steps.new ≤ steps.old + 1 }
{
    let x = chunk.span.x + chunk.first;
    vram.store16(x, chunk.span.y, chunk.k, lanes, 0xffff, steps);
}

// Returns whether pixels are blended, and neither tested nor dithered, and their bit 15 is not forced.
fn is_only_blended(brush: &Brush) -> bool
    ensures mask { IsTrue result → brush.now.mask ≡ 0 }
    ensures semi { IsTrue result → brush.now.semi ≡ true }
    ensures dither { IsTrue result → brush.now.dither ≡ false }
{
    brush.mask == 0 && brush.semi && !brush.dither
}

// Returns the same span. Its pixels must be only blended, in mode `mode`. The compiler then knows this, and makes a
// separate loop.
#[inline(always)]
fn with_mode(span: &Span, mode: u8) -> Span
    requires mask { span.now.brush.mask ≡ 0 }
    requires semi { span.now.brush.semi ≡ true }
    requires dither { span.now.brush.dither ≡ false }
    requires mode { span.now.brush.mode ≡ mode }
    ensures { result ≡ span.now }
{
    Span {
        brush: Brush {
            mask: 0,
            mode,
            semi: true,
            dither: false,
        },
        ..*span
    }
}

// Draws a span whose pixels are only blended, with a separate loop for each mode. `chunks` must serve it.
#[inline(always)]
fn draw_blended<C: ChunkDrawer, L: Ledger>(
    vram: &mut Vram,
    span: &Span,
    chunks: &C,
    steps: &mut Steps<L>,
)
    requires mask { span.now.brush.mask ≡ 0 }
    requires semi { span.now.brush.semi ≡ true }
    requires dither { span.now.brush.dither ≡ false }
    requires serves { C.serves chunks.now span.now vram.old }
    ensures drawn { DrawsSpan span.now (C.spared chunks.now (min span.now.n 16))
        (at_stage vram.old steps.old) (at_stage vram.new steps.new) }
    ensures serves { C.serves chunks.now span.now vram.new }
{
    match span.brush.mode {
        0 => draw_chunks(vram, &with_mode(span, 0), chunks, steps),
        1 => draw_chunks(vram, &with_mode(span, 1), chunks, steps),
        2 => draw_chunks(vram, &with_mode(span, 2), chunks, steps),
        mode => draw_chunks(vram, &with_mode(span, mode), chunks, steps),
    }
}

// Draws a span chunk by chunk, with a separate loop for each blending mode if pixels are only blended. `chunks` must
// serve it.
#[inline(always)]
pub(crate) fn draw_by_mode<C: ChunkDrawer, L: Ledger>(
    vram: &mut Vram,
    span: &Span,
    chunks: &C,
    steps: &mut Steps<L>,
)
    requires { C.serves chunks.now span.now vram.old }
    ensures drawn { DrawsSpan span.now (C.spared chunks.now (min span.now.n 16))
        (at_stage vram.old steps.old) (at_stage vram.new steps.new) }
    ensures serves { C.serves chunks.now span.now vram.new }
{
    if is_only_blended(&span.brush) {
        draw_blended(vram, span, chunks, steps);
    } else {
        let span = *span;
        draw_chunks(vram, &span, chunks, steps);
    }
}
