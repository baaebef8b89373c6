// Rows of contiguous texels without a hazard: loops for each depth, raw or modulated, with a cached CLUT if
// that is possible.
ghost use Rattle.std.specs.Prelude.{◌≡◌, true, false};
ghost use Rattle.span_lanes.specs.Draws.{DrawsSpan, at_stage};
ghost use Rattle.span_lanes.specs.Clut.CachedClut.{CanTakeTexels};
ghost use Rattle.span_lanes.specs.SpanDrawer.{IsShadingFor};
ghost use Rattle.span_lanes.specs.TexelRun.{IsTexelRun};
ghost use Rattle.span_lanes.specs.RowSetup.{IsRowShading};
ghost use Rattle.span_lanes.specs.Shade.{IsSpan};
ghost use Rattle.span_lanes.specs.TriangleDrawer.{AreContiguous};
ghost use Rattle.span_lanes.specs.Attributes.TriangleSetup.{CanDrawSetup};
ghost use Rattle.span_lanes.specs.Clut.ModulatedClut.{IsCached};

use crate::attributes::shading::{Shading, row_colors_of, row_shading_of};
use crate::attributes::triangle_setup::TriangleSetup;
use crate::chunks::loops::{OwnLoop, draw_by_brush};
use crate::chunks::textured::{Raw, ShadedTexels};
use crate::clut::clut16::{can_cache_clut, draw_cached_run};
use crate::clut::modulated::ModulatedClut;
use crate::span::with_dither;
use crate::texels::sampler::{FlatTexels, Sampler};
use crate::texels::texel_run::{
    EightBitRun, FifteenBitRun, FourBitRun, TexelRun, triangle_row_run,
};
use crate::{Span, Texture};
use std::sync::ledger::Ledger;
use vram_store::{Steps, Vram};

// A texture with its sampler.
#[derive(Clone, Copy)]
pub(crate) struct BoundSampler<'a, S> {
    pub(crate) texture: &'a Texture,
    pub(crate) sampler: S,
}

#[inline(always)]
pub(crate) fn sampler_of<S>(texture: &Texture, sampler: S) -> BoundSampler<'_, S>
    ensures texture { result.texture.now ≡ texture.now }
    ensures sampler { result.sampler ≡ sampler }
{
    BoundSampler { texture, sampler }
}

// Returns the same texture. `raw` must be the texture's. The compiler then knows its value.
#[inline(always)]
pub(crate) fn with_raw(texture: &Texture, raw: bool) -> Texture
    requires { texture.now.raw ≡ raw }
    ensures { result ≡ texture.now }
{
    Texture { raw, ..*texture }
}

// Name the loops for dithered pixels and for others.
#[derive(Clone, Copy)]
struct OfDithered {}

#[derive(Clone, Copy)]
struct OfUndithered {}

// Draws a span of raw texels. It must have no hazard.
#[inline(never)]
fn draw_raw<S: Sampler + Copy, L: Ledger>(
    vram: &mut Vram,
    span: &Span,
    found: &BoundSampler<S>,
    steps: &mut Steps<L>,
)
    requires take { CanTakeTexels span.now found.now.texture.now
        (S.finds found.now.sampler span.now found.now.texture.now) vram.old }
    requires raw { found.now.texture.now.raw ≡ true }
    ensures { DrawsSpan span.now 0 (at_stage vram.old steps.old) (at_stage vram.new steps.new) }
{
    let raw = Raw {
        texture: with_raw(found.texture, true),
        sampler: found.sampler,
    };
    draw_by_brush(vram, span, &raw, steps);
}

// Returns the chunk drawer of texels that are modulated by the colours of `shading`.
#[inline(always)]
fn shaded_of<S: Copy>(span: &Span, found: &BoundSampler<S>, shading: &Shading) -> ShadedTexels<S>
    requires span { IsSpan span.now }
    requires raw { found.now.texture.now.raw ≡ false }
    requires shading { IsShadingFor span.now.paint shading.now }
    ensures texture { result.texture ≡ found.now.texture.now }
    ensures sampler { result.sampler ≡ found.now.sampler }
    ensures shading { IsRowShading span.now found.now.texture.now result.shading }
{
    ShadedTexels {
        texture: with_raw(found.texture, false),
        sampler: found.sampler,
        shading: row_shading_of(span, found.texture, row_colors_of(span, shading)),
    }
}

// Draws a span of texels, modulated by the colours of `shading` and dithered. It must have no hazard, and the texture
// must not be raw.
#[inline(never)]
fn draw_dithered<S: Sampler + Copy, L: Ledger>(
    vram: &mut Vram,
    span: &Span,
    found: &BoundSampler<S>,
    shading: &Shading,
    steps: &mut Steps<L>,
)
    requires take { CanTakeTexels span.now found.now.texture.now
        (S.finds found.now.sampler span.now found.now.texture.now) vram.old }
    requires raw { found.now.texture.now.raw ≡ false }
    requires dither { span.now.brush.dither ≡ true }
    requires shading { IsShadingFor span.now.paint shading.now }
    ensures { DrawsSpan span.now 0 (at_stage vram.old steps.old) (at_stage vram.new steps.new) }
{
    let span = with_dither(span, true);
    let own = OwnLoop {
        chunks: &shaded_of(&span, found, shading),
        kind: OfDithered {},
    };
    draw_by_brush(vram, &span, &own, steps);
}

// As [`draw_dithered`], for a span that is not dithered.
#[inline(never)]
fn draw_undithered<S: Sampler + Copy, L: Ledger>(
    vram: &mut Vram,
    span: &Span,
    found: &BoundSampler<S>,
    shading: &Shading,
    steps: &mut Steps<L>,
)
    requires take { CanTakeTexels span.now found.now.texture.now
        (S.finds found.now.sampler span.now found.now.texture.now) vram.old }
    requires raw { found.now.texture.now.raw ≡ false }
    requires dither { span.now.brush.dither ≡ false }
    requires shading { IsShadingFor span.now.paint shading.now }
    ensures { DrawsSpan span.now 0 (at_stage vram.old steps.old) (at_stage vram.new steps.new) }
{
    let span = with_dither(span, false);
    let own = OwnLoop {
        chunks: &shaded_of(&span, found, shading),
        kind: OfUndithered {},
    };
    draw_by_brush(vram, &span, &own, steps);
}

// Draws a span of texels by one of three loops: raw, modulated, or modulated and dithered. It must have no hazard.
#[inline(always)]
fn draw_by_raw<S: Sampler + Copy, L: Ledger>(
    vram: &mut Vram,
    span: &Span,
    found: &BoundSampler<S>,
    shading: &Shading,
    steps: &mut Steps<L>,
)
    requires take { CanTakeTexels span.now found.now.texture.now
        (S.finds found.now.sampler span.now found.now.texture.now) vram.old }
    requires shading { IsShadingFor span.now.paint shading.now }
    ensures { DrawsSpan span.now 0 (at_stage vram.old steps.old) (at_stage vram.new steps.new) }
{
    if found.texture.raw {
        draw_raw(vram, span, found, steps);
    } else if span.brush.dither {
        draw_dithered(vram, span, found, shading, steps);
    } else {
        draw_undithered(vram, span, found, shading, steps);
    }
}

// Draws a span of contiguous texels by a loop for their depth. It must have no hazard. `shading` must be that of its
// paint.
#[inline(always)]
pub(crate) fn draw_texel_run<L: Ledger>(
    vram: &mut Vram,
    span: &Span,
    found: &BoundSampler<TexelRun>,
    shading: &Shading,
    steps: &mut Steps<L>,
)
    requires take { CanTakeTexels span.now found.now.texture.now
        (IsTexelRun span.now found.now.texture.now found.now.sampler) vram.old }
    requires shading { IsShadingFor span.now.paint shading.now }
    ensures { DrawsSpan span.now 0 (at_stage vram.old steps.old) (at_stage vram.new steps.new) }
{
    let (texture, texel_run) = (found.texture, found.sampler);
    match texture.page.depth {
        0 => {
            let fours = sampler_of(texture, FourBitRun { texel_run });
            draw_by_raw(vram, span, &fours, shading, steps);
        }
        1 => {
            let eights = sampler_of(texture, EightBitRun { texel_run });
            draw_by_raw(vram, span, &eights, shading, steps);
        }
        _ => {
            let wholes = sampler_of(texture, FifteenBitRun { texel_run });
            draw_by_raw(vram, span, &wholes, shading, steps);
        }
    }
}

// Draws a span of contiguous texels. It must have no hazard. If the CLUT can be modulated once, caches it in `last`;
// otherwise sets `last` to `None`. Entries in `last` must equal those in video memory.
#[inline(always)]
pub(crate) fn draw_contiguous<L: Ledger>(
    vram: &mut Vram,
    span: &Span,
    found: &BoundSampler<TexelRun>,
    shading: &Shading,
    last: &mut Option<ModulatedClut>,
    steps: &mut Steps<L>,
)
    requires take { CanTakeTexels span.now found.now.texture.now (IsTexelRun span.now found.now.texture.now
        found.now.sampler) vram.old }
    requires shading { IsShadingFor span.now.paint shading.now }
    requires last { IsCached span.now.paint vram.old last.old }
    ensures drawn { DrawsSpan span.now 0 (at_stage vram.old steps.old) (at_stage vram.new steps.new) }
    ensures last { IsCached span.now.paint vram.new last.new }
{
    match shading {
        Shading::OneColor { color } if can_cache_clut(span, found.texture) => {
            let texels = FlatTexels {
                texture: found.texture,
                color: *color,
                sampler: found.sampler,
            };
            draw_cached_run(vram, span, &texels, last, steps)
        }
        _ => {
            *last = None;
            draw_texel_run(vram, span, found, shading, steps)
        }
    }
}

// Draws a row of a triangle, whose texels must be contiguous, as [`draw_contiguous`] does.
#[inline(never)]
pub(crate) fn draw_contiguous_row<L: Ledger>(
    vram: &mut Vram,
    span: &Span,
    setup: &TriangleSetup,
    last: &mut Option<ModulatedClut>,
    steps: &mut Steps<L>,
)
    requires can { CanDrawSetup setup.now span.now vram.old }
    requires contiguous { AreContiguous setup.now.tri setup.now.texture }
    requires last { IsCached span.now.paint vram.old last.old }
    ensures drawn { DrawsSpan span.now 0 (at_stage vram.old steps.old) (at_stage vram.new steps.new) }
    ensures last { IsCached span.now.paint vram.new last.new }
{
    let found = sampler_of(&setup.texture, triangle_row_run(span, setup));
    draw_contiguous(vram, span, &found, &setup.shading, last, steps);
}
