// Spans of four-bit texels whose CLUT is modulated once.
ghost use Rattle.std.specs.Prelude.{◌≡◌, IsTrue};
ghost use Rattle.span_lanes.specs.Draws.{DrawsSpan, at_stage};
ghost use Rattle.span_lanes.specs.Hazard.Guard.{IsHazardFree};
ghost use Rattle.span_lanes.specs.Clut.CachedClut.{CanModulateClut, CanUseCached};
ghost use Rattle.span_lanes.specs.TexelRun.{IsTexelRun};
ghost use Rattle.span_lanes.specs.Clut.ModulatedClut.{IsCached, CanCacheClut};

use crate::attributes::shading::has_undithered_clut16;
use crate::chunks::loops::{draw_by_brush, draw_chunks};
use crate::chunks::textured::CachedClut;
use crate::clut::modulated::{ModulatedClut, cache_clut};
use crate::rows::contiguous::with_raw;
use crate::texels::sampler::{FlatTexels, IndexSampler};
use crate::texels::texel_run::TexelRun;
use crate::{Span, Texture};
use std::sync::ledger::Ledger;
use vram_store::{Steps, Vram};

// Returns true only if the CLUT can be modulated once for the whole span: texels have four bits, and pixels are not
// dithered. The span must have no hazard.
#[inline(always)]
pub(crate) fn can_cache_clut(span: &Span, texture: &Texture) -> bool
    requires { IsHazardFree span.now }
    ensures { IsTrue result → CanCacheClut 0 span.now texture.now }
{
    has_undithered_clut16(texture, &span.brush)
}

// Returns the chunk drawer of these texels, with the modulated CLUT `modulated_clut`.
#[inline(always)]
fn cached_under<'a, S: Copy>(
    texels: &FlatTexels<S>,
    modulated_clut: &'a ModulatedClut,
) -> CachedClut<'a, S>
    ensures texture { result.texture ≡ texels.now.texture.now }
    ensures sampler { result.sampler ≡ texels.now.sampler }
    ensures modulated_clut { result.modulated_clut.now ≡ modulated_clut.now }
{
    CachedClut {
        texture: *texels.texture,
        sampler: texels.sampler,
        modulated_clut,
    }
}

// Draws a span with its modulated CLUT, which is then cached in `last`, by one loop for all pixel settings. Entries
// in `last` must equal those in video memory.
#[inline(always)]
pub(crate) fn draw_cached<S: IndexSampler + Copy, L: Ledger>(
    vram: &mut Vram,
    span: &Span,
    texels: &FlatTexels<S>,
    last: &mut Option<ModulatedClut>,
    steps: &mut Steps<L>,
)
    requires can { CanModulateClut 0 span.now texels.now.texture.now texels.now.color vram.old }
    requires finds { S.finds texels.now.sampler span.now texels.now.texture.now }
    requires last { IsCached span.now.paint vram.old last.old }
    ensures drawn { DrawsSpan span.now 0 (at_stage vram.old steps.old) (at_stage vram.new steps.new) }
    ensures last { IsCached span.now.paint vram.new last.new }
{
    cache_clut(vram, texels.texture, texels.color, last, steps);
    if let Some(modulated_clut) = &*last {
        draw_chunks(vram, span, &cached_under(texels, modulated_clut), steps);
    }
}

// Draws a span with its modulated CLUT, by one of four loops: raw or modulated, opaque or not.
#[inline(always)]
fn draw_by_raw<L: Ledger>(
    vram: &mut Vram,
    span: &Span,
    cached: &CachedClut<TexelRun>,
    steps: &mut Steps<L>,
)
    requires { CanUseCached span.now cached.now.texture (IsTexelRun span.now cached.now.texture cached.now.sampler)
        cached.now.modulated_clut.now vram.old }
    ensures drawn { DrawsSpan span.now 1 (at_stage vram.old steps.old) (at_stage vram.new steps.new) }
    ensures cached { CanUseCached span.now cached.now.texture
        (IsTexelRun span.now cached.now.texture cached.now.sampler)
        cached.now.modulated_clut.now vram.new }
{
    if cached.texture.raw {
        let texture = with_raw(&cached.texture, true);
        draw_by_brush(vram, span, &CachedClut { texture, ..*cached }, steps);
    } else {
        let texture = with_raw(&cached.texture, false);
        draw_by_brush(vram, span, &CachedClut { texture, ..*cached }, steps);
    }
}

// As [`draw_cached`], for contiguous texels and by one of four loops: raw or modulated, opaque or not.
#[inline(always)]
pub(crate) fn draw_cached_run<L: Ledger>(
    vram: &mut Vram,
    span: &Span,
    texels: &FlatTexels<TexelRun>,
    last: &mut Option<ModulatedClut>,
    steps: &mut Steps<L>,
)
    requires can { CanModulateClut 0 span.now texels.now.texture.now texels.now.color vram.old }
    requires finds { IsTexelRun span.now texels.now.texture.now texels.now.sampler }
    requires last { IsCached span.now.paint vram.old last.old }
    ensures drawn { DrawsSpan span.now 0 (at_stage vram.old steps.old) (at_stage vram.new steps.new) }
    ensures last { IsCached span.now.paint vram.new last.new }
{
    cache_clut(vram, texels.texture, texels.color, last, steps);
    if let Some(modulated_clut) = &*last {
        draw_by_raw(vram, span, &cached_under(texels, modulated_clut), steps);
    }
}
