// Texels and CLUT entries, modulated by colours.
ghost use Rattle.std.specs.Prelude.{◌≡◌, ◌&&◌, not, pos, length, slice_index, ◌≤◌, ◌<◌, ◌+◌, IfSome, IsTrue};
ghost use Rattle.px_num.specs.Lanes.{EachLane, AreBytes};
ghost use Rattle.span_lanes.specs.Draws.{IsChunk};
ghost use Rattle.span_lanes.specs.Chunks.Lanes.{AreDitherLanesAt};
ghost use Rattle.span_lanes.specs.RowSetup.{AreModulated, IsRowSetup};
ghost use Rattle.span_lanes.specs.Shade.{IsSpan, modulated_texel};
ghost use Rattle.span_lanes.specs.Clut.ModulatedClut.{IsModulatedClut, AreClutEntries, HasModulatedClut, IsModulatedBy};
ghost use Rattle.span_lanes.specs.Clut.ModulatedClut.{CanCacheClut};
ghost use Rattle.texel_lanes.specs.Table.{entry_at};

use crate::attributes::color_lanes::{
    ColorSource, DitherLanes, modulated_by, one_color, undithered_by,
};
use crate::attributes::shading::has_undithered_clut16;
use crate::rows::by_coords::RowSetup;
use crate::span::Chunk;
use crate::{Span, Texture};
use std::simd::prelude::*;
use std::sync::ledger::Ledger;
use texel_lanes::{Table, entries_at, sixteen_entries, table_of};
use vram_store::{Steps, Vram};

// Returns sixteen texels, modulated by one colour without dither, or unchanged if `raw` is true.
#[inline(always)]
#[tactic(auto, unfolding(crate::specs::Shade::modulated_texel))]
pub(crate) fn modulated_entries(raw: bool, color: u32, texels: u16x16) -> u16x16
    requires long { length texels ≡ 16 }
    ensures long { length result ≡ 16 }
    ensures value { EachLane (λ j. slice_index result j ≡ modulated_texel raw color (pos 0) (slice_index texels j)) }
{
    if raw {
        texels
    } else {
        undithered_by(texels, one_color(color))
    }
}

// Returns the texels of a chunk, modulated by the colours of its span, or unchanged if the texture is raw.
// `dither_lanes` are the dither offsets from the span's first cell on.
#[inline(always)]
pub(crate) fn modulated_texels<H: ColorSource>(
    texture: &Texture,
    row_colors: &H,
    dither_lanes: DitherLanes,
    texels: u16x16,
    chunk: &Chunk,
) -> u16x16
    requires span { IsSpan chunk.now.span.now }
    requires row_colors { H.suits row_colors.now chunk.now.span.now }
    requires dither_lanes { AreDitherLanesAt (chunk.now.span.now.brush.dither && not texture.now.raw)
        chunk.now.span.now.x chunk.now.span.now.y dither_lanes.lanes }
    requires chunk { IsChunk chunk.now }
    requires long { length texels ≡ 16 }
    ensures long { length result ≡ 16 }
    ensures modulated { AreModulated texture.now chunk.now texels result }
{
    if texture.raw {
        texels
    } else {
        modulated_by(texels, row_colors.colors(chunk), dither_lanes)
    }
}

// The sixteen entries of a CLUT, and the same entries modulated by `color`, or unchanged if `raw` is true.
#[derive(Clone, Copy)]
pub(crate) struct ModulatedClut {
    pub(crate) raw: bool,
    pub(crate) color: u32,
    pub(crate) entries: Table,
    pub(crate) modulated: Table,
}

// Sixteen texels, and the same texels modulated by their colours.
#[derive(Clone, Copy)]
pub(crate) struct ModulatedTexels {
    pub(crate) texels: u16x16,
    pub(crate) modulated: u16x16,
}

// Returns sixteen CLUT entries, and the same entries modulated by `color`, or unchanged if `raw` is true.
#[inline(always)]
fn modulated(raw: bool, color: u32, entries: u16x16) -> ModulatedClut
    requires { length entries ≡ 16 }
    ensures modulated { IsModulatedClut result }
    ensures raw { result.raw ≡ raw }
    ensures color { result.color ≡ color }
    ensures entries { EachLane (λ i. entry_at result.entries i ≡ slice_index entries i) }
{
    ModulatedClut {
        raw,
        color,
        entries: table_of(entries),
        modulated: table_of(modulated_entries(raw, color, entries)),
    }
}

// Returns whether a CLUT is cached with this `raw` and `color`.
#[inline(always)]
fn is_modulated_by(last: &Option<ModulatedClut>, raw: bool, color: u32) -> bool
    ensures { IsTrue result → IsModulatedBy last.now raw color }
{
    match last {
        None => false,
        Some(cached) => cached.raw == raw && cached.color == color,
    }
}

// Makes `last` the texture's CLUT, modulated by `color`, or unchanged if the texture is raw. Reads nothing if `last`
// is already so. Entries in `last` must equal those in video memory. Costs at most one step.
#[inline(always)]
#[tactic(auto, using(crate::proofs::ModulatedClutLemmas::clut_is, crate::proofs::ModulatedClutLemmas::clut_kept))]
pub(crate) fn cache_clut<L: Ledger>(
    vram: &Vram,
    texture: &Texture,
    color: u32,
    last: &mut Option<ModulatedClut>,
    steps: &mut Steps<L>,
)
    requires modulated { IfSome last.old IsModulatedClut }
    requires fresh { IfSome last.old (λ s. AreClutEntries texture.now vram.now s.entries) }
    ensures clut { HasModulatedClut texture.now vram.now color last.new }
    ensures cost { steps.new ≤ steps.old + 1 }
{
    if !is_modulated_by(last, texture.raw, color) {
        let entries = sixteen_entries(vram, texture.clut, steps);
        *last = Some(modulated(texture.raw, color, entries));
    }
}

// Returns the CLUT entries at sixteen indexes below 16, and the same entries modulated. `raw` must be that of
// `modulated_clut`.
#[inline(always)]
#[tactic(auto, unfolding(crate::specs::Shade::modulated_texel))]
pub(crate) fn texels_by_index(
    modulated_clut: &ModulatedClut,
    raw: bool,
    index: u8x16,
) -> ModulatedTexels
    requires modulated { IsModulatedClut modulated_clut.now }
    requires raw { modulated_clut.now.raw ≡ raw }
    requires bytes { AreBytes index }
    requires low { EachLane (λ i. slice_index index i < 16) }
    ensures long { (length result.texels ≡ 16) × (length result.modulated ≡ 16) }
    ensures texels { EachLane (λ i. slice_index result.texels i
        ≡ entry_at modulated_clut.now.entries (slice_index index i)) }
    ensures modulated { EachLane (λ i. slice_index result.modulated i
        ≡ modulated_texel raw modulated_clut.now.color (pos 0) (slice_index result.texels i)) }
{
    let texels = entries_at(&modulated_clut.entries, index);
    let modulated = if raw {
        texels
    } else {
        entries_at(&modulated_clut.modulated, index)
    };
    ModulatedTexels { texels, modulated }
}

// Returns true only if the CLUT can be modulated once for the whole span. It then has sixteen entries, and the span
// has no hazard and no dither.
pub(crate) fn suits(span: &Span, row_setup: &RowSetup) -> bool
    requires row_setup { IsRowSetup span.now row_setup.now }
    ensures { IsTrue result → CanCacheClut 0 span.now row_setup.now.texture }
{
    let texture = &row_setup.texture;
    let even = has_undithered_clut16(texture, &span.brush);
    row_setup.hazard_free && even
}
