// How chunks of textured pixels are drawn.
ghost use Rattle.std.specs.Prelude.{◌≡◌, ◌≤◌, ◌+◌, length, slice_index, ◌&&◌, not, false};
ghost use Rattle.px_num.specs.Lanes.{EachLane};
ghost use Rattle.vram_store.specs.Chunk.{AgreesApart};
ghost use Rattle.span_lanes.specs.Chunks.Chunk.{chunk_place, drawn_chunk, HasChunk};
ghost use Rattle.span_lanes.specs.Draws.{CanSample, IsChunk};
ghost use Rattle.span_lanes.specs.Hazard.Guard.{HasHazard};
ghost use Rattle.span_lanes.specs.RowSetup.{AreDrawn, IsRowShading, HasTexels, AreModulated};
ghost use Rattle.span_lanes.specs.Chunks.Lanes.{IsDrawnOver, AreDitherLanesAt};
ghost use Rattle.span_lanes.specs.Shade.{IsSpan};

use crate::Texture;
use crate::attributes::color_lanes::{ColorSource, DitherLanes, undithered_by};
use crate::attributes::shading::{RowShading, is_dithered};
use crate::chunks::blended::blended_of_texels;
use crate::chunks::loops::{ChunkDrawer, store_chunk};
use crate::clut::modulated::{ModulatedClut, ModulatedTexels, modulated_texels, texels_by_index};
use crate::span::Chunk;
use crate::texels::sampler::{IndexSampler, Sampler};
use px_num::lanes::{are_zero, splat, where_equal};
use std::simd::prelude::*;
use std::sync::ledger::Ledger;
use vram_store::mask::{force_lanes, over_lanes};
use vram_store::{Steps, Vram};

// Returns the values of sixteen cells after the halfwords `plotted` of their texels are written over them under the
// mask setting. A texel of 0 changes nothing.
#[inline(always)]
fn drawn_over(mask: u8, cells: u16x16, texels: u16x16, plotted: u16x16) -> u16x16
    requires long { (length cells ≡ 16) × (length texels ≡ 16) × (length plotted ≡ 16) }
    ensures long { length result ≡ 16 }
    ensures value { EachLane (λ i. IsDrawnOver mask (slice_index cells i) (slice_index texels i)
        (slice_index plotted i) (slice_index result i)) }
{
    let written = over_lanes(mask, cells, force_lanes(mask, plotted));
    where_equal(texels, splat(0), cells, written)
}

// Returns the values that a chunk's cells become. `drawn` has its texels, as read and modulated. Costs at most one
// step.
#[inline(always)]
fn blended_texels<L: Ledger>(
    vram: &Vram,
    texture: &Texture,
    drawn: ModulatedTexels,
    chunk: &Chunk,
    steps: &mut Steps<L>,
) -> u16x16
    requires sample { CanSample chunk.now.span.now texture.now vram.now }
    requires chunk { IsChunk chunk.now }
    requires drawn { AreDrawn texture.now chunk.now vram.now drawn }
    ensures long { length result ≡ 16 }
    ensures lanes { HasChunk chunk.now vram.now result }
    ensures cost { steps.new ≤ steps.old + 1 }
{
    let brush = chunk.span.brush;
    let back = vram.load16(chunk.span.x + chunk.first, chunk.span.y, chunk.k, steps);
    let plotted = blended_of_texels(&brush, texture.raw, back, drawn, chunk.k);
    drawn_over(brush.mask, back, drawn.texels, plotted)
}

// Draws a chunk without a hazard. `drawn` has its texels, as read and modulated. Costs at most two steps.
#[inline(always)]
pub(crate) fn draw_texels<L: Ledger>(
    vram: &mut Vram,
    texture: &Texture,
    drawn: ModulatedTexels,
    chunk: &Chunk,
    steps: &mut Steps<L>,
)
    requires sample { CanSample chunk.now.span.now texture.now vram.old }
    requires chunk { IsChunk chunk.now }
    requires free { HasHazard chunk.now.span.now chunk.now.first chunk.now.k → ⊥ }
    requires drawn { AreDrawn texture.now chunk.now vram.old drawn }
    ensures cells { vram.new ≡ drawn_chunk chunk.now vram.old }
    ensures others { AgreesApart (chunk_place chunk.now.span.now chunk.now.first) chunk.now.k vram.old vram.new }
    ensures cost { steps.new ≤ steps.old + 2 }
{
    let lanes = blended_texels(vram, texture, drawn, chunk, steps);
    store_chunk(vram, chunk, lanes, steps);
}

// Draws a chunk without a hazard. `texels` are its texels, `shading` the colours of its span. Costs at most two steps.
#[inline(always)]
pub(crate) fn draw_shaded<L: Ledger>(
    vram: &mut Vram,
    texture: &Texture,
    shading: &RowShading,
    texels: u16x16,
    chunk: &Chunk,
    steps: &mut Steps<L>,
)
    requires sample { CanSample chunk.now.span.now texture.now vram.old }
    requires chunk { IsChunk chunk.now }
    requires free { HasHazard chunk.now.span.now chunk.now.first chunk.now.k → ⊥ }
    requires shading { IsRowShading chunk.now.span.now texture.now shading.now }
    requires texels { HasTexels texture.now chunk.now vram.old texels }
    ensures cells { vram.new ≡ drawn_chunk chunk.now vram.old }
    ensures others { AgreesApart (chunk_place chunk.now.span.now chunk.now.first) chunk.now.k vram.old vram.new }
    ensures cost { steps.new ≤ steps.old + 2 }
{
    let modulated = shaded_texels(
        texture,
        &shading.row_colors,
        shading.dither_lanes,
        texels,
        chunk,
    );
    draw_texels(
        vram,
        texture,
        ModulatedTexels { texels, modulated },
        chunk,
        steps,
    );
}

// Draws raw texels.
#[derive(Clone, Copy)]
pub(crate) struct Raw<S> {
    pub(crate) texture: Texture,
    pub(crate) sampler: S,
}

// Draws texels, modulated by their colours unless raw.
#[derive(Clone, Copy)]
pub(crate) struct ShadedTexels<S> {
    pub(crate) texture: Texture,
    pub(crate) sampler: S,
    pub(crate) shading: RowShading,
}

// Draws four-bit texels with a CLUT that was read and modulated before.
#[derive(Clone, Copy)]
pub(crate) struct CachedClut<'a, S> {
    pub(crate) texture: Texture,
    pub(crate) sampler: S,
    pub(crate) modulated_clut: &'a ModulatedClut,
}

impl<S: Sampler> ChunkDrawer for Raw<S> {
    ghost use Rattle.std.specs.Prelude.{◌≡◌, true};
    ghost use Rattle.span_lanes.specs.Clut.CachedClut.{CanTakeTexels};

    ghost serves = { λ c s m. CanTakeTexels s c.texture (S.finds c.sampler s c.texture) m × (c.texture.raw ≡ true) };

    ghost spared = { λ c k. 0 };

    #[inline(always)]
    fn draw_chunk<L: Ledger>(&self, vram: &mut Vram, chunk: &Chunk, steps: &mut Steps<L>) {
        let texels = self.sampler.read_texels(vram, &self.texture, chunk, steps);
        let drawn = ModulatedTexels {
            texels,
            modulated: texels,
        };
        draw_texels(vram, &self.texture, drawn, chunk, steps);
    }

    ghost can = { λ c s m serves. serves.0.sample.can };
}

impl<S: Sampler> ChunkDrawer for ShadedTexels<S> {
    ghost use Rattle.span_lanes.specs.Clut.CachedClut.{CanTakeTexels};
    ghost use Rattle.span_lanes.specs.RowSetup.{IsRowShading};

    ghost serves = { λ c s m.
        CanTakeTexels s c.texture (S.finds c.sampler s c.texture) m × IsRowShading s c.texture c.shading };

    ghost spared = { λ c k. 0 };

    #[inline(always)]
    fn draw_chunk<L: Ledger>(&self, vram: &mut Vram, chunk: &Chunk, steps: &mut Steps<L>) {
        let texels = self.sampler.read_texels(vram, &self.texture, chunk, steps);
        draw_shaded(vram, &self.texture, &self.shading, texels, chunk, steps);
    }

    ghost can = { λ c s m serves. serves.0.sample.can };
}

impl<S: IndexSampler> ChunkDrawer for CachedClut<'_, S> {
    ghost use Rattle.span_lanes.specs.Clut.CachedClut.{CanUseCached};

    ghost serves = { λ c s m. CanUseCached s c.texture (S.finds c.sampler s c.texture) c.modulated_clut.now m };

    // The CLUT is not read again.
    ghost spared = { λ c k. 1 };

    #[inline(always)]
    fn draw_chunk<L: Ledger>(&self, vram: &mut Vram, chunk: &Chunk, steps: &mut Steps<L>) {
        let index = self.sampler.read_indexes(vram, &self.texture, chunk, steps);
        let drawn = texels_by_index(self.modulated_clut, self.texture.raw, index);
        if !S::SKIPS_EMPTY_CHUNKS || !are_zero(drawn.texels) {
            draw_texels(vram, &self.texture, drawn, chunk, steps);
        }
    }

    ghost can = { λ c s m serves. serves.can.sample.can };
}

// As [`modulated_texels`], for a span that is not dithered.
#[inline(always)]
fn undithered_texels<H: ColorSource>(
    texture: &Texture,
    row_colors: &H,
    texels: u16x16,
    chunk: &Chunk,
) -> u16x16
    requires span { IsSpan chunk.now.span.now }
    requires row_colors { H.suits row_colors.now chunk.now.span.now }
    requires even { (chunk.now.span.now.brush.dither && not texture.now.raw) ≡ false }
    requires chunk { IsChunk chunk.now }
    requires long { length texels ≡ 16 }
    ensures long { length result ≡ 16 }
    ensures modulated { AreModulated texture.now chunk.now texels result }
{
    if texture.raw {
        texels
    } else {
        undithered_by(texels, row_colors.colors(chunk))
    }
}

// As [`modulated_texels`], with less work if the span is not dithered.
#[inline(always)]
pub(crate) fn shaded_texels<H: ColorSource>(
    texture: &Texture,
    row_colors: &H,
    dither_lanes: DitherLanes,
    texels: u16x16,
    chunk: &Chunk,
) -> u16x16
    requires span { IsSpan chunk.now.span.now }
    requires row_colors { H.suits row_colors.now chunk.now.span.now }
    requires dither_lanes { AreDitherLanesAt (chunk.now.span.now.brush.dither && not texture.now.raw)
        chunk.now.span.now.x chunk.now.span.now.y dither_lanes.lanes }
    requires chunk { IsChunk chunk.now }
    requires long { length texels ≡ 16 }
    ensures long { length result ≡ 16 }
    ensures modulated { AreModulated texture.now chunk.now texels result }
{
    if is_dithered(chunk.span.brush.dither, texture.raw) {
        modulated_texels(texture, row_colors, dither_lanes, texels, chunk)
    } else {
        undithered_texels(texture, row_colors, texels, chunk)
    }
}
