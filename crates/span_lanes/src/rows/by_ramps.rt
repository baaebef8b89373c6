// Rows of triangles without a hazard, whose texels are read by coordinates.
ghost use Rattle.span_lanes.specs.declared.attributes.shading.RowColors.TheVariants.{One};
ghost use Rattle.span_lanes.specs.Draws.{DrawsSpan, at_stage};
ghost use Rattle.span_lanes.specs.Attributes.RowColors.{AreRowColors};
ghost use Rattle.span_lanes.specs.Clut.CachedClut.{CanTakeTexels};
ghost use Rattle.span_lanes.specs.Attributes.AttributeRamps.{AreCoordRampsOf, AreAttributeRampsOf};
ghost use Rattle.span_lanes.specs.Clut.ModulatedClut.{IsCached};

use crate::attributes::color_lanes::{DitherLanes, dither_lanes_of};
use crate::attributes::ramps::{AttributeRamps, CoordRamps};
use crate::attributes::shading::{RowColors, is_dithered, row_shading_of};
use crate::chunks::loops::{ChunkDrawer, draw_chunks};
use crate::chunks::textured::{ShadedTexels, draw_texels};
use crate::clut::clut16::{can_cache_clut, draw_cached};
use crate::clut::modulated::{ModulatedClut, ModulatedTexels, modulated_texels};
use crate::span::Chunk;
use crate::texels::sampler::{FlatTexels, Sampler};
use crate::{Span, Texture};
use px_num::halves::wanted_lanes;
use std::sync::ledger::Ledger;
use vram_store::{Steps, Vram};

// Draws a span under its colour, without a cached CLUT.
#[inline(always)]
fn draw_shaded<L: Ledger>(
    vram: &mut Vram,
    span: &Span,
    texels: &FlatTexels<&CoordRamps>,
    steps: &mut Steps<L>,
)
    requires take { CanTakeTexels span.now texels.now.texture.now
        (AreCoordRampsOf span.now.paint texels.now.sampler.now) vram.old }
    requires one_color { AreRowColors span.now.paint span.now.x span.now.y span.now.n (One texels.now.color) }
    ensures { DrawsSpan span.now 0 (at_stage vram.old steps.old) (at_stage vram.new steps.new) }
{
    let row_colors = RowColors::One {
        color: texels.color,
    };
    let shaded = ShadedTexels {
        texture: *texels.texture,
        sampler: texels.sampler,
        shading: row_shading_of(span, texels.texture, row_colors),
    };
    draw_chunks(vram, span, &shaded, steps);
}

// Draws a row of a triangle of one colour. It must have no hazard. If the CLUT can be modulated once, caches it in
// `last`; otherwise sets `last` to `None`. Entries in `last` must equal those in video memory.
#[inline(never)]
pub(crate) fn draw_flat_texels<L: Ledger>(
    vram: &mut Vram,
    span: &Span,
    texels: &FlatTexels<&CoordRamps>,
    last: &mut Option<ModulatedClut>,
    steps: &mut Steps<L>,
)
    requires take { CanTakeTexels span.now texels.now.texture.now
        (AreCoordRampsOf span.now.paint texels.now.sampler.now) vram.old }
    requires one_color { AreRowColors span.now.paint span.now.x span.now.y span.now.n (One texels.now.color) }
    requires last { IsCached span.now.paint vram.old last.old }
    ensures drawn { DrawsSpan span.now 0 (at_stage vram.old steps.old) (at_stage vram.new steps.new) }
    ensures last { IsCached span.now.paint vram.new last.new }
{
    if can_cache_clut(span, texels.texture) {
        draw_cached(vram, span, texels, last, steps);
    } else {
        *last = None;
        draw_shaded(vram, span, texels, steps);
    }
}

// Draws texels by coordinates, under the colours of a triangle.
#[derive(Clone, Copy)]
struct GouraudTexels<'a> {
    texture: &'a Texture,
    ramps: &'a AttributeRamps,
    dither_lanes: DitherLanes,
}

impl<'a> ChunkDrawer for GouraudTexels<'a> {
    ghost use Rattle.std.specs.Prelude.{◌&&◌, not};
    ghost use Rattle.span_lanes.specs.Clut.CachedClut.{CanTakeTexels};
    ghost use Rattle.span_lanes.specs.Chunks.Lanes.{AreDitherLanesAt};
    ghost use Rattle.span_lanes.specs.Attributes.AttributeRamps.{AreColorsOf, AreCoordRampsOf};

    ghost serves = { λ c s m. CanTakeTexels s c.texture.now (AreCoordRampsOf s.paint c.ramps.now.coord_ramps) m
        × AreColorsOf s.paint c.ramps.now.colors
        × AreDitherLanesAt (s.brush.dither && not c.texture.now.raw) s.x s.y c.dither_lanes.lanes };

    ghost spared = { λ c k. 0 };

    // If the chunk has at most eight cells, the other lanes are 0, so the compiler drops their computation.
    #[inline(always)]
    fn draw_chunk<L: Ledger>(&self, vram: &mut Vram, chunk: &Chunk, steps: &mut Steps<L>) {
        let AttributeRamps {
            coord_ramps,
            colors,
        } = self.ramps;
        let texels = coord_ramps.read_texels(vram, self.texture, chunk, steps);
        let modulated = modulated_texels(self.texture, colors, self.dither_lanes, texels, chunk);
        let drawn = ModulatedTexels {
            texels,
            modulated: wanted_lanes(chunk.k, modulated),
        };
        draw_texels(vram, self.texture, drawn, chunk, steps);
    }

    ghost can = { λ c s m serves. serves.0.sample.can };
}

// Draws a row of a triangle of any colours. It must have no hazard. `ramps` must be those of its paint.
#[inline(never)]
pub(crate) fn draw_gouraud_texels<L: Ledger>(
    vram: &mut Vram,
    span: &Span,
    texture: &Texture,
    ramps: &AttributeRamps,
    steps: &mut Steps<L>,
)
    requires take { CanTakeTexels span.now texture.now
        (AreCoordRampsOf span.now.paint ramps.now.coord_ramps) vram.old }
    requires ramps { AreAttributeRampsOf span.now.paint ramps.now }
    ensures { DrawsSpan span.now 0 (at_stage vram.old steps.old) (at_stage vram.new steps.new) }
{
    let dither = is_dithered(span.brush.dither, texture.raw);
    let dither_lanes = dither_lanes_of(dither, span.x, span.y);
    draw_chunks(
        vram,
        span,
        &GouraudTexels {
            texture,
            ramps,
            dither_lanes,
        },
        steps,
    );
}
