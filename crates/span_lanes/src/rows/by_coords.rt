// Spans whose texels are read by coordinates. Chunks that may have a hazard are tested first.
ghost use Rattle.std.specs.Prelude.{◌≡◌, Some, IsTrue, ◌+◌, false};
ghost use Rattle.span_lanes.specs.Shade.{IsSpan, texture_of};
ghost use Rattle.span_lanes.specs.Hazard.Guard.{IsHazardFree, HasHazard, has_hazard};
ghost use Rattle.span_lanes.specs.Attributes.RowColors.{AreRowColors};
ghost use Rattle.span_lanes.specs.Paints.{row_paint, chunk_u, chunk_v};
ghost use Rattle.span_lanes.specs.SpanDrawer.{state_of};
ghost use Rattle.span_lanes.specs.RowSetup.{IsRowSetup};
ghost use Rattle.span_lanes.specs.Attributes.TriangleSetup.{IsSetupOf};
ghost use Rattle.span_lanes.specs.Attributes.TexCoords.{AreTexCoords};
ghost use Rattle.span_lanes.specs.Draws.{CanDraw, DrawsChunk, IsChunk, at_stage, DrawsSpan};
ghost use Rattle.span_lanes.specs.Chunks.Lanes.{HasCoordinates};
ghost use Rattle.span_lanes.specs.Clut.ModulatedClut.{IsCached};
ghost use Rattle.span_lanes.specs.TriangleDrawer.{AreContiguous};

use crate::attributes::shading::{RowColors, RowShading, row_colors_of, row_shading_of};
use crate::attributes::tex_coords::{
    CoordAlongRow, TexCoords, tex_coord_lanes, triangle_tex_coords,
};
use crate::attributes::triangle_setup::TriangleSetup;
use crate::chunks::loops::{ChunkDrawer, draw_cells, draw_chunks};
use crate::chunks::textured::draw_shaded;
use crate::clut::clut16::draw_cached;
use crate::clut::modulated::{ModulatedClut, suits};
use crate::hazard::{is_hazard_free, is_row_hazard_free, is_run_hazard_free, reads_itself};
use crate::rows::contiguous::{draw_contiguous, sampler_of};
use crate::rows::texel_rows::TexelRow;
use crate::span::Chunk;
use crate::texels::sampler::FlatTexels;
use crate::texels::texel_run::triangle_row_run;
use crate::{Span, Texture};
use px_num::Cell;
use std::sync::ledger::Ledger;
use texel_lanes::{Coordinates, OneByOne, read_texels};
use vram_store::{Steps, Vram};

// What all chunks of a textured span share.
#[derive(Clone, Copy)]
pub(crate) struct RowSetup {
    pub(crate) texture: Texture,
    pub(crate) shading: RowShading,
    pub(crate) coords: TexCoords,
    // true only if the span has no hazard
    pub(crate) hazard_free: bool,
}

#[inline(always)]
fn row_setup_with(
    span: &Span,
    texture: &Texture,
    row_colors: RowColors,
    coords: TexCoords,
    hazard_free: bool,
) -> RowSetup
    requires span { IsSpan span.now }
    requires texture { texture_of span.now.paint ≡ Some texture.now }
    requires hazard_free { IsTrue hazard_free → IsHazardFree span.now }
    requires row_colors { AreRowColors span.now.paint span.now.x span.now.y span.now.n row_colors }
    requires coords { AreTexCoords span.now.paint span.now.x span.now.y span.now.n coords }
    ensures { IsRowSetup span.now result }
{
    RowSetup {
        texture: *texture,
        shading: row_shading_of(span, texture, row_colors),
        coords,
        hazard_free,
    }
}

// Returns the setup of a row of texels. `row` must be the span's paint.
#[inline(always)]
pub(crate) fn rectangle_row_setup(span: &Span, row: &TexelRow) -> RowSetup
    requires span { IsSpan span.now }
    requires paint { span.now.paint ≡ row_paint row.now }
    ensures { IsRowSetup span.now result }
{
    let coords = TexCoords {
        u: CoordAlongRow::Row {
            u: row.u,
            flip: row.flip,
        },
        v: CoordAlongRow::Same { v: row.v },
    };
    row_setup_with(
        span,
        &row.texture,
        RowColors::One { color: row.color },
        coords,
        is_row_hazard_free(span, row),
    )
}

// Returns the setup of a row of a textured triangle. `setup` must be that of the span.
#[inline(always)]
pub(crate) fn triangle_row_setup(span: &Span, setup: &TriangleSetup) -> RowSetup
    requires span { IsSpan span.now }
    requires setup { IsSetupOf (state_of span.now) setup.now }
    ensures { IsRowSetup span.now result }
{
    let row_colors = row_colors_of(span, &setup.shading);
    let coords = triangle_tex_coords(&setup.coord_planes, span.x, span.y);
    let hazard_free = is_hazard_free(span, &setup.texture);
    row_setup_with(span, &setup.texture, row_colors, coords, hazard_free)
}

// Returns whether a chunk has a hazard. It is not tested if the span is known to have none. `at` has the coordinates of
// the texels.
#[inline(always)]
fn has_hazard(row_setup: &RowSetup, at: &Coordinates, chunk: &Chunk) -> bool
    requires span { IsSpan chunk.now.span.now }
    requires row_setup { IsRowSetup chunk.now.span.now row_setup.now }
    requires chunk { IsChunk chunk.now }
    requires at { HasCoordinates (chunk_u chunk.now) (chunk_v chunk.now) chunk.now.k
        at.now.us at.now.vs }
    ensures free { result ≡ false → HasHazard chunk.now.span.now chunk.now.first chunk.now.k → ⊥ }
    ensures value { result ≡ has_hazard chunk.now.span.now chunk.now.first chunk.now.k }
{
    let to = Cell {
        x: chunk.span.x + chunk.first,
        y: chunk.span.y,
    };
    !row_setup.hazard_free && reads_itself(&row_setup.texture, at, to, chunk.k)
}

// Draws a chunk whose texels have the coordinates `at`: cell after cell if it has a hazard, otherwise at once.
#[inline(never)]
fn draw_guarded<L: Ledger>(
    vram: &mut Vram,
    row_setup: &RowSetup,
    at: &Coordinates,
    chunk: &Chunk,
    steps: &mut Steps<L>,
)
    requires can { CanDraw chunk.now.span.now vram.old }
    requires row_setup { IsRowSetup chunk.now.span.now row_setup.now }
    requires chunk { IsChunk chunk.now }
    requires at { HasCoordinates (chunk_u chunk.now) (chunk_v chunk.now) chunk.now.k at.now.us at.now.vs }
    ensures { DrawsChunk chunk.now 0 (at_stage vram.old steps.old) (at_stage vram.new steps.new) }
{
    if has_hazard(row_setup, at, chunk) {
        draw_cells(vram, chunk, steps);
    } else {
        let texture = &row_setup.texture;
        let texels = read_texels::<OneByOne, L>(vram, texture, at, chunk.k, steps);
        draw_shaded(vram, texture, &row_setup.shading, texels, chunk, steps);
    }
}

impl ChunkDrawer for RowSetup {
    ghost use Rattle.span_lanes.specs.Draws.{CanDraw};
    ghost use Rattle.span_lanes.specs.RowSetup.{IsRowSetup};

    ghost serves = { λ c s m. CanDraw s m × IsRowSetup s c };

    ghost spared = { λ c k. 0 };

    #[inline(always)]
    fn draw_chunk<L: Ledger>(&self, vram: &mut Vram, chunk: &Chunk, steps: &mut Steps<L>) {
        let at = tex_coord_lanes(&self.coords, chunk.first);
        draw_guarded(vram, self, &at, chunk, steps);
    }

    ghost can = { λ c s m serves. serves.0 };
}

// Draws a textured span by the coordinates of its texels. If its CLUT can be modulated once, draws with the cached
// CLUT `last`. Otherwise sets `last` to `None`; chunks that may have a hazard are tested first. Entries in `last`
// must equal those in video memory.
#[inline(always)]
pub(crate) fn draw_by_coords<L: Ledger>(
    vram: &mut Vram,
    span: &Span,
    row_setup: &RowSetup,
    last: &mut Option<ModulatedClut>,
    steps: &mut Steps<L>,
)
    requires can { CanDraw span.now vram.old }
    requires row_setup { IsRowSetup span.now row_setup.now }
    requires last { IsCached span.now.paint vram.old last.old }
    ensures drawn { DrawsSpan span.now 0 (at_stage vram.old steps.old) (at_stage vram.new steps.new) }
    ensures last { IsCached span.now.paint vram.new last.new }
{
    match row_setup.shading.row_colors {
        RowColors::One { color } if suits(span, row_setup) => {
            let texels = FlatTexels {
                texture: &row_setup.texture,
                color,
                sampler: &row_setup.coords,
            };
            draw_cached(vram, span, &texels, last, steps)
        }
        _ => {
            *last = None;
            draw_chunks(vram, span, row_setup, steps)
        }
    }
}

// Draws a row of a textured triangle by the coordinates of its texels. `setup` must be that of the span.
#[inline(never)]
pub(crate) fn draw_tri<L: Ledger>(
    vram: &mut Vram,
    span: &Span,
    setup: &TriangleSetup,
    last: &mut Option<ModulatedClut>,
    steps: &mut Steps<L>,
)
    requires can { CanDraw span.now vram.old }
    requires setup { IsSetupOf (state_of span.now) setup.now }
    requires last { IsCached span.now.paint vram.old last.old }
    ensures drawn { DrawsSpan span.now 0 (at_stage vram.old steps.old) (at_stage vram.new steps.new) }
    ensures last { IsCached span.now.paint vram.new last.new }
{
    let row_setup = triangle_row_setup(span, setup);
    draw_by_coords(vram, span, &row_setup, last, steps);
}

// Draws a row of a textured triangle whose texels are contiguous: by [`draw_contiguous`] if it has no hazard, otherwise
// by their coordinates. `setup` must be that of the span.
#[inline(never)]
pub(crate) fn draw_contiguous_tri<L: Ledger>(
    vram: &mut Vram,
    span: &Span,
    setup: &TriangleSetup,
    last: &mut Option<ModulatedClut>,
    steps: &mut Steps<L>,
)
    requires can { CanDraw span.now vram.old }
    requires setup { IsSetupOf (state_of span.now) setup.now }
    requires contiguous { AreContiguous setup.now.tri setup.now.texture }
    requires last { IsCached span.now.paint vram.old last.old }
    ensures drawn { DrawsSpan span.now 0 (at_stage vram.old steps.old) (at_stage vram.new steps.new) }
    ensures last { IsCached span.now.paint vram.new last.new }
{
    let texel_run = triangle_row_run(span, setup);
    if is_run_hazard_free(span, &setup.texture, texel_run) {
        let found = sampler_of(&setup.texture, texel_run);
        draw_contiguous(vram, span, &found, &setup.shading, last, steps);
    } else {
        draw_tri(vram, span, setup, last, steps);
    }
}
