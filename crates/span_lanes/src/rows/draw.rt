// The choice of the loop that draws a span.
//
// A loop over chunks is compiled separately (`draw_chunks` with one type of `ChunkDrawer`) if what is known of a span
// saves work in each chunk. These are the loops. "Opaque" pixels are neither blended nor tested, and their bit 15 is
// not forced. In brackets: a workload of the benchmark.
//
// - `Solid`, in `draw_solid_span`: all cells become one halfword, and nothing is read. [triangle flat]
// - `FlatCells`, five in `draw_flat_span`, for one colour: one for each blending mode [rectangle B+F], and one for
//   pixels that are tested or dithered, or blended with a forced bit 15.
// - `GouraudCells`, two in `draw_gouraud_span`: the colours of a triangle, opaque or not. [triangle gouraud]
// - `CachedClut<TexelRun>`, in `CachedClutMethod::draw_row`: a cached CLUT and opaque pixels. The loop is inlined
//   into the loop over the rows. [triangle 4-bit modulated]
// - `CachedClut<&CoordRamps>` and `ShadedTexels<&CoordRamps>`, in `draw_flat_texels`: texels by coordinates under one
//   colour, without a hazard. No workload runs them.
// - `GouraudTexels`, in `draw_gouraud_texels`: the same under several colours. [triangle turned, gouraud, dithered]
// - `CachedClut<TexelRun>`, four in `draw_cached_run`: a cached CLUT for other spans, raw or not, opaque or not.
// - `Raw<FourBitRun>`, `Raw<EightBitRun>`, `Raw<FifteenBitRun>`, each opaque or not, in `draw_raw`: contiguous raw
//   texels. [triangle 15-bit raw]
// - `ShadedTexels` of the same three, each opaque or not, in `draw_dithered` and in `draw_undithered`: contiguous
//   modulated texels. [triangle 4-bit modulated, dithered; rectangle 15-bit modulated]
// - `CachedClut<&TexCoords>` and `RowSetup`, by the coordinates of each texel: in `draw_row_by_coords` [rectangle that
//   is flipped], and in `draw_tri`, if spans in the triangle's clip rectangle may have a hazard. In such a rectangle,
//   `draw_contiguous_tri` draws contiguous rows without a hazard by the loops above. [triangle 15-bit raw, edge of
//   its page]
//
// Rectangles that cache their CLUT for all rows have four more loops, of `CachedClut<SpriteRun>`, in
// `CachedClutRows::draw_row` [rectangle, sprite 4-bit], and for eight-bit texels two of `CachedClut256`, opaque or not,
// in `CachedClut256Rows::draw_row` [rectangle 8-bit modulated]. `ContiguousRows` draws other contiguous rows without a
// hazard by the loops of `draw_raw` and `draw_undithered`. [rectangle 15-bit raw]
ghost use Rattle.std.specs.Prelude.{◌≡◌};
ghost use Rattle.span_lanes.specs.Draws.{CanDraw, DrawsSpan, at_stage};
ghost use Rattle.span_lanes.specs.Paints.{row_paint};
ghost use Rattle.span_lanes.specs.SpanDrawer.{state_of};
ghost use Rattle.span_lanes.specs.PaintSetup.{IsPaintSetup};
ghost use Rattle.span_lanes.specs.Clut.ModulatedClut.{IsCached};

use crate::Span;
use crate::attributes::shading::Shading;
use crate::chunks::untextured::{draw_flat_span, draw_gouraud_span};
use crate::clut::modulated::ModulatedClut;
use crate::hazard::is_run_hazard_free;
use crate::rows::by_coords::{draw_by_coords, draw_contiguous_tri, draw_tri, rectangle_row_setup};
use crate::rows::contiguous::{draw_contiguous, sampler_of};
use crate::rows::row_drawer::PaintSetup;
use crate::rows::texel_rows::TexelRow;
use crate::texels::texel_run::rectangle_row_run;
use std::sync::ledger::Ledger;
use vram_store::{Steps, Vram};

// Draws a row of texels by their coordinates. `row` must be the span's paint.
#[inline(never)]
fn draw_row_by_coords<L: Ledger>(
    vram: &mut Vram,
    span: &Span,
    row: &TexelRow,
    last: &mut Option<ModulatedClut>,
    steps: &mut Steps<L>,
)
    requires can { CanDraw span.now vram.old }
    requires paint { span.now.paint ≡ row_paint row.now }
    requires last { IsCached span.now.paint vram.old last.old }
    ensures drawn { DrawsSpan span.now 0 (at_stage vram.old steps.old) (at_stage vram.new steps.new) }
    ensures last { IsCached span.now.paint vram.new last.new }
{
    let row_setup = rectangle_row_setup(span, row);
    draw_by_coords(vram, span, &row_setup, last, steps);
}

// Draws a row of texels: by [`draw_contiguous`] if they are contiguous and known to have no hazard, otherwise by their
// coordinates. `row` must be the span's paint. Entries in `last` must equal those in video memory.
#[inline(always)]
pub(crate) fn draw_texel_row<L: Ledger>(
    vram: &mut Vram,
    span: &Span,
    row: &TexelRow,
    last: &mut Option<ModulatedClut>,
    steps: &mut Steps<L>,
)
    requires can { CanDraw span.now vram.old }
    requires paint { span.now.paint ≡ row_paint row.now }
    requires last { IsCached span.now.paint vram.old last.old }
    ensures drawn { DrawsSpan span.now 0 (at_stage vram.old steps.old) (at_stage vram.new steps.new) }
    ensures last { IsCached span.now.paint vram.new last.new }
{
    match rectangle_row_run(span, row) {
        Some(texel_run) if is_run_hazard_free(span, &row.texture, texel_run) => {
            let found = sampler_of(&row.texture, texel_run);
            let shading = Shading::OneColor { color: row.color };
            draw_contiguous(vram, span, &found, &shading, last, steps)
        }
        _ => {
            let (span, row) = (*span, *row);
            draw_row_by_coords(vram, &span, &row, last, steps);
        }
    }
}

// Draws a span. `ready` must be the setup of its paint and pixel settings. Entries in `last` must equal those in video
// memory.
#[inline(never)]
pub(crate) fn draw_ready<L: Ledger>(
    vram: &mut Vram,
    span: &Span,
    ready: &PaintSetup,
    last: &mut Option<ModulatedClut>,
    steps: &mut Steps<L>,
)
    requires can { CanDraw span.now vram.old }
    requires ready { IsPaintSetup (state_of span.now) ready.now }
    requires last { IsCached span.now.paint vram.old last.old }
    ensures drawn { DrawsSpan span.now 0 (at_stage vram.old steps.old) (at_stage vram.new steps.new) }
    ensures last { IsCached span.now.paint vram.new last.new }
{
    match ready {
        PaintSetup::One { color } => draw_flat_span(vram, span, *color, steps),
        PaintSetup::Gouraud { ramps } => draw_gouraud_span(vram, span, ramps, steps),
        PaintSetup::Tri { setup } => draw_tri(vram, span, setup, last, steps),
        PaintSetup::ContiguousTri { setup } => draw_contiguous_tri(vram, span, setup, last, steps),
    }
}
