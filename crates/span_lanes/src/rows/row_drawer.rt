// What draws runs of cells, row by row, and the setup of a paint for all its spans.
ghost use Rattle.span_lanes.specs.PaintSetup.{HasSetup, IsPaintSetup};
ghost use Rattle.span_lanes.specs.declared.span.Brush.{Brush};
ghost use Rattle.span_lanes.specs.declared.span.Paint.TheVariants.{Shaded, TexturedTri};

use crate::attributes::ramps::{ColorRamps, color_ramps_of};
use crate::attributes::shading::one_color;
use crate::attributes::triangle_setup::{TriangleSetup, triangle_setup_of};
use crate::rows::triangle::is_contiguous;
use crate::span::Run;
use crate::{Brush, Paint, Texture};
use edge_walk::Tri;
use std::sync::ledger::Ledger;
use vram_store::{Steps, Vram};

/// Draws runs of cells, as many as there are. Whatever is equal for all of them is computed once.
pub(crate) trait RowDrawer: Drop {
    ghost use Rattle.std.specs.Prelude.{ℕ, ◌≡◌, List};
    ghost use Rattle.span_lanes.specs.Draws.{CanDraw};
    ghost use Rattle.span_lanes.specs.Pattern.{Pattern, run_span};
    ghost use Rattle.span_lanes.specs.SpanDrawer.{DrawsCells};
    ghost use Rattle.span_lanes.specs.declared.span.Run.{Run};

    // The pattern that it draws with.
    ghost pattern: { Self → Pattern };

    // The runs that it may be given.
    ghost reaches: { Self → ℕ → Run → Type 0 };

    // Holds if the CLUT that it caches, if any, is the one in video memory.
    ghost fresh: { Self → List ℕ → Type 0 };

    /// Draws the cells of a run of row `y`, as [`draw_span`](crate::draw_span) does.
    fn draw<L: Ledger>(&mut self, vram: &mut Vram, run: Run, y: u16, steps: &mut Steps<L>)
        requires can { CanDraw (run_span (pattern self.old) y run) vram.old }
        requires reaches { reaches self.old y run }
        requires fresh { fresh self.old vram.old }
        ensures drawn { DrawsCells (run_span (pattern self.old) y run)
            (record { m = vram.old; steps = steps.old }) (record { m = vram.new; steps = steps.new }) }
        ensures pattern { pattern self.new ≡ pattern self.old }
        ensures reaches { (y : ℕ) (run : Run) → reaches self.old y run → reaches self.new y run }
        ensures fresh { fresh self.new vram.new };
}

// What all spans with one paint and the same pixel settings share.
#[derive(Clone, Copy)]
pub(crate) enum PaintSetup {
    // one colour without a texture
    One { color: u32 },
    // the colours of a triangle without a texture
    Gouraud { ramps: ColorRamps },
    // a textured triangle whose texels are read by their coordinates
    Tri { setup: TriangleSetup },
    // a textured triangle whose texels are contiguous in each row
    ContiguousTri { setup: TriangleSetup },
}

// Returns the setup of the colours of a triangle.
fn shaded_setup(tri: &Tri) -> PaintSetup
    ensures { (brush : Brush) → IsPaintSetup (record { paint = Shaded tri.now; brush = brush }) result }
{
    match one_color(tri) {
        Some(color) => PaintSetup::One { color },
        None => PaintSetup::Gouraud {
            ramps: color_ramps_of(tri, &tri.area_divisor()),
        },
    }
}

// Returns the setup of a textured triangle.
fn tri_setup(tri: &Tri, texture: &Texture, brush: &Brush) -> PaintSetup
    ensures { IsPaintSetup (record { paint = TexturedTri tri.now texture.now; brush = brush.now }) result }
{
    let setup = triangle_setup_of(tri, texture, brush);
    if is_contiguous(tri, texture) {
        PaintSetup::ContiguousTri { setup }
    } else {
        PaintSetup::Tri { setup }
    }
}

// Returns the setup of a paint with these pixel settings. The paint must not be a row of texels.
pub(crate) fn paint_setup_of(paint: &Paint, brush: &Brush) -> PaintSetup
    requires { HasSetup paint.now }
    ensures { IsPaintSetup (record { paint = paint.now; brush = brush.now }) result }
{
    match paint {
        Paint::Flat { color } => PaintSetup::One { color: *color },
        Paint::Shaded { tri } => shaded_setup(tri),
        Paint::TexturedTri { tri, texture } => tri_setup(tri, texture, brush),
        Paint::TexturedRow { .. } => unreachable!(),
    }
}
