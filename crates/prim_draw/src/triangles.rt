// Triangles, row by row.
ghost use Rattle.std.specs.Prelude.{◌≡◌, ◌≤◌, ◌<◌, ◌+◌, ◌*◌, IfSome, length, true, ◌||◌};
ghost use Rattle.edge_walk.specs.Extent.{bounding_box};
ghost use Rattle.edge_walk.specs.Triangle.{is_drawn, Corners};
ghost use Rattle.texel_lanes.specs.Texture.{HasPage, IsTexture};
ghost use Rattle.span_lanes.specs.Figures.Boxes.{IsOnScreen, LiesInBox};
ghost use Rattle.prim_draw.specs.Costs.{triangle_cost};
ghost use Rattle.prim_draw.specs.Triangles.{drawn_triangle, triangle_box, triangle_state, triangle_paint};
ghost use Rattle.span_lanes.specs.Figures.Triangles.{IsTriangleState, paint_with, state_with, texture_with};

use crate::boxes::clipped;
use crate::primitives::Corners;
use crate::settings::{Style, brush_in, texture_in};
use edge_walk::Tri;
use gp1_status::Regs;
use px_num::Box2;
use span_lanes::{TrianglePaint, TriangleState};
use std::sync::ledger::Ledger;
use vram_store::{Steps, Vram};

#[inline(always)]
#[tactic(auto, unfolding(crate::specs::Triangles::triangle_paint))]
fn paint_of(regs: &Regs, style: &Style) -> TrianglePaint
    ensures value { (t : Corners) → paint_with result t ≡ triangle_paint regs.now style.now t }
    ensures texture { IfSome (texture_with result) IsTexture }
    ensures page { IfSome (texture_with result) (HasPage regs.now.height) }
{
    if style.textured {
        TrianglePaint::Textured {
            texture: texture_in(regs, style.clut, style.raw),
        }
    } else if style.shaded {
        TrianglePaint::Gouraud
    } else {
        TrianglePaint::OneColor { color: style.color }
    }
}

#[inline(always)]
#[tactic(auto, unfolding(crate::specs::Triangles::triangle_state))]
fn state_of(regs: &Regs, style: &Style) -> TriangleState
    ensures value { (t : Corners) → state_with result t ≡ triangle_state regs.now style.now t }
    ensures is { IsTriangleState regs.now.height result }
{
    TriangleState {
        paint: paint_of(regs, style),
        brush: brush_in(regs, style.semi, style.shaded || style.textured),
    }
}

// Returns a triangle's box, cut by the drawing area. `None` if that has no cell.
fn clip_of(regs: &Regs, tri: &Tri) -> Option<Box2>
    requires drawn { is_drawn tri.now ≡ true }
    ensures value { result ≡ triangle_box regs.now tri.now }
    ensures on_screen { IfSome result (IsOnScreen regs.now.height) }
    ensures in_reach { regs.now.height ≤ 1024 }
    ensures inside { IfSome result (LiesInBox (bounding_box tri.now)) }
{
    clipped(regs, &tri.bounds())
}

fn draw_clipped<L: Ledger>(
    vram: &mut Vram,
    regs: &Regs,
    style: &Style,
    tri: &Tri,
    steps: &mut Steps<L>,
) -> Option<Box2>
    requires rows { length vram.old ≡ 1024 * regs.now.height }
    requires drawn { is_drawn tri.now ≡ true }
    ensures area { result ≡ triangle_box regs.now tri.now }
    ensures cells { vram.new ≡ drawn_triangle regs.now style.now tri.now vram.old }
    ensures long { length vram.new ≡ length vram.old }
    ensures cost { steps.new ≤ steps.old + triangle_cost regs.now style.now tri.now }
{
    let area = clip_of(regs, tri);
    if let Some(clip) = &area {
        span_lanes::draw_triangle(vram, &state_of(regs, style), tri, clip, steps);
    }
    area
}

/// Draws a triangle, and returns its box as [`triangle_box`] does.
#[tactic(auto, unfolding(crate::specs::Triangles::triangle_box, crate::specs::Triangles::drawn_triangle))]
pub(crate) fn draw_triangle<L: Ledger>(
    vram: &mut Vram,
    regs: &Regs,
    style: &Style,
    corners: &Corners,
    steps: &mut Steps<L>,
) -> Option<Box2>
    requires rows { length vram.old ≡ 1024 * regs.now.height }
    ensures area { result ≡ triangle_box regs.now corners.now }
    ensures cells { vram.new ≡ drawn_triangle regs.now style.now corners.now vram.old }
    ensures long { length vram.new ≡ length vram.old }
    ensures cost { steps.new ≤ steps.old + triangle_cost regs.now style.now corners.now }
{
    match Tri::new(corners.first, corners.second, corners.third) {
        None => None,
        Some(tri) => draw_clipped(vram, regs, style, &tri, steps),
    }
}

/// Returns the box of a triangle in the drawing area. `None` if the box has no cell, the size rule refuses the
/// triangle, or its area is 0.
#[tactic(auto, unfolding(crate::specs::Triangles::triangle_box))]
pub(crate) fn triangle_box(regs: &Regs, corners: &Corners) -> Option<Box2>
    ensures value { result ≡ triangle_box regs.now corners.now }
{
    match Tri::new(corners.first, corners.second, corners.third) {
        None => None,
        Some(tri) => clip_of(regs, &tri),
    }
}
