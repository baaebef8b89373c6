// What a packet draws, and the vertices of polygons.
ghost use Rattle.std.specs.Prelude.{◌≡◌, ◌≤◌, ◌+◌, ◌*◌, length};
ghost use Rattle.gp0_packets.specs.Ranges.{IsInRange, IsPolyInRange, IsPlace};
ghost use Rattle.prim_draw.specs.Areas.{area_of, polygon_area};
ghost use Rattle.prim_draw.specs.Costs.{draw_cost, polygon_cost};
ghost use Rattle.prim_draw.specs.Draw.{drawn_packet};
ghost use Rattle.prim_draw.specs.Triangles.{drawn_polygon, placed_corners};

use crate::boxes::{area_of, joined};
use crate::lines::{draw_segment, placed_ends};
use crate::rectangles::{extent_at, rectangle_setup_in};
use crate::settings::{Style, placed, style_of};
use crate::triangles::draw_triangle;
use gp0_packets::Packet;
use gp1_status::Regs;
use px_num::{Box2, Vertex};
use std::marker::Model;
use std::sync::ledger::Ledger;
use vram_store::{Steps, Vram};

// Draws a polygon, a quad as two triangles, and returns its area.
#[tactic(auto, unfolding(crate::specs::Triangles::drawn_polygon, crate::specs::Costs::polygon_cost, crate::specs::Areas::polygon_area))]
#[inline(always)]
fn draw_polygon<L: Ledger>(
    vram: &mut Vram,
    regs: &Regs,
    style: &Style,
    polygon: &Polygon,
    steps: &mut Steps<L>,
) -> Option<Box2>
    requires range { IsPolyInRange polygon.now.a polygon.now.b polygon.now.c polygon.now.d }
    requires rows { length vram.old ≡ 1024 * regs.now.height }
    ensures area { result ≡ polygon_area regs.now polygon.now }
    ensures cells { vram.new ≡ drawn_polygon regs.now style.now polygon.now vram.old }
    ensures long { length vram.new ≡ length vram.old }
    ensures cost { steps.new ≤ steps.old + polygon_cost regs.now style.now polygon.now }
{
    let Polygon { four, a, b, c, d } = polygon;
    let upper = draw_triangle(vram, regs, style, &placed_corners(regs, a, b, c), steps);
    if *four {
        let lower = draw_triangle(vram, regs, style, &placed_corners(regs, b, c, d), steps);
        joined(upper, lower)
    } else {
        upper
    }
}

/// Draws a polygon, a line or a rectangle. Any other packet changes nothing. Returns the packet's area, as [`area_of`]
/// does.
///
/// The result equals that of drawing one pixel after another. Triangles and rectangles are drawn row by row from the
/// top, and each row from left to right. The points of a line are drawn in their order. Texture page, depth and
/// blending mode are those of the registers. So the page of a textured polygon must be put there before the call.
///
/// Video memory and registers must have the same height, and the packet's fields must be in the ranges that
/// `gp0_packets::decode` returns.
#[inline(always)]
#[tactic(auto, unfolding(crate::specs::Draw::drawn_packet, crate::specs::Costs::draw_cost, crate::specs::Areas::area_of))]
pub fn draw<L: Ledger>(
    vram: &mut Vram,
    regs: &Regs,
    packet: &Packet,
    steps: &mut Steps<L>,
) -> Option<Box2>
    requires range { IsInRange regs.now.height packet.now }
    requires rows { length vram.old ≡ 1024 * regs.now.height }
    ensures area { result ≡ area_of regs.now packet.now }
    ensures cells { vram.new ≡ drawn_packet regs.now packet.now vram.old }
    ensures long { length vram.new ≡ length vram.old }
    ensures cost { steps.new ≤ steps.old + draw_cost regs.now packet.now }
{
    match *packet {
        Packet::Poly {
            four,
            a,
            b,
            c,
            d,
            ..
        } => {
            let polygon = Polygon { four, a, b, c, d };
            draw_polygon(vram, regs, &style_of(packet), &polygon, steps)
        }
        Packet::Segment { a, b, semi } => {
            draw_segment(vram, regs, semi, &placed_ends(regs, &a, &b), steps)
        }
        Packet::Rect {
            x,
            y,
            w,
            h,
            u,
            v,
            ..
        } => {
            let rectangle_setup = rectangle_setup_in(regs, &style_of(packet), u, v);
            rectangle_setup.draw(vram, regs, &extent_at(regs, x, y, w, h), steps)
        }
        Packet::Nop
        | Packet::Irq
        | Packet::Fill { .. }
        | Packet::Copy { .. }
        | Packet::Load { .. }
        | Packet::Store { .. }
        | Packet::Pixels { .. }
        | Packet::Finish
        | Packet::Env { .. } => area_of(regs, packet),
    }
}

/// The vertices of a triangle in packet order, with the drawing offset added.
#[derive(Drop)]
pub(crate) struct Corners {
    pub(crate) first: Vertex,
    pub(crate) second: Vertex,
    pub(crate) third: Vertex,
}

impl Model for Corners {
    ghost use Rattle.edge_walk.specs.Triangle.{Corners, corners};

    ghost Value = { Corners };

    ghost view = { λ c. corners c.first c.second c.third };
}

/// Returns three vertices of a packet, with the drawing offset added.
#[inline(always)]
pub(crate) fn placed_corners(regs: &Regs, a: &Vertex, b: &Vertex, c: &Vertex) -> Corners
    requires a { IsPlace a.now.x a.now.y }
    requires b { IsPlace b.now.x b.now.y }
    requires c { IsPlace c.now.x c.now.y }
    ensures { result ≡ placed_corners regs.now a.now b.now c.now }
{
    Corners {
        first: placed(regs, a),
        second: placed(regs, b),
        third: placed(regs, c),
    }
}

/// A polygon by its vertices, without the drawing offset. With three vertices, the fourth equals the third.
#[derive(Clone, Copy)]
pub(crate) struct Polygon {
    /// Whether it has four vertices. Then it is the triangles 1-2-3 and 2-3-4.
    pub(crate) four: bool,
    /// The first vertex.
    pub(crate) a: Vertex,
    /// The second.
    pub(crate) b: Vertex,
    /// The third.
    pub(crate) c: Vertex,
    /// The fourth.
    pub(crate) d: Vertex,
}
