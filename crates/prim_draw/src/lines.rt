// Segments, point by point.
ghost use Rattle.std.specs.Prelude.{◌≡◌, ◌≤◌, ◌<◌, ◌+◌, ◌*◌, ℕ, IfSome, length, true, if◌then◌else◌, Some, false};
ghost use Rattle.vram_store.specs.Vram.{height_of};
ghost use Rattle.gp0_packets.specs.Ranges.{IsPlace};
ghost use Rattle.line_walk.specs.Line.{len_of, point_of};
ghost use Rattle.prim_draw.specs.Costs.{ends_cost, points_cost};
ghost use Rattle.prim_draw.specs.PointColor.{ArePointsColored, IsInMemory, colored_points, IsPointColor};
ghost use Rattle.prim_draw.specs.Lines.{drawn_ends, drawn_point, drawn_points, ends_box, is_in, placed_ends};
ghost use Rattle.prim_draw.specs.Lines.{segment_box, plotted};
ghost use Rattle.gp1_status.specs.Drawing.{IsArea};
ghost use Rattle.vram_store.specs.Plot.{is_testing};

use crate::boxes::{box_from, clipped, greatest, is_in, least, screen_point_of};
use crate::settings::{brush_in, placed};
use gp1_status::Regs;
use line_walk::Segment;
use px_num::{Box2, Cell, Vertex};
use span_lanes::Brush;
use std::marker::Model;
use std::sync::ledger::Ledger;
use vram_store::mask::{force, tests, write_color};
use vram_store::{Steps, Vram};

// Draws a point, which must be in the drawing area. Costs at most two steps.
fn draw_inside<L: Ledger>(
    vram: &mut Vram,
    area: &Box2,
    brush: &Brush,
    point: &Vertex,
    steps: &mut Steps<L>,
)
    requires area { IsArea (height_of vram.old) area.now }
    requires inside { is_in area.now point.now ≡ true }
    requires mode { brush.now.mode ≤ 3 }
    ensures cells { vram.new ≡ drawn_point area.now brush.now point.now vram.old }
    ensures long { length vram.new ≡ length vram.old }
    ensures cost { steps.new ≤ steps.old + 2 }
{
    let to = Cell {
        x: point.x as u16,
        y: point.y as u16,
    };
    plot_color(vram, brush, to, point.color, steps);
}

// Draws a point if it is in the drawing area. Costs at most two steps, and none outside it.
fn draw_point<L: Ledger>(
    vram: &mut Vram,
    area: &Box2,
    brush: &Brush,
    point: &Vertex,
    steps: &mut Steps<L>,
)
    requires area { IsArea (height_of vram.old) area.now }
    requires mode { brush.now.mode ≤ 3 }
    ensures cells { vram.new ≡ drawn_point area.now brush.now point.now vram.old }
    ensures long { length vram.new ≡ length vram.old }
    ensures cost { steps.new ≤ steps.old + (if is_in area.now point.now then 2 else 0) }
{
    if is_in(area, point) {
        draw_inside(vram, area, brush, point, steps);
    }
}

// Returns whether both ends of a segment are in a box. Then all its points are.
fn lies_in(b: &Box2, segment: &Segment) -> bool
    ensures first { result ≡ true → is_in b.now segment.now.first ≡ true }
    ensures second { result ≡ true → is_in b.now segment.now.second ≡ true }
{
    is_in(b, &segment.first()) && is_in(b, &segment.second())
}

// Returns the halfword that each point of a segment becomes. Returns `None` if points may become different halfwords or
// be outside the drawing area.
fn point_color_for(area: &Box2, brush: &Brush, segment: &Segment) -> Option<u16>
    requires { brush.now.mode ≤ 3 }
    ensures { IfSome result (λ point_color. ArePointsColored area.now brush.now segment.now point_color) }
{
    let color = segment.first().color;
    if color != segment.second().color {
        None
    } else if lies_in(area, segment) {
        point_color_of(brush, color % 0x100_0000)
    } else {
        None
    }
}

// Writes `point_color` to each point of a segment. All must be in video memory. Costs one step per point.
fn put_points<L: Ledger>(vram: &mut Vram, segment: &Segment, point_color: u16, steps: &mut Steps<L>)
    requires in_memory { (k : ℕ) → k < len_of segment.now
        → IsInMemory (height_of vram.old) (point_of segment.now k) }
    ensures cells { vram.new ≡ colored_points segment.now point_color (len_of segment.now) vram.old }
    ensures long { length vram.new ≡ length vram.old }
    ensures cost { steps.new ≡ steps.old + len_of segment.now }
{
    let points = segment.len();
    let mut walk = segment.walk();
    for k in 0..points {
        let point = walk.next();
        vram.put(point.x as u16, point.y as u16, point_color, steps);
    }
}

// Draws the points of a segment that are in the drawing area, in their order. Costs at most two steps for each of them.
fn draw_points<L: Ledger>(
    vram: &mut Vram,
    area: &Box2,
    brush: &Brush,
    segment: &Segment,
    steps: &mut Steps<L>,
)
    requires area { IsArea (height_of vram.old) area.now }
    requires mode { brush.now.mode ≤ 3 }
    ensures cells { vram.new ≡ drawn_points area.now brush.now segment.now (len_of segment.now) vram.old }
    ensures long { length vram.new ≡ length vram.old }
    ensures cost { steps.new ≤ steps.old + points_cost area.now segment.now (len_of segment.now) }
{
    if let Some(point_color) = point_color_for(area, brush, segment) {
        put_points(vram, segment, point_color, steps);
        return;
    }
    let mut walk = segment.walk();
    for k in 0..segment.len() {
        draw_point(vram, area, brush, &walk.next(), steps);
    }
}

/// The ends of a segment in packet order, with the drawing offset added.
#[derive(Drop)]
pub(crate) struct Ends {
    first: Vertex,
    second: Vertex,
}

impl Model for Ends {
    ghost use Rattle.line_walk.specs.Line.{Ends, ends};

    ghost Value = { Ends };

    ghost view = { λ s. ends s.first s.second };
}

/// Returns two vertices of a packet, with the drawing offset added.
pub(crate) fn placed_ends(regs: &Regs, a: &Vertex, b: &Vertex) -> Ends
    requires a { IsPlace a.now.x a.now.y }
    requires b { IsPlace b.now.x b.now.y }
    ensures { result ≡ placed_ends regs.now a.now b.now }
{
    Ends {
        first: placed(regs, a),
        second: placed(regs, b),
    }
}

/// Draws a segment and returns its box, as [`segment_box`] does.
#[tactic(auto, unfolding(crate::specs::Lines::segment_box))]
pub(crate) fn draw_segment<L: Ledger>(
    vram: &mut Vram,
    regs: &Regs,
    semi: bool,
    ends: &Ends,
    steps: &mut Steps<L>,
) -> Option<Box2>
    requires rows { length vram.old ≡ 1024 * regs.now.height }
    ensures area { result ≡ segment_box regs.now ends.now }
    ensures cells { vram.new ≡ drawn_ends regs.now semi ends.now vram.old }
    ensures long { length vram.new ≡ length vram.old }
    ensures cost { steps.new ≤ steps.old + ends_cost regs.now ends.now }
{
    match Segment::new(ends.first, ends.second) {
        None => None,
        Some(segment) => {
            let brush = brush_in(regs, semi, true);
            draw_points(vram, &regs.drawing_area(), &brush, &segment, steps);
            clipped(regs, &ends_box(ends))
        }
    }
}

#[tactic(auto, unfolding(crate::specs::Lines::ends_box))]
fn ends_box(ends: &Ends) -> Box2
    ensures { result ≡ ends_box ends.now }
{
    let (a, b) = (screen_point_of(&ends.first), screen_point_of(&ends.second));
    box_from(&least(&a, &b), &greatest(&a, &b))
}

/// Returns the box of a segment in the drawing area. Returns `None` if no cell of the box is in it or the size rule
/// refuses the segment.
#[tactic(auto, unfolding(crate::specs::Lines::segment_box))]
pub(crate) fn segment_box(regs: &Regs, ends: &Ends) -> Option<Box2>
    ensures value { result ≡ segment_box regs.now ends.now }
{
    match Segment::new(ends.first, ends.second) {
        None => None,
        Some(_) => clipped(regs, &ends_box(ends)),
    }
}

// Plots a colour at a cell, which is read first. Costs at most two steps.
fn plot_seen<L: Ledger>(vram: &mut Vram, brush: &Brush, to: Cell, color: u32, steps: &mut Steps<L>)
    requires in_row { to.x < 1024 }
    requires in_height { to.y < height_of vram.old }
    requires mode { brush.now.mode ≤ 3 }
    ensures cells { vram.new ≡ plotted brush.now to color vram.old }
    ensures long { length vram.new ≡ length vram.old }
    ensures cost { steps.new ≤ steps.old + 2 }
{
    let back = vram.get(to.x, to.y, steps);
    let shift = brush.dither_offset(to.x, to.y);
    let pixel = brush.pixel_over(color, shift, back);
    if let Some(halfword) = write_color(brush.mask, back, pixel) {
        vram.put(to.x, to.y, halfword, steps);
    }
}

// Plots a colour at a cell without reading it. The pixel must be neither blended nor tested. Costs at most two steps.
#[tactic(auto, unfolding(vram_store::specs::Plot::plot, vram_store::specs::Plot::is_kept))]
fn plot_unseen<L: Ledger>(
    vram: &mut Vram,
    brush: &Brush,
    to: Cell,
    color: u32,
    steps: &mut Steps<L>,
)
    requires in_row { to.x < 1024 }
    requires in_height { to.y < height_of vram.old }
    requires mode { brush.now.mode ≤ 3 }
    requires opaque { brush.now.semi ≡ false }
    requires untested { is_testing brush.now.mask ≡ false }
    ensures cells { vram.new ≡ plotted brush.now to color vram.old }
    ensures long { length vram.new ≡ length vram.old }
    ensures cost { steps.new ≤ steps.old + 2 }
{
    let shift = brush.dither_offset(to.x, to.y);
    let pixel = brush.pixel_over(color, shift, 0);
    vram.put(to.x, to.y, force(brush.mask, pixel), steps);
}

/// Plots a colour at a cell of video memory. Costs at most two steps.
pub(crate) fn plot_color<L: Ledger>(
    vram: &mut Vram,
    brush: &Brush,
    to: Cell,
    color: u32,
    steps: &mut Steps<L>,
)
    requires in_row { to.x < 1024 }
    requires in_height { to.y < height_of vram.old }
    requires mode { brush.now.mode ≤ 3 }
    ensures cells { vram.new ≡ plotted brush.now to color vram.old }
    ensures long { length vram.new ≡ length vram.old }
    ensures cost { steps.new ≤ steps.old + 2 }
{
    if brush.semi {
        plot_seen(vram, brush, to, color, steps);
    } else if tests(brush.mask) {
        plot_seen(vram, brush, to, color, steps);
    } else {
        plot_unseen(vram, brush, to, color, steps);
    }
}

// Returns whether the plotted halfword may depend on the cell's value or position: it is blended, dithered or tested.
fn asks_for_cell(brush: &Brush) -> bool
    ensures opaque { result ≡ false → brush.now.semi ≡ false }
    ensures undithered { result ≡ false → brush.now.dither ≡ false }
    ensures untested { result ≡ false → is_testing brush.now.mask ≡ false }
{
    brush.semi || brush.dither || tests(brush.mask)
}

/// Returns the halfword that a colour becomes in every cell, or `None` if it may depend on the cell.
pub(crate) fn point_color_of(brush: &Brush, color: u32) -> Option<u16>
    requires { brush.now.mode ≤ 3 }
    ensures { IfSome result (λ point_color. IsPointColor brush.now color point_color) }
{
    if asks_for_cell(brush) {
        None
    } else {
        Some(force(brush.mask, brush.pixel_over(color, 0, 0)))
    }
}
