// The colours of a paint, and the colours and dither offsets along a row.
ghost use Rattle.std.specs.Prelude.{◌≡◌, IfSome, ◌+◌, ◌*◌, ℕ, pos, IsTrue, ◌&&◌, not, false};
ghost use Rattle.edge_walk.specs.Held.{divisor_for};
ghost use Rattle.span_lanes.specs.SpanDrawer.{IsShadingOf, IsShadingFor};
ghost use Rattle.span_lanes.specs.declared.attributes.shading.Shading.TheVariants.{OneColor, Planes};
ghost use Rattle.edge_walk.specs.Line.{line_value};
ghost use Rattle.edge_walk.specs.Plane.{IsPlane};
ghost use Rattle.edge_walk.specs.Triangle.{Corners, is_inside};
ghost use Rattle.span_lanes.specs.Shade.{IsSpan};
ghost use Rattle.span_lanes.specs.Attributes.RowColors.{color_at_cell, AreRowColors, AreRowColorsOf, IsLineOf};
ghost use Rattle.span_lanes.specs.Chunks.Lanes.{HasColors};
ghost use Rattle.span_lanes.specs.RowSetup.{IsRowShading};

use crate::attributes::color_lanes::{ColorLanes, ColorSource, DitherLanes, dither_lanes_of};
use crate::span::Chunk;
use crate::{Brush, Span, Texture};
use edge_walk::{Divisor, Plane, RowLine, Tri};

// One colour, or the planes of the three channels over a triangle.
#[derive(Clone, Copy)]
pub(crate) enum Shading {
    OneColor {
        color: u32,
    },
    Planes {
        red: Plane,
        green: Plane,
        blue: Plane,
    },
}

#[inline(never)]
fn gouraud_planes(tri: &Tri, divisor: &Divisor) -> Shading
    requires divisor { divisor.now ≡ divisor_for tri.now }
    ensures { IsShadingOf tri.now result }
{
    let setup = tri.attribute_setup(divisor);
    Shading::Planes {
        red: setup.plane(0),
        green: setup.plane(1),
        blue: setup.plane(2),
    }
}

// Returns the colour of all cells of a triangle if its vertices have the same colour, else `None`.
#[inline(always)]
pub(crate) fn one_color(tri: &Tri) -> Option<u32>
    ensures { IfSome result (λ color. IsShadingOf tri.now (OneColor color)) }
{
    tri.one_color()
}

#[inline(always)]
pub(crate) fn triangle_shading(tri: &Tri, divisor: &Divisor) -> Shading
    requires divisor { divisor.now ≡ divisor_for tri.now }
    ensures { IsShadingOf tri.now result }
{
    match one_color(tri) {
        Some(color) => Shading::OneColor { color },
        None => gouraud_planes(tri, divisor),
    }
}

// The colours of a span's cells: one, or three channels along the row.
#[derive(Clone, Copy)]
pub(crate) enum RowColors {
    One {
        color: u32,
    },
    Lines {
        red: RowLine,
        green: RowLine,
        blue: RowLine,
    },
}

// Returns the values of an attribute's plane along row `y`, from column `x` to the right. The cell (`x`, `y`) must be
// inside the triangle.
#[inline(always)]
pub(crate) fn line_of(plane: &Plane, x: u16, y: u16) -> RowLine
    ensures { (tri : Corners) (which : ℕ)
        → IsPlane tri which plane.now → IsTrue (is_inside tri (pos x) (pos y)) → IsLineOf tri which x y result }
{
    plane.row_line(x as i32, y as i32)
}

#[inline(always)]
fn triangle_lines(red: &Plane, green: &Plane, blue: &Plane, x: u16, y: u16) -> RowColors
    ensures { (tri : Corners) → IsShadingOf tri (Planes red.now green.now blue.now)
        → IsTrue (is_inside tri (pos x) (pos y)) → AreRowColorsOf tri x y result }
{
    RowColors::Lines {
        red: line_of(red, x, y),
        green: line_of(green, x, y),
        blue: line_of(blue, x, y),
    }
}

// Returns the colours of a span's cells. `shading` must be that of its paint.
#[inline(always)]
pub(crate) fn row_colors_of(span: &Span, shading: &Shading) -> RowColors
    requires span { IsSpan span.now }
    requires shading { IsShadingFor span.now.paint shading.now }
    ensures { AreRowColors span.now.paint span.now.x span.now.y span.now.n result }
{
    match shading {
        Shading::OneColor { color } => RowColors::One { color: *color },
        Shading::Planes { red, green, blue } => triangle_lines(red, green, blue, span.x, span.y),
    }
}

#[inline(always)]
fn line_colors(red: &RowLine, green: &RowLine, blue: &RowLine, first: u16) -> ColorLanes
    ensures { HasColors
        (λ j. line_value red.now first j + 256 * line_value green.now first j + 65536 * line_value blue.now first j)
        16 result.red result.green result.blue }
{
    ColorLanes {
        red: red.lanes(first),
        green: green.lanes(first),
        blue: blue.lanes(first),
    }
}

// Returns the colours of the sixteen cells from cell `first` on.
#[inline(always)]
pub(crate) fn color_lanes_of(row_colors: &RowColors, first: u16) -> ColorLanes
    ensures { HasColors (λ j. color_at_cell row_colors.now first j) 16 result.red result.green result.blue }
{
    match row_colors {
        RowColors::One { color } => crate::attributes::color_lanes::one_color(*color),
        RowColors::Lines { red, green, blue } => line_colors(red, green, blue, first),
    }
}

impl ColorSource for RowColors {
    ghost suits = { λ row_colors s. AreRowColors s.paint s.x s.y s.n row_colors };

    #[inline(always)]
    fn colors(&self, chunk: &Chunk) -> ColorLanes {
        color_lanes_of(self, chunk.first)
    }
}

// The colours of a span's cells, and the dither offsets from its first cell on.
#[derive(Clone, Copy)]
pub(crate) struct RowShading {
    pub(crate) row_colors: RowColors,
    pub(crate) dither_lanes: DitherLanes,
}

pub(crate) fn is_dithered(dither: bool, raw: bool) -> bool
    ensures { result ≡ (dither && not raw) }
{
    dither && !raw
}

// Returns whether texels have four bits and are not dithered. Then a CLUT entry under one colour is the same in all
// cells.
#[inline(always)]
pub(crate) fn has_undithered_clut16(texture: &Texture, brush: &Brush) -> bool
    ensures depth { IsTrue result → texture.now.page.depth ≡ 0 }
    ensures even { IsTrue result → (brush.now.dither && not texture.now.raw) ≡ false }
{
    texture.page.depth == 0 && !is_dithered(brush.dither, texture.raw)
}

// Returns whether texels have eight bits, and are modulated but not dithered.
pub(crate) fn has_modulated_clut256(texture: &Texture, brush: &Brush) -> bool
    ensures depth { IsTrue result → texture.now.page.depth ≡ 1 }
    ensures raw { IsTrue result → texture.now.raw ≡ false }
    ensures even { IsTrue result → (brush.now.dither && not texture.now.raw) ≡ false }
{
    texture.page.depth == 1 && !texture.raw && !brush.dither
}

#[inline(always)]
pub(crate) fn row_shading_of(span: &Span, texture: &Texture, row_colors: RowColors) -> RowShading
    requires span { IsSpan span.now }
    requires row_colors { AreRowColors span.now.paint span.now.x span.now.y span.now.n row_colors }
    ensures { IsRowShading span.now texture.now result }
{
    let dither = is_dithered(span.brush.dither, texture.raw);
    RowShading {
        row_colors,
        dither_lanes: dither_lanes_of(dither, span.x, span.y),
    }
}
