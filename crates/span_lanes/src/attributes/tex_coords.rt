// Texel coordinates: their planes over a triangle, and their values along a row.
ghost use Rattle.std.specs.Prelude.{◌≡◌, ℕ, pos, IsTrue, ◌≤◌, ◌<◌, ◌+◌, true, false, slice_index};
ghost use Rattle.edge_walk.specs.Held.{divisor_for};
ghost use Rattle.edge_walk.specs.Plane.{IsPlane};
ghost use Rattle.edge_walk.specs.Triangle.{Corners, is_inside};
ghost use Rattle.span_lanes.specs.SpanDrawer.{AreCoordPlanes};
ghost use Rattle.span_lanes.specs.Shade.{attribute_in, row_u};
ghost use Rattle.texel_lanes.specs.Texels.{AreCoordinates};
ghost use Rattle.span_lanes.specs.Attributes.TexCoords.{coord_at, IsCoordAlong};

use crate::Texture;
use crate::attributes::shading::line_of;
use crate::span::Chunk;
use crate::texels::sampler::{CoordSource, IndexSampler, indexes_by_coords};
use edge_walk::{Divisor, Plane, RowLine, Tri};
use px_num::lanes::{add, low_bits, ramp, splat, sub_or_zero};
use std::simd::prelude::*;
use std::sync::ledger::Ledger;
use texel_lanes::Coordinates;
use vram_store::{Steps, Vram};

// The planes of u and v.
#[derive(Clone, Copy)]
pub(crate) struct CoordPlanes {
    pub(crate) u: Plane,
    pub(crate) v: Plane,
}

#[inline(always)]
pub(crate) fn coord_planes_of(tri: &Tri, divisor: &Divisor) -> CoordPlanes
    requires divisor { divisor.now ≡ divisor_for tri.now }
    ensures { AreCoordPlanes tri.now result }
{
    let setup = tri.attribute_setup(divisor);
    CoordPlanes {
        u: setup.plane(3),
        v: setup.plane(4),
    }
}

// Returns the value of an attribute's plane at the cell (`x`, `y`), which must be inside the triangle.
#[inline(always)]
pub(crate) fn value_of(plane: &Plane, x: u16, y: u16) -> u8
    ensures { (tri : Corners) (which : ℕ)
        → IsPlane tri which plane.now → IsTrue (is_inside tri (pos x) (pos y)) → result ≡ attribute_in tri which x y }
{
    plane.value_at(x as i32, y as i32)
}

// One texel coordinate along a row: an attribute of a triangle, a column that increases or decreases from `u`, or one
// value for all cells.
#[derive(Clone, Copy)]
pub(crate) enum CoordAlongRow {
    Line { line: RowLine },
    Row { u: u8, flip: bool },
    Same { v: u8 },
}

// The columns and rows of a span's texels in their page.
#[derive(Clone, Copy)]
pub(crate) struct TexCoords {
    pub(crate) u: CoordAlongRow,
    pub(crate) v: CoordAlongRow,
}

// Returns the texel coordinates of a triangle along row `y`, from column `x` to the right. The cell (`x`, `y`) must be
// inside.
#[inline(always)]
pub(crate) fn triangle_tex_coords(coord_planes: &CoordPlanes, x: u16, y: u16) -> TexCoords
    ensures u { (tri : Corners)
        → AreCoordPlanes tri coord_planes.now → IsTrue (is_inside tri (pos x) (pos y))
        → IsCoordAlong tri 3 x y result.u }
    ensures v { (tri : Corners)
        → AreCoordPlanes tri coord_planes.now → IsTrue (is_inside tri (pos x) (pos y))
        → IsCoordAlong tri 4 x y result.v }
{
    TexCoords {
        u: CoordAlongRow::Line {
            line: line_of(&coord_planes.u, x, y),
        },
        v: CoordAlongRow::Line {
            line: line_of(&coord_planes.v, x, y),
        },
    }
}

// Returns the texel columns of the sixteen cells from cell `first` on. Cell 0 has column `u`, and each next cell 1
// more. They wrap at 256. `first` is at most 1008.
#[inline(always)]
#[tactic(auto, unfolding(crate::specs::Shade::row_u))]
fn rising_columns(u: u8, first: u16) -> u16x16
    requires within { first + 16 ≤ 1024 }
    ensures columns { AreCoordinates result }
    ensures value { (j : ℕ) → j < 16 → slice_index result j ≡ row_u u false (first + j) }
{
    low_bits(add(splat(u as u16 + first), ramp()), 8)
}

// Returns the texel columns of the sixteen cells from cell `first` on. Cell 0 has column `u`, and each next cell 1
// less. They wrap at 256. `first` is at most 1008.
#[inline(always)]
#[tactic(auto, unfolding(crate::specs::Shade::row_u))]
fn falling_columns(u: u8, first: u16) -> u16x16
    requires within { first + 16 ≤ 1024 }
    ensures columns { AreCoordinates result }
    ensures value { (j : ℕ) → j < 16 → slice_index result j ≡ row_u u true (first + j) }
{
    low_bits(sub_or_zero(splat(u as u16 + 1024 - first), ramp()), 8)
}

// Returns the texel columns of the sixteen cells from cell `first` on. Cell 0 has column `u`. They decrease by 1 per
// cell if `flip` is true, otherwise increase by 1, and wrap at 256. `first` is at most 1008.
#[inline(always)]
fn row_columns(u: u8, flip: bool, first: u16) -> u16x16
    requires within { first + 16 ≤ 1024 }
    ensures columns { AreCoordinates result }
    ensures value { (j : ℕ) → j < 16 → slice_index result j ≡ row_u u flip (first + j) }
{
    if flip {
        falling_columns(u, first)
    } else {
        rising_columns(u, first)
    }
}

fn same_rows(v: u8) -> u16x16
    ensures rows { AreCoordinates result }
    ensures value { (j : ℕ) → j < 16 → slice_index result j ≡ v }
{
    splat(v as u16)
}

// Returns one texel coordinate of the sixteen cells from cell `first` on. `first` is at most 1008.
#[inline(always)]
fn coord_lanes(along: &CoordAlongRow, first: u16) -> u16x16
    requires within { first + 16 ≤ 1024 }
    ensures coordinates { AreCoordinates result }
    ensures value { (j : ℕ) → j < 16 → slice_index result j ≡ coord_at along.now first j }
{
    match along {
        CoordAlongRow::Line { line } => line.lanes(first),
        CoordAlongRow::Row { u, flip } => row_columns(*u, *flip, first),
        CoordAlongRow::Same { v } => same_rows(*v),
    }
}

// Returns the texel coordinates of the sixteen cells from cell `first` on. `first` is at most 1008.
#[inline(always)]
pub(crate) fn tex_coord_lanes(coords: &TexCoords, first: u16) -> Coordinates
    requires within { first + 16 ≤ 1024 }
    ensures across { AreCoordinates result.us }
    ensures down { AreCoordinates result.vs }
    ensures u { (j : ℕ) → j < 16 → slice_index result.us j ≡ coord_at coords.now.u first j }
    ensures v { (j : ℕ) → j < 16 → slice_index result.vs j ≡ coord_at coords.now.v first j }
{
    Coordinates {
        us: coord_lanes(&coords.u, first),
        vs: coord_lanes(&coords.v, first),
    }
}

impl CoordSource for TexCoords {
    ghost use Rattle.span_lanes.specs.Attributes.TexCoords.{AreTexCoords};

    ghost places = { λ coords s. AreTexCoords s.paint s.x s.y s.n coords };

    #[inline(always)]
    fn coordinates(&self, chunk: &Chunk) -> Coordinates {
        tex_coord_lanes(self, chunk.first)
    }
}

impl IndexSampler for TexCoords {
    ghost use Rattle.span_lanes.specs.Attributes.TexCoords.{AreTexCoords};

    ghost finds = { λ coords s t. AreTexCoords s.paint s.x s.y s.n coords };

    #[inline(always)]
    fn read_indexes<L: Ledger>(
        &self,
        vram: &Vram,
        texture: &Texture,
        chunk: &Chunk,
        steps: &mut Steps<L>,
    ) -> u8x16 {
        indexes_by_coords(self, vram, texture, chunk, steps)
    }
}
