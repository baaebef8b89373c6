// How the columns that an edge bounds change from row to row.
ghost use Rattle.std.specs.Prelude.{◌≡◌, ◌≤◌, pos, ◌-ℤ◌, int_lt, ◌≤ℤ◌, ◌<ℤ◌};
ghost use Rattle.std.specs.Prelude.{if◌then◌else◌};
ghost use Rattle.px_num.specs.declared.shape.Vertex.{Vertex};
ghost use Rattle.edge_walk.specs.Triangle.{IsNear};
ghost use Rattle.edge_walk.specs.Walk.{ArePartsOver, IsSlope};

use crate::edge::difference;
use px_num::Vertex;

/// The direction in which an edge bounds the columns of a row.
#[derive(Clone, Copy)]
pub(crate) enum Bound {
    /// Columns are at most the edge's column.
    AtMost,
    /// Columns are above the edge's column.
    Above,
}

/// How an edge bounds the columns of a row. The edge's column, relative to that of its first vertex, is `v * scale +
/// slack` in units of 2^-30 of a column. `v` is the edge value in that row at the first vertex's column.
#[derive(Clone, Copy)]
pub(crate) struct Slope {
    pub(crate) bound: Bound,
    pub(crate) scale: i64,
    pub(crate) slack: i64,
}

// The rounding of `scale` moves the edge's column by less than half of this. An edge value that differs by 1 moves it
// by more than twice this. So cells on a rising edge are admitted, those on a falling edge are not, and rounding
// changes no other cell.
const SLACK: i64 = -0x10_0000;

// Returns 2^30 / `rows`, rounded up. `rows` is 1 to 511.
#[inline(always)]
fn parts_over(rows: u32) -> u32
    requires some { 1 ≤ rows }
    requires most { rows ≤ 511 }
    ensures { ArePartsOver rows result }
{
    0x3fff_ffff / rows + 1
}

// Returns the slope of an edge that rises, or falls, by `rows` rows, 1 to 511.
#[inline(always)]
fn steep(rises: bool, rows: u32) -> Slope
    requires some { 1 ≤ rows }
    requires most { rows ≤ 511 }
    ensures { (p q : Vertex) → (q.y -ℤ p.y) ≡ (if rises then pos 0 -ℤ pos rows else pos rows) → IsSlope p q result }
{
    let parts = parts_over(rows) as i64;
    if rises {
        Slope {
            bound: Bound::Above,
            scale: -parts,
            slack: SLACK,
        }
    } else {
        Slope {
            bound: Bound::AtMost,
            scale: parts,
            slack: SLACK,
        }
    }
}

// Returns the slope of a level edge that goes to the right or to the left. In a row it admits all columns of the
// triangle, or none.
#[inline(always)]
fn level(right: bool) -> Slope
    ensures { (p q : Vertex) → q.y ≡ p.y → int_lt p.x q.x ≡ right → IsSlope p q result }
{
    Slope {
        bound: Bound::AtMost,
        scale: 1 << 41,
        slack: if right {
            0x100_0000_0000
        } else {
            -0x100_0000_0000
        },
    }
}

/// Returns the slope of an edge that rises from `p` to `q`.
#[inline(always)]
pub(crate) fn rising(p: &Vertex, q: &Vertex) -> Slope
    requires near { IsNear p.now q.now }
    requires rises { q.now.y <ℤ p.now.y }
    ensures { IsSlope p.now q.now result }
{
    steep(true, difference(p.y, q.y) as u32)
}

/// Returns the slope of an edge that falls from `p` to `q`, or is level.
#[inline(always)]
pub(crate) fn falling(p: &Vertex, q: &Vertex) -> Slope
    requires near { IsNear p.now q.now }
    requires falls { p.now.y ≤ℤ q.now.y }
    ensures { IsSlope p.now q.now result }
{
    let fall = difference(q.y, p.y);
    if fall == 0 {
        level(p.x < q.x)
    } else {
        steep(false, fall as u32)
    }
}

/// Returns the slope of the edge from `p` to `q`.
#[inline(always)]
pub(crate) fn slope_of(p: &Vertex, q: &Vertex) -> Slope
    requires { IsNear p.now q.now }
    ensures { IsSlope p.now q.now result }
{
    if q.y < p.y {
        rising(p, q)
    } else {
        falling(p, q)
    }
}
