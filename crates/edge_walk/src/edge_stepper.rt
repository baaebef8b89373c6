// Stepping along an edge from row to row.
ghost use Rattle.std.specs.Prelude.{◌≡◌, ◌^◌, ◌≤◌, ◌<◌, ◌↔◌};
ghost use Rattle.std.specs.Prelude.{ℤ, pos, ◌+ℤ◌, ◌-ℤ◌, ◌*ℤ◌, unsigned_abs};
ghost use Rattle.std.specs.Int.{int_max, int_min};
ghost use Rattle.px_num.specs.declared.shape.Vertex.{Vertex};
ghost use Rattle.edge_walk.specs.Triangle.{IsNear};
ghost use Rattle.edge_walk.specs.Walk.{in_parts, IsBounded, IsSide, IsSlope, IsWithin};

use crate::edge::{difference, product};
use crate::slope::{Bound, Slope};
use px_num::{Box2, Vertex};

/// An edge in one row, and the step to the next row.
#[derive(Clone, Copy)]
pub(crate) struct EdgeStepper {
    bound: Bound,
    // the edge's column in this row, as a fixed-point number (see `in_parts`)
    at: u64,
    // the increment of `at` from row to row; the addition wraps
    by: u64,
}

/// The limits of the columns of a row, as fixed-point numbers: columns are above `low` and at most `high`.
#[derive(Clone, Copy)]
pub(crate) struct Ends {
    pub(crate) low: u64,
    pub(crate) high: u64,
}

// Added to every stored column, so that none is negative.
const RAISE: i64 = 1 << 62;

/// Returns column `x` as a fixed-point number: 2^30 times `x`, plus 2^62 so that it is not negative.
#[inline(always)]
pub(crate) fn in_parts(x: i32) -> u64
    ensures { pos result ≡ in_parts x }
{
    ((x as i64 + 0x1_0000_0000) as u64) << 30
}

impl Ends {
    /// Returns the columns that two boxes have in common.
    #[inline(always)]
    pub(crate) fn of(clip: &Box2, own: &Box2) -> Ends
        ensures low { pos result.low ≡ (in_parts (int_max clip.now.x1 own.now.x1) -ℤ pos 1) }
        ensures high { pos result.high ≡ in_parts (int_min clip.now.x2 own.now.x2) }
    {
        Ends {
            low: in_parts(clip.x1.max(own.x1)) - 1,
            high: in_parts(clip.x2.min(own.x2)),
        }
    }
}

// Returns `value * scale + slack` plus `RAISE`.
#[inline(always)]
fn raised(value: i64, scale: i64, slack: i64) -> u64
    requires value { unsigned_abs value < 2 ^ 19 }
    requires scale { unsigned_abs scale ≤ 2 ^ 41 }
    requires slack { unsigned_abs slack ≤ 2 ^ 40 }
    ensures { pos result ≡ (value *ℤ scale +ℤ slack +ℤ pos (2 ^ 62)) }
{
    (value * scale + slack + RAISE) as u64
}

impl EdgeStepper {
    /// Returns the edge from `p` to `q` in row `y`, with its slope. `y` is at most 512 rows from `p`.
    #[inline(always)]
    pub(crate) fn at(slope: &Slope, p: &Vertex, q: &Vertex, y: i32) -> EdgeStepper
        requires slope { IsSlope p.now q.now slope.now }
        requires near { IsNear p.now q.now }
        requires reach { unsigned_abs (y -ℤ p.now.y) ≤ 512 }
        ensures { IsSide p.now q.now y result }
    {
        let across = difference(q.x, p.x);
        let value = product(across, difference(y, p.y));
        let far = raised(value, slope.scale, slope.slack);
        let step = raised(across, slope.scale, 0);
        EdgeStepper {
            bound: slope.bound,
            at: in_parts(p.x) + far - RAISE as u64,
            by: step.wrapping_sub(RAISE as u64),
        }
    }

    /// Moves to the next row.
    #[inline(always)]
    pub(crate) fn step(&mut self)
        ensures { (p q : Vertex) (y : ℤ) → IsNear p q → unsigned_abs ((y +ℤ pos 1) -ℤ p.y) ≤ 512
            → IsSide p q y self.old → IsSide p q (y +ℤ pos 1) self.new }
    {
        self.at = self.at.wrapping_add(self.by);
    }

    /// Returns the columns of `ends` that are on the inner side of the edge.
    #[inline(always)]
    pub(crate) fn narrowed(&self, ends: Ends) -> Ends
        ensures { (x : ℤ) → (IsWithin ends x × IsBounded self.now.bound (pos self.now.at) x) ↔ IsWithin result x }
    {
        match self.bound {
            Bound::AtMost => Ends {
                low: ends.low,
                high: ends.high.min(self.at),
            },
            Bound::Above => Ends {
                low: ends.low.max(self.at),
                high: ends.high,
            },
        }
    }
}
