// An attribute over a whole triangle.
ghost use Rattle.std.specs.Prelude.{◌≡◌, ◌+◌, ◌*◌, ◌%◌, ◌^◌, ◌≤◌, ℕ, IsTrue};
ghost use Rattle.edge_walk.specs.Attribute.{attribute_at};
ghost use Rattle.edge_walk.specs.Divisor.{IsDivisor};
ghost use Rattle.edge_walk.specs.Line.{IsRowLine};
ghost use Rattle.edge_walk.specs.Plane.{IsPlane, IsPlaneOf, from_least, line_at, number_at};
ghost use Rattle.edge_walk.specs.Triangle.{Corners, is_inside};
ghost use Rattle.edge_walk.specs.Oriented.{corners_of};

use crate::divisor::Divisor;
use crate::line::{RowLine, scaled};
use crate::oriented::Oriented;
use crate::steps::attribute;

/// An attribute over a triangle, as a linear function of the cell.
///
/// The sum of an attribute is linear in X and Y, and so is its product with the reciprocal of the doubled area. The
/// product is computed modulo 2^64. At cells inside it is exact, because there it is less than 2^64.
#[derive(Clone, Copy)]
pub struct Plane {
    base: u64,
    pub(crate) across: u64,
    pub(crate) down: u64,
}

#[inline(always)]
fn from_least(x: i32) -> u64
    ensures { result ≡ from_least x }
{
    (x as i64 + 0x8000_0000) as u64
}

/// Returns `from + step * steps` modulo 2^64.
#[inline(always)]
pub(crate) fn after_steps(from: u64, step: u64, steps: u64) -> u64
    ensures { result ≡ (from + step * steps) % 2 ^ 64 }
{
    from.wrapping_add(step.wrapping_mul(steps))
}

// Returns the number that is `to` after `steps` steps, modulo 2^64.
#[inline(always)]
fn before_steps(to: u64, step: u64, steps: u64) -> u64
    ensures { (result + step * steps) % 2 ^ 64 ≡ to }
{
    to.wrapping_sub(step.wrapping_mul(steps))
}

impl Plane {
    // Returns the plane of attribute `which` of an oriented triangle. It is fixed by its steps and its value at the
    // first vertex.
    #[inline(always)]
    pub(crate) fn of(t: &Oriented, which: u8, divisor: &Divisor) -> Plane
        requires which { which ≤ 4 }
        requires divisor { IsDivisor divisor.now }
        ensures { IsPlaneOf (corners_of t.now) which divisor.now result }
    {
        let across = scaled(t.step_across(which), divisor.reciprocal);
        let down = scaled(t.step_down(which), divisor.reciprocal);
        let first = divisor.times(attribute(&t.a, which));
        let row = before_steps(first, down, from_least(t.a.y));
        Plane {
            base: before_steps(row, across, from_least(t.a.x)),
            across,
            down,
        }
    }

    /// Returns the attribute along row `y` from column `x` to the right. If (`x`, `y`) is inside, its values at cells
    /// inside are those of the triangle.
    #[inline(always)]
    pub fn row_line(&self, x: i32, y: i32) -> RowLine
        ensures { (t : Corners) (which : ℕ)
            → IsPlane t which self.now → IsTrue (is_inside t x y) → IsRowLine t which x y result }
    {
        self.line_at(x, y)
    }

    /// Returns the attribute at the cell (`x`, `y`), which must be inside.
    #[inline(always)]
    pub fn value_at(&self, x: i32, y: i32) -> u8
        ensures { (t : Corners) (which : ℕ)
            → IsPlane t which self.now → IsTrue (is_inside t x y) → result ≡ attribute_at t which x y }
    {
        (self.number_at(x, y) >> 56) as u8
    }

    #[inline(always)]
    pub(crate) fn line_at(&self, x: i32, y: i32) -> RowLine
        ensures { result ≡ line_at self.now x y }
    {
        RowLine {
            first: self.number_at(x, y),
            step: self.across,
        }
    }

    #[inline(always)]
    #[tactic(auto, unfolding(crate::specs::Plane::number_at))]
    pub(crate) fn number_at(&self, x: i32, y: i32) -> u64
        ensures { result ≡ number_at self.now x y }
    {
        let row = after_steps(self.base, self.down, from_least(y));
        after_steps(row, self.across, from_least(x))
    }
}
