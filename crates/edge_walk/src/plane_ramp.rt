// An attribute over a triangle, with the values that all its rows share.
ghost use Rattle.std.specs.Prelude.{◌≡◌, ◌*◌};
ghost use Rattle.edge_walk.specs.Line.{IsRamp};
ghost use Rattle.edge_walk.specs.Ramp.{start_of};

use crate::plane::{Plane, after_steps};
use crate::ramp::{Ramp, around, ramp_of};
use std::simd::prelude::*;

/// A [`Plane`] with the values that all its rows share, so that each row takes less time.
#[derive(Clone, Copy)]
pub struct PlaneRamp {
    plane: Plane,
    // the number of the ninth cell, if the first of the sixteen is (0, 0)
    start: u64,
    ramp: Ramp,
    ghost start_is: { start ≡ start_of plane },
    ghost is_ramp: { IsRamp plane.across ramp },
}

// Returns the number of the ninth cell if the first of the sixteen is (0, 0). 8 is added to its upper half, as
// `RowLine::lanes` does.
#[inline(always)]
fn start_of(plane: &Plane) -> u64
    ensures { result ≡ start_of plane.now }
{
    plane.number_at(8, 0).wrapping_add(8 << 32)
}

impl PlaneRamp {
    ghost use Rattle.std.specs.Prelude.{◌≤◌, ℕ, length, slice_index};
    ghost use Rattle.px_num.specs.Lanes.{EachLane};
    ghost use Rattle.edge_walk.specs.Plane.{IsPlane};
    ghost use Rattle.edge_walk.specs.PlaneRamp.{AreAttributes};
    ghost use Rattle.edge_walk.specs.Triangle.{Corners};

    /// Returns `plane` with its ramp.
    #[inline(always)]
    pub fn of(plane: &Plane) -> PlaneRamp
        ensures { result.plane ≡ plane.now }
    {
        PlaneRamp {
            plane: *plane,
            start: start_of(plane),
            ramp: ramp_of(plane.across),
        }
    }

    /// Returns the attribute at the sixteen cells from (`x`, `y`) to the right. A lane has the triangle's attribute
    /// if its cell is inside and the row has a cell inside in column `x` or before.
    #[inline(always)]
    pub fn lanes(&self, x: u16, y: u16) -> u16x16
        ensures long { length result ≡ 16 }
        ensures value { (t : Corners) (which : ℕ) → IsPlane t which self.now.plane → AreAttributes t which x y result }
        ensures bytes { EachLane (λ j. slice_index result j ≤ 255) }
    {
        let row = after_steps(self.start, self.plane.down, y as u64);
        let ninth = after_steps(row, self.plane.across, x as u64);
        around((ninth >> 32) as u32, &self.ramp)
    }
}
