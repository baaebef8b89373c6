// Colours and texture coordinates of the cells of a triangle.
use crate::attribute_setup::AttributeSetup;
use crate::divisor::Divisor;
use crate::line::keep_first;
use crate::triangle::Tri;
use std::simd::prelude::*;

impl Tri {
    ghost use Rattle.std.specs.Prelude.{◌≡◌, ◌+◌, ◌^◌, ◌≤◌, ◌<◌, IfSome, IsTrue, ℕ, length, slice_index};
    ghost use Rattle.std.specs.Prelude.{ℤ, pos, ◌+ℤ◌};
    ghost use Rattle.px_num.specs.Lanes.{EachLane};
    ghost use Rattle.edge_walk.specs.Attribute.{attribute_at, HasColor, IsUnscaled};
    ghost use Rattle.edge_walk.specs.AttributeSetup.{IsAttributeSetup};
    ghost use Rattle.edge_walk.specs.Held.{divisor_for};
    ghost use Rattle.edge_walk.specs.Triangle.{is_inside};

    /// Returns [`attr_at`](Tri::attr_at) of the `n` cells from (`x`, `y`) to the right in the first lanes, and 0 in
    /// the others. `which` is at most 4 and `n` is 1 to 16. All `n` cells must be inside.
    pub fn attr_lanes(&self, which: u8, x: i32, y: i32, n: u8) -> u16x16
        requires which { which ≤ 4 }
        requires some { 1 ≤ n }
        requires lanes { n ≤ 16 }
        requires inside { (j : ℕ) → j < n → IsTrue (is_inside self.now (x +ℤ pos j) y) }
        ensures long { length result ≡ 16 }
        ensures value { (j : ℕ) → j < n → slice_index result j ≡ attribute_at self.now which (x +ℤ pos j) y }
        ensures bytes { EachLane (λ j. slice_index result j ≤ 255) }
        ensures rest { (j : ℕ) → n ≤ j → slice_index result j ≡ 0 }
    {
        let plane = self.attribute_setup(&self.area_divisor()).plane(which);
        keep_first(plane.row_line(x, y).lanes(0), n)
    }

    /// Returns the divisor of this triangle's attribute sums, its doubled area. Computing it takes one division.
    pub fn area_divisor(&self) -> Divisor
        ensures { result ≡ divisor_for self.now }
    {
        Divisor::new(self.area)
    }

    /// Returns what the planes of this triangle's attributes are computed from. `divisor` must be
    /// [`area_divisor`](Tri::area_divisor) of this triangle.
    #[inline(always)]
    pub fn attribute_setup(&self, divisor: &Divisor) -> AttributeSetup
        requires { divisor.now ≡ divisor_for self.now }
        ensures { IsAttributeSetup self.now result }
    {
        AttributeSetup {
            t: self.oriented_triangle(),
            divisor: *divisor,
        }
    }

    /// Returns the 24-bit colour of all cells inside if the three vertices have the same colour, else `None`.
    pub fn one_color(&self) -> Option<u32>
        ensures low { IfSome result (λ color. color < 2 ^ 24) }
        ensures value { IfSome result (λ color. (x y : ℤ) → IsTrue (is_inside self.now x y)
            → HasColor self.now x y color) }
    {
        let t = self.oriented_triangle();
        let color = t.a.color % 0x100_0000;
        if t.b.color % 0x100_0000 == color && t.c.color % 0x100_0000 == color {
            Some(color)
        } else {
            None
        }
    }

    /// Returns true only if, from each cell inside to the next of its row, u increases by 1 and v does not change.
    pub fn is_unscaled(&self) -> bool
        ensures { IsTrue result → IsUnscaled self.now }
    {
        let t = self.oriented_triangle();
        let across = t.step_across(3);
        let down = t.step_across(4);
        across == self.area as i64 && down == 0
    }
}
