// A triangle and its cells.
use crate::edge::{all_three, doubled_area, is_on_side, is_small};
use crate::edge_stepper::{EdgeStepper, Ends};
use crate::extent::bounding_box;
use crate::oriented::Oriented;
use crate::row_scan::RowScan;
use crate::slope::{falling, rising, slope_of};
use crate::steps::attribute;
use crate::weights::mixed;
use px_num::{Box2, Vertex};
use std::marker::Model;

/// A triangle that the size rule admits and whose doubled area is not 0. In contracts it is its three vertices, in
/// the order of the arguments of `new`.
#[derive(Clone, Copy)]
pub struct Tri {
    a: Vertex,
    b: Vertex,
    c: Vertex,
    // whether the oriented triangle has b and c exchanged
    turned: bool,
    // the absolute value of the doubled area
    pub(crate) area: u32,
}

impl Model for Tri {
    ghost use Rattle.std.specs.Prelude.{◌≡◌, pos};
    ghost use Rattle.std.proofs.Common.{ap, sym, ◌∙◌};
    ghost use Rattle.edge_walk.specs.Triangle.{Corners, corners, IsDrawn};
    ghost use Rattle.edge_walk.specs.Held.{IsHeld, is_turned, size_of};

    ghost Value = { Corners };

    ghost view = { λ t. corners t.a t.b t.c };

    ghost invariant = { λ t. IsHeld (corners t.a t.b t.c) t.turned t.area };

    ghost inverse = { λ t. record { a = t.first; b = t.second; c = t.third; turned = is_turned t; area = size_of t } };

    ghost inverse_ok = { λ t h. ap (λ s. record {
      a = t.a;
      b = t.b;
      c = t.c;
      turned = s;
      area = size_of (corners t.a t.b t.c);
    })
        (sym h.turned_is) ∙ ap (λ s. record { a = t.a; b = t.b; c = t.c; turned = t.turned; area = s })
        (sym h.area_is) };
}

impl Tri {
    ghost use Rattle.std.specs.Option.{is_some};
    ghost use Rattle.std.specs.Prelude.{◌≡◌, ◌≤◌, SomeIff, MatchOption, IsTrue, ℤ, false};
    ghost use Rattle.edge_walk.specs.Attribute.{attribute_at};
    ghost use Rattle.edge_walk.specs.Extent.{bounding_box};
    ghost use Rattle.edge_walk.specs.Row.{IsInBox, IsRowSpan};
    ghost use Rattle.edge_walk.specs.Walk.{AreRows, HasRows};
    ghost use Rattle.edge_walk.specs.Triangle.{corners, oriented, IsDrawn, is_drawn, is_inside};
    ghost use Rattle.edge_walk.specs.Oriented.{corners_of};

    /// Returns the triangle with these vertices. Returns `None` exactly if its doubled area is 0 or the size rule
    /// refuses it: two vertices are more than 1023 apart in X or more than 511 in Y (psx-spx, "GPU Render Polygon
    /// Commands").
    pub fn new(a: Vertex, b: Vertex, c: Vertex) -> Option<Tri>
        ensures value { SomeIff result (IsDrawn (corners a b c)) (corners a b c) }
        ensures drawn { is_some result ≡ is_drawn (corners a b c) }
    {
        if !is_small(&a, &b, &c) {
            return None;
        }
        let area = doubled_area(&a, &b, &c);
        if area == 0 {
            return None;
        }
        Some(Tri {
            a,
            b,
            c,
            turned: area < 0,
            area: area.unsigned_abs() as u32,
        })
    }

    // Returns this triangle, with its second and third vertex exchanged if the doubled area is negative.
    pub(crate) fn oriented_triangle(&self) -> Oriented
        ensures same { corners_of result ≡ oriented self.now }
        ensures drawn { IsDrawn self.now }
    {
        if self.turned {
            return Oriented {
                a: self.a,
                b: self.c,
                c: self.b,
            };
        }
        Oriented {
            a: self.a,
            b: self.b,
            c: self.c,
        }
    }

    /// Returns whether the triangle draws the cell (`x`, `y`), unless a box clips it.
    pub fn inside(&self, x: i32, y: i32) -> bool
        ensures value { result ≡ is_inside self.now x y }
        ensures in_bounds { IsTrue result → IsInBox (bounding_box self.now) x y }
    {
        let t = self.oriented_triangle();
        let first = is_on_side(&t.a, &t.b, x, y);
        let second = is_on_side(&t.b, &t.c, x, y);
        let third = is_on_side(&t.c, &t.a, x, y);
        all_three(first, second, third)
    }

    /// Returns the smallest box that contains the three vertices.
    pub fn bounds(&self) -> Box2
        ensures value { result ≡ bounding_box self.now }
        ensures drawn { IsDrawn self.now }
    {
        bounding_box(&self.a, &self.b, &self.c)
    }

    /// Returns the first and the last column of the cells inside in row `y` of the box. All cells between them are
    /// inside. Returns `None` exactly if the row has no such cell.
    pub fn row_span(&self, y: i32, clip: &Box2) -> Option<(i32, i32)>
        ensures { MatchOption result ((x : ℤ) → IsInBox clip.now x y → is_inside self.now x y ≡ false)
            (λ span. IsRowSpan self.now y clip.now span.0 span.1) }
    {
        let own = self.bounds();
        let top = clip.y1.max(own.y1);
        let bottom = clip.y2.min(own.y2);
        if y < top || bottom < y {
            return None;
        }
        let row = Box2 {
            x1: clip.x1,
            y1: y,
            x2: clip.x2,
            y2: y,
        };
        self.rows(&row).next()
    }

    /// Returns attribute `which` at the cell (`x`, `y`): red, green, blue, u or v, numbered from 0. The cell must be
    /// inside.
    pub fn attr_at(&self, which: u8, x: i32, y: i32) -> u8
        requires which { which ≤ 4 }
        requires inside { IsTrue (is_inside self.now x y) }
        ensures value { result ≡ attribute_at self.now which x y }
        ensures byte { result ≤ 255 }
    {
        let t = self.oriented_triangle();
        let weights = t.weights_at(x, y);
        mixed(
            &weights,
            attribute(&t.a, which),
            attribute(&t.b, which),
            attribute(&t.c, which),
            &self.area_divisor(),
        )
    }

    /// Returns a scan over the rows of the box `clip`, starting at its first row. All rows of the box must be rows of
    /// `bounds`.
    #[inline(always)]
    pub fn rows(&self, clip: &Box2) -> RowScan
        requires { HasRows self.now clip.now }
        ensures { AreRows self.now clip.now clip.now.y1 result }
    {
        let t = self.oriented_triangle().rotated_to_top();
        let own = self.bounds();
        RowScan {
            ends: Ends::of(clip, &own),
            first: EdgeStepper::at(&rising(&t.a, &t.b), &t.a, &t.b, clip.y1),
            second: EdgeStepper::at(&falling(&t.b, &t.c), &t.b, &t.c, clip.y1),
            third: EdgeStepper::at(&slope_of(&t.c, &t.a), &t.c, &t.a, clip.y1),
        }
    }
}
