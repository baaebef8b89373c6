// The points of a segment in their order.
use crate::rise::Run;
use crate::slope::{Slope, first_slope, next_slope, value_of};
use crate::tones::{Tones, first_tones, next_tones, tint_between};
use px_num::Vertex;
use std::marker::Model;

/// A walk along a segment, point by point and without a division per point. In contracts it is the segment's two
/// vertices and the index of the next point.
#[derive(Drop)]
pub struct Walk {
    a: Vertex,
    b: Vertex,
    steps: u32,
    at: u32,
    x: Slope,
    y: Slope,
    tones: Tones,
}

impl Model for Walk {
    ghost use Rattle.line_walk.specs.View.{IsWalk, walking_of};
    ghost use Rattle.line_walk.specs.Walk.{Walking};

    ghost Value = { Walking };

    ghost view = { walking_of };

    ghost invariant = { IsWalk };
}

impl Walk {
    ghost use Rattle.std.specs.Prelude.{◌≡◌, ◌<◌, ◌+◌, ◌^◌};
    ghost use Rattle.line_walk.specs.Line.{ends, len_of, point_of, steps_of, IsNear, IsBetweenEnds};
    ghost use Rattle.line_walk.specs.Walk.{Walking};

    /// Returns a walk at the first point from `a` to `b`. `steps` is the number of steps between them.
    #[inline(always)]
    pub(crate) fn new(a: Vertex, b: Vertex, steps: u32) -> Walk
        requires near { IsNear a b }
        requires steps { steps ≡ steps_of (ends a b) }
        ensures { ◌≡◌ {A = Walking} result (record { ends = ends a b; at = 0 }) }
    {
        let cuts = steps.max(1);
        let across = Run { from: a.x, to: b.x };
        let down = Run { from: a.y, to: b.y };
        Walk {
            a,
            b,
            steps,
            at: 0,
            x: first_slope(&across, cuts),
            y: first_slope(&down, cuts),
            tones: first_tones(a.color, b.color, cuts),
        }
    }

    /// Returns the next point, equal to that of [`Segment::point`](crate::Segment::point), and advances. Requires
    /// that a point is left.
    #[inline(always)]
    pub fn next(&mut self) -> Vertex
        requires { self.old.at < len_of self.old.ends }
        ensures point { result ≡ point_of self.old.ends self.old.at }
        ensures between { IsBetweenEnds self.old.ends result }
        ensures color { result.color < 2 ^ 24 }
        ensures on { ◌≡◌ {A = Walking} self.new (record { ends = self.old.ends; at = self.old.at + 1 }) }
    {
        let point = Vertex {
            x: value_of(&self.x),
            y: value_of(&self.y),
            color: tint_between(self.a.color, self.b.color, &self.tones),
            u: 0,
            v: 0,
        };
        self.x = next_slope(self.x);
        self.y = next_slope(self.y);
        self.tones = next_tones(self.tones);
        self.at += 1;
        point
    }
}
