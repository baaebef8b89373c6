// A segment and its points.
use crate::rise::{Run, along};
use crate::walk::Walk;
use px_num::Vertex;
use std::marker::Model;

/// A segment that the size rule admits. In contracts it is its two vertices in their order.
#[derive(Clone, Copy)]
pub struct Segment {
    a: Vertex,
    b: Vertex,
    // the number of steps from a to b
    steps: u32,
}

impl Model for Segment {
    ghost use Rattle.std.specs.Prelude.{◌≡◌};
    ghost use Rattle.std.proofs.Common.{ap, sym};
    ghost use Rattle.line_walk.specs.Line.{Ends, ends, steps_of, IsNear};

    ghost Value = { Ends };

    ghost view = { λ s. ends s.a s.b };

    ghost invariant = { λ s. IsNear s.a s.b × (s.steps ≡ steps_of (ends s.a s.b)) };

    ghost inverse = { λ e. record { a = e.first; b = e.second; steps = steps_of e } };

    ghost inverse_ok = { λ s h. ap (λ n. record { a = s.a; b = s.b; steps = n }) (sym h.1) };
}

impl Segment {
    ghost use Rattle.std.specs.Option.{is_some};
    ghost use Rattle.std.specs.Prelude.{◌≡◌, ◌<◌, ◌≤◌, ◌^◌, SomeIff};
    ghost use Rattle.line_walk.specs.Line.{ends, len_of, point_of, is_near, IsNear, IsBetweenEnds};
    ghost use Rattle.line_walk.specs.Walk.{Walking};

    /// Returns the segment from `a` to `b`. Returns `None` exactly if the size rule refuses it: the vertices are more
    /// than 1023 apart in X or more than 511 in Y (psx-spx, "GPU Render Line Commands").
    pub fn new(a: Vertex, b: Vertex) -> Option<Segment>
        ensures value { SomeIff result (IsNear a b) (ends a b) }
        ensures drawn { is_some result ≡ is_near a b }
    {
        let across = b.x.abs_diff(a.x);
        let down = b.y.abs_diff(a.y);
        if across <= 1023 && down <= 511 {
            let steps = across.max(down);
            Some(Segment { a, b, steps })
        } else {
            None
        }
    }

    /// Returns the first vertex.
    pub fn first(&self) -> Vertex
        ensures { result ≡ self.now.first }
    {
        self.a
    }

    /// Returns the second vertex.
    pub fn second(&self) -> Vertex
        ensures { result ≡ self.now.second }
    {
        self.b
    }

    /// Returns the number of points, 1 to 1024: the steps along the longer side plus 1.
    pub fn len(&self) -> u32
        ensures value { result ≡ len_of self.now }
        ensures some { 1 ≤ result }
        ensures most { result ≤ 1024 }
    {
        self.steps + 1
    }

    /// Returns a walk over the points in their order, from the first vertex on.
    #[inline(always)]
    pub fn walk(&self) -> Walk
        ensures { ◌≡◌ {A = Walking} result (record { ends = self.now; at = 0 }) }
    {
        Walk::new(self.a, self.b, self.steps)
    }

    /// Returns point `k`, counted from 0 at the first vertex. `k` must be below the number of points. Its position
    /// and each colour channel are rounded to the nearest integer, and upward from the middle. Its u and v are 0.
    pub fn point(&self, k: u32) -> Vertex
        requires { k < len_of self.now }
        ensures value { result ≡ point_of self.now k }
        ensures between { IsBetweenEnds self.now result }
        ensures color { result.color < 2 ^ 24 }
    {
        let across = Run {
            from: self.a.x,
            to: self.b.x,
        };
        let down = Run {
            from: self.a.y,
            to: self.b.y,
        };
        Vertex {
            x: along(&across, self.steps, k),
            y: along(&down, self.steps, k),
            color: color_at(self.a.color, self.b.color, self.steps, k),
            u: 0,
            v: 0,
        }
    }
}

ghost use Rattle.std.specs.Prelude.{◌≡◌, ◌≤◌, ◌<◌, ◌^◌};
ghost use Rattle.line_walk.specs.Line.{channel_along, color_along};

fn channel_along(from: u8, to: u8, n: u32, k: u32) -> u32
    requires steps { n ≤ 1023 }
    requires k { k ≤ n }
    ensures value { result ≡ channel_along from to n k }
    ensures byte { result < 256 }
{
    let run = Run {
        from: from as i32,
        to: to as i32,
    };
    along(&run, n, k) as u32
}

fn color_along(from: u32, to: u32, n: u32, k: u32) -> u32
    requires steps { n ≤ 1023 }
    requires k { k ≤ n }
    ensures value { result ≡ color_along from to n k }
    ensures channels { result < 2 ^ 24 }
{
    let red = channel_along((from & 0xff) as u8, (to & 0xff) as u8, n, k);
    let green = channel_along((from >> 8 & 0xff) as u8, (to >> 8 & 0xff) as u8, n, k);
    let blue = channel_along((from >> 16 & 0xff) as u8, (to >> 16 & 0xff) as u8, n, k);
    red | green << 8 | blue << 16
}

// As `color_along`, but without computation if both ends have one colour.
#[inline(always)]
pub(crate) fn color_at(from: u32, to: u32, n: u32, k: u32) -> u32
    requires steps { n ≤ 1023 }
    requires k { k ≤ n }
    ensures value { result ≡ color_along from to n k }
    ensures channels { result < 2 ^ 24 }
{
    if from == to {
        from % 0x100_0000
    } else {
        color_along(from, to, n, k)
    }
}
