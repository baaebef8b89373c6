// Edges: on which side of an edge a cell is, and the size rule.
ghost use Rattle.std.specs.Prelude.{◌≡◌, ◌&&◌, ◌≤◌, ◌<◌, ◌^◌, IsTrue, ◌↔◌, unsigned_abs, ◌-ℤ◌, ◌*ℤ◌};
ghost use Rattle.edge_walk.specs.Extent.{IsSmallBox};
ghost use Rattle.edge_walk.specs.Triangle.{edge, IsNear, IsSmall, corners, doubled_area, is_on_side, is_kept_edge};

use crate::extent::bounding_box;
use px_num::{Box2, Vertex};

fn is_small_box(own: &Box2) -> bool
    ensures { IsTrue result ↔ IsSmallBox own.now }
{
    difference(own.x2, own.x1) <= 1023 && difference(own.y2, own.y1) <= 511
}

// Returns whether the size rule admits the three vertices. Each two are near enough if the box of all three is small
// enough.
#[tactic(auto, using(crate::proofs::SmallLemmas::small_is))]
pub(crate) fn is_small(a: &Vertex, b: &Vertex, c: &Vertex) -> bool
    ensures { IsTrue result ↔ IsSmall (corners a.now b.now c.now) }
{
    is_small_box(&bounding_box(a, b, c))
}

pub(crate) fn all_three(first: bool, second: bool, third: bool) -> bool
    ensures { result ≡ (first && second && third) }
{
    first && second && third
}

pub(crate) fn difference(a: i32, b: i32) -> i64
    ensures value { result ≡ a -ℤ b }
    ensures bound { unsigned_abs result < 2 ^ 32 }
{
    a as i64 - b as i64
}

pub(crate) fn product(a: i64, b: i64) -> i64
    requires a { unsigned_abs a ≤ 1023 }
    requires b { unsigned_abs b < 2 ^ 32 }
    ensures value { result ≡ a *ℤ b }
    ensures bound { unsigned_abs result < 2 ^ 42 }
{
    a * b
}

pub(crate) fn edge(p: &Vertex, q: &Vertex, x: i32, y: i32) -> i64
    requires { IsNear p.now q.now }
    ensures { result ≡ edge p.now q.now x y }
{
    let across = product(difference(q.x, p.x), difference(y, p.y));
    let down = product(difference(q.y, p.y), difference(x, p.x));
    across - down
}

pub(crate) fn doubled_area(a: &Vertex, b: &Vertex, c: &Vertex) -> i64
    requires { IsNear a.now b.now }
    ensures { result ≡ doubled_area (corners a.now b.now c.now) }
{
    edge(a, b, c.x, c.y)
}

// Returns whether cells exactly on the edge from `p` to `q` belong to the triangle: the edge goes up, or level to the
// right.
pub(crate) fn is_kept_edge(p: &Vertex, q: &Vertex) -> bool
    ensures { result ≡ is_kept_edge p.now q.now }
{
    q.y < p.y || (q.y == p.y && p.x < q.x)
}

#[tactic(auto, unfolding(crate::specs::Triangle::is_on_side))]
pub(crate) fn is_on_side(p: &Vertex, q: &Vertex, x: i32, y: i32) -> bool
    requires { IsNear p.now q.now }
    ensures { result ≡ is_on_side p.now q.now x y }
{
    let side = edge(p, q, x, y);
    side > 0 || (side == 0 && is_kept_edge(p, q))
}
