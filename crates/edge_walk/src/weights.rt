// Attributes of a single cell, weighted by its edge values.
ghost use Rattle.std.specs.Prelude.{◌≡◌, ◌+◌, ◌*◌, ◌/◌, ◌≤◌, pos, ◌≤ℤ◌, IsTrue};
ghost use Rattle.edge_walk.specs.Triangle.{IsNear, doubled_area, edge, is_within};
ghost use Rattle.edge_walk.specs.Divisor.{IsDivisor};
ghost use Rattle.edge_walk.specs.Oriented.{corners_of};

use crate::divisor::Divisor;
use crate::edge::edge;
use crate::oriented::Oriented;
use px_num::Vertex;

// The edge values of a cell inside, each of the edge opposite a vertex. Their sum is the doubled area.
#[derive(Drop)]
pub(crate) struct Weights {
    first: u32,
    second: u32,
    third: u32,
}

fn weight(p: &Vertex, q: &Vertex, x: i32, y: i32) -> u32
    requires near { IsNear p.now q.now }
    requires low { pos 0 ≤ℤ edge p.now q.now x y }
    requires high { edge p.now q.now x y ≤ℤ pos 1045506 }
    ensures { pos result ≡ edge p.now q.now x y }
{
    edge(p, q, x, y) as u32
}

impl Oriented {
    ghost use Rattle.edge_walk.specs.Weights.{AreWeightsOf};

    pub(crate) fn weights_at(&self, x: i32, y: i32) -> Weights
        requires { IsTrue (is_within (corners_of self.now) x y) }
        ensures { AreWeightsOf (corners_of self.now) x y result }
    {
        Weights {
            first: weight(&self.b, &self.c, x, y),
            second: weight(&self.c, &self.a, x, y),
            third: weight(&self.a, &self.b, x, y),
        }
    }
}

fn weighted(w: &Weights, a: u8, b: u8, c: u8) -> u32
    requires bound { w.now.first + w.now.second + w.now.third ≤ 1045506 }
    ensures value { result ≡ w.now.first * a + w.now.second * b + w.now.third * c }
    ensures bound { result ≤ 255 * (w.now.first + w.now.second + w.now.third) }
{
    w.first * a as u32 + w.second * b as u32 + w.third * c as u32
}

pub(crate) fn mixed(w: &Weights, a: u8, b: u8, c: u8, divisor: &Divisor) -> u8
    requires divisor { IsDivisor divisor.now }
    requires area { divisor.now.area ≡ w.now.first + w.now.second + w.now.third }
    ensures { result ≡ (w.now.first * a + w.now.second * b + w.now.third * c) /
        (w.now.first + w.now.second + w.now.third) }
{
    divisor.quotient(weighted(w, a, b, c))
}
