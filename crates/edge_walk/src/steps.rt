// Attributes of vertices, and the increments of an attribute's sum from cell to cell.
ghost use Rattle.std.specs.Prelude.{◌≡◌, ◌≤◌, pos, ◌-ℤ◌, ◌*ℤ◌, unsigned_abs};
ghost use Rattle.edge_walk.specs.Attribute.{AreBytes, attribute, step_of, row_step_of};
ghost use Rattle.edge_walk.specs.Oriented.{corners_of};

use crate::edge::difference;
use crate::oriented::Oriented;
use px_num::Vertex;

pub(crate) fn attribute(v: &Vertex, which: u8) -> u8
    requires { which ≤ 4 }
    ensures { result ≡ attribute which v.now }
{
    match which {
        0 => (v.color & 0xff) as u8,
        1 => (v.color >> 8 & 0xff) as u8,
        2 => (v.color >> 16 & 0xff) as u8,
        3 => v.u,
        _ => v.v,
    }
}

fn slope(a: u8, fall: i64) -> i64
    requires { unsigned_abs fall ≤ 1023 }
    ensures value { result ≡ pos a *ℤ fall }
    ensures bound { unsigned_abs result ≤ 260865 }
{
    a as i64 * fall
}

// The decrease of the sum from one cell to the next, for each vertex.
#[derive(Drop)]
struct Slopes {
    first: i64,
    second: i64,
    third: i64,
}

fn opposite_sum(s: &Slopes) -> i64
    requires first { unsigned_abs s.now.first ≤ 260865 }
    requires second { unsigned_abs s.now.second ≤ 260865 }
    requires third { unsigned_abs s.now.third ≤ 260865 }
    ensures value { result ≡ pos 0 -ℤ s.now.first -ℤ s.now.second -ℤ s.now.third }
    ensures bound { unsigned_abs result ≤ 782595 }
{
    0 - s.first - s.second - s.third
}

impl Oriented {
    // Returns the increment of the sum of attribute `which` from one cell of a row to the next.
    pub(crate) fn step_across(&self, which: u8) -> i64
        requires { which ≤ 4 }
        ensures step { result ≡ step_of (corners_of self.now) which }
        ensures bytes { AreBytes which (corners_of self.now) }
    {
        opposite_sum(&Slopes {
            first: slope(attribute(&self.a, which), difference(self.c.y, self.b.y)),
            second: slope(attribute(&self.b, which), difference(self.a.y, self.c.y)),
            third: slope(attribute(&self.c, which), difference(self.b.y, self.a.y)),
        })
    }

    // Returns the increment of the sum of attribute `which` from one row to the next.
    pub(crate) fn step_down(&self, which: u8) -> i64
        requires { which ≤ 4 }
        ensures { result ≡ row_step_of (corners_of self.now) which }
    {
        opposite_sum(&Slopes {
            first: slope(attribute(&self.a, which), difference(self.b.x, self.c.x)),
            second: slope(attribute(&self.b, which), difference(self.c.x, self.a.x)),
            third: slope(attribute(&self.c, which), difference(self.a.x, self.b.x)),
        })
    }
}
