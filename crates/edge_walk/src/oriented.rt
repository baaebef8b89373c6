// Triangles with a fixed orientation of their vertices.
ghost use Rattle.edge_walk.specs.Triangle.{corners, IsUpright};

use px_num::Vertex;

/// A triangle whose doubled area is above 0.
#[derive(Clone, Copy)]
pub(crate) struct Oriented {
    pub(crate) a: Vertex,
    pub(crate) b: Vertex,
    pub(crate) c: Vertex,
    ghost oriented_triangle: { IsUpright (corners a b c) },
}

impl Oriented {
    ghost use Rattle.std.specs.Prelude.{◌<ℤ◌, ◌≤ℤ◌};
    ghost use Rattle.edge_walk.specs.Triangle.{IsTurn};
    ghost use Rattle.edge_walk.specs.Oriented.{corners_of};

    /// Returns this triangle with its vertices rotated so that the second is the topmost; of two topmost ones, the
    /// one that comes first around the triangle. The edge to it rises and the edge from it does not. So only the
    /// third edge needs a choice between the two kinds of bound.
    #[inline(always)]
    pub(crate) fn rotated_to_top(&self) -> Oriented
        ensures turn { IsTurn (corners_of self.now) (corners_of result) }
        ensures rises { result.b.y <ℤ result.a.y }
        ensures falls { result.b.y ≤ℤ result.c.y }
    {
        if self.b.y < self.a.y && self.b.y <= self.c.y {
            return *self;
        }
        if self.c.y < self.b.y && self.c.y <= self.a.y {
            return Oriented {
                a: self.b,
                b: self.c,
                c: self.a,
            };
        }
        Oriented {
            a: self.c,
            b: self.a,
            c: self.b,
        }
    }
}
