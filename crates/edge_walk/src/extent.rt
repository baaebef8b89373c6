// The bounding box of three vertices.
ghost use Rattle.std.specs.Prelude.{◌≡◌};
ghost use Rattle.edge_walk.specs.Extent.{bounding_box, least_of, most_of};
ghost use Rattle.edge_walk.specs.Triangle.{corners};

use px_num::{Box2, Vertex};

fn least_of(a: i32, b: i32, c: i32) -> i32
    ensures { result ≡ least_of a b c }
{
    a.min(b).min(c)
}

fn most_of(a: i32, b: i32, c: i32) -> i32
    ensures { result ≡ most_of a b c }
{
    a.max(b).max(c)
}

#[tactic(auto, unfolding(crate::specs::Extent::bounding_box))]
pub(crate) fn bounding_box(a: &Vertex, b: &Vertex, c: &Vertex) -> Box2
    ensures { result ≡ bounding_box (corners a.now b.now c.now) }
{
    Box2 {
        x1: least_of(a.x, b.x, c.x),
        y1: least_of(a.y, b.y, c.y),
        x2: most_of(a.x, b.x, c.x),
        y2: most_of(a.y, b.y, c.y),
    }
}
