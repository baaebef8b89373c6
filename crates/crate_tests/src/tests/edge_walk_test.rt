// Rows and colours of a triangle.
use edge_walk::Tri;
use px_num::{Box2, Vertex};
use std::test::Fail;

fn corner(x: i32, y: i32, red: u32) -> Vertex {
    Vertex {
        x,
        y,
        color: red,
        u: 0,
        v: 0,
    }
}

fn columns(x1: i32, x2: i32) -> Box2 {
    Box2 {
        x1,
        y1: 0,
        x2,
        y2: 511,
    }
}

#[test]
fn rows_of_a_square(rt: HostRuntime) -> Result<(), Fail> {
    let (b, c) = (corner(8, 0, 0), corner(0, 8, 0));
    let upper = Tri::new(corner(0, 0, 0), b, c).ok_or("none")?;
    let lower = Tri::new(b, c, corner(8, 8, 0)).ok_or("none")?;
    for (y, x1, x2, want) in [
        (0, 0, 1023, Some((0, 7))),
        (5, 0, 1023, Some((0, 2))),
        (7, 0, 1023, Some((0, 0))),
        (8, 0, 1023, None),
        (5, 2, 3, Some((2, 2))),
        (6, 2, 3, None),
    ] {
        assert_eq!(rt; upper.row_span(y, &columns(x1, x2)), want, "row {y}");
    }
    assert_eq!(rt;
        lower.bounds(),
        Box2 {
            x1: 0,
            y1: 0,
            x2: 8,
            y2: 8
        }
    );
    for (x, y) in [(1, 7), (4, 4), (7, 1)] {
        assert!(rt; lower.inside(x, y), "({x}, {y}) on the diagonal");
        assert!(rt; !upper.inside(x, y), "({x}, {y}) on the diagonal");
    }
    Ok(())
}

// Returns red at a cell, computed alone and in a lane.
fn red_at(tri: &Tri, x: i32, y: i32) -> Option<(u8, [u16; 16])> {
    if tri.inside(x, y) {
        Some((tri.attr_at(0, x, y), tri.attr_lanes(0, x, y, 1).to_array()))
    } else {
        None
    }
}

// The doubled area is 64 and the edge opposite to the second vertex has the value 8x, so red is 80 * 8x / 64.
#[test]
fn a_colour_is_mixed_by_edge_values(rt: HostRuntime) -> Result<(), Fail> {
    let tri = Tri::new(corner(0, 0, 0), corner(8, 0, 80), corner(0, 8, 0)).ok_or("none")?;
    let (alone, lanes) = red_at(&tri, 3, 2).ok_or("outside")?;
    assert_eq!(rt; alone, 30);
    assert_eq!(rt; lanes, [30, 0, 0, 0, 0, 0, 0, 0, 0, 0, 0, 0, 0, 0, 0, 0]);
    assert!(rt; red_at(&tri, 8, 0).is_none());
    Ok(())
}
