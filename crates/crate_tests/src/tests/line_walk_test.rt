// Cells of a line.
use line_walk::Segment;
use px_num::Vertex;
use std::test::Fail;

fn end(x: i32, y: i32) -> Vertex {
    Vertex {
        x,
        y,
        color: 0x1_00ff,
        u: 1,
        v: 2,
    }
}

fn point_at(segment: &Segment, k: u32) -> Option<Vertex> {
    if k < segment.len() {
        Some(segment.point(k))
    } else {
        None
    }
}

#[test]
fn a_line_has_the_same_cells_both_ways(rt: HostRuntime) -> Result<(), Fail> {
    let there = Segment::new(end(0, 0), end(3, 1)).ok_or("none")?;
    let back = Segment::new(end(3, 1), end(0, 0)).ok_or("none")?;
    for (k, x, y) in [(0, 0, 0), (1, 1, 0), (2, 2, 1), (3, 3, 1)] {
        let want = Vertex {
            u: 0,
            v: 0,
            ..end(x, y)
        };
        assert_eq!(rt; point_at(&there, k), Some(want), "point {k}");
        assert_eq!(rt;
            point_at(&back, 3 - k),
            Some(want),
            "point {k} from the last"
        );
    }
    assert_eq!(rt; point_at(&there, 4), None);
    Ok(())
}
