// Chunks that read what they write.
use overlap_guard::{copy_hazard, laws, texture_hazard};
use px_num::{Cell, Strip};

#[test]
fn a_copy_to_the_right_within_the_chunk_has_a_hazard(rt: HostRuntime) {
    laws::copies_without_hazard();
    let from = Cell { x: 0, y: 0 };
    for (x, y, want) in [
        (1, 0, true),
        (15, 0, true),
        (16, 0, false),
        (0, 0, false),
        (1, 1, false),
    ] {
        assert_eq!(rt; copy_hazard(from, Cell { x, y }, 16), want, "to {x} {y}");
    }
}

#[test]
fn texels_just_written_and_cluts_under_a_chunk_are_hazards(rt: HostRuntime) {
    let row = [0, 1, 2, 3].map(|x| Cell { x, y: 0 });
    let flipped = [
        Cell { x: 2, y: 0 },
        Cell { x: 1, y: 0 },
        Cell { x: 0, y: 0 },
    ];
    let same = [Cell { x: 64, y: 0 }; 2];
    let clut = Some(Strip {
        x: 1008,
        y: 0,
        n: 256,
    });
    for (x, want) in [(1, true), (0, false), (4, false)] {
        assert_eq!(rt;
            texture_hazard(&row, None, Cell { x, y: 0 }, 4),
            want,
            "to {x}"
        );
    }
    assert!(rt; !texture_hazard(&flipped, None, Cell { x: 16, y: 0 }, 3));
    for (x, want) in [
        (4, true),
        (239, true),
        (240, false),
        (1006, false),
        (1007, true),
    ] {
        assert_eq!(rt;
            texture_hazard(&same, clut, Cell { x, y: 0 }, 2),
            want,
            "to {x}"
        );
    }
}
