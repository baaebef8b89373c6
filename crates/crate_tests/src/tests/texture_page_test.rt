// Texels and CLUT entries.
use px_num::Cell;
use texture_page::{Page, Window, clut_cell, index_of, laws, texel_cell};

const OPEN: Window = Window {
    mask_x: 0,
    mask_y: 0,
    off_x: 0,
    off_y: 0,
};

#[test]
fn texels_flipped_and_in_a_window(rt: HostRuntime) {
    let page = Page {
        x: 0,
        y: 0,
        depth: 2,
    };
    for (u, want) in [(2, 2), (1, 1), (0, 0)] {
        assert_eq!(rt; texel_cell(&page, &OPEN, u, 0), Cell { x: want, y: 0 });
    }
    let window = Window { mask_x: 1, ..OPEN };
    for (u, want) in [(8, 0), (9, 1), (10, 2)] {
        assert_eq!(rt; texel_cell(&page, &window, u, 0), Cell { x: want, y: 0 });
    }
    laws::open_window();
}

#[test]
fn a_clut_that_wraps(rt: HostRuntime) {
    let page = Page {
        x: 64,
        y: 0,
        depth: 1,
    };
    for (u, index, x) in [(0, 19, 3), (1, 20, 4)] {
        assert_eq!(rt; texel_cell(&page, &OPEN, u, 0), Cell { x: 64, y: 0 });
        assert_eq!(rt; index_of(&page, &OPEN, u, 0x1413), index);
        assert_eq!(rt; clut_cell(0x003f, index), Cell { x, y: 0 });
    }
}
