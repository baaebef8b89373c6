// Rows that sample what they overwrite, and dithered triangles.
ghost use Rattle.std.specs.Prelude.{◌≡◌, ◌≤◌, ◌<◌, ◌+◌, pos, IsTrue};
ghost use Rattle.edge_walk.specs.Triangle.{is_inside};

use edge_walk::Tri;
use px_num::Vertex;
use span_lanes::{Brush, ClipRect, Paint, Span, TexelRows, Texture, draw_span, laws};
use std::alloc::Global;
use std::marker::Brand;
use std::sync::ledger::{Blank, Ledger};
use std::test::Fail;
use texture_page::{Page, Window};
use vram_store::{Steps, Vram};

const PLAIN: Brush = Brush {
    mask: 0,
    mode: 0,
    semi: false,
    dither: false,
};

// The first five cells of row 0 and cell 64, and raw texels of that row that are drawn into it.
#[derive(Clone, Copy)]
struct Row {
    cells: [u16; 6],
    x: u16,
    n: u16,
    u: u8,
    flip: bool,
    clut: u16,
}

// Returns five cells of row 0 from a column on, after a row of texels was drawn.
fn sampled<L: Ledger>(
    alloc: Global,
    blank: Blank,
    row: &Row,
    page: Page,
    mask_x: u8,
    from: u16,
) -> Result<[u16; 5], Fail>
    requires name { blank.name ≡ L.name }
    requires parts { blank.parts ≡ L.parts }
    requires some { 0 < blank.parts }
    requires cells { 1 ≤ row.now.n }
    requires in_row { row.now.x + row.now.n ≤ 1024 }
    requires page { (page.x ≤ 960) × (page.y ≡ 0) × (page.depth ≤ 3) }
    requires window { mask_x ≤ 31 }
    requires after { from ≤ 1000 }
{
    let mut steps = Steps::<L>::new(blank);
    let mut vram = Vram::new(alloc)?;
    vram.put(0, 0, row.cells[0], &mut steps);
    vram.put(1, 0, row.cells[1], &mut steps);
    vram.put(2, 0, row.cells[2], &mut steps);
    vram.put(3, 0, row.cells[3], &mut steps);
    vram.put(4, 0, row.cells[4], &mut steps);
    vram.put(64, 0, row.cells[5], &mut steps);
    let window = Window {
        mask_x,
        mask_y: 0,
        off_x: 0,
        off_y: 0,
    };
    let texture = Texture {
        page,
        window,
        clut: row.clut,
        raw: true,
    };
    let rows = TexelRows {
        color: 0,
        texture,
        u: row.u,
        flip: row.flip,
        v: 0,
        falls: false,
        brush: PLAIN,
        clip_rect: ClipRect {
            x: row.x,
            y: 0,
            w: row.n,
            h: 1,
        },
    };
    rows.draw(&mut vram, &mut steps);
    Ok([
        vram.get(from, 0, &mut steps),
        vram.get(from + 1, 0, &mut steps),
        vram.get(from + 2, 0, &mut steps),
        vram.get(from + 3, 0, &mut steps),
        vram.get(from + 4, 0, &mut steps),
    ])
}

fn page_at(x: u16, depth: u8) -> Page
    ensures { (result.x ≡ x) × (result.y ≡ 0) × (result.depth ≡ depth) }
{
    Page { x, y: 0, depth }
}

// Each texel was just written; the first pixel changes its own CLUT; a CLUT that wraps at column 1008.
#[test]
fn rows_sample_what_they_overwrite(rt: HostRuntime) -> Result<(), Fail> {
    laws::span_is_cells();
    laws::span_cost_is_small();
    laws::some_costs();
    let row = Row {
        cells: [0x1234, 0, 0, 0, 0, 0],
        x: 1,
        n: 4,
        u: 0,
        flip: false,
        clut: 0,
    };
    let cells = sampled::<Brand>(rt.alloc(), Blank::new(1), &row, page_at(0, 2), 0, 0)?;
    assert_eq!(rt; cells, [0x1234; 5]);
    let row = Row {
        cells: [0x11, 0x22, 0, 0, 0, 1],
        x: 0,
        n: 3,
        ..row
    };
    let cells = sampled::<Brand>(rt.alloc(), Blank::new(1), &row, page_at(64, 0), 0, 0)?;
    assert_eq!(rt; cells, [0x22, 0x22, 0x22, 0, 0]);
    let row = Row {
        cells: [0, 0, 0, 0x33, 0x55, 0x1413],
        x: 4,
        n: 2,
        clut: 0x3f,
        ..row
    };
    let cells = sampled::<Brand>(rt.alloc(), Blank::new(1), &row, page_at(64, 1), 0, 3)?;
    assert_eq!(rt; cells, [0x33, 0x33, 0x33, 0, 0]);
    Ok(())
}

#[test]
fn rows_are_flipped_and_seen_through_a_window(rt: HostRuntime) -> Result<(), Fail> {
    let row = Row {
        cells: [0x1111, 0x2222, 0x3333, 0, 0, 0],
        x: 16,
        n: 3,
        u: 2,
        flip: true,
        clut: 0,
    };
    let cells = sampled::<Brand>(rt.alloc(), Blank::new(1), &row, page_at(0, 2), 0, 16)?;
    assert_eq!(rt; cells, [0x3333, 0x2222, 0x1111, 0, 0]);
    let row = Row {
        x: 32,
        u: 8,
        flip: false,
        ..row
    };
    let cells = sampled::<Brand>(rt.alloc(), Blank::new(1), &row, page_at(0, 2), 1, 32)?;
    assert_eq!(rt; cells, [0x1111, 0x2222, 0x3333, 0, 0]);
    Ok(())
}

fn corner(x: i32, y: i32) -> Vertex {
    Vertex {
        x,
        y,
        color: 0x08_0808,
        u: 0,
        v: 0,
    }
}

// Returns a cell of row 0 of a triangle of one colour, dithered.
fn dithered<L: Ledger>(alloc: Global, blank: Blank, tri: Tri, x: u16) -> Result<u16, Fail>
    requires name { blank.name ≡ L.name }
    requires parts { blank.parts ≡ L.parts }
    requires some { 0 < blank.parts }
    requires in_row { x < 1024 }
    requires inside { IsTrue (is_inside tri (pos x) (pos 0)) }
{
    let mut steps = Steps::<L>::new(blank);
    let mut vram = Vram::new(alloc)?;
    let span = Span {
        x,
        y: 0,
        n: 1,
        paint: Paint::Shaded { tri },
        brush: Brush {
            dither: true,
            ..PLAIN
        },
    };
    draw_span(&mut vram, &span, &mut steps);
    Ok(vram.get(x, 0, &mut steps))
}

#[test]
fn triangles_are_dithered(rt: HostRuntime) -> Result<(), Fail> {
    let tri = Tri::new(corner(0, 0), corner(8, 0), corner(0, 8)).ok_or("none")?;
    for (x, want) in [(0u16, 0), (1, 0x0421), (2, 0), (3, 0x0421)] {
        assert!(rt; tri.inside(x as i32, 0), "at {x}");
        let cell = dithered::<Brand>(rt.alloc(), Blank::new(1), tri, x)?;
        assert_eq!(rt; cell, want, "at {x}");
    }
    Ok(())
}
