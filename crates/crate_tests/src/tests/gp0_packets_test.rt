// The packets of words whose fields were derived by hand.
use gp0_packets::{Packet, class_of, decode, head_of};
use gp0_words::Splitter;
use px_num::{Cell, Vertex};

// Returns the last packet of these words, with its class and head.
fn last_packet(words: &[u32]) -> (Packet, u8, u32) {
    let mut splitter = Splitter::new();
    let mut last = (Packet::Nop, 0, 0);
    for word in words {
        if let Some(item) = splitter.push(*word) {
            last = (decode(&item, false), class_of(&item), head_of(&item));
        }
    }
    last
}

fn corner(x: i32, y: i32, color: u32) -> Vertex {
    Vertex {
        x,
        y,
        color,
        u: 0,
        v: 0,
    }
}

fn triangle(a: Vertex, b: Vertex, c: Vertex, textured: bool, page: u16) -> Packet {
    Packet::Poly {
        four: false,
        a,
        b,
        c,
        d: c,
        shaded: false,
        textured,
        semi: false,
        raw: false,
        clut: 0,
        page,
    }
}

fn red_segment(a: (i32, i32), b: (i32, i32)) -> Packet {
    Packet::Segment {
        a: corner(a.0, a.1, 0xff),
        b: corner(b.0, b.1, 0xff),
        semi: false,
    }
}

// Returns a raw textured rectangle with the colour black.
fn texels(x: i32, w: u16, u: u8) -> Packet {
    Packet::Rect {
        x,
        y: 0,
        w,
        h: 1,
        color: 0,
        textured: true,
        semi: false,
        raw: true,
        u,
        v: 0,
        clut: 0,
    }
}

fn fill(color: u16, x: u16, w: u16) -> Packet {
    Packet::Fill {
        color,
        x,
        y: 0,
        w,
        h: 1,
    }
}

fn copy(to: Cell, w: u16, h: u16) -> Packet {
    Packet::Copy {
        from: Cell { x: 0, y: 0 },
        to,
        w,
        h,
    }
}

#[test]
fn words_give_their_packets(rt: HostRuntime) {
    let white = triangle(
        corner(0, 0, 0xff_ffff),
        corner(8, 0, 0xff_ffff),
        corner(0, 8, 0xff_ffff),
        false,
        0,
    );
    let far = triangle(
        corner(-1, 0, 0x80_8080),
        corner(1023, 0, 0x80_8080),
        corner(0, 8, 0x80_8080),
        true,
        0x0105,
    );
    let store = Packet::Store {
        x: 0,
        y: 0,
        w: 3,
        h: 1,
    };
    let rows: [(&[u32], Packet); 10] = [
        (&[0x0200_00ff, 0x11, 0x0001_0001], fill(0x1f, 16, 16)),
        (&[0x0200_0000, 0, 0x0001_03f1], fill(0, 0, 1024)),
        (
            &[0x8000_0000, 0, 1, 0x0001_0010],
            copy(Cell { x: 1, y: 0 }, 16, 1),
        ),
        (&[0xc000_0000, 0, 0x0001_0003], store),
        (&[0x20ff_ffff, 0, 8, 0x0008_0000], white),
        (
            &[0x2480_8080, 0x7ff, 0, 0x3ff, 0x0105_0000, 0x0008_0000, 0],
            far,
        ),
        (&[0x4800_00ff, 0, 0x5000_5002], red_segment((0, 0), (2, 0))),
        (
            &[0x4800_00ff, 0, 2, 0x0002_0002],
            red_segment((2, 0), (2, 2)),
        ),
        (&[0x6500_0000, 0x10, 2, 0x0001_0003], texels(16, 3, 2)),
        (
            &[0xe100_1100],
            Packet::Env {
                index: 1,
                value: 0x1100,
            },
        ),
    ];
    for (words, want) in rows {
        assert_eq!(rt; last_packet(words).0, want, "of {words:?}");
    }
}

#[test]
fn notes_have_their_class_and_head(rt: HostRuntime) {
    let rows: [(&[u32], (u8, u32)); 4] = [
        (&[0xe407_ffff], (7, 0xe407_ffff)),
        (&[0x4800_00ff, 0, 2, 0x0002_0002], (2, 0x4800_00ff)),
        (&[0x4800_00ff, 0, 2, 0x5000_5000], (8, 0x5000_5000)),
        (&[0xa000_0000, 0, 0x0001_0001, 0x1234], (9, 0x1234)),
    ];
    for (words, want) in rows {
        let (_, class, head) = last_packet(words);
        assert_eq!(rt; (class, head), want, "of {words:?}");
    }
}
