// A rectangle that is moved.
ghost use Rattle.std.specs.Prelude.{◌≡◌, ◌≤◌, ◌<◌};

use gp0_packets::Packet;
use gp1_status::Regs;
use prim_draw::{area_of, draw, laws};
use px_num::Box2;
use std::alloc::Global;
use std::marker::Brand;
use std::sync::ledger::{Blank, Ledger};
use std::test::Fail;
use vram_store::{Steps, Vram};

// Returns cells (1..4, 1) and the area of a rectangle, after it was drawn with an offset of (1, 1).
fn drawn<L: Ledger>(alloc: Global, blank: Blank, w: u16) -> Result<([u16; 4], Option<Box2>), Fail>
    requires name { blank.name ≡ L.name }
    requires parts { blank.parts ≡ L.parts }
    requires some { 0 < blank.parts }
    requires wide { w ≤ 1023 }
{
    let mut steps = Steps::<L>::new(blank);
    let mut vram = Vram::new(alloc)?;
    let mut regs = Regs::new();
    regs.env(4, 0x7_ffff);
    regs.env(5, 0x801);
    let packet = Packet::Rect {
        x: 0,
        y: 0,
        w,
        h: 1,
        color: 0xff,
        textured: false,
        semi: false,
        raw: false,
        u: 0,
        v: 0,
        clut: 0,
    };
    draw(&mut vram, &regs, &packet, &mut steps);
    let cells = [
        vram.get(1, 1, &mut steps),
        vram.get(2, 1, &mut steps),
        vram.get(3, 1, &mut steps),
        vram.get(4, 1, &mut steps),
    ];
    Ok((cells, area_of(&regs, &packet)))
}

#[test]
fn a_rectangle_is_moved_by_the_offset(rt: HostRuntime) -> Result<(), Fail> {
    laws::costs_are_small();
    laws::some_costs();
    let (cells, area) = drawn::<Brand>(rt.alloc(), Blank::new(1), 3)?;
    assert_eq!(rt; cells, [31, 31, 31, 0]);
    let want = Box2 {
        x1: 1,
        y1: 1,
        x2: 3,
        y2: 1,
    };
    assert_eq!(rt; area, Some(want));
    let (_, area) = drawn::<Brand>(rt.alloc(), Blank::new(1), 0)?;
    assert!(rt; area.is_none());
    Ok(())
}
