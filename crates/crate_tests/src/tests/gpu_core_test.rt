// A new drawing processor, and a fill.
ghost use Rattle.std.specs.Prelude.{◌≡◌, ◌<◌};

use gpu_core::{Gpu, laws};
use gpu_taps::Tap;
use std::alloc::Global;
use std::marker::Brand;
use std::sync::ledger::{Blank, Ledger};
use std::test::Fail;
use vram_store::Steps;

// Returns the status word of a new drawing processor. Returns a read, the status word, the height and a cell of row 600
// after a fill of that row with 1024 rows.
fn around_a_fill<L: Ledger>(
    alloc: Global,
    blank: Blank,
) -> Result<(u32, (u32, u32, u16, u16)), Fail>
    requires name { blank.name ≡ L.name }
    requires parts { blank.parts ≡ L.parts }
    requires some { 0 < blank.parts }
{
    let mut steps = Steps::<L>::new(blank);
    let mut taps: Vec<Box<dyn Tap>> = Vec::new(alloc);
    let mut gpu = Gpu::new(alloc)?;
    let first = gpu.status();
    gpu.set_tall();
    gpu.gp1(0x1000_0007);
    gpu.gp0(1, 0x0200_00ff, &mut taps, &mut steps);
    gpu.gp0(2, 0x0258_0010, &mut taps, &mut steps);
    gpu.gp0(3, 0x0001_0010, &mut taps, &mut steps);
    let latch = gpu.read(&mut steps);
    let height = gpu.vram().height();
    let cell = if height == 1024 {
        gpu.vram().get(16, 600, &mut steps)
    } else {
        0
    };
    Ok((first, (latch, gpu.status(), height, cell)))
}

#[test]
fn a_fill_reaches_below_row_512(rt: HostRuntime) -> Result<(), Fail> {
    laws::costs_are_small();
    let (first, after) = around_a_fill::<Brand>(rt.alloc(), Blank::new(1))?;
    assert_eq!(rt; first, 0x1480_2000);
    assert_eq!(rt; after, (2, 0x1480_2000, 1024, 31));
    Ok(())
}
