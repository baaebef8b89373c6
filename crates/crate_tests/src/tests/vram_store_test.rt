// Cells of video memory at its corners and under a mask.
ghost use Rattle.std.specs.Prelude.{◌≡◌, ◌<◌};

use std::alloc::Global;
use std::marker::Brand;
use std::simd::prelude::*;
use std::sync::ledger::{Blank, Ledger};
use std::test::Fail;
use vram_store::{Steps, Vram};

// Returns the cells (1008..1023, 511) after a store of its first three lanes, the second of them masked.
fn corner<L: Ledger>(alloc: Global, blank: Blank) -> Result<[u16; 16], Fail>
    requires name { blank.name ≡ L.name }
    requires parts { blank.parts ≡ L.parts }
    requires some { 0 < blank.parts }
{
    let mut steps = Steps::<L>::new(blank);
    let mut vram = Vram::new(alloc)?;
    vram.put(1009, 511, 5, &mut steps);
    vram.store16(1008, 511, 3, u16x16::splat(9), 0b1101, &mut steps);
    Ok(vram.load16(1008, 511, 16, &mut steps).to_array())
}

// Returns the cells at the corners of new video memory.
fn first_corners<L: Ledger>(alloc: Global, blank: Blank) -> Result<[u16; 4], Fail>
    requires name { blank.name ≡ L.name }
    requires parts { blank.parts ≡ L.parts }
    requires some { 0 < blank.parts }
{
    let mut steps = Steps::<L>::new(blank);
    let vram = Vram::new(alloc)?;
    Ok([
        vram.get(0, 0, &mut steps),
        vram.get(1023, 0, &mut steps),
        vram.get(0, 511, &mut steps),
        vram.get(1023, 511, &mut steps),
    ])
}

#[test]
fn new_video_memory_is_zero(rt: HostRuntime) -> Result<(), Fail> {
    assert_eq!(rt; first_corners::<Brand>(rt.alloc(), Blank::new(1))?, [0; 4]);
    Ok(())
}

#[test]
fn the_last_cells_are_stored_under_their_mask(rt: HostRuntime) -> Result<(), Fail> {
    let cells = corner::<Brand>(rt.alloc(), Blank::new(1))?;
    assert_eq!(rt; cells, [9, 5, 9, 0, 0, 0, 0, 0, 0, 0, 0, 0, 0, 0, 0, 0]);
    Ok(())
}
