// Texels of each depth, one by one and all at once.
ghost use Rattle.std.specs.Prelude.{◌≡◌, ◌≤◌, ◌<◌};

use px_num::lanes::{low_bits, ramp, splat};
use std::alloc::Global;
use std::marker::Brand;
use std::sync::ledger::{Blank, Ledger};
use std::test::Fail;
use texel_lanes::{Coordinates, OneByOne, Texture, read_texel, read_texels};
use texture_page::{Page, Window};
use vram_store::{Steps, Vram};

// A page from column 64 on, and the CLUT in the first cells.
fn texture_of(depth: u8) -> Texture
    requires { depth ≤ 3 }
    ensures page { (result.page.x ≡ 64) × (result.page.y ≡ 0) × (result.page.depth ≡ depth) }
    ensures window { (result.window.mask_x ≡ 0) × (result.window.mask_y ≡ 0) }
    ensures offsets { (result.window.off_x ≡ 0) × (result.window.off_y ≡ 0) }
{
    let window = Window {
        mask_x: 0,
        mask_y: 0,
        off_x: 0,
        off_y: 0,
    };
    Texture {
        page: Page { x: 64, y: 0, depth },
        window,
        clut: 0,
        raw: true,
    }
}

// Returns the first four texels of a row, the last of them read alone.
fn first_texels<L: Ledger>(alloc: Global, blank: Blank, depth: u8) -> Result<[u16; 4], Fail>
    requires name { blank.name ≡ L.name }
    requires parts { blank.parts ≡ L.parts }
    requires some { 0 < blank.parts }
    requires depth { depth ≤ 3 }
{
    let mut steps = Steps::<L>::new(blank);
    let mut vram = Vram::new(alloc)?;
    vram.put(1, 0, 0x111, &mut steps);
    vram.put(2, 0, 0x222, &mut steps);
    vram.put(3, 0, 0x333, &mut steps);
    vram.put(64, 0, 0x0201, &mut steps);
    vram.put(65, 0, 0x0103, &mut steps);
    let texture = texture_of(depth);
    let at = Coordinates {
        us: low_bits(ramp(), 8),
        vs: low_bits(splat(0), 8),
    };
    let texels = read_texels::<OneByOne, L>(&vram, &texture, &at, 3, &mut steps).to_array();
    let last = read_texel(&vram, &texture, 3, 0, &mut steps);
    Ok([texels[0], texels[1], texels[2], last])
}

#[test]
fn texels_of_each_depth(rt: HostRuntime) -> Result<(), Fail> {
    for (depth, want) in [
        (0, [0x111, 0, 0x222, 0]),
        (1, [0x111, 0x222, 0x333, 0x111]),
        (2, [0x0201, 0x0103, 0, 0]),
    ] {
        let texels = first_texels::<Brand>(rt.alloc(), Blank::new(1), depth)?;
        assert_eq!(rt; texels, want, "at depth {depth}");
    }
    Ok(())
}
