// Fills of rectangles, sixteen cells at a time.
ghost use Rattle.std.specs.Prelude.{◌≡◌, ◌<◌, ◌+◌, ◌*◌, ◌/◌, ◌%◌, length};
ghost use Rattle.vram_store.specs.Vram.{height_of};
ghost use Rattle.vram_copy.specs.Costs.{fill_cost};
ghost use Rattle.vram_copy.specs.Fill.{filled_rectangle, filled_row};

use px_num::{Cell, wrap_at, wrap_x};
use std::simd::prelude::*;
use std::sync::ledger::Ledger;
use vram_store::{Steps, Vram};

/// Fills `h` rows of `w` cells from (`x`, `y`) on with the halfword `color`. `x` and `w` must be multiples of 16.
///
/// X wraps at 1024 and Y at the height, with no carry between them. The mask setting is ignored: cells with bit 15
/// are written too, and the halfword is written as it is. A width or a height of 0 fills nothing (psx-spx, GP0(02h)).
/// Costs `w / 16` steps per row.
pub fn fill<L: Ledger>(
    vram: &mut Vram,
    x: u16,
    y: u16,
    w: u16,
    h: u16,
    color: u16,
    steps: &mut Steps<L>,
)
    requires column { x % 16 ≡ 0 }
    requires width { w % 16 ≡ 0 }
    ensures cells { vram.new ≡ filled_rectangle vram.old (record { x = x; y = y }) (record { w = w; h = h }) color }
    ensures long { length vram.new ≡ length vram.old }
    ensures cost { steps.new ≡ steps.old + fill_cost w h }
{
    let height = vram.height();
    for j in 0..h {
        let row = wrap_at(y as u32 + j as u32, height);
        fill_row(vram, Cell { x, y: row }, w, color, steps);
    }
}

fn fill_row<L: Ledger>(vram: &mut Vram, first: Cell, w: u16, color: u16, steps: &mut Steps<L>)
    requires column { first.x % 16 ≡ 0 }
    requires width { w % 16 ≡ 0 }
    requires in_height { first.y < height_of vram.old }
    ensures cells { vram.new ≡ filled_row vram.old first w color }
    ensures long { length vram.new ≡ length vram.old }
    ensures cost { steps.new ≡ steps.old + w / 16 }
{
    let lanes = u16x16::splat(color);
    for k in 0..w / 16 {
        let column = wrap_x(first.x as u32 + 16 * k as u32);
        vram.store16(column, first.y, 16, lanes, 0xffff, steps);
    }
}
