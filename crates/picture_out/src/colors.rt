// A pixel of the shown picture as three bytes, red first.
ghost use Rattle.std.specs.Prelude.{◌≡◌, ◌<◌, ◌+◌, ◌*◌, ◌/◌, ◌%◌, ◌^◌};
ghost use Rattle.vram_store.specs.Vram.{height_of};
ghost use Rattle.picture_out.specs.Picture.{cells_of_pixel, channel_byte, color_bytes, deep_bytes, row_pixel};
ghost use Rattle.picture_out.specs.Picture.{shown_cell};

use crate::picture::DisplayArea;
use px_num::wrap_x;
use std::sync::ledger::Ledger;
use vram_store::{Steps, Vram};

/// Returns the bytes of pixel `i` of a picture row. `y`: the row of video memory that it is read from.
#[inline(always)]
#[tactic(auto, unfolding(crate::specs::Picture::cells_of_pixel))]
pub(crate) fn pixel<L: Ledger>(
    vram: &Vram,
    shown: DisplayArea,
    y: u16,
    i: u32,
    steps: &mut Steps<L>,
) -> [u8; 3]
    requires in_width { i < 2 ^ 16 }
    requires in_height { y < height_of vram.now }
    ensures bytes { result ≡ row_pixel vram.now shown y i }
    ensures cost { steps.new ≡ steps.old + cells_of_pixel shown }
{
    if shown.is_deep {
        deep_pixel(vram, shown.x, y, i, steps)
    } else {
        color_pixel(cell(vram, shown.x as u32 + i, y, steps))
    }
}

// Returns the bytes of a 15-bit pixel.
fn color_pixel(cell: u16) -> [u8; 3]
    ensures { result ≡ color_bytes cell }
{
    [
        channel(cell % 32),
        channel(cell / 32 % 32),
        channel(cell / 1024 % 32),
    ]
}

// Returns the 8-bit value of a 5-bit channel.
fn channel(c: u16) -> u8
    requires { c < 32 }
    ensures { result ≡ channel_byte c }
{
    (8 * c + c / 4) as u8
}

// Returns the bytes of 24-bit pixel `i` of row `y`, counted from column `x`. They are in two contiguous cells.
fn deep_pixel<L: Ledger>(vram: &Vram, x: u16, y: u16, i: u32, steps: &mut Steps<L>) -> [u8; 3]
    requires in_width { i < 2 ^ 16 }
    requires in_height { y < height_of vram.now }
    ensures bytes { result ≡ deep_bytes vram.now x y i }
    ensures cost { steps.new ≡ steps.old + 2 }
{
    let column = x as u32 + 3 * i / 2;
    let left = cell(vram, column, y, steps);
    let right = cell(vram, column + 1, y, steps);
    if i % 2 == 0 {
        [low(left), high(left), low(right)]
    } else {
        [high(left), low(right), high(right)]
    }
}

// Returns bits 0 to 7.
fn low(cell: u16) -> u8
    ensures { result ≡ cell % 256 }
{
    (cell % 256) as u8
}

// Returns bits 8 to 15.
fn high(cell: u16) -> u8
    ensures { result ≡ cell / 256 }
{
    (cell / 256) as u8
}

// Returns a cell of row `y`. `column` wraps at 1024.
fn cell<L: Ledger>(vram: &Vram, column: u32, y: u16, steps: &mut Steps<L>) -> u16
    requires { y < height_of vram.now }
    ensures value { result ≡ shown_cell vram.now column y }
    ensures cost { steps.new ≡ steps.old + 1 }
{
    vram.get(wrap_x(column), y, steps)
}
