// The pixels of one row of the shown picture.
ghost use Rattle.std.specs.Prelude.{◌≡◌, ◌≤◌, ◌<◌, ◌+◌, ◌-◌, ◌*◌, ◌/◌, ◌%◌, length};
ghost use Rattle.picture_out.specs.Picture.{cells_of_pixel, pixel_count, pixels_from};

use crate::colors::pixel;
use crate::picture::DisplayArea;
use px_num::wrap_at;
use std::sync::ledger::Ledger;
use vram_store::{Steps, Vram};

/// Returns the number of pixels from pixel number `k` to the end of its row, `k` included.
pub(crate) fn left_in_row(shown: DisplayArea, k: u32) -> u32
    requires { k < pixel_count shown }
    ensures value { result ≡ shown.width - k % shown.width }
    ensures some { 0 < result }
{
    let width = shown.width as u32;
    width - k % width
}

/// Fills `bytes` with pixels of one row from number `first` on, three bytes per pixel.
pub(crate) fn put_pixels<L: Ledger>(
    vram: &Vram,
    shown: DisplayArea,
    first: u32,
    bytes: &mut [u8],
    steps: &mut Steps<L>,
)
    requires within { first < pixel_count shown }
    requires whole { length bytes.old % 3 ≡ 0 }
    requires in_row { first % shown.width + length bytes.old / 3 ≤ shown.width }
    ensures count { length bytes.new ≡ length bytes.old }
    ensures bytes { bytes.new ≡ pixels_from vram.now shown first (length bytes.old / 3) }
    ensures cost { steps.new ≡ steps.old + length bytes.old / 3 * cells_of_pixel shown }
{
    let width = shown.width as u32;
    let column = first % width;
    let y = wrap_at(shown.y as u32 + first / width, vram.height());
    for i in 0..bytes.len() / 3 {
        let pixel = pixel(vram, shown, y, column + i as u32, steps);
        bytes[3 * i] = pixel[0];
        bytes[3 * i + 1] = pixel[1];
        bytes[3 * i + 2] = pixel[2];
    }
}
