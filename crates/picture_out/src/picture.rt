// The shown picture as PPM.
ghost use Rattle.std.specs.Prelude.{◌≡◌, ◌≤◌, ◌+◌, ◌*◌, take, decimal, IsSome, OnOk};
ghost use Rattle.dev_io.specs.Device.{Writes, side};
ghost use Rattle.gp1_status.specs.Shape.{shape_of};
ghost use Rattle.picture_out.specs.Picture.{display_of, pixels_from, picture_head, pixel_count, picture_of, picture};
ghost use Rattle.picture_out.specs.Picture.{cells_of_pixel, picture_cost};

use crate::rows::{left_in_row, put_pixels};
use dev_io::{Failed, Sink, write_all, write_pieces};
use gp1_status::Regs;
use itoa::Buffer;
use px_num::{bit, wrap_at, wrap_x};
use std::sync::ledger::Ledger;
use vram_store::{Steps, Vram};

/// The greatest number of pixels in one write.
pub(crate) const PIECE: u32 = 1024;

/// The part of video memory that is shown. `x`, `y`: its first cell. `width`: pixels per row. `lines`: number of rows.
/// `is_deep`: whether a pixel has 24 bits.
#[derive(Clone, Copy)]
pub(crate) struct DisplayArea {
    pub x: u16,
    pub y: u16,
    pub width: u16,
    pub lines: u16,
    pub is_deep: bool,
}

/// Returns the width and height of the shown picture in pixels, or `None` if it has no pixel.
pub fn shape(regs: &Regs) -> Option<(u16, u16)>
    ensures { result ≡ shape_of regs.now }
{
    regs.shape()
}

/// Writes the shown picture as PPM. The header has three lines: `P6`, the width and height, and `255`. Each pixel is
/// three bytes: red, green, blue. The top row is first.
///
/// Fails only if the sink fails. A proper prefix of these bytes was then written.
pub fn write_ppm<K: Sink, L: Ledger>(
    vram: &Vram,
    regs: &Regs,
    out: &mut K,
    steps: &mut Steps<L>,
) -> Result<(), Failed>
    requires { IsSome (shape_of regs.now) }
    ensures writes { Writes (side K.held K.faults) out.old out.new (picture vram.now regs.now) result }
    ensures cost { OnOk result (steps.new ≡ steps.old + picture_cost regs.now) }
    ensures cost_at_most { steps.new ≤ steps.old + picture_cost regs.now }
{
    match shape(regs) {
        None => unreachable!(),
        Some((width, lines)) => write_picture(vram, display_area(regs, width, lines), out, steps),
    }
}

// Returns the display area of a picture of `width` by `lines` pixels.
pub(crate) fn display_area(regs: &Regs, width: u16, lines: u16) -> DisplayArea
    ensures { result ≡ display_of regs.now (record { 0 = width; 1 = lines }) }
{
    let start = regs.start();
    DisplayArea {
        x: wrap_x(start),
        y: wrap_at(start / 1024, regs.height()),
        width,
        lines,
        is_deep: bit(u32::from(regs.mode()), 4),
    }
}

// Writes the header and the pixels.
#[tactic(auto, unfolding(crate::specs::Picture::picture_of))]
fn write_picture<K: Sink, L: Ledger>(
    vram: &Vram,
    shown: DisplayArea,
    out: &mut K,
    steps: &mut Steps<L>,
) -> Result<(), Failed>
    ensures writes { Writes (side K.held K.faults) out.old out.new (picture_of vram.now shown) result }
    ensures cost { OnOk result (steps.new ≡ steps.old + pixel_count shown * cells_of_pixel shown) }
    ensures cost_at_most { steps.new ≤ steps.old + pixel_count shown * cells_of_pixel shown }
{
    write_head(shown, out)?;
    write_pixels(vram, shown, out, steps)
}

// Writes the header.
#[tactic(auto, unfolding(crate::specs::Picture::picture_head))]
fn write_head<K: Sink>(shown: DisplayArea, out: &mut K) -> Result<(), Failed>
    ensures { Writes (side K.held K.faults) out.old out.new (picture_head shown) result }
{
    let mut of_width = Buffer::new();
    let width = decimal_text(&mut of_width, shown.width);
    let mut of_lines = Buffer::new();
    let lines = decimal_text(&mut of_lines, shown.lines);
    write_pieces(out, &[b"P6\n", width, b" ", lines, b"\n255\n"])
}

// Returns the decimal digits of `n`.
pub(crate) fn decimal_text(buffer: &mut Buffer, n: u16) -> &[u8]
    ensures { result.now ≡ decimal n }
{
    buffer.format(n).as_bytes()
}

// Writes all pixels, at most `PIECE` per write.
fn write_pixels<K: Sink, L: Ledger>(
    vram: &Vram,
    shown: DisplayArea,
    out: &mut K,
    steps: &mut Steps<L>,
) -> Result<(), Failed>
    ensures writes { Writes (side K.held K.faults) out.old out.new
        (pixels_from vram.now shown 0 (pixel_count shown)) result }
    ensures cost { OnOk result (steps.new ≡ steps.old + pixel_count shown * cells_of_pixel shown) }
    ensures cost_at_most { steps.new ≤ steps.old + pixel_count shown * cells_of_pixel shown }
{
    let all = shown.width as u32 * shown.lines as u32;
    let mut done = 0;
    while done < all {
        let n = (all - done).min(PIECE);
        let bytes = pixels(vram, shown, done, n, steps);
        write_all(out, &bytes[..3 * n as usize])?;
        done += n;
    }
    Ok(())
}

// Returns the bytes of `n` pixels from number `first` on. The bytes after them have no meaning.
pub(crate) fn pixels<L: Ledger>(
    vram: &Vram,
    shown: DisplayArea,
    first: u32,
    n: u32,
    steps: &mut Steps<L>,
) -> [u8; 3072]
    requires few { n ≤ 1024 }
    requires within { first + n ≤ pixel_count shown }
    ensures bytes { take (3 * n) result ≡ pixels_from vram.now shown first n }
    ensures cost { steps.new ≡ steps.old + n * cells_of_pixel shown }
{
    let mut bytes = [0u8; 3072];
    let mut done = 0;
    while done < n {
        let count = left_in_row(shown, first + done).min(n - done);
        let at = 3 * done as usize;
        put_pixels(
            vram,
            shown,
            first + done,
            &mut bytes[at..at + 3 * count as usize],
            steps,
        );
        done += count;
    }
    bytes
}
