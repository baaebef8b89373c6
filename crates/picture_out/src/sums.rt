// The SHA-256 of video memory and of the shown picture.
ghost use Rattle.std.specs.Prelude.{◌≡◌, ◌+◌, ◌*◌, IsSome};
ghost use Rattle.sha2.specs.Hashers.{Holds256};
ghost use Rattle.sha2.specs.Sha256.{sha256};
ghost use Rattle.gp1_status.specs.Shape.{shape_of};
ghost use Rattle.picture_out.specs.Dump.{dump, dump_cost};
ghost use Rattle.picture_out.specs.Picture.{picture_head, pixel_count, picture_of, picture};
ghost use Rattle.picture_out.specs.Picture.{cells_of_pixel, picture_cost};

use crate::dump::row_bytes;
use crate::picture::{DisplayArea, PIECE, decimal_text, display_area, pixels, shape};
use gp1_status::Regs;
use itoa::Buffer;
use sha2::{Digest, Sha256};
use std::sync::ledger::Ledger;
use vram_store::{Steps, Vram};

/// Returns the SHA-256 of the bytes that `write_vram` writes. Costs the same number of store steps.
pub fn vram_sum<L: Ledger>(vram: &Vram, steps: &mut Steps<L>) -> [u8; 32]
    ensures value { result ≡ sha256 (dump vram.now) }
    ensures cost { steps.new ≡ steps.old + dump_cost vram.now }
{
    let mut hasher = Sha256::new();
    for y in 0..vram.height() {
        let bytes = row_bytes(vram, y, steps);
        hasher.update(bytes.as_slice());
    }
    hasher.finalize()
}

/// Returns the SHA-256 of the bytes that `write_ppm` writes. Costs the same number of store steps.
pub fn picture_sum<L: Ledger>(vram: &Vram, regs: &Regs, steps: &mut Steps<L>) -> [u8; 32]
    requires { IsSome (shape_of regs.now) }
    ensures value { result ≡ sha256 (picture vram.now regs.now) }
    ensures cost { steps.new ≡ steps.old + picture_cost regs.now }
{
    match shape(regs) {
        None => unreachable!(),
        Some((width, lines)) => sum_of_area(vram, display_area(regs, width, lines), steps),
    }
}

// Hashes the header and the pixels, at most `PIECE` pixels per update.
fn sum_of_area<L: Ledger>(vram: &Vram, shown: DisplayArea, steps: &mut Steps<L>) -> [u8; 32]
    ensures value { result ≡ sha256 (picture_of vram.now shown) }
    ensures cost { steps.new ≡ steps.old + pixel_count shown * cells_of_pixel shown }
{
    let mut hasher = after_head(shown);
    let all = shown.width as u32 * shown.lines as u32;
    let mut done = 0;
    while done < all {
        let n = (all - done).min(PIECE);
        let bytes = pixels(vram, shown, done, n, steps);
        hasher.update(&bytes[..3 * n as usize]);
        done += n;
    }
    hasher.finalize()
}

// Returns a hasher that received the header.
fn after_head(shown: DisplayArea) -> Sha256
    ensures { Holds256 result (picture_head shown) }
{
    let mut of_width = Buffer::new();
    let width = decimal_text(&mut of_width, shown.width);
    let mut of_lines = Buffer::new();
    let lines = decimal_text(&mut of_lines, shown.lines);
    let mut hasher = Sha256::new_with_prefix(b"P6\n".as_slice());
    hasher.update(width);
    hasher.update(b" ".as_slice());
    hasher.update(lines);
    hasher.update(b"\n255\n".as_slice());
    hasher
}
