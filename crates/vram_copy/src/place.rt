// Positions of the pixels of a rectangle.
ghost use Rattle.std.specs.Prelude.{ℕ, ◌≡◌, ◌≤◌, ◌<◌, ◌+◌, ◌*◌};
ghost use Rattle.vram_copy.specs.Places.{IsPlace};
ghost use Rattle.vram_copy.specs.Words.{pixel_cell};

use crate::transfer::Transfer;
use px_num::{Cell, wrap_at, wrap_x};

/// The position of a pixel within its rectangle.
#[derive(Clone, Copy)]
pub struct Place {
    /// Its column.
    pub column: u16,
    /// Its row.
    pub row: u16,
}

/// Returns the cell of video memory at `place` of the rectangle. X wraps at 1024 and Y at `height`.
pub fn cell_at(job: &Transfer, place: Place, height: u16) -> Cell
    requires rows { 1 ≤ height }
    ensures value { (i : ℕ) → IsPlace job.now.w place i → result ≡ pixel_cell height job.now i }
    ensures in_row { result.x < 1024 }
    ensures in_height { result.y < height }
{
    Cell {
        x: wrap_x(job.x as u32 + place.column as u32),
        y: wrap_at(job.y as u32 + place.row as u32, height),
    }
}

/// Returns the position of the pixel `n` after `place`, in its row or at the start of the next. `n` is at least 1.
/// The `n` pixels from `place` on must be in one row of the rectangle.
pub fn place_behind(job: &Transfer, place: Place, n: u16) -> Place
    requires column { place.column + n ≤ job.now.w }
    requires more { place.row * job.now.w + place.column + n ≤ job.now.w * job.now.h }
    requires some { 1 ≤ n }
    ensures { (i : ℕ) → IsPlace job.now.w place i → IsPlace job.now.w result (i + n) }
{
    let width = job.w;
    if place.column + n == width {
        Place {
            column: 0,
            row: place.row + 1,
        }
    } else {
        Place {
            column: place.column + n,
            row: place.row,
        }
    }
}
