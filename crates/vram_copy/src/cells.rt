// Cells of a rectangle, relative to its first.
ghost use Rattle.std.specs.Prelude.{◌≡◌, ◌≤◌, ◌<◌, ◌+◌};
ghost use Rattle.vram_copy.specs.Rect.{beside, right, down};

use px_num::{Cell, wrap_at, wrap_x};

/// Returns the cell `i` columns to the right. X wraps at 1024.
pub fn cell_right(cell: Cell, i: u16) -> Cell
    ensures value { result ≡ right cell i }
    ensures in_row { result.x < 1024 }
{
    Cell {
        x: wrap_x(cell.x as u32 + i as u32),
        y: cell.y,
    }
}

/// Returns the cell `j` rows below. Y wraps at `height`.
pub fn cell_down(cell: Cell, j: u16, height: u16) -> Cell
    requires { 1 ≤ height }
    ensures value { result ≡ down height cell j }
    ensures in_height { result.y < height }
{
    Cell {
        x: cell.x,
        y: wrap_at(cell.y as u32 + j as u32, height),
    }
}

/// Returns the cell `i` columns to the right, which must be in the same row.
#[inline(always)]
pub fn cell_beside(cell: Cell, i: u16) -> Cell
    requires { cell.x + i < 1024 }
    ensures { result ≡ beside cell i }
{
    Cell {
        x: cell.x + i,
        y: cell.y,
    }
}
