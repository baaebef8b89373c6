// Cells of texels and of CLUT entries.
ghost use Rattle.std.specs.Prelude.{◌≡◌, ◌≤◌, ◌<◌, ◌+◌};
ghost use Rattle.texture_page.specs.Page.{IsPage, IsWindow, windowed, column, texel_place, index_in, index_at};
ghost use Rattle.texture_page.specs.Page.{clut_place};

use crate::{Page, Window};
use px_num::Cell;

/// Returns the cell of the texel at column `u` and row `v` of a page. The window is applied first.
///
/// A cell contains four texels at depth 0, two at depth 1, and one at depths 2 and 3. The cell's column wraps at 1024
/// (our own rule). Its row does not wrap, and is at most 255 rows below the page's first. The fields of page and
/// window must be within their limits.
#[inline(always)]
pub fn texel_cell(page: &Page, window: &Window, u: u8, v: u8) -> Cell
    requires page { IsPage page.now }
    requires window { IsWindow window.now }
    ensures value { result ≡ texel_place page.now window.now u v }
    ensures in_row { result.x < 1024 }
    ensures in_page { result.y ≤ page.now.y + 255 }
{
    let across = under_window(window.mask_x, window.off_x, u);
    let down = under_window(window.mask_y, window.off_y, v);
    Cell {
        x: (page.x + column_of(page.depth, across)) % 1024,
        y: page.y + down as u16,
    }
}

/// Returns the CLUT index of the texel at column `u`, given the halfword `h` of its cell. The depth is 0 or 1. At
/// depth 0 the index is below 16.
pub fn index_of(page: &Page, window: &Window, u: u8, h: u16) -> u8
    requires page { IsPage page.now }
    requires window { IsWindow window.now }
    requires depth { page.now.depth ≤ 1 }
    ensures value { result ≡ index_at page.now window.now u h }
    ensures four_bits { page.now.depth ≡ 0 → result < 16 }
{
    index_part(page.depth, under_window(window.mask_x, window.off_x, u), h)
}

/// Returns the cell of a CLUT entry. Bits 0 to 5 of `clut` are the CLUT's column divided by 16, bits 6 to 14
/// its row; bit 15 is ignored. The column wraps at 1024 (our own rule).
pub fn clut_cell(clut: u16, index: u8) -> Cell
    ensures value { result ≡ clut_place clut index }
    ensures in_row { result.x < 1024 }
    ensures in_height { result.y < 512 }
{
    Cell {
        x: (clut % 64 * 16 + index as u16) % 1024,
        y: clut / 64 % 512,
    }
}

#[tactic(auto, unfolding(crate::specs::Page::windowed))]
#[inline(always)]
fn under_window(mask: u8, off: u8, u: u8) -> u8
    requires mask { mask ≤ 31 }
    requires off { off ≤ 31 }
    ensures { result ≡ windowed mask off u }
{
    u & !(mask * 8) | (off & mask) * 8
}

fn column_of(depth: u8, u: u8) -> u16
    ensures value { result ≡ column depth u }
    ensures low { result ≤ 255 }
{
    match depth {
        0 => (u / 4) as u16,
        1 => (u / 2) as u16,
        _ => u as u16,
    }
}

fn index_part(depth: u8, u: u8, h: u16) -> u8
    requires { depth ≤ 1 }
    ensures value { result ≡ index_in depth u h }
    ensures four_bits { depth ≡ 0 → result < 16 }
{
    if depth == 0 {
        ((h >> (4 * (u % 4))) % 16) as u8
    } else {
        ((h >> (8 * (u % 2))) % 256) as u8
    }
}
