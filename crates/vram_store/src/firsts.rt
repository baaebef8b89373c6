// Loads and stores of up to sixteen cells.
ghost use Rattle.std.specs.Prelude.{◌≡◌, ◌≤◌, ◌+◌, length};
ghost use Rattle.vram_store.specs.Vram.{IsLoaded, IsStored};

use crate::whole::{load_whole, masked_lanes, store_half, store_whole};
use px_num::halves::{HALF, first_lanes};
use std::simd::prelude::*;

// Writes each of the first `n` lanes whose bit of `mask` is 1 to the cells from index `start` on. Other cells keep
// their values. 16 cells from `start` on must exist, even if `n` is less.
#[inline(always)]
pub(crate) fn store_first(cells: &mut [u16], start: usize, n: u8, lanes: u16x16, mask: u16)
    requires few { n ≤ 16 }
    requires long { length lanes ≡ 16 }
    requires in_cells { start + 16 ≤ length cells.old }
    ensures { IsStored cells.old start (record { n = n; lanes = lanes; bits = mask }) cells.new }
{
    if n == 16 && mask == 0xffff {
        store_whole(cells, start, lanes);
    } else {
        let old = load_whole(cells, start);
        let new = first_lanes(n, masked_lanes(mask, lanes, old), old);
        if n <= HALF {
            store_half(cells, start, new);
        } else {
            store_whole(cells, start, new);
        }
    }
}

// Returns `cells`, at most 16, in the first lanes, and 0 in the others.
pub(crate) fn load_lanes(cells: &[u16]) -> [u16; 16]
    requires { length cells.now ≤ 16 }
    ensures { IsLoaded cells.now 0 (length cells.now) result }
{
    let mut lanes = [0; 16];
    lanes[..cells.len()].copy_from_slice(cells);
    lanes
}

// Writes each of the first `n` lanes whose bit of `mask` is 1 to the cells from index `start` on. Only `n` cells need
// to exist.
pub(crate) fn store_lanes(cells: &mut [u16], start: usize, n: usize, lanes: &[u16; 16], mask: u16)
    requires lanes { n ≤ 16 }
    requires in_cells { start + n ≤ length cells.old }
    ensures { IsStored cells.old start (record { n = n; lanes = lanes.now; bits = mask }) cells.new }
{
    for j in 0..n {
        if (mask >> j) % 2 == 1 {
            cells[start + j] = lanes[j];
        }
    }
}
