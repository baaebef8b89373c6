// Contiguous texels of a chunk: at consecutive columns of one row.
ghost use Rattle.std.specs.Prelude.{◌≡◌, IsTrue, ◌≤◌, ◌<◌, ◌+◌, ◌/◌, length, slice_index};
ghost use Rattle.px_num.specs.Lanes.{EachLane, AreBytes};
ghost use Rattle.vram_store.specs.Vram.{at, height_of};
ghost use Rattle.texture_page.specs.Page.{column, index_in};
ghost use Rattle.texel_lanes.specs.Texture.{IsTexture};
ghost use Rattle.texel_lanes.specs.Texels.{AreBeside, AreCoordinates, AreIndexes, AreReadable, AreTexels};

use crate::Texture;
use crate::gather::{Gather, halfwords_of};
use crate::indexes::{nibbles, nibbles_from, octets_from};
use crate::texel_cells::texel_cells_of;
use crate::texture::Coordinates;
use px_num::halves::HALF;
use px_num::lanes::{add, ramp, same, splat};
use std::simd::prelude::*;
use std::sync::ledger::Ledger;
use vram_store::{Steps, Vram};

/// Returns the column of a texel's cell, counted from the page's first cell. `u` is the texel's column.
#[inline(always)]
pub fn column_of(depth: u8, u: u16) -> u16
    ensures value { result ≡ column depth u }
    ensures low { result ≤ u }
{
    match depth {
        0 => u / 4,
        1 => u / 2,
        _ => u,
    }
}

// Returns whether all sixteen texels are contiguous and the texture has no window. Sixteen cells from the first
// texel's cell on must also not pass column 1023.
#[inline(always)]
pub(crate) fn are_contiguous(texture: &Texture, at: &Coordinates) -> bool
    requires texture { IsTexture texture.now }
    requires at { AreCoordinates at.now.us × AreCoordinates at.now.vs }
    ensures { IsTrue result → AreBeside texture.now at.now }
{
    let window = texture.window;
    let u = at.us.to_array()[0];
    let v = at.vs.to_array()[0];
    let open = window.mask_x == 0 && window.mask_y == 0;
    let room = texture.page.x + column_of(texture.page.depth, u) + 16 <= 1024;
    let columns = same(at.us, add(splat(u), ramp()));
    let rows = same(at.vs, splat(v));
    room && open && columns && rows
}

// Returns `k` contiguous texels of fifteen bits, 1 to 16, with one load.
#[inline(always)]
pub(crate) fn read_contiguous<L: Ledger>(
    vram: &Vram,
    texture: &Texture,
    at: &Coordinates,
    k: u8,
    steps: &mut Steps<L>,
) -> u16x16
    requires readable { AreReadable (height_of vram.now) texture.now at.now k }
    requires depth { 2 ≤ texture.now.page.depth }
    requires beside { AreBeside texture.now at.now }
    ensures long { length result ≡ 16 }
    ensures value { AreTexels texture.now at.now k vram.now result }
    ensures cost { steps.new ≤ steps.old + k }
{
    let x = texture.page.x + at.us.to_array()[0];
    let y = texture.page.y + at.vs.to_array()[0];
    vram.load16(x, y, k, steps)
}

/// Returns the indexes of sixteen contiguous texels of four bits from column `u` of a page on, at most 255. `page` is
/// the column of the page's first cell, `y` the row in video memory. Sixteen cells from the first texel's cell on
/// must not pass the end of the row. Costs at most one step.
#[inline(always)]
pub fn sixteen_indexes<L: Ledger>(
    vram: &Vram,
    page: u16,
    u: u16,
    y: u16,
    steps: &mut Steps<L>,
) -> u8x16
    requires in_page { u ≤ 255 }
    requires in_row { page + u / 4 + 16 ≤ 1024 }
    requires in_height { y < height_of vram.now }
    ensures bytes { AreBytes result }
    ensures low { EachLane (λ i. slice_index result i < 16) }
    ensures value { EachLane (λ i. slice_index result i ≡ index_in 0 (u + i) (at vram.now (page + (u + i) / 4) y)) }
    ensures cost { steps.new ≤ steps.old + 1 }
{
    let cells = vram.load16(page + u / 4, y, 16, steps);
    nibbles_from((u % 4) as u8, cells)
}

/// Returns the indexes of sixteen contiguous texels of eight bits from column `u` of a page on, at most 255. `page`
/// is the column of the page's first cell, `y` the row in video memory. Sixteen cells from the first texel's cell on
/// must not pass the end of the row. Costs at most one step.
#[inline(always)]
pub fn sixteen_octets<L: Ledger>(
    vram: &Vram,
    page: u16,
    u: u16,
    y: u16,
    steps: &mut Steps<L>,
) -> u16x16
    requires in_page { u ≤ 255 }
    requires in_row { page + u / 2 + 16 ≤ 1024 }
    requires in_height { y < height_of vram.now }
    ensures long { length result ≡ 16 }
    ensures low { EachLane (λ i. slice_index result i < 256) }
    ensures value { EachLane (λ i. slice_index result i ≡ index_in 1 (u + i) (at vram.now (page + (u + i) / 2) y)) }
    ensures cost { steps.new ≤ steps.old + 1 }
{
    let cells = vram.load16(page + u / 2, y, 16, steps);
    octets_from((u % 2) as u8, cells)
}

// Returns the indexes of sixteen contiguous texels of four bits.
#[inline(always)]
fn contiguous_indexes<L: Ledger>(
    vram: &Vram,
    texture: &Texture,
    at: &Coordinates,
    steps: &mut Steps<L>,
) -> u8x16
    requires readable { AreReadable (height_of vram.now) texture.now at.now 16 }
    requires depth { texture.now.page.depth ≡ 0 }
    requires beside { AreBeside texture.now at.now }
    ensures indexes { AreIndexes texture.now at.now 16 vram.now result }
    ensures cost { steps.new ≤ steps.old + 1 }
{
    let u = at.us.to_array()[0];
    let y = texture.page.y + at.vs.to_array()[0];
    sixteen_indexes(vram, texture.page.x, u, y, steps)
}

// Returns the indexes of the first `k` texels of four bits at any coordinates.
#[inline(always)]
fn scattered_indexes<G: Gather, L: Ledger>(
    vram: &Vram,
    texture: &Texture,
    at: &Coordinates,
    k: u8,
    steps: &mut Steps<L>,
) -> u8x16
    requires { AreReadable (height_of vram.now) texture.now at.now k }
    ensures indexes { AreIndexes texture.now at.now k vram.now result }
    ensures cost { steps.new ≤ steps.old + k }
{
    let places = texel_cells_of(texture, at);
    let halfwords = halfwords_of::<G, L>(vram, places.xs, places.ys, k, steps);
    nibbles(places.across, halfwords)
}

/// Returns the indexes of the first `k` texels of four bits, 1 to 16, at coordinates `at`. The texture must have
/// depth 0, and all rows of its page must be in video memory. Loads them all at once if `G` tests for it, `k` exceeds
/// eight and the texels are contiguous. Costs at most `k` steps.
#[inline(always)]
pub fn indexes_of<G: Gather, L: Ledger>(
    vram: &Vram,
    texture: &Texture,
    at: &Coordinates,
    k: u8,
    steps: &mut Steps<L>,
) -> u8x16
    requires readable { AreReadable (height_of vram.now) texture.now at.now k }
    requires depth { texture.now.page.depth ≡ 0 }
    ensures indexes { AreIndexes texture.now at.now k vram.now result }
    ensures cost { steps.new ≤ steps.old + k }
{
    if G::looks() && k > HALF && are_contiguous(texture, at) {
        contiguous_indexes(vram, texture, at, steps)
    } else {
        scattered_indexes::<G, L>(vram, texture, at, k, steps)
    }
}
