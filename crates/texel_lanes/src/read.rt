// Texels at sixteen coordinates.
ghost use Rattle.std.specs.Prelude.{◌≡◌, ◌≤◌, ◌<◌, ◌+◌, ◌*◌, ℕ, length, slice_index};
ghost use Rattle.vram_store.specs.Vram.{height_of};
ghost use Rattle.texel_lanes.specs.Texture.{texel_steps};
ghost use Rattle.texel_lanes.specs.Texels.{AreCoordinates, AreReadable, AreTexels};

use crate::Texture;
use crate::clut::{entries_at, gather_entries, sixteen_entries, table_of};
use crate::contiguous::{are_contiguous, indexes_of, read_contiguous};
use crate::gather::{Gather, HalfAtOnce, halfwords_of};
use crate::indexes::octets;
use crate::texel_cells::texel_cells_of;
use crate::texture::Coordinates;
use px_num::halves::{HALF, first_lanes, wanted_lanes};
use px_num::lanes::splat;
use std::simd::prelude::*;
use std::sync::ledger::Ledger;
use vram_store::{Steps, Vram};

// Returns the first `k` texels of four bits.
#[inline(always)]
fn read_fours<G: Gather, L: Ledger>(
    vram: &Vram,
    texture: &Texture,
    at: &Coordinates,
    k: u8,
    steps: &mut Steps<L>,
) -> u16x16
    requires readable { AreReadable (height_of vram.now) texture.now at.now k }
    requires depth { texture.now.page.depth ≡ 0 }
    ensures long { length result ≡ 16 }
    ensures value { AreTexels texture.now at.now k vram.now result }
    ensures cost { steps.new ≤ steps.old + 2 * k }
{
    let index = indexes_of::<G, L>(vram, texture, at, k, steps);
    let entries = sixteen_entries(vram, texture.clut, steps);
    entries_at(&table_of(entries), index)
}

// Returns the first `k` texels of eight bits.
#[inline(always)]
fn read_eights<G: Gather, L: Ledger>(
    vram: &Vram,
    texture: &Texture,
    at: &Coordinates,
    k: u8,
    steps: &mut Steps<L>,
) -> u16x16
    requires readable { AreReadable (height_of vram.now) texture.now at.now k }
    requires depth { texture.now.page.depth ≡ 1 }
    ensures long { length result ≡ 16 }
    ensures value { AreTexels texture.now at.now k vram.now result }
    ensures cost { steps.new ≤ steps.old + 2 * k }
{
    let places = texel_cells_of(texture, at);
    let halfwords = halfwords_of::<G, L>(vram, places.xs, places.ys, k, steps);
    let index = octets(places.across, halfwords);
    gather_entries::<G, L>(vram, texture.clut, index, k, steps)
}

// Returns the first `k` texels of fifteen bits at any coordinates.
#[inline(always)]
fn read_scattered<G: Gather, L: Ledger>(
    vram: &Vram,
    texture: &Texture,
    at: &Coordinates,
    k: u8,
    steps: &mut Steps<L>,
) -> u16x16
    requires readable { AreReadable (height_of vram.now) texture.now at.now k }
    requires depth { 2 ≤ texture.now.page.depth }
    ensures long { length result ≡ 16 }
    ensures value { AreTexels texture.now at.now k vram.now result }
    ensures cost { steps.new ≤ steps.old + k }
{
    let places = texel_cells_of(texture, at);
    halfwords_of::<G, L>(vram, places.xs, places.ys, k, steps)
}

// Returns the first `k` texels of fifteen bits. Uses one load if `G` tests for it, `k` exceeds eight and the texels
// are contiguous.
#[inline(always)]
fn read_wholes<G: Gather, L: Ledger>(
    vram: &Vram,
    texture: &Texture,
    at: &Coordinates,
    k: u8,
    steps: &mut Steps<L>,
) -> u16x16
    requires readable { AreReadable (height_of vram.now) texture.now at.now k }
    requires depth { 2 ≤ texture.now.page.depth }
    ensures long { length result ≡ 16 }
    ensures value { AreTexels texture.now at.now k vram.now result }
    ensures cost { steps.new ≤ steps.old + k }
{
    if G::looks() && k > HALF && are_contiguous(texture, at) {
        read_contiguous(vram, texture, at, k, steps)
    } else {
        read_scattered::<G, L>(vram, texture, at, k, steps)
    }
}

/// Returns the texels at the first `k` coordinates of `at`, 1 to 16. The other lanes have no specified value. Page
/// and window must be within their limits, and all rows of the page in video memory. Costs at most `k` steps at
/// depths 2 and 3, and twice as many at depths 0 and 1.
#[inline(always)]
pub fn read_texels<G: Gather, L: Ledger>(
    vram: &Vram,
    texture: &Texture,
    at: &Coordinates,
    k: u8,
    steps: &mut Steps<L>,
) -> u16x16
    requires { AreReadable (height_of vram.now) texture.now at.now k }
    ensures long { length result ≡ 16 }
    ensures value { AreTexels texture.now at.now k vram.now result }
    ensures cost { steps.new ≤ steps.old + texel_steps texture.now.page.depth * k }
{
    match texture.page.depth {
        0 => read_fours::<G, L>(vram, texture, at, k, steps),
        1 => read_eights::<G, L>(vram, texture, at, k, steps),
        _ => read_wholes::<G, L>(vram, texture, at, k, steps),
    }
}

/// As [`read_texels`], for 1 to 8 texels. The last eight lanes are 0, so the compiler computes nothing for them.
#[inline(always)]
pub fn read_few<L: Ledger>(
    vram: &Vram,
    texture: &Texture,
    at: &Coordinates,
    k: u8,
    steps: &mut Steps<L>,
) -> u16x16
    requires readable { AreReadable (height_of vram.now) texture.now at.now k }
    requires few { k ≤ 8 }
    ensures long { length result ≡ 16 }
    ensures value { AreTexels texture.now at.now k vram.now result }
    ensures cost { steps.new ≤ steps.old + texel_steps texture.now.page.depth * k }
{
    let texels = read_texels::<HalfAtOnce, L>(vram, texture, &first_half(at), k.min(HALF), steps);
    wanted_lanes(HALF, texels)
}

// Returns the first eight of the coordinates, followed by zeros.
#[inline(always)]
fn first_half(at: &Coordinates) -> Coordinates
    requires { AreCoordinates at.now.us × AreCoordinates at.now.vs }
    ensures coordinates { AreCoordinates result.us × AreCoordinates result.vs }
    ensures across { (j : ℕ) → j < 8 → slice_index result.us j ≡ slice_index at.now.us j }
    ensures down { (j : ℕ) → j < 8 → slice_index result.vs j ≡ slice_index at.now.vs j }
{
    Coordinates {
        us: first_lanes(HALF, at.us, splat(0)),
        vs: first_lanes(HALF, at.vs, splat(0)),
    }
}
