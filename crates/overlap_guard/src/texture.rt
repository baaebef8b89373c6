// Texture and CLUT hazards.
ghost use Rattle.std.specs.Prelude.{◌≡◌, ◌+◌, ◌-◌, ◌%◌, ◌≤◌, ◌<◌, ◌⊎◌, ◌↔◌, IsTrue, length};
ghost use Rattle.std.specs.Option.{MatchOption};
ghost use Rattle.overlap_guard.specs.Hazard.{WrittenBefore, HasTexelHazard, HasStripHazard, HasTextureHazard};
ghost use Rattle.overlap_guard.specs.Hazard.{has_texture_hazard};

use px_num::{Cell, Strip};

/// Returns whether a textured chunk has a hazard: some lane reads as its texel a cell that an earlier lane writes, or
/// some lane writes a cell of the CLUT.
///
/// The chunk has `n` lanes, 1 to 16. Lane `i` reads `texels[i]` and writes the cell `i` columns to the right of `to`;
/// `to.x + n` is at most 1024. `clut` is the CLUT, a strip that wraps at 1024 columns; without a CLUT only
/// texels count. This function tests one texel after another. The drawing code calls
/// [`lanes_hazard`](crate::lanes_hazard), which is proved to return the same.
pub fn texture_hazard(texels: &[Cell], clut: Option<Strip>, to: Cell, n: u8) -> bool
    requires count { (1 ≤ n) × (n ≤ 16) }
    requires members { length texels.now ≡ n }
    requires target { to.x + n ≤ 1024 }
    ensures pairs { IsTrue result ↔ HasTextureHazard texels.now clut to n }
    ensures value { result ≡ has_texture_hazard texels.now clut to n }
{
    reads_written(texels, clut, to, n)
}

fn reads_written(texels: &[Cell], clut: Option<Strip>, to: Cell, n: u8) -> bool
    requires some { 1 ≤ n }
    requires target { to.x + n ≤ 1024 }
    ensures { IsTrue result ↔ HasTextureHazard texels.now clut to n }
{
    let texel = texel_hazard(texels, to);
    let entry = clut_hazard(clut, to, n);
    texel || entry
}

// Returns whether some lane reads as its texel a cell that an earlier lane writes.
fn texel_hazard(texels: &[Cell], to: Cell) -> bool
    ensures { IsTrue result ↔ HasTexelHazard texels.now to }
{
    for (j, texel) in texels.iter().enumerate() {
        if written_before(*texel, to, j) {
            return true;
        }
    }
    false
}

// Returns whether a lane before lane `j` writes `cell`.
fn written_before(cell: Cell, to: Cell, j: usize) -> bool
    ensures { IsTrue result ↔ WrittenBefore to j cell }
{
    lies_before(cell, to, j)
}

fn lies_before(cell: Cell, to: Cell, j: usize) -> bool
    ensures { IsTrue result ↔ ((cell.y ≡ to.y) × (to.x ≤ cell.x) × (cell.x < to.x + j)) }
{
    cell.y == to.y && to.x <= cell.x && ((cell.x - to.x) as usize) < j
}

/// Returns whether some of the `n` lanes of a chunk from `to` on writes a cell of the CLUT. Returns false without
/// a CLUT. `n` is at least 1, and `to.x + n` at most 1024.
pub fn clut_hazard(clut: Option<Strip>, to: Cell, n: u8) -> bool
    requires some { 1 ≤ n }
    requires target { to.x + n ≤ 1024 }
    ensures { IsTrue result ↔ MatchOption clut ⊥ (λ strip. HasStripHazard strip to n) }
{
    match clut {
        None => false,
        Some(strip) => strip_hazard(strip, to, n),
    }
}

fn strip_hazard(strip: Strip, to: Cell, n: u8) -> bool
    requires some { 1 ≤ n }
    requires target { to.x + n ≤ 1024 }
    ensures { IsTrue result ↔ HasStripHazard strip to n }
{
    strip_meets(strip.x % 1024, strip, to, n)
}

// Returns whether the strip contains the chunk's first cell, or the chunk contains the strip's first cell. `first` is
// the column of the strip's first cell.
fn strip_meets(first: u16, strip: Strip, to: Cell, n: u8) -> bool
    requires first { first < 1024 }
    requires target { to.x + n ≤ 1024 }
    ensures { IsTrue result ↔ ((strip.y ≡ to.y) × (0 < strip.n)
        × (((to.x + 1024 - first) % 1024 < strip.n) ⊎ ((to.x ≤ first) × (first < to.x + n)))) }
{
    strip.y == to.y
        && strip.n > 0
        && ((to.x + 1024 - first) % 1024 < strip.n || is_between(to.x, first, to.x + n as u16))
}

fn is_between(low: u16, x: u16, end: u16) -> bool
    ensures { IsTrue result ↔ ((low ≤ x) × (x < end)) }
{
    low <= x && x < end
}
