// Whether the cells of a row may be moved at once.
ghost use Rattle.std.specs.Prelude.{◌≡◌, ◌↔◌, IsTrue, false};
ghost use Rattle.vram_store.specs.Plot.{is_testing, is_forcing};
ghost use Rattle.vram_store.specs.Runs.{AreApart};

use crate::chunks::Way;
use vram_store::mask::{forces, tests};

/// Returns whether a copy of `n` cells of a row moves them as they are: the mask setting neither tests nor forces, and
/// no cell is read and written.
#[inline(always)]
pub(crate) fn can_move(mask: u8, way: Way, n: u16) -> bool
    ensures { IsTrue result ↔ ((is_testing mask ≡ false) × (is_forcing mask ≡ false) × AreApart way.from way.to n) }
{
    is_plain(mask) && are_apart(way, n)
}

// Returns whether the mask setting neither tests nor forces.
fn is_plain(mask: u8) -> bool
    ensures { IsTrue result ↔ ((is_testing mask ≡ false) × (is_forcing mask ≡ false)) }
{
    !tests(mask) && !forces(mask)
}

// Returns whether the `n` cells of the source and those of the target have no cell in common.
fn are_apart(way: Way, n: u16) -> bool
    ensures { IsTrue result ↔ AreApart way.from way.to n }
{
    let Way { from, to } = way;
    from.y != to.y || from.x.abs_diff(to.x) >= n
}
