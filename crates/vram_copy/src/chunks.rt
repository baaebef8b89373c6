// Copies of whole chunks of sixteen cells, in a row without a hazard.
ghost use Rattle.std.specs.Prelude.{◌≡◌, ◌≤◌, ◌<◌, ◌+◌, ◌*◌, false, length};
ghost use Rattle.overlap_guard.specs.Hazard.{has_copy_hazard};
ghost use Rattle.vram_store.specs.Vram.{height_of};
ghost use Rattle.vram_copy.specs.Copy.{copied_run};
ghost use Rattle.vram_copy.specs.Costs.{piece_cost};
ghost use Rattle.vram_copy.specs.Rect.{beside, LieInRow};

use crate::cells::cell_beside;
use crate::plots::open_cells;
use px_num::Cell;
use std::sync::ledger::Ledger;
use vram_store::mask::{force_lanes, forces, tests};
use vram_store::{Steps, Vram};

/// The first source cell and the first target cell of a copy.
#[derive(Clone, Copy)]
pub(crate) struct Way {
    pub(crate) from: Cell,
    pub(crate) to: Cell,
}

impl Way {
    /// Moves both cells `i` columns to the right. Neither may leave its row.
    #[inline(always)]
    pub(crate) fn beside(self, i: u16) -> Way
        requires from { self.from.x + i < 1024 }
        requires to { self.to.x + i < 1024 }
        ensures from { result.from ≡ beside self.from i }
        ensures to { result.to ≡ beside self.to i }
    {
        Way {
            from: cell_beside(self.from, i),
            to: cell_beside(self.to, i),
        }
    }
}

/// Copies `count` chunks of sixteen cells within one row. A copy of sixteen cells from `way` must have no hazard. The
/// mask setting is tested once for all chunks.
#[inline(never)]
pub(crate) fn copy_chunks<L: Ledger>(
    vram: &mut Vram,
    mask: u8,
    way: Way,
    count: u16,
    steps: &mut Steps<L>,
)
    requires source_in { LieInRow (height_of vram.old) way.from (16 * count) }
    requires target_in { LieInRow (height_of vram.old) way.to (16 * count) }
    requires free { 0 < count → has_copy_hazard way.from way.to 16 ≡ false }
    ensures cells { vram.new ≡ copied_run vram.old mask way.from way.to (16 * count) }
    ensures long { length vram.new ≡ length vram.old }
    ensures cost { steps.new ≤ steps.old + piece_cost way.from way.to (16 * count) }
{
    if tests(mask) {
        copy_each(vram, mask, way, count, steps);
    } else if forces(mask) {
        copy_each(vram, 1, way, count, steps);
    } else {
        copy_each(vram, 0, way, count, steps);
    }
}

// As `copy_chunks`, compiled separately for each constant mask setting.
#[inline(always)]
fn copy_each<L: Ledger>(vram: &mut Vram, mask: u8, way: Way, count: u16, steps: &mut Steps<L>)
    requires source_in { LieInRow (height_of vram.old) way.from (16 * count) }
    requires target_in { LieInRow (height_of vram.old) way.to (16 * count) }
    requires free { 0 < count → has_copy_hazard way.from way.to 16 ≡ false }
    ensures cells { vram.new ≡ copied_run vram.old mask way.from way.to (16 * count) }
    ensures long { length vram.new ≡ length vram.old }
    ensures cost { steps.new ≤ steps.old + piece_cost way.from way.to (16 * count) }
{
    for c in 0..count {
        copy_at_once(vram, mask, way.beside(16 * c), 16, steps);
    }
}

/// Copies `n` cells, 1 to 16, with one load and one store. No cell may be read after an earlier lane writes it. Costs
/// at most three steps.
#[inline(always)]
pub(crate) fn copy_at_once<L: Ledger>(
    vram: &mut Vram,
    mask: u8,
    way: Way,
    n: u8,
    steps: &mut Steps<L>,
)
    requires count { (1 ≤ n) × (n ≤ 16) }
    requires source_in { LieInRow (height_of vram.old) way.from n }
    requires target_in { LieInRow (height_of vram.old) way.to n }
    requires free { has_copy_hazard way.from way.to n ≡ false }
    ensures cells { vram.new ≡ copied_run vram.old mask way.from way.to n }
    ensures long { length vram.new ≡ length vram.old }
    ensures cost { steps.new ≤ steps.old + 3 }
{
    let Way { from, to } = way;
    let colors = vram.load16(from.x, from.y, n, steps);
    let lanes = force_lanes(mask, colors);
    let open = open_cells(vram, mask, to, n, steps);
    vram.store16(to.x, to.y, n, lanes, open, steps);
}
