// Pixels under the mask setting.
ghost use Rattle.std.specs.Prelude.{◌≡◌, ◌≤◌, ◌<◌, ◌+◌, ◌*◌, ℕ, if◌then◌else◌, slice_index, length};
ghost use Rattle.vram_store.specs.Vram.{bit, height_of};
ghost use Rattle.vram_store.specs.Plot.{is_kept, plot};
ghost use Rattle.vram_copy.specs.Copy.{copied_cell};
ghost use Rattle.vram_copy.specs.Rect.{LieInRow};

use px_num::Cell;
use std::sync::ledger::Ledger;
use vram_store::mask::{force, keeps, open_bits, tests};
use vram_store::{Steps, Vram};

/// Plots `color` at cell `to` under the mask setting. Costs at most two steps.
#[tactic(auto, unfolding(vram_store::specs::Plot::plot))]
pub fn plot_pixel<L: Ledger>(vram: &mut Vram, mask: u8, to: Cell, color: u16, steps: &mut Steps<L>)
    requires in_row { to.x < 1024 }
    requires in_height { to.y < height_of vram.old }
    ensures cells { vram.new ≡ plot vram.old mask to.x to.y color }
    ensures long { length vram.new ≡ length vram.old }
    ensures cost { steps.new ≤ steps.old + 2 }
{
    if tests(mask) {
        plot_tested(vram, mask, to, color, steps);
    } else {
        vram.put(to.x, to.y, force(mask, color), steps);
    }
}

// As `plot_pixel`, for a setting that tests the cell.
#[tactic(auto, unfolding(vram_store::specs::Plot::plot))]
fn plot_tested<L: Ledger>(vram: &mut Vram, mask: u8, to: Cell, color: u16, steps: &mut Steps<L>)
    requires in_row { to.x < 1024 }
    requires in_height { to.y < height_of vram.old }
    ensures cells { vram.new ≡ plot vram.old mask to.x to.y color }
    ensures long { length vram.new ≡ length vram.old }
    ensures cost { steps.new ≤ steps.old + 2 }
{
    let old = vram.get(to.x, to.y, steps);
    if !keeps(mask, old) {
        vram.put(to.x, to.y, force(mask, color), steps);
    }
}

/// Copies one cell under the mask setting. Costs at most three steps.
pub fn copy_cell<L: Ledger>(vram: &mut Vram, mask: u8, from: Cell, to: Cell, steps: &mut Steps<L>)
    requires source_in { (from.x < 1024) × (from.y < height_of vram.old) }
    requires target_in { (to.x < 1024) × (to.y < height_of vram.old) }
    ensures cells { vram.new ≡ copied_cell vram.old mask from to }
    ensures long { length vram.new ≡ length vram.old }
    ensures cost { steps.new ≤ steps.old + 3 }
{
    let color = vram.get(from.x, from.y, steps);
    plot_pixel(vram, mask, to, color, steps);
}

/// Returns one bit for each of the `n` cells of a row from `to` on: 0 if the setting protects the cell, 1 if a plot
/// writes it. Costs at most one step.
#[inline(always)]
pub fn open_cells<L: Ledger>(vram: &Vram, mask: u8, to: Cell, n: u8, steps: &mut Steps<L>) -> u16
    requires count { (1 ≤ n) × (n ≤ 16) }
    requires target_in { LieInRow (height_of vram.now) to n }
    ensures bits { (j : ℕ) → j < n
        → bit result j ≡ (if is_kept mask (slice_index vram.now (1024 * to.y + to.x + j)) then 0 else 1) }
    ensures cost { steps.new ≤ steps.old + 1 }
{
    if tests(mask) {
        open_bits(mask, vram.load16(to.x, to.y, n, steps))
    } else {
        0xffff
    }
}
