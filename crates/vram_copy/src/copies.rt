// Copies of rectangles, piece by piece of each row.
ghost use Rattle.std.specs.Prelude.{◌≡◌, ◌≤◌, ◌<◌, ◌+◌, ◌-◌, ◌*◌, false, min, length};
ghost use Rattle.overlap_guard.specs.Hazard.{has_copy_hazard};
ghost use Rattle.vram_store.specs.Vram.{height_of};
ghost use Rattle.vram_copy.specs.Copy.{copied_rectangle, copied_row, copied_run};
ghost use Rattle.vram_copy.specs.Rect.{LieInRow};
ghost use Rattle.vram_copy.specs.Costs.{piece_len, chunk_cost, piece_cost, row_cost, copy_cost};

use crate::cells::{cell_down, cell_right};
use crate::chunks::{Way, copy_at_once, copy_chunks};
use crate::moves::can_move;
use crate::plots::copy_cell;
use overlap_guard::copy_hazard;
use px_num::Cell;
use std::sync::ledger::Ledger;
use vram_store::{Steps, Vram};

/// Copies `h` rows of `w` cells from `from` to `to`, plotting each cell under the mask setting (psx-spx, GP0(80h)).
///
/// The result is that of copying pixel by pixel, from left to right in each row and rows from the top. Each pixel is
/// read from video memory as it is when its turn comes. So a copy to cells that are read later repeats what it wrote
/// (our own rule). X wraps at 1024 and Y at the height.
///
/// A row is cut into pieces at the columns at which source or target wraps. A piece is moved at once if the setting
/// neither tests nor forces and no cell of the piece is both read and written. Any other piece is cut into chunks of up
/// to sixteen cells. A chunk costs at most three steps. With a hazard, it costs at most three for each of its cells.
pub fn copy<L: Ledger>(
    vram: &mut Vram,
    mask: u8,
    from: Cell,
    to: Cell,
    w: u16,
    h: u16,
    steps: &mut Steps<L>,
)
    ensures cells { vram.new
        ≡ copied_rectangle vram.old mask (record { from = from; to = to }) (record { w = w; h = h }) }
    ensures long { length vram.new ≡ length vram.old }
    ensures cost { steps.new ≤ steps.old + copy_cost (height_of vram.old) from to w h }
{
    let height = vram.height();
    for j in 0..h {
        let way = Way {
            from: cell_down(from, j, height),
            to: cell_down(to, j, height),
        };
        copy_row(vram, mask, way, w, steps);
    }
}

fn copy_row<L: Ledger>(vram: &mut Vram, mask: u8, way: Way, w: u16, steps: &mut Steps<L>)
    requires source_in { way.from.y < height_of vram.old }
    requires target_in { way.to.y < height_of vram.old }
    ensures cells { vram.new ≡ copied_row vram.old mask way.from way.to w }
    ensures long { length vram.new ≡ length vram.old }
    ensures cost { steps.new ≤ steps.old + row_cost way.from way.to w }
{
    let mut done = 0;
    while done < w {
        let from = cell_right(way.from, done);
        let to = cell_right(way.to, done);
        let n = piece_len(from.x, to.x, w - done);
        copy_piece(vram, mask, Way { from, to }, n, steps);
        done += n;
    }
}

// Returns the number of cells of the next piece: to the end of the copied row, or until the source or the target
// wraps.
#[inline(always)]
fn piece_len(source_x: u16, target_x: u16, left: u16) -> u16
    requires source_in { source_x < 1024 }
    requires target_in { target_x < 1024 }
    requires some { 1 ≤ left }
    ensures value { result ≡ piece_len source_x target_x left }
    ensures some { 1 ≤ result }
    ensures in_row { result ≤ left }
    ensures in_source { source_x + result ≤ 1024 }
    ensures in_target { target_x + result ≤ 1024 }
{
    left.min((1024 - source_x).min(1024 - target_x))
}

// Copies `n` cells within one row. If they cannot be moved at once, the hazard of the first chunk is tested once: later
// chunks have the same distance between source and target.
#[inline(always)]
fn copy_piece<L: Ledger>(vram: &mut Vram, mask: u8, way: Way, n: u16, steps: &mut Steps<L>)
    requires some { 1 ≤ n }
    requires source_in { LieInRow (height_of vram.old) way.from n }
    requires target_in { LieInRow (height_of vram.old) way.to n }
    ensures cells { vram.new ≡ copied_run vram.old mask way.from way.to n }
    ensures long { length vram.new ≡ length vram.old }
    ensures cost { steps.new ≤ steps.old + piece_cost way.from way.to n }
{
    if can_move(mask, way, n) {
        vram.copy_run(way.from, way.to, n, steps);
    } else if copy_hazard(way.from, way.to, n.min(16) as u8) {
        copy_guarded(vram, mask, way, n, steps);
    } else {
        copy_apart(vram, mask, way, n, steps);
    }
}

// Copies a piece without a hazard, in whole chunks and a last, shorter one.
#[inline(always)]
fn copy_apart<L: Ledger>(vram: &mut Vram, mask: u8, way: Way, n: u16, steps: &mut Steps<L>)
    requires source_in { LieInRow (height_of vram.old) way.from n }
    requires target_in { LieInRow (height_of vram.old) way.to n }
    requires free { has_copy_hazard way.from way.to (min n 16) ≡ false }
    ensures cells { vram.new ≡ copied_run vram.old mask way.from way.to n }
    ensures long { length vram.new ≡ length vram.old }
    ensures cost { steps.new ≤ steps.old + piece_cost way.from way.to n }
{
    copy_chunks(vram, mask, way, n / 16, steps);
    let done = n / 16 * 16;
    if done < n {
        copy_at_once(vram, mask, way.beside(done), (n - done) as u8, steps);
    }
}

// Copies a piece chunk by chunk, with a test for a hazard in each.
fn copy_guarded<L: Ledger>(vram: &mut Vram, mask: u8, way: Way, n: u16, steps: &mut Steps<L>)
    requires source_in { LieInRow (height_of vram.old) way.from n }
    requires target_in { LieInRow (height_of vram.old) way.to n }
    ensures cells { vram.new ≡ copied_run vram.old mask way.from way.to n }
    ensures long { length vram.new ≡ length vram.old }
    ensures cost { steps.new ≤ steps.old + piece_cost way.from way.to n }
{
    let mut done = 0;
    while done < n {
        let k = (n - done).min(16);
        copy_chunk(vram, mask, way.beside(done), k as u8, steps);
        done += k;
    }
}

#[tactic(auto, unfolding(crate::specs::Costs::chunk_cost))]
fn copy_chunk<L: Ledger>(vram: &mut Vram, mask: u8, way: Way, n: u8, steps: &mut Steps<L>)
    requires count { (1 ≤ n) × (n ≤ 16) }
    requires source_in { LieInRow (height_of vram.old) way.from n }
    requires target_in { LieInRow (height_of vram.old) way.to n }
    ensures cells { vram.new ≡ copied_run vram.old mask way.from way.to n }
    ensures long { length vram.new ≡ length vram.old }
    ensures cost { steps.new ≤ steps.old + chunk_cost way.from way.to n }
{
    if copy_hazard(way.from, way.to, n) {
        copy_in_turn(vram, mask, way, n, steps);
    } else {
        copy_at_once(vram, mask, way, n, steps);
    }
}

// Copies `n` cells one after another.
fn copy_in_turn<L: Ledger>(vram: &mut Vram, mask: u8, way: Way, n: u8, steps: &mut Steps<L>)
    requires source_in { LieInRow (height_of vram.old) way.from n }
    requires target_in { LieInRow (height_of vram.old) way.to n }
    ensures cells { vram.new ≡ copied_run vram.old mask way.from way.to n }
    ensures long { length vram.new ≡ length vram.old }
    ensures cost { steps.new ≤ steps.old + 3 * n }
{
    for i in 0..n {
        let Way { from, to } = way.beside(i as u16);
        copy_cell(vram, mask, from, to, steps);
    }
}
