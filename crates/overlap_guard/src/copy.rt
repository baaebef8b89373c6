// Copy hazards.
ghost use Rattle.std.specs.Prelude.{◌≡◌, ◌+◌, ◌≤◌, ◌<◌, ◌↔◌, IsTrue};
ghost use Rattle.overlap_guard.specs.Hazard.{HasCopyHazard, has_copy_hazard};

use px_num::Cell;

/// Returns whether some lane of a copied chunk reads a cell that an earlier lane writes.
///
/// The chunk has `n` lanes, 1 to 16. Lane `i` reads the cell `i` columns to the right of `from` and writes the cell
/// `i` columns to the right of `to`. Neither may pass the end of its row. The result is true exactly if `to` is in
/// the row of `from`, to its right and less than `n` columns away.
pub fn copy_hazard(from: Cell, to: Cell, n: u8) -> bool
    requires count { (1 ≤ n) × (n ≤ 16) }
    requires source { from.x + n ≤ 1024 }
    requires target { to.x + n ≤ 1024 }
    ensures pairs { IsTrue result ↔ HasCopyHazard from to n }
    ensures value { result ≡ has_copy_hazard from to n }
{
    trails(from, to, n)
}

// Returns whether the target is to the right of the source in one row, less than `n` cells away.
fn trails(from: Cell, to: Cell, n: u8) -> bool
    ensures { IsTrue result ↔ ((from.y ≡ to.y) × (from.x < to.x) × (to.x < from.x + n)) }
{
    from.y == to.y && from.x < to.x && to.x - from.x < n as u16
}
