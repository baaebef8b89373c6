// Rows of cells, and the loop that draws them.
ghost use Rattle.std.specs.Prelude.{ℕ, ◌≡◌, IfSome, length};
ghost use Rattle.span_lanes.specs.ClipRect.{IsClipRect};
ghost use Rattle.span_lanes.specs.Draws.{CanDraw};
ghost use Rattle.span_lanes.specs.Pattern.{Pattern, run_span};
ghost use Rattle.span_lanes.specs.Figures.Rows.{DrawsRows, DrawsRun, PaintsAs};
ghost use Rattle.span_lanes.specs.declared.span.Run.{Run};

use crate::ClipRect;
use crate::rows::row_drawer::RowDrawer;
use crate::span::Run;
use std::sync::ledger::Ledger;
use vram_store::{Steps, Vram};

/// The rows of a clip rectangle, from the top. The cells to draw in each row are contiguous.
pub(crate) trait Rows: Drop {
    ghost use Rattle.std.specs.Prelude.{ℕ, ◌≡◌, ◌+◌, ◌<◌, IfSome, List};
    ghost use Rattle.px_num.specs.declared.shape.Cell.{Cell};
    ghost use Rattle.span_lanes.specs.declared.span.ClipRect.{ClipRect};
    ghost use Rattle.span_lanes.specs.Figures.Rows.{run_cells};
    ghost use Rattle.span_lanes.specs.declared.span.Run.{Run};

    // The clip rectangle.
    ghost within: { Self → ClipRect };

    // The cells to draw in each row.
    ghost cells: { Self → ℕ → List Cell };

    // `run_at` may return this run for this row.
    ghost gives: { Self → ℕ → Run → Type 0 };

    // Holds if this is the next row.
    ghost stands: { Self → ℕ → Type 0 };

    /// Returns the clip rectangle.
    fn clip_rect(&self) -> ClipRect
        ensures { result ≡ within self.now };

    /// Returns the cells to draw in the next row, which is row `y`.
    fn run_at(&mut self, y: u16) -> Option<Run>
        requires stands { stands self.old y }
        requires within { y < (within self.old).y + (within self.old).h }
        ensures found { run_cells result y ≡ cells self.old y }
        ensures gives { IfSome result (gives self.old y) }
        ensures next { stands self.new (y + 1) }
        ensures clip_rect { within self.new ≡ within self.old }
        ensures cells { cells self.new ≡ cells self.old }
        ensures same { (y : ℕ) (run : Run) → gives self.new y run → gives self.old y run };
}

// Draws the cells of a run of row `y`, if there is one.
#[inline(always)]
fn draw_found<P: RowDrawer, L: Ledger>(
    vram: &mut Vram,
    drawer: &mut P,
    found: Option<Run>,
    y: u16,
    steps: &mut Steps<L>,
)
    requires can { IfSome found (λ run. CanDraw (run_span (P.pattern drawer.old) y run) vram.old) }
    requires reaches { IfSome found (P.reaches drawer.old y) }
    requires fresh { P.fresh drawer.old vram.old }
    ensures drawn { (p : Pattern) → IfSome found (PaintsAs p (P.pattern drawer.old) y)
        → DrawsRun p y found (record { m = vram.old; steps = steps.old }) (record { m = vram.new; steps = steps.new }) }
    ensures long { length vram.new ≡ length vram.old }
    ensures pattern { P.pattern drawer.new ≡ P.pattern drawer.old }
    ensures reaches { (y : ℕ) (run : Run) → P.reaches drawer.old y run → P.reaches drawer.new y run }
    ensures fresh { P.fresh drawer.new vram.new }
{
    if let Some(run) = found {
        drawer.draw(vram, run, y, steps);
    }
}

/// Draws the cells of each row, from the first row to the last. The outcome is that of any pattern with the pixels of
/// the drawer.
#[inline(always)]
pub(crate) fn draw_rows<R: Rows, P: RowDrawer, L: Ledger>(
    vram: &mut Vram,
    rows: &mut R,
    drawer: &mut P,
    steps: &mut Steps<L>,
)
    requires clip_rect { IsClipRect 1024 (R.within rows.old) }
    requires stands { R.stands rows.old (R.within rows.old).y }
    requires can { (y : ℕ) (run : Run) → R.gives rows.old y run
        → CanDraw (run_span (P.pattern drawer.old) y run) vram.old × P.reaches drawer.old y run }
    requires fresh { P.fresh drawer.old vram.old }
    ensures { (p : Pattern) → ((y : ℕ) (run : Run) → R.gives rows.old y run → PaintsAs p (P.pattern drawer.old) y run)
        → DrawsRows (record { pattern = p; row = R.cells rows.old; top = (R.within rows.old).y }) (R.within rows.old).h
        (record { m = vram.old; steps = steps.old }) (record { m = vram.new; steps = steps.new }) }
{
    let clip_rect = rows.clip_rect();
    for j in 0..clip_rect.h {
        let y = clip_rect.y + j;
        let run = rows.run_at(y);
        draw_found(vram, drawer, run, y, steps);
    }
}
