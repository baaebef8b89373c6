// All cells of a clip rectangle, row by row.
ghost use Rattle.vram_store.specs.Vram.{height_of};
ghost use Rattle.span_lanes.specs.Figures.Rectangles.{CanDrawFlat, DrawsFlat};

use crate::figures::rows::{Rows, draw_rows};
use crate::figures::solid::solid_of;
use crate::rows::span_drawer::SpanDrawer;
use crate::span::Run;
use crate::{Brush, ClipRect, DrawState, Paint};
use std::sync::ledger::Ledger;
use vram_store::{Steps, Vram};

/// The rows of a clip rectangle. All cells are drawn.
#[derive(Clone, Copy)]
pub(crate) struct ClipRectRows {
    pub(crate) clip_rect: ClipRect,
}

impl Rows for ClipRectRows {
    ghost use Rattle.span_lanes.specs.Figures.Boxes.{clip_row};
    ghost use Rattle.span_lanes.specs.TexelRows.{IsWholeRow};
    ghost use Rattle.std.specs.Prelude.{◌≤◌};

    ghost within = { λ rows. rows.clip_rect };

    ghost cells = { λ rows. clip_row rows.clip_rect };

    ghost gives = { λ rows. IsWholeRow rows.clip_rect };

    ghost stands = { λ rows y. rows.clip_rect.y ≤ y };

    #[inline(always)]
    fn clip_rect(&self) -> ClipRect {
        self.clip_rect
    }

    #[inline(always)]
    fn run_at(&mut self, _y: u16) -> Option<Run> {
        let ClipRect { x, w, .. } = self.clip_rect;
        Some(Run { x, n: w })
    }
}

// Draws one colour. The locals of this function are not cleared for colours that become one halfword.
#[inline(never)]
fn draw_flat_by_spans<L: Ledger>(
    vram: &mut Vram,
    color: u32,
    brush: &Brush,
    clip_rect: &ClipRect,
    steps: &mut Steps<L>,
)
    requires { CanDrawFlat (height_of vram.old) brush.now clip_rect.now }
    ensures { DrawsFlat color brush.now clip_rect.now
        (record { m = vram.old; steps = steps.old }) (record { m = vram.new; steps = steps.new }) }
{
    let mut drawer = SpanDrawer::new(&DrawState {
        paint: Paint::Flat { color },
        brush: *brush,
    });
    let mut rows = ClipRectRows {
        clip_rect: *clip_rect,
    };
    draw_rows(vram, &mut rows, &mut drawer, steps);
}

/// Draws all cells of a clip rectangle in one colour, row by row.
pub fn draw_flat_rectangle<L: Ledger>(
    vram: &mut Vram,
    color: u32,
    brush: &Brush,
    clip_rect: &ClipRect,
    steps: &mut Steps<L>,
)
    requires { CanDrawFlat (height_of vram.old) brush.now clip_rect.now }
    ensures { DrawsFlat color brush.now clip_rect.now
        (record { m = vram.old; steps = steps.old }) (record { m = vram.new; steps = steps.new }) }
{
    match solid_of(color, brush) {
        None => draw_flat_by_spans(vram, color, brush, clip_rect, steps),
        Some(solid) => {
            let mut rows = ClipRectRows {
                clip_rect: *clip_rect,
            };
            let mut drawer = solid;
            draw_rows(vram, &mut rows, &mut drawer, steps);
        }
    }
}
