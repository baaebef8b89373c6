// Spans of any paint.
ghost use Rattle.vram_store.specs.Vram.{height_of};
ghost use Rattle.span_lanes.specs.PaintSetup.{HasTexelRow};
ghost use Rattle.span_lanes.specs.SpanDrawer.{DrawsCells};
ghost use Rattle.span_lanes.specs.Shade.{IsSpan, LiesIn};

use crate::clut::modulated::ModulatedClut;
use crate::rows::draw::{draw_ready, draw_texel_row};
use crate::rows::row_drawer::{PaintSetup, RowDrawer, paint_setup_of};
use crate::rows::texel_rows::TexelRow;
use crate::span::Run;
use crate::{DrawState, Paint, Span};
use std::sync::ledger::Ledger;
use vram_store::{Steps, Vram};

/// Draws the spans of a primitive without a clip rectangle. Whatever is equal for all spans is computed once.
#[derive(Drop)]
pub(crate) struct SpanDrawer {
    // the last drawn span; at first a span without cells
    span: Span,
    ready: PaintSetup,
    // the CLUT that was read last, and what a colour makes of it
    last: Option<ModulatedClut>,
}

impl SpanDrawer {
    ghost use Rattle.std.specs.Prelude.{ℕ, ◌≡◌, List};
    ghost use Rattle.span_lanes.specs.Clut.ModulatedClut.{IsCached};
    ghost use Rattle.span_lanes.specs.PaintSetup.{HasSetup, IsPaintSetup};
    ghost use Rattle.span_lanes.specs.SpanDrawer.{state_of};

    /// Computes what is equal for all spans. The paint must not be a row of texels.
    #[inline(always)]
    pub(crate) fn new(state: &DrawState) -> SpanDrawer
        requires { HasSetup state.now.paint }
        ensures state { state_of result.span ≡ state.now }
        ensures ready { IsPaintSetup (state_of result.span) result.ready }
        ensures fresh { (m : List ℕ) → IsCached result.span.paint m result.last }
    {
        SpanDrawer {
            span: Span {
                x: 0,
                y: 0,
                n: 0,
                paint: state.paint,
                brush: state.brush,
            },
            ready: paint_setup_of(&state.paint, &state.brush),
            last: None,
        }
    }
}

impl RowDrawer for SpanDrawer {
    ghost use Rattle.span_lanes.specs.Clut.ModulatedClut.{IsCached};
    ghost use Rattle.span_lanes.specs.Pattern.{uniform};
    ghost use Rattle.span_lanes.specs.PaintSetup.{IsPaintSetup};
    ghost use Rattle.span_lanes.specs.SpanDrawer.{state_of};

    ghost pattern = { λ drawer. uniform (state_of drawer.span) };

    ghost reaches = { λ drawer y run. Unit {0} };

    ghost fresh = { λ drawer m. IsPaintSetup (state_of drawer.span) drawer.ready
        × IsCached drawer.span.paint m drawer.last };

    #[inline(always)]
    fn draw<L: Ledger>(&mut self, vram: &mut Vram, run: Run, y: u16, steps: &mut Steps<L>) {
        self.span.x = run.x;
        self.span.y = y;
        self.span.n = run.n;
        draw_ready(vram, &self.span, &self.ready, &mut self.last, steps);
    }
}

// Returns the row of texels that a paint is, if it is one.
fn texel_row_of(paint: &Paint) -> Option<TexelRow>
    ensures { HasTexelRow paint.now result }
{
    match paint {
        Paint::TexturedRow {
            color,
            texture,
            u,
            v,
            flip,
        } => Some(TexelRow {
            color: *color,
            texture: *texture,
            u: *u,
            v: *v,
            flip: *flip,
        }),
        Paint::Flat { .. } | Paint::Shaded { .. } | Paint::TexturedTri { .. } => None,
    }
}

/// Draws the cells of a span from left to right.
///
/// The outcome is that of one cell after another. Each cell takes its pixel from video memory as it is then, even if
/// its texel or its CLUT is in the span itself, and is plotted under the mask setting. All other cells keep their
/// values.
///
/// The span is cut from its left into chunks of sixteen cells and a last one. A chunk of k cells takes at most
/// `2 + d * k` steps if no cell reads what an earlier one of the chunk writes, otherwise `(d + 2) * k`. d is 0 without
/// a texture, 2 if the texture has a CLUT, otherwise 1.
///
/// Requires:
/// - the span's row and all rows of its texture page are in video memory;
/// - mask setting and blending mode are at most 3;
/// - [`texture_page::texel_cell`] accepts page and window;
/// - all cells are inside the paint's triangle, if it has one.
pub fn draw_span<L: Ledger>(vram: &mut Vram, span: &Span, steps: &mut Steps<L>)
    requires span { IsSpan span.now }
    requires height { LiesIn (height_of vram.old) span.now }
    ensures drawn { DrawsCells span.now
        (record { m = vram.old; steps = steps.old }) (record { m = vram.new; steps = steps.new }) }
{
    if let Some(row) = texel_row_of(&span.paint) {
        draw_texel_row(vram, span, &row, &mut None, steps);
        return;
    }
    let mut drawer = SpanDrawer::new(&DrawState {
        paint: span.paint,
        brush: span.brush,
    });
    let run = Run {
        x: span.x,
        n: span.n,
    };
    drawer.draw(vram, run, span.y, steps);
}
