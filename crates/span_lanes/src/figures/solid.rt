// Cells that all become one halfword.
ghost use Rattle.std.specs.Prelude.{◌≡◌, IfSome};
ghost use Rattle.span_lanes.specs.Figures.SolidColor.{IsEven, flat_state, solid_state};

use crate::chunks::untextured::{draw_solid_span, solid_color};
use crate::rows::row_drawer::RowDrawer;
use crate::span::Run;
use crate::{Brush, Paint, Span};
use std::sync::ledger::Ledger;
use vram_store::{Steps, Vram};

/// A colour that is neither blended, tested nor dithered, and the halfword that each cell becomes.
#[derive(Clone, Copy)]
pub(crate) struct SolidColor {
    /// The colour.
    pub(crate) color: u32,
    /// The blending mode, mask setting and dither.
    pub(crate) brush: Brush,
    /// The halfword that is written.
    pub(crate) halfword: u16,
}

/// Returns a colour and its pixel settings if each cell becomes the same halfword, whatever its value.
#[inline(always)]
pub(crate) fn solid_of(color: u32, brush: &Brush) -> Option<SolidColor>
    ensures uniform { IfSome result IsEven }
    ensures value { IfSome result (λ solid. solid_state solid ≡ flat_state color brush.now) }
{
    match solid_color(brush, color) {
        None => None,
        Some(halfword) => Some(SolidColor {
            color,
            brush: *brush,
            halfword,
        }),
    }
}

impl RowDrawer for SolidColor {
    ghost use Rattle.span_lanes.specs.Pattern.{uniform};
    ghost use Rattle.span_lanes.specs.Figures.SolidColor.{IsEven, solid_state};

    ghost pattern = { λ solid. uniform (solid_state solid) };

    ghost reaches = { λ solid y run. Unit {0} };

    ghost fresh = { λ solid m. IsEven solid };

    #[inline(always)]
    fn draw<L: Ledger>(&mut self, vram: &mut Vram, run: Run, y: u16, steps: &mut Steps<L>) {
        let span = Span {
            x: run.x,
            y,
            n: run.n,
            paint: Paint::Flat { color: self.color },
            brush: self.brush,
        };
        draw_solid_span(vram, &span, self.halfword, steps);
    }
}
