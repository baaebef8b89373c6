// Triangles in a box, row by row.
ghost use Rattle.std.specs.Prelude.{◌≡◌};
ghost use Rattle.vram_store.specs.Vram.{height_of};
ghost use Rattle.span_lanes.specs.ClipRect.{IsClipHazardFree};
ghost use Rattle.span_lanes.specs.Figures.ClippedTriangle.{CanDrawClipped, DrawsClipped, HasTexture, IsClipped};
ghost use Rattle.span_lanes.specs.Figures.ClippedTriangle.{drawn_state};
ghost use Rattle.span_lanes.specs.Figures.SolidColor.{IsEven, solid_state};
ghost use Rattle.span_lanes.specs.Figures.Triangles.{AreRowsIn, CanDrawTriangle, DrawsTriangle, paint_with, state_with};
ghost use Rattle.span_lanes.specs.declared.figures.triangle.TrianglePaint.TheVariants.{OneColor};

use crate::figures::rows::{Rows, draw_rows};
use crate::figures::solid::{SolidColor, solid_of};
use crate::rows::span_drawer::SpanDrawer;
use crate::rows::triangle::{
    CachedClutMethod, ContiguousMethod, FlatTexelsMethod, GouraudTexelsMethod, RowMethod,
    TexelMethod, TriangleDrawer, row_method,
};
use crate::span::Run;
use crate::{Brush, ClipRect, DrawState, Paint, Texture};
use edge_walk::{RowScan, Tri};
use px_num::Box2;
use std::sync::ledger::Ledger;
use vram_store::{Steps, Vram};

/// The rows of a triangle in a box.
#[derive(Drop)]
pub(crate) struct TriangleRows<'a> {
    tri: &'a Tri,
    clip: &'a Box2,
    clip_rect: ClipRect,
    walk: RowScan,
}

impl Rows for TriangleRows<'_> {
    ghost use Rattle.span_lanes.specs.Pattern.{LiesInClip};
    ghost use Rattle.span_lanes.specs.Figures.Triangles.{IsRun, StandAt, row_inside};

    ghost within = { λ rows. rows.clip_rect };

    ghost cells = { λ rows. row_inside rows.tri.now rows.clip_rect };

    ghost gives = { λ rows y run. IsRun rows.tri.now y run × LiesInClip rows.clip_rect y run };

    ghost stands = { StandAt };

    #[inline(always)]
    fn clip_rect(&self) -> ClipRect {
        self.clip_rect
    }

    #[inline(always)]
    fn run_at(&mut self, _y: u16) -> Option<Run> {
        match self.walk.next() {
            None => None,
            Some((first, last)) => Some(Run {
                x: first as u16,
                n: (last - first + 1) as u16,
            }),
        }
    }
}

/// The colour source of a triangle's cells. A colour has red in bits 0 to 7, green in 8 to 15 and blue in 16 to 23.
#[derive(Clone, Copy)]
pub enum TrianglePaint {
    /// One colour.
    OneColor {
        /// The colour.
        color: u32,
    },
    /// The colours of the triangle.
    Gouraud,
    /// Texels at the coordinates of the triangle, modulated by its colours unless raw.
    Textured {
        /// The texture.
        texture: Texture,
    },
}

/// What the cells of a triangle are drawn with.
#[derive(Clone, Copy)]
pub struct TriangleState {
    /// The colour source.
    pub paint: TrianglePaint,
    /// The pixel settings.
    pub brush: Brush,
}

/// A triangle in a box, with its clip rectangle and what its cells are drawn with.
#[derive(Clone, Copy)]
pub(crate) struct ClippedTriangle<'a> {
    tri: &'a Tri,
    clip: &'a Box2,
    clip_rect: ClipRect,
    state: TriangleState,
}

impl<'a> ClippedTriangle<'a> {
    // Returns its rows.
    #[inline(always)]
    fn rows(&self) -> TriangleRows<'a>
        requires { IsClipped self.now }
        ensures { AreRowsIn self.now.tri.now self.now.clip.now result }
    {
        TriangleRows {
            tri: self.tri,
            clip: self.clip,
            clip_rect: self.clip_rect,
            walk: self.tri.rows(self.clip),
        }
    }

    // Returns the colour source of its cells.
    #[inline(always)]
    fn paint(&self) -> Paint
        ensures { result ≡ paint_with self.now.state.paint self.now.tri.now }
    {
        match &self.state.paint {
            TrianglePaint::OneColor { color } => Paint::Flat { color: *color },
            TrianglePaint::Gouraud => Paint::Shaded { tri: *self.tri },
            TrianglePaint::Textured { texture } => Paint::TexturedTri {
                tri: *self.tri,
                texture: *texture,
            },
        }
    }

    // Draws cells that all become one halfword.
    #[inline(always)]
    fn draw_solid<L: Ledger>(&self, solid: SolidColor, vram: &mut Vram, steps: &mut Steps<L>)
        requires can { CanDrawClipped (height_of vram.old) self.now }
        requires uniform { IsEven solid }
        requires state { solid_state solid ≡ drawn_state self.now }
        ensures { DrawsClipped self.now
            (record { m = vram.old; steps = steps.old }) (record { m = vram.new; steps = steps.new }) }
    {
        let mut drawer = solid;
        draw_rows(vram, &mut self.rows(), &mut drawer, steps);
    }

    // Draws the rows by a method. Each method has an instance of this function, which clears its own locals alone.
    #[inline(always)]
    fn draw_by<M: TexelMethod, L: Ledger>(
        &self,
        texture: &Texture,
        color: u32,
        vram: &mut Vram,
        steps: &mut Steps<L>,
    )
        requires can { CanDrawClipped (height_of vram.old) self.now }
        requires texture { HasTexture self.now texture.now }
        requires accepts { M.accepts self.now.tri.now texture.now self.now.state.brush color }
        requires hazard_free { IsClipHazardFree self.now.clip_rect texture.now }
        ensures { DrawsClipped self.now
            (record { m = vram.old; steps = steps.old }) (record { m = vram.new; steps = steps.new }) }
    {
        let mut drawer = TriangleDrawer::<M>::new(
            self.tri,
            texture,
            &self.state.brush,
            &self.clip_rect,
            color,
        );
        draw_rows(vram, &mut self.rows(), &mut drawer, steps);
    }

    // Draws any paint. The locals of this function are not cleared for other triangles.
    #[inline(never)]
    fn draw_any<L: Ledger>(self, vram: &mut Vram, steps: &mut Steps<L>)
        requires { CanDrawClipped (height_of vram.old) self }
        ensures { DrawsClipped self.entry
            (record { m = vram.old; steps = steps.old }) (record { m = vram.new; steps = steps.new }) }
    {
        let mut drawer = SpanDrawer::new(&DrawState {
            paint: self.paint(),
            brush: self.state.brush,
        });
        draw_rows(vram, &mut self.rows(), &mut drawer, steps);
    }

    // Draws texels by the method of their rows.
    #[inline(always)]
    fn draw_textured<L: Ledger>(&self, texture: &Texture, vram: &mut Vram, steps: &mut Steps<L>)
        requires can { CanDrawClipped (height_of vram.old) self.now }
        requires texture { HasTexture self.now texture.now }
        ensures { DrawsClipped self.now
            (record { m = vram.old; steps = steps.old }) (record { m = vram.new; steps = steps.new }) }
    {
        match row_method(self.tri, texture, &self.state.brush, &self.clip_rect) {
            None => self.draw_any(vram, steps),
            Some(RowMethod::CachedClut { color }) => {
                self.draw_by::<CachedClutMethod, L>(texture, color, vram, steps)
            }
            Some(RowMethod::Contiguous) => {
                self.draw_by::<ContiguousMethod, L>(texture, 0, vram, steps)
            }
            Some(RowMethod::FlatTexelsByCoords { color }) => {
                self.draw_by::<FlatTexelsMethod, L>(texture, color, vram, steps)
            }
            Some(RowMethod::GouraudTexels) => {
                self.draw_by::<GouraudTexelsMethod, L>(texture, 0, vram, steps)
            }
        }
    }

    // Draws one colour.
    #[inline(always)]
    fn draw_one_color<L: Ledger>(&self, color: u32, vram: &mut Vram, steps: &mut Steps<L>)
        requires can { CanDrawClipped (height_of vram.old) self.now }
        requires paint { self.now.state.paint ≡ OneColor color }
        ensures { DrawsClipped self.now
            (record { m = vram.old; steps = steps.old }) (record { m = vram.new; steps = steps.new }) }
    {
        match solid_of(color, &self.state.brush) {
            Some(solid) => self.draw_solid(solid, vram, steps),
            None => self.draw_any(vram, steps),
        }
    }
}

/// Draws the cells of a box that are inside a triangle, row by row. The box must have at least one cell, and must be in
/// video memory and in the triangle's bounds.
#[inline(always)]
pub fn draw_triangle<L: Ledger>(
    vram: &mut Vram,
    state: &TriangleState,
    tri: &Tri,
    clip: &Box2,
    steps: &mut Steps<L>,
)
    requires { CanDrawTriangle (height_of vram.old) state.now tri.now clip.now }
    ensures { DrawsTriangle (state_with state.now tri.now) tri.now clip.now
        (record { m = vram.old; steps = steps.old }) (record { m = vram.new; steps = steps.new }) }
{
    let triangle = ClippedTriangle {
        tri,
        clip,
        clip_rect: ClipRect::from_box(clip),
        state: *state,
    };
    match &state.paint {
        TrianglePaint::OneColor { color } => triangle.draw_one_color(*color, vram, steps),
        TrianglePaint::Gouraud => triangle.draw_any(vram, steps),
        TrianglePaint::Textured { texture } => triangle.draw_textured(texture, vram, steps),
    }
}
