// Drawers of the rows of textured rectangles.
ghost use Rattle.std.specs.Prelude.{ℕ, ◌≡◌, List};
ghost use Rattle.span_lanes.specs.ClipRect.{IsClipRect};

use crate::attributes::shading::Shading;
use crate::clut::clut16::draw_cached;
use crate::clut::modulated::ModulatedClut;
use crate::rows::contiguous::{draw_texel_run, sampler_of};
use crate::rows::draw::draw_texel_row;
use crate::rows::row_drawer::RowDrawer;
use crate::rows::texel_rows::{RowAt, TexelRow, TexelRows};
use crate::span::Run;
use crate::texels::sampler::FlatTexels;
use crate::texels::texel_run::SpriteRun;
use std::sync::ledger::Ledger;
use vram_store::{Steps, Vram};

/// How rows of texels are drawn.
pub(crate) trait TexelRowsMethod: Drop {
    ghost use Rattle.std.specs.Prelude.{ℕ, List};
    ghost use Rattle.span_lanes.specs.Draws.{DrawsSpan, at_stage};
    ghost use Rattle.span_lanes.specs.TexelRows.{CanDrawTexels, texel_span};
    ghost use Rattle.span_lanes.specs.declared.rows.texel_rows.TexelRows.{TexelRows};

    // The rows that it is for.
    ghost accepts: { TexelRows → Type 0 };

    // Holds if it was made for rows, and the CLUT that it caches, if any, is the one in video memory.
    ghost ready: { Self → TexelRows → List ℕ → Type 0 };

    /// Computes what is equal for all rows.
    fn new(rows: &TexelRows) -> Self
        requires { accepts rows.now }
        ensures { (m : List ℕ) → ready result rows.now m };

    /// Draws row `at.y` of the clip rectangle. Its texels must be those of row `at.v` of the page.
    fn draw_row<L: Ledger>(
        &mut self,
        vram: &mut Vram,
        rows: &TexelRows,
        at: RowAt,
        steps: &mut Steps<L>,
    )
        requires can { CanDrawTexels rows.now at.y at.v vram.old }
        requires ready { ready self.old rows.now vram.old }
        ensures drawn { DrawsSpan (texel_span rows.now at.y at.v) 0
            (at_stage vram.old steps.old) (at_stage vram.new steps.new) }
        ensures ready { ready self.new rows.now vram.new };
}

/// Draws the rows of a textured rectangle in a clip rectangle.
#[derive(Drop)]
pub(crate) struct RectangleDrawer<M> {
    rows: TexelRows,
    method: M,
}

impl<M: TexelRowsMethod> RectangleDrawer<M> {
    /// Computes what is equal for all rows.
    #[inline(always)]
    pub(crate) fn new(rows: &TexelRows) -> RectangleDrawer<M>
        requires accepts { M.accepts rows.now }
        requires clip { IsClipRect 1024 rows.now.clip_rect }
        ensures rows { result.rows ≡ rows.now }
        ensures clip { IsClipRect 1024 result.rows.clip_rect }
        ensures ready { (m : List ℕ) → M.ready result.method result.rows m }
    {
        RectangleDrawer {
            rows: *rows,
            method: M::new(rows),
        }
    }
}

impl<M: TexelRowsMethod> RowDrawer for RectangleDrawer<M> {
    ghost use Rattle.span_lanes.specs.ClipRect.{IsClipRect};
    ghost use Rattle.span_lanes.specs.TexelRows.{IsWholeRow, rows_pattern};

    ghost pattern = { λ drawer. rows_pattern drawer.rows };

    ghost reaches = { λ drawer. IsWholeRow drawer.rows.clip_rect };

    ghost fresh = { λ drawer m. IsClipRect 1024 drawer.rows.clip_rect × M.ready drawer.method drawer.rows m };

    #[inline(always)]
    fn draw<L: Ledger>(&mut self, vram: &mut Vram, _run: Run, y: u16, steps: &mut Steps<L>) {
        let v = self.rows.texel_row(y);
        self.method
            .draw_row(vram, &self.rows, RowAt { y, v }, steps);
    }
}

/// Any rows: the loop is chosen for each row anew.
#[derive(Drop)]
pub(crate) struct AnyRows {
    // the last row that was drawn; at first row 0 of the page
    row: TexelRow,
    // the CLUT that was read last, and what the colour makes of it
    last: Option<ModulatedClut>,
}

impl TexelRowsMethod for AnyRows {
    ghost use Rattle.span_lanes.specs.Clut.ModulatedClut.{IsCached};
    ghost use Rattle.span_lanes.specs.TexelRows.{IsRowOf, texel_state};

    ghost accepts = { λ rows. Unit {0} };

    ghost ready = { λ method rows m. IsRowOf rows method.row × IsCached (texel_state rows 0).paint m method.last };

    #[inline(always)]
    fn new(rows: &TexelRows) -> AnyRows {
        AnyRows {
            row: rows.row_at(0),
            last: None,
        }
    }

    #[inline(always)]
    fn draw_row<L: Ledger>(
        &mut self,
        vram: &mut Vram,
        rows: &TexelRows,
        at: RowAt,
        steps: &mut Steps<L>,
    ) {
        let span = rows.span(at);
        self.row.v = at.v;
        draw_texel_row(vram, &span, &self.row, &mut self.last, steps);
    }
}

/// Contiguous texels of four bits, in rows without a hazard: the CLUT is modulated once.
#[derive(Drop)]
pub(crate) struct CachedClutRows {
    // the CLUT, and what the colour makes of it; at first it was not read
    last: Option<ModulatedClut>,
}

impl TexelRowsMethod for CachedClutRows {
    ghost use Rattle.span_lanes.specs.Clut.ModulatedClut.{IsCached};
    ghost use Rattle.span_lanes.specs.TexelRows.{CanCacheRows, texel_state};

    ghost accepts = { CanCacheRows 0 };

    ghost ready = { λ method rows m. CanCacheRows 0 rows × IsCached (texel_state rows 0).paint m method.last };

    #[inline(always)]
    fn new(_rows: &TexelRows) -> CachedClutRows {
        CachedClutRows { last: None }
    }

    #[inline(always)]
    fn draw_row<L: Ledger>(
        &mut self,
        vram: &mut Vram,
        rows: &TexelRows,
        at: RowAt,
        steps: &mut Steps<L>,
    ) {
        let span = rows.span(at);
        let texels = FlatTexels {
            texture: &rows.texture,
            color: rows.color,
            sampler: SpriteRun {
                texel_run: rows.texel_run(at.v),
            },
        };
        draw_cached(vram, &span, &texels, &mut self.last, steps);
    }
}

/// Contiguous texels, in rows without a hazard: whether they are is tested once for all rows.
#[derive(Drop)]
pub(crate) struct ContiguousRows {}

impl TexelRowsMethod for ContiguousRows {
    ghost use Rattle.span_lanes.specs.TexelRows.{AreRowsContiguous};

    ghost accepts = { AreRowsContiguous };

    ghost ready = { λ method rows m. AreRowsContiguous rows };

    #[inline(always)]
    fn new(_rows: &TexelRows) -> ContiguousRows {
        ContiguousRows {}
    }

    #[inline(always)]
    fn draw_row<L: Ledger>(
        &mut self,
        vram: &mut Vram,
        rows: &TexelRows,
        at: RowAt,
        steps: &mut Steps<L>,
    ) {
        let span = rows.span(at);
        let found = sampler_of(&rows.texture, rows.texel_run(at.v));
        let shading = Shading::OneColor { color: rows.color };
        draw_texel_run(vram, &span, &found, &shading, steps);
    }
}
