// A row of texels, and the rows of texels of a rectangle.
ghost use Rattle.std.specs.Prelude.{◌≡◌, ◌≤◌, ℕ, ◌+◌, IsTrue, false, ◌≢◌};
ghost use Rattle.span_lanes.specs.Shade.{row_u};
ghost use Rattle.texel_lanes.specs.Texture.{IsTexture};
ghost use Rattle.span_lanes.specs.TexelRun.{IsTexelRun};
ghost use Rattle.span_lanes.specs.TexelRows.{AreRowsContiguous, IsRowOf, texel_row, texel_span, CanCacheRows};
ghost use Rattle.span_lanes.specs.TexelRows.{CanCacheRows256};
ghost use Rattle.span_lanes.specs.ClipRect.{IsClipRect};
ghost use Rattle.span_lanes.specs.Figures.Rectangles.{CanDrawTexelRows, DrawsTexelRows};
ghost use Rattle.vram_store.specs.Vram.{height_of};

use crate::attributes::shading::{has_modulated_clut256, has_undithered_clut16};
use crate::clut::clut256::CachedClut256Rows;
use crate::figures::rectangle::ClipRectRows;
use crate::figures::rows::draw_rows;
use crate::hazard::are_rows_hazard_free;
use crate::rows::contiguous::with_raw;
use crate::rows::rectangle::{
    AnyRows, CachedClutRows, ContiguousRows, RectangleDrawer, TexelRowsMethod,
};
use crate::span::{is_opaque, opaque_brush};
use crate::texels::texel_run::{TexelRun, does_not_wrap, is_unwindowed, run_at_coords};
use crate::{Brush, ClipRect, Paint, Span, Texture};
use std::sync::ledger::Ledger;
use vram_store::{Steps, Vram};

// Texels of row `v` of a page under one colour. The first has column `u`; the columns decrease if `flip` is true,
// otherwise increase.
#[derive(Clone, Copy)]
pub(crate) struct TexelRow {
    pub(crate) color: u32,
    pub(crate) texture: Texture,
    pub(crate) u: u8,
    pub(crate) v: u8,
    pub(crate) flip: bool,
}

/// Returns the column or row of the texel `cells` cells after the first, whose column or row is `first`. It increases
/// by 1 from cell to cell, or decreases by 1 if `falls` is true, and wraps at 256. `cells` is at most 1024.
#[inline(always)]
#[tactic(auto, unfolding(crate::specs::Shade::row_u))]
pub fn row_u(first: u8, falls: bool, cells: u16) -> u8
    requires { cells ≤ 1024 }
    ensures { result ≡ row_u first falls cells }
{
    let first = first as u16;
    if falls {
        ((first + 1024 - cells) & 0xff) as u8
    } else {
        ((first + cells) & 0xff) as u8
    }
}

/// Rows of texels for the rows of a clip rectangle, all from one column of the texture page on.
#[derive(Clone, Copy)]
pub struct TexelRows {
    /// The colour.
    pub color: u32,
    /// The texture.
    pub texture: Texture,
    /// The column of the first texel of each row.
    pub u: u8,
    /// Whether the column decreases by 1 from cell to cell, instead of increasing by 1. It wraps at 256.
    pub flip: bool,
    /// The row of the first row's texels within the texture page.
    pub v: u8,
    /// Whether that row falls by one from row to row, instead of rising by one; it wraps at 256.
    pub falls: bool,
    /// The blending mode, mask setting and dither.
    pub brush: Brush,
    /// The clip rectangle.
    pub clip_rect: ClipRect,
}

/// A row of a clip rectangle, and the row of the texture page whose texels it has.
#[derive(Clone, Copy)]
pub(crate) struct RowAt {
    /// The row of video memory.
    pub(crate) y: u16,
    /// The row within the texture page.
    pub(crate) v: u8,
}

impl TexelRows {
    // Returns row `at.y` of the clip rectangle, with the texels of row `at.v` of the page.
    #[inline(always)]
    pub(crate) fn span(&self, at: RowAt) -> Span
        ensures { result ≡ texel_span self.now at.y at.v }
    {
        Span {
            x: self.clip_rect.x,
            y: at.y,
            n: self.clip_rect.w,
            paint: Paint::TexturedRow {
                color: self.color,
                texture: self.texture,
                u: self.u,
                v: at.v,
                flip: self.flip,
            },
            brush: self.brush,
        }
    }

    // Returns the row of the page whose texels row `y` of the clip rectangle has.
    #[inline(always)]
    pub(crate) fn texel_row(&self, y: u16) -> u8
        requires below { self.now.clip_rect.y ≤ y }
        requires near { y ≤ self.now.clip_rect.y + 1024 }
        ensures { result ≡ texel_row self.now y }
    {
        row_u(self.v, self.falls, y - self.clip_rect.y)
    }

    // Returns row `v` of the page.
    #[inline(always)]
    pub(crate) fn row_at(&self, v: u8) -> TexelRow
        ensures row { IsRowOf self.now result }
        ensures v { result.v ≡ v }
    {
        TexelRow {
            color: self.color,
            texture: self.texture,
            u: self.u,
            v,
            flip: self.flip,
        }
    }

    // Returns where the contiguous texels of row `v` of the page are, for any row of the clip rectangle.
    #[inline(always)]
    pub(crate) fn texel_run(&self, v: u8) -> TexelRun
        requires keeps { AreRowsContiguous self.now }
        requires texture { IsTexture self.now.texture }
        ensures { (y : ℕ) → IsTexelRun (texel_span self.now y v) self.now.texture result }
    {
        run_at_coords(&self.texture, self.u, v)
    }

    /// Returns these rows. The compiler then knows whether they are raw, and makes a loop for that case.
    #[inline(always)]
    fn known_raw(&self, raw: bool) -> TexelRows
        requires { self.now.texture.raw ≡ raw }
        ensures { result ≡ self.now }
    {
        TexelRows {
            texture: with_raw(&self.texture, raw),
            ..*self
        }
    }

    /// Returns whether pixels are neither blended nor tested, and no mask bit is set.
    #[inline(always)]
    fn is_opaque(&self) -> bool
        ensures mask { IsTrue result → self.now.brush.mask ≡ 0 }
        ensures semi { IsTrue result → self.now.brush.semi ≡ false }
    {
        is_opaque(&self.brush)
    }

    /// Returns these rows. The compiler then knows that they are opaque.
    #[inline(always)]
    fn known_opaque(&self) -> TexelRows
        requires mask { self.now.brush.mask ≡ 0 }
        requires semi { self.now.brush.semi ≡ false }
        ensures { result ≡ self.now }
    {
        TexelRows {
            brush: opaque_brush(&self.brush),
            ..*self
        }
    }
}

// Returns whether a clip rectangle has at least 512 cells, twice as many as a CLUT of 256 entries, in rows of at least
// sixteen.
fn is_worth_clut256(clip_rect: &ClipRect) -> bool
    ensures { IsTrue result → 16 ≤ clip_rect.now.w }
{
    clip_rect.w >= 16 && clip_rect.w as u32 * clip_rect.h as u32 >= 512
}

impl TexelRows {
    /// Returns true only if the texels of each row are contiguous, in cells that do not wrap, and no row has a hazard.
    /// `ContiguousRows` draws such rows, and `AnyRows` all.
    #[inline(always)]
    fn are_contiguous(&self) -> bool
        requires clip_rect { IsClipRect 1024 self.now.clip_rect }
        requires texture { IsTexture self.now.texture }
        ensures { IsTrue result → AreRowsContiguous self.now }
    {
        let n = self.clip_rect.w;
        if self.flip || !is_unwindowed(&self.texture, self.u, n) {
            return false;
        }
        does_not_wrap(&self.texture, self.u as u16, n) && are_rows_hazard_free(self)
    }

    /// Returns whether the CLUT of contiguous rows can be modulated once, and is worth it. A CLUT of sixteen entries
    /// is, unless pixels are dithered: `CachedClutRows` draws such rows. A CLUT of 256 entries
    /// is only if also texels are not raw and the clip rectangle has at least 512 cells, in rows of at least sixteen:
    /// `CachedClut256Rows` draws such rows.
    #[inline(always)]
    fn has_cacheable_clut(&self) -> bool
        ensures fours { IsTrue result → self.now.texture.page.depth ≡ 0 → AreRowsContiguous self.now
            → CanCacheRows 0 self.now }
        ensures eights { IsTrue result → self.now.texture.page.depth ≢ 0 → AreRowsContiguous self.now
            → CanCacheRows256 self.now }
    {
        if self.texture.page.depth == 0 {
            has_undithered_clut16(&self.texture, &self.brush)
        } else {
            has_modulated_clut256(&self.texture, &self.brush) && is_worth_clut256(&self.clip_rect)
        }
    }
}

impl TexelRows {
    // Draws the rows by a method. Each method has an instance of this function.
    #[inline(always)]
    fn draw_by<M: TexelRowsMethod, L: Ledger>(&self, vram: &mut Vram, steps: &mut Steps<L>)
        requires can { CanDrawTexelRows (height_of vram.old) self.now }
        requires accepts { M.accepts self.now }
        ensures { DrawsTexelRows self.now
            (record { m = vram.old; steps = steps.old }) (record { m = vram.new; steps = steps.new }) }
    {
        let mut rows = ClipRectRows {
            clip_rect: self.clip_rect,
        };
        let mut drawer = RectangleDrawer::<M>::new(self);
        draw_rows(vram, &mut rows, &mut drawer, steps);
    }

    // Draws texels whose CLUT is modulated once: by one loop for each case of raw and opaque.
    #[inline(never)]
    fn draw_clut16<L: Ledger>(&self, vram: &mut Vram, steps: &mut Steps<L>)
        requires can { CanDrawTexelRows (height_of vram.old) self.now }
        requires keeps { CanCacheRows 0 self.now }
        ensures { DrawsTexelRows self.now
            (record { m = vram.old; steps = steps.old }) (record { m = vram.new; steps = steps.new }) }
    {
        let opaque = self.is_opaque();
        if self.texture.raw {
            let rows = self.known_raw(true);
            if opaque {
                rows.known_opaque()
                    .draw_by::<CachedClutRows, L>(vram, steps);
            } else {
                rows.draw_by::<CachedClutRows, L>(vram, steps);
            }
        } else {
            let rows = self.known_raw(false);
            if opaque {
                rows.known_opaque()
                    .draw_by::<CachedClutRows, L>(vram, steps);
            } else {
                rows.draw_by::<CachedClutRows, L>(vram, steps);
            }
        }
    }

    // The same for a CLUT of 256 entries: by one loop for opaque pixels, and one for others.
    #[inline(never)]
    fn draw_clut256<L: Ledger>(&self, vram: &mut Vram, steps: &mut Steps<L>)
        requires can { CanDrawTexelRows (height_of vram.old) self.now }
        requires keeps { CanCacheRows256 self.now }
        ensures { DrawsTexelRows self.now
            (record { m = vram.old; steps = steps.old }) (record { m = vram.new; steps = steps.new }) }
    {
        let rows = self.known_raw(false);
        if rows.is_opaque() {
            rows.known_opaque()
                .draw_by::<CachedClut256Rows, L>(vram, steps);
        } else {
            rows.draw_by::<CachedClut256Rows, L>(vram, steps);
        }
    }

    // Draws texels, choosing the loop for each row.
    #[inline(never)]
    fn draw_each<L: Ledger>(&self, vram: &mut Vram, steps: &mut Steps<L>)
        requires { CanDrawTexelRows (height_of vram.old) self.now }
        ensures { DrawsTexelRows self.now
            (record { m = vram.old; steps = steps.old }) (record { m = vram.new; steps = steps.new }) }
    {
        self.draw_by::<AnyRows, L>(vram, steps);
    }

    // Draws contiguous texels whose CLUT is not cached.
    #[inline(never)]
    fn draw_uncached<L: Ledger>(&self, vram: &mut Vram, steps: &mut Steps<L>)
        requires can { CanDrawTexelRows (height_of vram.old) self.now }
        requires contiguous { AreRowsContiguous self.now }
        ensures { DrawsTexelRows self.now
            (record { m = vram.old; steps = steps.old }) (record { m = vram.new; steps = steps.new }) }
    {
        self.draw_by::<ContiguousRows, L>(vram, steps);
    }

    /// Draws all cells of the clip rectangle, row by row. The outcome is that of any pattern with the pixels of these
    /// rows.
    pub fn draw<L: Ledger>(&self, vram: &mut Vram, steps: &mut Steps<L>)
        requires { CanDrawTexelRows (height_of vram.old) self.now }
        ensures { DrawsTexelRows self.now
            (record { m = vram.old; steps = steps.old }) (record { m = vram.new; steps = steps.new }) }
    {
        if !self.are_contiguous() {
            self.draw_each(vram, steps)
        } else if !self.has_cacheable_clut() {
            self.draw_uncached(vram, steps)
        } else if self.texture.page.depth == 0 {
            self.draw_clut16(vram, steps)
        } else {
            self.draw_clut256(vram, steps)
        }
    }
}
