// Tests for hazards: whether cells of a chunk, a span, a rectangle or a clip rectangle may read what others write.
ghost use Rattle.std.specs.Prelude.{ℕ, ◌≡◌, ◌≤◌, ◌<◌, ◌+◌, ◌⊎◌, ◌↔◌, Some, IsTrue, IfSome, ◌≢◌, ◌-◌, false};
ghost use Rattle.texel_lanes.specs.Texture.{IsTexture};
ghost use Rattle.span_lanes.specs.Shade.{IsSpan, texture_of};
ghost use Rattle.span_lanes.specs.Hazard.Guard.{IsHazardFree, LiesOutsideClut, LiesOutsideColumns, LiesOutsidePage};
ghost use Rattle.span_lanes.specs.Hazard.Guard.{LiesOutsideStrip, page_width, texel_cells, clut_of, clut_strip};
ghost use Rattle.span_lanes.specs.ClipRect.{IsClipRect, IsInClip, IsClipHazardFree};
ghost use Rattle.overlap_guard.specs.Hazard.{HasTextureHazard, has_texture_hazard};
ghost use Rattle.texel_lanes.specs.Texels.{AreCoordinates};
ghost use Rattle.texture_page.specs.Page.{column, windowed};
ghost use Rattle.span_lanes.specs.Hazard.HazardFree.{AreColumnsApart, AreTexelsApart};
ghost use Rattle.span_lanes.specs.Paints.{row_paint};
ghost use Rattle.span_lanes.specs.TexelRun.{IsTexelRun};
ghost use Rattle.span_lanes.specs.TexelRows.{AreRowsHazardFree, texel_row, texel_span};

use crate::rows::texel_rows::TexelRow;
use crate::texels::texel_run::TexelRun;
use crate::{ClipRect, Span, TexelRows, Texture};
use overlap_guard::lanes_hazard;
use px_num::{Cell, Strip};
use texel_lanes::{Coordinates, clut_row, column_of, texel_cells_of};
use texture_page::texel_cell;

// Returns whether the `n` columns from `x` on are none of the `width` columns from `first` on, which wrap at 1024.
fn lies_outside_columns(first: u16, width: u16, x: u16, n: u16) -> bool
    requires row { x + n ≤ 1024 }
    requires strip { (first ≤ 1024) × (width ≤ 1024) }
    ensures { IsTrue result ↔ LiesOutsideColumns first width x n }
{
    first + width <= x || x + n <= first && first + width <= x + 1024
}

// Returns whether row `y` is above or below the 256 rows from `page` on.
fn lies_outside_rows(page: u16, y: u16) -> bool
    requires { page ≤ 768 }
    ensures { IsTrue result ↔ ((y < page) ⊎ (page + 255 < y)) }
{
    y < page || page + 255 < y
}

fn width_of(depth: u8) -> u16
    ensures value { result ≡ page_width depth }
    ensures few { result ≤ 256 }
{
    match depth {
        0 => 64,
        1 => 128,
        _ => 256,
    }
}

fn is_outside_page(span: &Span, texture: &Texture) -> bool
    requires span { IsSpan span.now }
    requires texture { IsTexture texture.now }
    ensures { IsTrue result ↔ LiesOutsidePage texture.now span.now.x span.now.y span.now.n }
{
    lies_outside_rows(texture.page.y, span.y)
        || lies_outside_columns(texture.page.x, width_of(texture.page.depth), span.x, span.n)
}

// Returns true only if the span has no cell of the strip.
fn is_off_strip(span: &Span, strip: &Strip) -> bool
    requires span { IsSpan span.now }
    requires strip { (strip.now.x ≤ 1024) × (strip.now.n ≤ 1024) }
    ensures { IsTrue result → LiesOutsideStrip strip.now span.now.x span.now.y span.now.n }
{
    strip.y != span.y || lies_outside_columns(strip.x, strip.n, span.x, span.n)
}

// Returns true only if the texture has no CLUT, or the span has no cell of it.
pub(crate) fn is_off_clut(span: &Span, texture: &Texture) -> bool
    requires span { IsSpan span.now }
    ensures { IsTrue result → LiesOutsideClut texture.now span.now.x span.now.y span.now.n }
{
    match clut_of(texture) {
        None => true,
        Some(strip) => is_off_strip(span, &strip),
    }
}

// Returns true only if the span has no hazard. Its cells are then outside the texture page and the CLUT, if any.
pub(crate) fn is_hazard_free(span: &Span, texture: &Texture) -> bool
    requires span { IsSpan span.now }
    requires texture { texture_of span.now.paint ≡ Some texture.now }
    ensures { IsTrue result → IsHazardFree span.now }
{
    is_outside_page(span, texture) && is_off_clut(span, texture)
}

// Returns true only if all cells of the clip rectangle are outside the texture page: above or below its rows, or to the
// left or right of its columns.
pub(crate) fn is_clip_outside_page(clip_rect: &ClipRect, texture: &Texture) -> bool
    requires clip_rect { IsClipRect 1024 clip_rect.now }
    requires texture { IsTexture texture.now }
    ensures { IsTrue result → (x y n : ℕ) → IsInClip clip_rect.now x y n → LiesOutsidePage texture.now x y n }
{
    let ClipRect { x, y, w, h } = *clip_rect;
    let page = texture.page;
    y + h <= page.y || page.y + 255 < y || lies_outside_columns(page.x, width_of(page.depth), x, w)
}

// Returns true only if the clip rectangle has no cell of the strip. The strip is then above or below the rectangle's
// rows, or in none of its columns.
fn is_clip_off_strip(clip_rect: &ClipRect, strip: &Strip) -> bool
    requires clip_rect { IsClipRect 1024 clip_rect.now }
    requires strip { (strip.now.x ≤ 1024) × (strip.now.n ≤ 1024) }
    ensures { IsTrue result → (x y n : ℕ) → IsInClip clip_rect.now x y n → LiesOutsideStrip strip.now x y n }
{
    let ClipRect { x, y, w, h } = *clip_rect;
    strip.y < y || y + h <= strip.y || lies_outside_columns(strip.x, strip.n, x, w)
}

// Returns true only if the texture has no CLUT, or the clip rectangle has no cell of it.
pub(crate) fn is_clip_off_clut(clip_rect: &ClipRect, texture: &Texture) -> bool
    requires clip_rect { IsClipRect 1024 clip_rect.now }
    ensures { IsTrue result → (x y n : ℕ) → IsInClip clip_rect.now x y n → LiesOutsideClut texture.now x y n }
{
    match clut_of(texture) {
        None => true,
        Some(strip) => is_clip_off_strip(clip_rect, &strip),
    }
}

// Returns true only if no span in the clip rectangle has a hazard. The rectangle then has no cell of the texture page
// or of the CLUT, if any.
pub(crate) fn is_clip_hazard_free(clip_rect: &ClipRect, texture: &Texture) -> bool
    requires clip_rect { IsClipRect 1024 clip_rect.now }
    requires texture { IsTexture texture.now }
    ensures { IsTrue result → IsClipHazardFree clip_rect.now texture.now }
{
    is_clip_outside_page(clip_rect, texture) && is_clip_off_clut(clip_rect, texture)
}

// Returns the cells of the texture's CLUT, if it has one. Their columns wrap at 1024.
fn clut_of(texture: &Texture) -> Option<Strip>
    ensures value { result ≡ clut_of texture.now }
    ensures fits { IfSome result (λ strip. (strip.x ≤ 1024) × (strip.n ≤ 1024)) }
{
    match texture.page.depth {
        0 => Some(strip_of(texture.clut, 16)),
        1 => Some(strip_of(texture.clut, 256)),
        _ => None,
    }
}

fn strip_of(clut: u16, n: u16) -> Strip
    ensures value { result ≡ clut_strip clut n }
    ensures fits { result.x ≤ 1024 }
{
    Strip {
        x: clut % 64 * 16,
        y: clut_row(clut),
        n,
    }
}

// Returns whether a chunk has a hazard: a cell reads as its texel one that an earlier cell writes, or is a cell of the
// CLUT. The chunk has `k` cells, 1 to 16, from `to` on, and does not pass the end of the row. `at` has the
// coordinates of their texels.
#[inline(always)]
pub(crate) fn reads_itself(texture: &Texture, at: &Coordinates, to: Cell, k: u8) -> bool
    requires texture { IsTexture texture.now }
    requires at { AreCoordinates at.now.us × AreCoordinates at.now.vs }
    requires some { 1 ≤ k }
    requires few { k ≤ 16 }
    requires target { to.x + k ≤ 1024 }
    ensures pairs { IsTrue result
        ↔ HasTextureHazard (texel_cells texture.now at.now.us at.now.vs k) (clut_of texture.now) to k }
    ensures value { result
        ≡ has_texture_hazard (texel_cells texture.now at.now.us at.now.vs k) (clut_of texture.now) to k }
{
    let places = texel_cells_of(texture, at);
    lanes_hazard(places.xs, places.ys, clut_of(texture), to, k)
}

// Returns true only if no cell of a span has its texel in the column of an earlier cell of its chunk. The texels must
// be contiguous. Their cells are then to the left of all cells of their chunk, or none is to the left of the cell that
// reads it.
#[inline(always)]
fn are_columns_apart(span: &Span, texture: &Texture, texel_run: TexelRun) -> bool
    requires span { IsSpan span.now }
    requires texture { IsTexture texture.now }
    requires finds { IsTexelRun span.now texture.now texel_run }
    ensures { IsTrue result
        → AreColumnsApart (texture.now.page.x + column texture.now.page.depth texel_run.u)
        (texture.now.page.x + column texture.now.page.depth (texel_run.u + span.now.n - 1)) span.now.x span.now.n }
{
    let page = texture.page;
    let first = page.x + column_of(page.depth, texel_run.u);
    let last = page.x + column_of(page.depth, texel_run.u + span.n - 1);
    last < span.x || first + 16 <= span.x || span.x + span.n <= last + 1
}

// Returns true only if no cell of a span reads as its texel what an earlier cell of its chunk writes. The texels are
// those of `texel_run`.
#[inline(always)]
fn is_run_apart(span: &Span, texture: &Texture, texel_run: TexelRun) -> bool
    requires span { IsSpan span.now }
    requires texture { IsTexture texture.now }
    requires finds { IsTexelRun span.now texture.now texel_run }
    ensures { IsTrue result → AreTexelsApart span.now texture.now }
{
    texel_run.y != span.y || are_columns_apart(span, texture, texel_run)
}

// Returns true only if a span of contiguous texels has no hazard. They are those of `texel_run`.
#[inline(always)]
pub(crate) fn is_run_hazard_free(span: &Span, texture: &Texture, texel_run: TexelRun) -> bool
    requires span { IsSpan span.now }
    requires texture { texture_of span.now.paint ≡ Some texture.now }
    requires finds { IsTexelRun span.now texture.now texel_run }
    ensures { IsTrue result → IsHazardFree span.now }
{
    is_run_apart(span, texture, texel_run) && is_off_clut(span, texture)
}

// Returns true only if the texels of a row are in another row of video memory than the span. `row` must be the span's
// paint.
fn reads_other_row(span: &Span, row: &TexelRow) -> bool
    requires texture { IsTexture row.now.texture }
    requires paint { span.now.paint ≡ row_paint row.now }
    ensures { IsTrue result → AreTexelsApart span.now row.now.texture }
{
    texel_cell(&row.texture.page, &row.texture.window, row.u, row.v).y != span.y
}

// Returns true only if a row of texels has no hazard. `row` must be the span's paint.
pub(crate) fn is_row_hazard_free(span: &Span, row: &TexelRow) -> bool
    requires span { IsSpan span.now }
    requires paint { span.now.paint ≡ row_paint row.now }
    ensures { IsTrue result → IsHazardFree span.now }
{
    if reads_other_row(span, row) {
        is_off_clut(span, &row.texture)
    } else {
        is_hazard_free(span, &row.texture)
    }
}

// Returns true only if the row of the texels increases by 1 from row to row, and neither wraps nor is changed by the
// window.
fn rise_together(rows: &TexelRows) -> bool
    requires clip_rect { IsClipRect 1024 rows.now.clip_rect }
    ensures clear { IsTrue result → rows.now.texture.window.mask_y ≡ 0 }
    ensures rises { IsTrue result → rows.now.falls ≡ false }
    ensures fits { IsTrue result → rows.now.v + rows.now.clip_rect.h ≤ 256 }
{
    rows.texture.window.mask_y == 0 && !rows.falls && rows.v as u16 + rows.clip_rect.h <= 256
}

// Returns whether the texels of the first row are in another row of video memory than its cells, if the window does not
// change their row.
fn begin_apart(rows: &TexelRows) -> bool
    requires texture { IsTexture rows.now.texture }
    ensures { IsTrue result → rows.now.texture.page.y + rows.now.v ≢ rows.now.clip_rect.y }
{
    rows.texture.page.y + rows.v as u16 != rows.clip_rect.y
}

// Returns true only if no cell reads as its texel what an earlier cell of its chunk writes. Then the clip rectangle is
// outside the page. Or the rows of texels and of cells both increase by 1, and the first ones are not the same.
fn are_texels_apart(rows: &TexelRows) -> bool
    requires clip_rect { IsClipRect 1024 rows.now.clip_rect }
    requires texture { IsTexture rows.now.texture }
    ensures { IsTrue result → (y : ℕ) → rows.now.clip_rect.y ≤ y → y < rows.now.clip_rect.y + rows.now.clip_rect.h
        → IsSpan (texel_span rows.now y (texel_row rows.now y))
        → AreTexelsApart (texel_span rows.now y (texel_row rows.now y)) rows.now.texture }
{
    if is_clip_outside_page(&rows.clip_rect, &rows.texture) {
        true
    } else {
        rise_together(rows) && begin_apart(rows)
    }
}

// Returns true only if no row of the clip rectangle has a hazard.
pub(crate) fn are_rows_hazard_free(rows: &TexelRows) -> bool
    requires clip_rect { IsClipRect 1024 rows.now.clip_rect }
    requires texture { IsTexture rows.now.texture }
    ensures { IsTrue result → AreRowsHazardFree rows.now }
{
    are_texels_apart(rows) && is_clip_off_clut(&rows.clip_rect, &rows.texture)
}
