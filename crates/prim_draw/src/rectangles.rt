// Rectangles, row by row.
ghost use Rattle.std.specs.Prelude.{◌≡◌, ◌≤◌, ◌<◌, ◌+◌, ◌*◌, IfSome, length, pos, ◌-ℤ◌, unsigned_abs, None};
ghost use Rattle.gp0_packets.specs.Ranges.{IsPlace};
ghost use Rattle.texel_lanes.specs.Texture.{HasPage, IsTexture};
ghost use Rattle.span_lanes.specs.Figures.Boxes.{IsOnScreen, clip_rect_of};
ghost use Rattle.prim_draw.specs.Costs.{rectangle_cost};
ghost use Rattle.prim_draw.specs.Rectangles.{cells_box, drawn_rectangle, extent_at, optional_texture, IsPartOf};
ghost use Rattle.prim_draw.specs.Rectangles.{rectangle_box, rectangle_setup_in, IsExtent, IsRectangleSetup};
ghost use Rattle.vram_store.specs.Vram.{height_of};
ghost use Rattle.span_lanes.specs.ClipRect.{IsClipRect};
ghost use Rattle.span_lanes.specs.Shade.{row_u};
ghost use Rattle.prim_draw.specs.ClippedRectangle.{CanDrawRectangle, DrawsRectangle, texels_of};

use crate::boxes::clipped;
use crate::settings::{Style, brush_in, texture_in};
use gp1_status::Regs;
use px_num::Box2;
use span_lanes::{Brush, ClipRect, TexelRows, Texture, draw_flat_rectangle, row_u};
use std::sync::ledger::Ledger;
use vram_store::{Steps, Vram};

/// All cells of a rectangle, with the drawing offset added.
#[derive(Clone, Copy)]
pub(crate) struct Extent {
    /// The first column.
    pub(crate) left: i32,
    /// The first row.
    pub(crate) top: i32,
    /// The number of columns.
    pub(crate) w: u16,
    /// The number of rows.
    pub(crate) h: u16,
}

/// What the cells of a rectangle are drawn with.
#[derive(Clone, Copy)]
pub(crate) struct RectangleSetup {
    /// Its colour.
    pub(crate) color: u32,
    /// Its texture, if it has one.
    pub(crate) texture: Option<Texture>,
    /// The column of the first texel within the texture page.
    pub(crate) u: u8,
    /// The row of the first texel within the texture page.
    pub(crate) v: u8,
    /// Whether the texel's column decreases from cell to cell, instead of increasing.
    pub(crate) flip_x: bool,
    /// Whether the texel's row decreases from row to row, instead of increasing.
    pub(crate) flip_y: bool,
    /// The pixel settings.
    pub(crate) brush: Brush,
}

/// Returns the extent of a rectangle of `w` by `h` cells, with the drawing offset added. `w` is at most 1023, and `h`
/// at most 511.
#[tactic(auto, unfolding(crate::specs::Rectangles::extent_at))]
pub(crate) fn extent_at(regs: &Regs, x: i32, y: i32, w: u16, h: u16) -> Extent
    requires place { IsPlace x y }
    requires wide { w ≤ 1023 }
    requires high { h ≤ 511 }
    ensures value { result ≡ extent_at regs.now x y w h }
    ensures is { IsExtent result }
{
    let offset = regs.drawing_offset();
    Extent {
        left: x + offset.x,
        top: y + offset.y,
        w,
        h,
    }
}

fn cells_box(extent: &Extent) -> Box2
    requires is { IsExtent extent.now }
    ensures { result ≡ cells_box extent.now }
{
    Box2 {
        x1: extent.left,
        y1: extent.top,
        x2: extent.left + extent.w as i32 - 1,
        y2: extent.top + extent.h as i32 - 1,
    }
}

/// Returns the box of a rectangle in the drawing area, or `None` if it has no cell there.
#[tactic(auto, unfolding(crate::specs::Rectangles::rectangle_box))]
pub(crate) fn rectangle_box(regs: &Regs, extent: &Extent) -> Option<Box2>
    requires is { IsExtent extent.now }
    ensures value { result ≡ rectangle_box regs.now extent.now }
    ensures on_screen { IfSome result (IsOnScreen regs.now.height) }
    ensures in_reach { regs.now.height ≤ 1024 }
    ensures part { IfSome result (λ b. IsPartOf extent.now (clip_rect_of b)) }
{
    if extent.w == 0 || extent.h == 0 {
        let _height = regs.height();
        None
    } else {
        clipped(regs, &cells_box(extent))
    }
}

fn optional_texture(regs: &Regs, textured: bool, clut: u16, raw: bool) -> Option<Texture>
    ensures value { result ≡ optional_texture regs.now textured clut raw }
    ensures is { IfSome result IsTexture }
    ensures in_height { IfSome result (HasPage regs.now.height) }
{
    if textured {
        Some(texture_in(regs, clut, raw))
    } else {
        None
    }
}

/// Returns what a rectangle is drawn with. `u` and `v` are the coordinates of its first texel. It is never dithered.
#[tactic(auto, unfolding(crate::specs::Rectangles::rectangle_setup_in))]
pub(crate) fn rectangle_setup_in(regs: &Regs, style: &Style, u: u8, v: u8) -> RectangleSetup
    ensures value { result ≡ rectangle_setup_in regs.now style.now u v }
    ensures is { IsRectangleSetup regs.now.height result }
{
    let flips = regs.flips();
    RectangleSetup {
        color: style.color,
        texture: optional_texture(regs, style.textured, style.clut, style.raw),
        u,
        v,
        flip_x: flips.x,
        flip_y: flips.y,
        brush: brush_in(regs, style.semi, false),
    }
}

impl RectangleSetup {
    /// Draws a rectangle and returns its box, as [`rectangle_box`] does.
    pub(crate) fn draw<L: Ledger>(
        &self,
        vram: &mut Vram,
        regs: &Regs,
        extent: &Extent,
        steps: &mut Steps<L>,
    ) -> Option<Box2>
        requires rows { length vram.old ≡ 1024 * regs.now.height }
        requires rectangle_setup { IsRectangleSetup regs.now.height self.now }
        requires is { IsExtent extent.now }
        ensures area { result ≡ rectangle_box regs.now extent.now }
        ensures cells { vram.new ≡ drawn_rectangle regs.now self.now extent.now vram.old }
        ensures long { length vram.new ≡ length vram.old }
        ensures cost { steps.new ≤ steps.old + rectangle_cost regs.now self.now extent.now }
    {
        let area = rectangle_box(regs, extent);
        if let Some(clip) = &area {
            let rectangle = ClippedRectangle {
                rectangle_setup: self,
                extent,
                clip_rect: &ClipRect::from_box(clip),
            };
            rectangle.draw(vram, steps);
        }
        area
    }
}

/// A rectangle, and the part of it that is drawn.
#[derive(Clone, Copy)]
pub(crate) struct ClippedRectangle<'a> {
    /// What the cells are drawn with.
    pub(crate) rectangle_setup: &'a RectangleSetup,
    /// All cells of the rectangle.
    pub(crate) extent: &'a Extent,
    /// The cells that are drawn.
    pub(crate) clip_rect: &'a ClipRect,
}

impl ClippedRectangle<'_> {
    // Returns the row of the page whose texels the first row of the clip rectangle has.
    #[inline(always)]
    fn first_texel_row(&self) -> u8
        requires extent { IsExtent self.now.extent.now }
        requires part { IsPartOf self.now.extent.now self.now.clip_rect.now }
        requires small { IsClipRect 1024 self.now.clip_rect.now }
        ensures { result ≡ row_u self.now.rectangle_setup.now.v self.now.rectangle_setup.now.flip_y
            (unsigned_abs (pos self.now.clip_rect.now.y -ℤ self.now.extent.now.top)) }
    {
        let row = (self.clip_rect.y as i32 - self.extent.top) as u16;
        row_u(self.rectangle_setup.v, self.rectangle_setup.flip_y, row)
    }

    // Returns the rows of texels of the clip rectangle.
    #[inline(always)]
    fn texels(&self, texture: &Texture) -> TexelRows
        requires extent { IsExtent self.now.extent.now }
        requires part { IsPartOf self.now.extent.now self.now.clip_rect.now }
        requires small { IsClipRect 1024 self.now.clip_rect.now }
        ensures { result ≡ texels_of self.now texture.now }
    {
        let column = (self.clip_rect.x as i32 - self.extent.left) as u16;
        TexelRows {
            color: self.rectangle_setup.color,
            texture: *texture,
            u: row_u(self.rectangle_setup.u, self.rectangle_setup.flip_x, column),
            flip: self.rectangle_setup.flip_x,
            v: self.first_texel_row(),
            falls: self.rectangle_setup.flip_y,
            brush: self.rectangle_setup.brush,
            clip_rect: *self.clip_rect,
        }
    }

    /// Draws the cells of the clip rectangle.
    pub(crate) fn draw<L: Ledger>(&self, vram: &mut Vram, steps: &mut Steps<L>)
        requires { CanDrawRectangle (height_of vram.old) self.now }
        ensures { DrawsRectangle self.now
            (record { m = vram.old; steps = steps.old }) (record { m = vram.new; steps = steps.new }) }
    {
        let RectangleSetup {
            color,
            texture,
            brush,
            ..
        } = self.rectangle_setup;
        match texture {
            Some(texture) => self.texels(texture).draw(vram, steps),
            None => draw_flat_rectangle(vram, *color, brush, self.clip_rect, steps),
        }
    }
}
