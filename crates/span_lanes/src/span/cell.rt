// One cell of a span: its pixel, and how it is drawn.
ghost use Rattle.std.specs.Prelude.{◌≡◌, ◌≤◌, ◌<◌, ◌+◌, pos, IsTrue, ◌*◌, length, Some};
ghost use Rattle.blend_dither.specs.Color.{IsShift};
ghost use Rattle.edge_walk.specs.Triangle.{is_inside};
ghost use Rattle.vram_store.specs.Vram.{at, height_of};
ghost use Rattle.span_lanes.specs.Shade.{IsSpan, LiesIn, row_u, dither_of, blended_if, modulated_texel, flat_pixel};
ghost use Rattle.span_lanes.specs.Shade.{textured_pixel, shade, attribute_in, color_in};
ghost use Rattle.span_lanes.specs.Cost.{paint_steps};
ghost use Rattle.vram_store.specs.Plot.{put_at, draw_lane};

use crate::rows::texel_rows::row_u;
use crate::{Brush, Paint, Span};
use blend_dither::{blend, modulate, pack, shift_at, tone};
use edge_walk::Tri;
use std::sync::ledger::Ledger;
use texel_lanes::read_texel;
use vram_store::mask::write_over;
use vram_store::{Steps, Vram};

#[tactic(auto, unfolding(crate::specs::Shade::dither_of))]
fn shift_for(dither: bool, x: u16, y: u16) -> i8
    ensures value { result ≡ dither_of dither x y }
    ensures small { IsShift result }
{
    if dither { shift_at(x, y) } else { 0 }
}

#[tactic(auto, unfolding(crate::specs::Shade::blended_if))]
fn blend_if(semi: bool, mode: u8, back: u16, front: u16) -> u16
    requires { mode ≤ 3 }
    ensures { result ≡ blended_if semi mode back front }
{
    if semi {
        blend(mode, back, front)
    } else {
        front
    }
}

#[tactic(auto, unfolding(crate::specs::Shade::modulated_texel))]
fn front(raw: bool, color: u32, shift: i8, t: u16) -> u16
    requires { IsShift shift }
    ensures { result ≡ modulated_texel raw color shift t }
{
    if raw { t } else { modulate(t, color, shift) }
}

impl Brush {
    /// Returns the dither offset of a colour at (`x`, `y`), or 0 without dither.
    pub fn dither_offset(&self, x: u16, y: u16) -> i8
        ensures value { result ≡ dither_of self.now.dither x y }
        ensures small { IsShift result }
    {
        shift_for(self.dither, x, y)
    }

    /// Returns the pixel of a colour without a texture over a cell with the value `back`. `shift` is the dither offset.
    #[tactic(auto, unfolding(crate::specs::Shade::flat_pixel))]
    pub fn pixel_over(&self, color: u32, shift: i8, back: u16) -> u16
        requires mode { self.now.mode ≤ 3 }
        requires shift { IsShift shift }
        ensures { Some result ≡ flat_pixel self.now color shift back }
    {
        let front = blend_if(self.semi, self.mode, back, tone(color, shift));
        pack(front, false, false)
    }
}

#[tactic(auto, unfolding(crate::specs::Shade::textured_pixel))]
fn texel_pixel(brush: &Brush, raw: bool, color: u32, shift: i8, back: u16, t: u16) -> Option<u16>
    requires mode { brush.now.mode ≤ 3 }
    requires shift { IsShift shift }
    ensures { result ≡ textured_pixel brush.now raw color shift back t }
{
    if t == 0 {
        None
    } else {
        let high = t >> 15 & 1 == 1;
        let color = blend_if(
            brush.semi && high,
            brush.mode,
            back,
            front(raw, color, shift, t),
        );
        Some(pack(color, high, false))
    }
}

// Returns an attribute of a triangle at the cell (`x`, `y`), which must be inside. `which` is 0 to 2 for red, green and
// blue, 3 for u, and 4 for v.
fn attribute_of(tri: &Tri, which: u8, x: u16, y: u16) -> u8
    requires which { which ≤ 4 }
    requires inside { IsTrue (is_inside tri.now (pos x) (pos y)) }
    ensures { result ≡ attribute_in tri.now which x y }
{
    tri.attr_at(which, x as i32, y as i32)
}

#[tactic(auto, unfolding(crate::specs::Shade::color_in))]
fn color_of(tri: &Tri, x: u16, y: u16) -> u32
    requires inside { IsTrue (is_inside tri.now (pos x) (pos y)) }
    ensures { result ≡ color_in tri.now x y }
{
    let red = attribute_of(tri, 0, x, y) as u32;
    let green = attribute_of(tri, 1, x, y) as u32;
    let blue = attribute_of(tri, 2, x, y) as u32;
    red + 256 * green + 65536 * blue
}

// Returns the pixel of cell `i` of a span, below `span.n`, or `None` if its texel is 0. `back` must be the cell's
// value. Costs at most the steps of the texel.
#[tactic(auto, unfolding(crate::specs::Shade::shade))]
fn pixel_of<L: Ledger>(
    vram: &Vram,
    span: &Span,
    i: u16,
    back: u16,
    steps: &mut Steps<L>,
) -> Option<u16>
    requires span { IsSpan span.now }
    requires height { LiesIn (height_of vram.now) span.now }
    requires within { i < span.now.n }
    requires back { back ≡ at vram.now (span.now.x + i) span.now.y }
    ensures value { result ≡ shade span.now i vram.now }
    ensures cost { steps.new ≤ steps.old + paint_steps span.now.paint }
{
    match &span.paint {
        Paint::Flat { color } => {
            let shift = span.brush.dither_offset(span.x + i, span.y);
            Some(span.brush.pixel_over(*color, shift, back))
        }
        Paint::Shaded { tri } => {
            let shift = span.brush.dither_offset(span.x + i, span.y);
            let color = color_of(tri, span.x + i, span.y);
            Some(span.brush.pixel_over(color, shift, back))
        }
        Paint::TexturedTri { tri, texture } => {
            let shift = shift_for(span.brush.dither && !texture.raw, span.x + i, span.y);
            let color = color_of(tri, span.x + i, span.y);
            let u = attribute_of(tri, 3, span.x + i, span.y);
            let v = attribute_of(tri, 4, span.x + i, span.y);
            let t = read_texel(vram, texture, u, v, steps);
            texel_pixel(&span.brush, texture.raw, color, shift, back, t)
        }
        Paint::TexturedRow {
            color,
            texture,
            u,
            v,
            flip,
        } => {
            let shift = shift_for(span.brush.dither && !texture.raw, span.x + i, span.y);
            let t = read_texel(vram, texture, row_u(*u, *flip, i), *v, steps);
            texel_pixel(&span.brush, texture.raw, *color, shift, back, t)
        }
    }
}

fn put_if<L: Ledger>(vram: &mut Vram, x: u16, y: u16, written: Option<u16>, steps: &mut Steps<L>)
    requires in_row { x < 1024 }
    requires in_height { y < height_of vram.old }
    ensures cells { vram.new ≡ put_at (1024 * y + x) written vram.old }
    ensures long { length vram.new ≡ length vram.old }
    ensures cost { steps.new ≤ steps.old + 1 }
{
    match written {
        None => {}
        Some(h) => vram.put(x, y, h, steps),
    }
}

// Draws cell `i` of a span, below `span.n`. Costs at most two steps, plus those of the texel.
pub(crate) fn draw_cell<L: Ledger>(vram: &mut Vram, span: &Span, i: u16, steps: &mut Steps<L>)
    requires span { IsSpan span.now }
    requires height { LiesIn (height_of vram.old) span.now }
    requires within { i < span.now.n }
    ensures cells { vram.new
        ≡ draw_lane (shade span.now) span.now.brush.mask (1024 * span.now.y + span.now.x) i vram.old }
    ensures long { length vram.new ≡ length vram.old }
    ensures cost { steps.new ≤ steps.old + (paint_steps span.now.paint + 2) }
{
    let back = vram.get(span.x + i, span.y, steps);
    let pixel = pixel_of(vram, span, i, back, steps);
    let written = write_over(span.brush.mask, back, pixel);
    put_if(vram, span.x + i, span.y, written, steps);
}
