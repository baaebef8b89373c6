// Spans and their chunks, what their cells are drawn with, and clip rectangles.
ghost use Rattle.std.specs.Prelude.{ℕ, ◌≡◌, IsTrue, false};
ghost use Rattle.span_lanes.specs.Figures.Boxes.{IsOnScreen, clip_rect_of};
ghost use Rattle.span_lanes.specs.ClipRect.{IsClipRect};
ghost use Rattle.span_lanes.specs.SpanDrawer.{state_of};
ghost use Rattle.span_lanes.specs.declared.span.Paint.TheVariants.{TexturedTri};

pub(crate) mod cell;

use edge_walk::Tri;
use px_num::Box2;
use texel_lanes::Texture;

/// Pixel settings: how pixels are written to their cells.
#[derive(Clone, Copy)]
pub struct Brush {
    /// The mask setting, 0 to 3. Bit 0 forces bit 15 of written halfwords to 1. Bit 1 protects the cells whose bit 15
    /// is 1.
    pub mask: u8,
    /// The blending mode, 0 to 3.
    pub mode: u8,
    /// Whether pixels are semi-transparent. With a texture, only those are whose texel has bit 15 set.
    pub semi: bool,
    /// Whether colours are dithered. Raw texels never are.
    pub dither: bool,
}

/// The colour source of a span's cells. A colour has red in bits 0 to 7, green in 8 to 15 and blue in 16 to 23.
#[derive(Clone, Copy)]
pub enum Paint {
    /// One colour.
    Flat {
        /// The colour.
        color: u32,
    },
    /// The colours of a triangle.
    Shaded {
        /// The triangle. All cells must be inside it.
        tri: Tri,
    },
    /// Texels at the coordinates of a triangle, modulated by its colours unless raw.
    TexturedTri {
        /// The triangle. All cells must be inside it.
        tri: Tri,
        /// The texture.
        texture: Texture,
    },
    /// Texels of one row of a page, modulated by one colour unless raw.
    TexturedRow {
        /// The colour.
        color: u32,
        /// The texture.
        texture: Texture,
        /// The column of the first cell's texel.
        u: u8,
        /// The row of the texels.
        v: u8,
        /// Whether the column decreases by 1 from cell to cell, instead of increasing by 1. It wraps at 256.
        flip: bool,
    },
}

/// The draw state of a primitive: the colour source and the pixel settings of its cells.
#[derive(Clone, Copy)]
pub struct DrawState {
    /// The colour source.
    pub paint: Paint,
    /// The pixel settings.
    pub brush: Brush,
}

/// Consecutive cells of a row.
#[derive(Clone, Copy)]
pub(crate) struct Run {
    /// The first column.
    pub(crate) x: u16,
    /// The number of cells, at least 1.
    pub(crate) n: u16,
}

/// Consecutive cells of one row, with what they are drawn with.
#[derive(Clone, Copy)]
pub struct Span {
    /// The column of the first cell.
    pub x: u16,
    /// The row.
    pub y: u16,
    /// The number of cells, at least 1. `x + n` is at most 1024.
    pub n: u16,
    /// The colour source of the cells.
    pub paint: Paint,
    /// The pixel settings of the cells.
    pub brush: Brush,
}

/// Returns a span of a textured triangle that has no cells yet.
#[inline(always)]
pub(crate) fn empty_span(tri: &Tri, texture: &Texture, brush: &Brush) -> Span
    ensures { state_of result ≡ record { paint = TexturedTri tri.now texture.now; brush = brush.now } }
{
    Span {
        x: 0,
        y: 0,
        n: 0,
        paint: Paint::TexturedTri {
            tri: *tri,
            texture: *texture,
        },
        brush: *brush,
    }
}

// Returns whether pixels are opaque: neither blended nor tested, and without a forced bit 15.
#[inline(always)]
pub(crate) fn is_opaque(brush: &Brush) -> bool
    ensures mask { IsTrue result → brush.now.mask ≡ 0 }
    ensures semi { IsTrue result → brush.now.semi ≡ false }
{
    brush.mask == 0 && !brush.semi
}

// Returns the same pixel settings, which must be opaque. The compiler then knows this.
#[inline(always)]
pub(crate) fn opaque_brush(brush: &Brush) -> Brush
    requires mask { brush.now.mask ≡ 0 }
    requires semi { brush.now.semi ≡ false }
    ensures { result ≡ brush.now }
{
    Brush {
        mask: 0,
        semi: false,
        ..*brush
    }
}

// Returns the same span, whose pixels must be opaque. The compiler then knows this, and makes a separate loop.
#[inline(always)]
pub(crate) fn opaque(span: &Span) -> Span
    requires mask { span.now.brush.mask ≡ 0 }
    requires semi { span.now.brush.semi ≡ false }
    ensures { result ≡ span.now }
{
    Span {
        brush: opaque_brush(&span.brush),
        ..*span
    }
}

// Returns the same span. `dither` must be that of its pixels. The compiler then knows it, and makes a separate loop.
#[inline(always)]
pub(crate) fn with_dither(span: &Span, dither: bool) -> Span
    requires { span.now.brush.dither ≡ dither }
    ensures { result ≡ span.now }
{
    Span {
        brush: Brush {
            dither,
            ..span.brush
        },
        ..*span
    }
}

// Up to sixteen consecutive cells of a span.
#[derive(Clone, Copy)]
pub(crate) struct Chunk<'a> {
    pub(crate) span: &'a Span,
    // the number of its first cell in the span
    pub(crate) first: u16,
    // the number of its cells
    pub(crate) k: u8,
}

/// A rectangle of cells of video memory, outside which nothing is drawn.
#[derive(Clone, Copy)]
pub struct ClipRect {
    /// The first column.
    pub x: u16,
    /// The first row.
    pub y: u16,
    /// The number of columns, at least 1.
    pub w: u16,
    /// The number of rows, at least 1.
    pub h: u16,
}

impl ClipRect {
    /// Returns a box as a clip rectangle. It must have at least one cell and be within 1024 columns and rows.
    #[inline(always)]
    #[tactic(auto, unfolding(crate::specs::Figures::Boxes::clip_rect_of))]
    pub fn from_box(b: &Box2) -> ClipRect
        requires { IsOnScreen 1024 b.now }
        ensures value { result ≡ clip_rect_of b.now }
        ensures clip_rect { (height : ℕ) → IsOnScreen height b.now → IsClipRect height result }
    {
        ClipRect {
            x: b.x1 as u16,
            y: b.y1 as u16,
            w: (b.x2 - b.x1 + 1) as u16,
            h: (b.y2 - b.y1 + 1) as u16,
        }
    }
}
