// Drawers of the rows of textured triangles, their methods, and what all rows share.
ghost use Rattle.std.specs.Prelude.{ℕ, ◌≡◌, List, IfSome, IsTrue, false};
ghost use Rattle.span_lanes.specs.ClipRect.{IsClipHazardFree, IsClipRect};
ghost use Rattle.span_lanes.specs.SpanDrawer.{state_of};
ghost use Rattle.span_lanes.specs.TriangleDrawer.{IsFreeIn, textured_state, AreContiguous, DoesNotWrap, SuitsMethod};
ghost use Rattle.texel_lanes.specs.Texture.{IsTexture};

use crate::attributes::ramps::{AttributeRamps, CoordRamps, attribute_ramps_of, coord_ramps_of};
use crate::attributes::shading::{Shading, has_undithered_clut16, one_color};
use crate::attributes::triangle_setup::{TriangleSetup, triangle_setup_of, triangle_setup_with};
use crate::clut::clut16::draw_cached;
use crate::clut::modulated::ModulatedClut;
use crate::hazard::is_clip_hazard_free;
use crate::rows::by_ramps::{draw_flat_texels, draw_gouraud_texels};
use crate::rows::contiguous::draw_contiguous_row;
use crate::rows::row_drawer::RowDrawer;
use crate::span::{Run, empty_span, is_opaque, opaque};
use crate::texels::sampler::FlatTexels;
use crate::texels::texel_run::triangle_row_run;
use crate::{Brush, ClipRect, Span, Texture};
use edge_walk::Tri;
use std::sync::ledger::Ledger;
use vram_store::{Steps, Vram};

/// How the texels of a triangle's rows are drawn. No row may have a hazard.
pub(crate) trait TexelMethod: Drop {
    ghost use Rattle.std.specs.Prelude.{ℕ, List};
    ghost use Rattle.edge_walk.specs.Triangle.{Corners};
    ghost use Rattle.texel_lanes.specs.declared.texture.Texture.{Texture};
    ghost use Rattle.span_lanes.specs.Draws.{DrawsSpan, at_stage};
    ghost use Rattle.span_lanes.specs.SpanDrawer.{state_of};
    ghost use Rattle.span_lanes.specs.TriangleDrawer.{CanDrawRow, textured_state};
    ghost use Rattle.span_lanes.specs.declared.span.Brush.{Brush};
    ghost use Rattle.span_lanes.specs.declared.span.DrawState.{DrawState};

    // The triangles, textures and brushes that it is for, with the one colour of all cells, if it needs that.
    ghost accepts: { Corners → Texture → Brush → ℕ → Type 0 };

    // Holds if it was made for a draw state, and the CLUT that it caches, if any, is the one in video memory.
    ghost ready: { Self → DrawState → List ℕ → Type 0 };

    /// Computes what is equal for all rows.
    fn new(tri: &Tri, texture: &Texture, brush: &Brush, color: u32) -> Self
        requires { accepts tri.now texture.now brush.now color }
        ensures { (m : List ℕ) → ready result (textured_state tri.now texture.now brush.now) m };

    /// Draws a row.
    fn draw_row<L: Ledger>(&mut self, vram: &mut Vram, span: &Span, steps: &mut Steps<L>)
        requires row { CanDrawRow span.now vram.old }
        requires ready { ready self.old (state_of span.now) vram.old }
        ensures drawn { DrawsSpan span.now 0 (at_stage vram.old steps.old) (at_stage vram.new steps.new) }
        ensures ready { ready self.new (state_of span.now) vram.new };
}

/// Draws the rows of a textured triangle in a clip rectangle that has no cell of the texture page or the CLUT.
#[derive(Drop)]
pub(crate) struct TriangleDrawer<M> {
    // the last row that was drawn; at first one of no cells
    span: Span,
    clip: ClipRect,
    method: M,
}

impl<M: TexelMethod> TriangleDrawer<M> {
    /// Computes what is equal for all rows. `color` is the one colour of all cells, if the method needs that.
    #[inline(always)]
    pub(crate) fn new(
        tri: &Tri,
        texture: &Texture,
        brush: &Brush,
        clip: &ClipRect,
        color: u32,
    ) -> TriangleDrawer<M>
        requires accepts { M.accepts tri.now texture.now brush.now color }
        requires hazard_free { IsClipHazardFree clip.now texture.now }
        ensures state { state_of result.span ≡ textured_state tri.now texture.now brush.now }
        ensures clip { result.clip ≡ clip.now }
        ensures free { IsFreeIn result.span.paint result.clip }
        ensures ready { (m : List ℕ) → M.ready result.method (state_of result.span) m }
    {
        TriangleDrawer {
            span: empty_span(tri, texture, brush),
            clip: *clip,
            method: M::new(tri, texture, brush, color),
        }
    }
}

impl<M: TexelMethod> RowDrawer for TriangleDrawer<M> {
    ghost use Rattle.span_lanes.specs.Pattern.{LiesInClip, uniform};
    ghost use Rattle.span_lanes.specs.SpanDrawer.{state_of};
    ghost use Rattle.span_lanes.specs.TriangleDrawer.{IsFreeIn};

    ghost pattern = { λ drawer. uniform (state_of drawer.span) };

    ghost reaches = { λ drawer. LiesInClip drawer.clip };

    ghost fresh = { λ drawer m. IsFreeIn drawer.span.paint drawer.clip
        × M.ready drawer.method (state_of drawer.span) m };

    #[inline(always)]
    fn draw<L: Ledger>(&mut self, vram: &mut Vram, run: Run, y: u16, steps: &mut Steps<L>) {
        self.span.x = run.x;
        self.span.y = y;
        self.span.n = run.n;
        self.method.draw_row(vram, &self.span, steps);
    }
}

/// How the rows of a triangle are drawn, if none has a hazard.
#[derive(Clone, Copy)]
pub(crate) enum RowMethod {
    /// Contiguous texels of four bits under one colour: the CLUT is modulated once, and no pixel is blended or tested
    /// (`CachedClutMethod`).
    CachedClut { color: u32 },
    /// Contiguous texels (`ContiguousMethod`).
    Contiguous,
    /// Texels by their coordinates, under one colour (`FlatTexelsMethod`).
    FlatTexelsByCoords { color: u32 },
    /// Texels by their coordinates, under several colours (`GouraudTexelsMethod`).
    GouraudTexels,
}

// Returns whether the cells of the texels of any column do not wrap. At depths 0 and 1, the sixteen cells after the
// page must not wrap either.
#[inline(always)]
fn never_wraps(texture: &Texture) -> bool
    ensures { IsTrue result → DoesNotWrap texture.now }
{
    match texture.page.depth {
        0 => texture.page.x <= 1024 - (256 / 4 + 16),
        1 => texture.page.x <= 1024 - (256 / 2 + 16),
        _ => texture.page.x <= 1024 - 256,
    }
}

// Returns true only if the texels of each row are contiguous.
#[inline(always)]
pub(crate) fn is_contiguous(tri: &Tri, texture: &Texture) -> bool
    ensures { IsTrue result → IsTexture texture.now → AreContiguous tri.now texture.now }
{
    let room = never_wraps(texture);
    tri.is_unscaled() && texture.window.mask_x == 0 && room
}

/// Returns how the rows of a triangle are drawn in a clip rectangle. `None` if that may have a cell of the texture page
/// or the CLUT: then `SpanDrawer` draws them, and tests each row.
#[inline(always)]
pub(crate) fn row_method(
    tri: &Tri,
    texture: &Texture,
    brush: &Brush,
    clip_rect: &ClipRect,
) -> Option<RowMethod>
    requires clip_rect { IsClipRect 1024 clip_rect.now }
    requires texture { IsTexture texture.now }
    ensures { IfSome result (SuitsMethod tri.now texture.now brush.now clip_rect.now) }
{
    if !is_clip_hazard_free(clip_rect, texture) {
        return None;
    }
    let opaque = has_undithered_clut16(texture, brush) && is_opaque(brush);
    Some(match (one_color(tri), is_contiguous(tri, texture)) {
        (Some(color), true) if opaque => RowMethod::CachedClut { color },
        (_, true) => RowMethod::Contiguous,
        (Some(color), false) => RowMethod::FlatTexelsByCoords { color },
        (None, false) => RowMethod::GouraudTexels,
    })
}

/// Contiguous texels of four bits under one colour: the CLUT is modulated once, and no pixel is blended or tested.
#[derive(Drop)]
pub(crate) struct CachedClutMethod {
    setup: TriangleSetup,
    color: u32,
    // the CLUT that was read last, and what the colour makes of it
    last: Option<ModulatedClut>,
}

impl TexelMethod for CachedClutMethod {
    ghost use Rattle.span_lanes.specs.Clut.ModulatedClut.{IsCached};
    ghost use Rattle.span_lanes.specs.TriangleDrawer.{IsCachedClutMethod, IsRowMethod};
    ghost use Rattle.span_lanes.specs.declared.rows.triangle.RowMethod.TheVariants.{CachedClut};

    ghost accepts = { λ tri t brush color. IsRowMethod tri t brush (CachedClut color) };

    ghost ready = { λ method state m. IsCachedClutMethod state method.setup method.color
        × IsCached state.paint m method.last };

    #[inline(always)]
    fn new(tri: &Tri, texture: &Texture, brush: &Brush, color: u32) -> CachedClutMethod {
        let divisor = tri.area_divisor();
        CachedClutMethod {
            setup: triangle_setup_with(tri, texture, brush, Shading::OneColor { color }, &divisor),
            color,
            last: None,
        }
    }

    #[inline(always)]
    fn draw_row<L: Ledger>(&mut self, vram: &mut Vram, span: &Span, steps: &mut Steps<L>) {
        let texel_run = triangle_row_run(span, &self.setup);
        let texels = FlatTexels {
            texture: &self.setup.texture,
            color: self.color,
            sampler: texel_run,
        };
        draw_cached(vram, &opaque(span), &texels, &mut self.last, steps);
    }
}

/// Contiguous texels.
#[derive(Drop)]
pub(crate) struct ContiguousMethod {
    setup: TriangleSetup,
    // the CLUT that was read last, and what a colour makes of it
    last: Option<ModulatedClut>,
}

impl TexelMethod for ContiguousMethod {
    ghost use Rattle.span_lanes.specs.Clut.ModulatedClut.{IsCached};
    ghost use Rattle.span_lanes.specs.TriangleDrawer.{AreContiguous, IsContiguousMethod};

    ghost accepts = { λ tri t brush color. AreContiguous tri t };

    ghost ready = { λ method state m. IsContiguousMethod state method.setup × IsCached state.paint m method.last };

    #[inline(always)]
    fn new(tri: &Tri, texture: &Texture, brush: &Brush, _color: u32) -> ContiguousMethod {
        ContiguousMethod {
            setup: triangle_setup_of(tri, texture, brush),
            last: None,
        }
    }

    #[inline(always)]
    fn draw_row<L: Ledger>(&mut self, vram: &mut Vram, span: &Span, steps: &mut Steps<L>) {
        draw_contiguous_row(vram, span, &self.setup, &mut self.last, steps);
    }
}

/// Draws the texels of a triangle of one colour. Computes the coordinates of each texel.
#[derive(Drop)]
pub(crate) struct FlatTexelsMethod {
    texture: Texture,
    color: u32,
    coord_ramps: CoordRamps,
    // the CLUT that was read last, and what the colour makes of it
    last: Option<ModulatedClut>,
}

impl TexelMethod for FlatTexelsMethod {
    ghost use Rattle.span_lanes.specs.Clut.ModulatedClut.{IsCached};
    ghost use Rattle.span_lanes.specs.SpanDrawer.{IsShadingOf};
    ghost use Rattle.span_lanes.specs.TriangleDrawer.{IsFlatTexelsMethod};
    ghost use Rattle.span_lanes.specs.declared.attributes.shading.Shading.TheVariants.{OneColor};

    ghost accepts = { λ tri t brush color. IsShadingOf tri (OneColor color) };

    ghost ready = { λ method state m. IsFlatTexelsMethod state method.texture method.color method.coord_ramps
        × IsCached state.paint m method.last };

    #[inline(always)]
    fn new(tri: &Tri, texture: &Texture, _brush: &Brush, color: u32) -> FlatTexelsMethod {
        FlatTexelsMethod {
            texture: *texture,
            color,
            coord_ramps: coord_ramps_of(tri, &tri.area_divisor()),
            last: None,
        }
    }

    #[inline(always)]
    fn draw_row<L: Ledger>(&mut self, vram: &mut Vram, span: &Span, steps: &mut Steps<L>) {
        let texels = FlatTexels {
            texture: &self.texture,
            color: self.color,
            sampler: &self.coord_ramps,
        };
        draw_flat_texels(vram, span, &texels, &mut self.last, steps);
    }
}

/// Draws the texels of a triangle of several colours. Computes the coordinates and the colour of each texel.
#[derive(Drop)]
pub(crate) struct GouraudTexelsMethod {
    texture: Texture,
    ramps: AttributeRamps,
}

impl TexelMethod for GouraudTexelsMethod {
    ghost use Rattle.span_lanes.specs.TriangleDrawer.{IsGouraudTexelsMethod};

    ghost accepts = { λ tri t brush color. Unit {0} };

    ghost ready = { λ method state m. IsGouraudTexelsMethod state method.texture method.ramps };

    #[inline(always)]
    fn new(tri: &Tri, texture: &Texture, _brush: &Brush, _color: u32) -> GouraudTexelsMethod {
        GouraudTexelsMethod {
            texture: *texture,
            ramps: attribute_ramps_of(tri, &tri.area_divisor()),
        }
    }

    #[inline(always)]
    fn draw_row<L: Ledger>(&mut self, vram: &mut Vram, span: &Span, steps: &mut Steps<L>) {
        draw_gouraud_texels(vram, span, &self.texture, &self.ramps, steps);
    }
}
