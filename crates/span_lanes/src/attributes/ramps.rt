// A triangle's attributes with the values that all rows share, computed once.
ghost use Rattle.std.specs.Prelude.{◌≡◌, ◌+◌};
ghost use Rattle.edge_walk.specs.AttributeSetup.{IsAttributeSetup};
ghost use Rattle.edge_walk.specs.Held.{divisor_for};
ghost use Rattle.edge_walk.specs.Triangle.{Corners};
ghost use Rattle.span_lanes.specs.Attributes.AttributeRamps.{AreColorsOf, AreColorRamps, AreCoordRamps};
ghost use Rattle.span_lanes.specs.Attributes.AttributeRamps.{AreCoordRampsOf};

use crate::Texture;
use crate::attributes::color_lanes::{ColorLanes, ColorSource};
use crate::span::Chunk;
use crate::texels::sampler::{
    CoordSource, IndexSampler, Sampler, indexes_by_coords, texels_by_coords,
};
use edge_walk::{AttributeSetup, Divisor, PlaneRamp, Tri};
use std::simd::prelude::*;
use std::sync::ledger::Ledger;
use texel_lanes::Coordinates;
use vram_store::{Steps, Vram};

// The texel coordinates u and v.
#[derive(Clone, Copy)]
pub(crate) struct CoordRamps {
    pub(crate) u: PlaneRamp,
    pub(crate) v: PlaneRamp,
}

// The three colour channels.
#[derive(Clone, Copy)]
pub(crate) struct ColorRamps {
    pub(crate) red: PlaneRamp,
    pub(crate) green: PlaneRamp,
    pub(crate) blue: PlaneRamp,
}

// All five attributes.
#[derive(Clone, Copy)]
pub(crate) struct AttributeRamps {
    pub(crate) coord_ramps: CoordRamps,
    pub(crate) colors: ColorRamps,
}

// Returns the texel coordinates of the triangle of a setup.
#[inline(always)]
fn coord_ramps_with(setup: &AttributeSetup) -> CoordRamps
    ensures { (tri : Corners) → IsAttributeSetup tri setup.now → AreCoordRamps tri result }
{
    CoordRamps {
        u: PlaneRamp::of(&setup.plane(3)),
        v: PlaneRamp::of(&setup.plane(4)),
    }
}

// Returns the colour channels of the triangle of a setup.
#[inline(always)]
fn color_ramps_with(setup: &AttributeSetup) -> ColorRamps
    ensures { (tri : Corners) → IsAttributeSetup tri setup.now → AreColorRamps tri result }
{
    ColorRamps {
        red: PlaneRamp::of(&setup.plane(0)),
        green: PlaneRamp::of(&setup.plane(1)),
        blue: PlaneRamp::of(&setup.plane(2)),
    }
}

// Returns a triangle's texel coordinates. `divisor` must be `tri.area_divisor()`.
#[inline(always)]
pub(crate) fn coord_ramps_of(tri: &Tri, divisor: &Divisor) -> CoordRamps
    requires divisor { divisor.now ≡ divisor_for tri.now }
    ensures { AreCoordRamps tri.now result }
{
    coord_ramps_with(&tri.attribute_setup(divisor))
}

// Returns the colour channels of a triangle. `divisor` must be `tri.area_divisor()`.
#[inline(always)]
pub(crate) fn color_ramps_of(tri: &Tri, divisor: &Divisor) -> ColorRamps
    requires divisor { divisor.now ≡ divisor_for tri.now }
    ensures { AreColorRamps tri.now result }
{
    color_ramps_with(&tri.attribute_setup(divisor))
}

// Returns all five attributes of a triangle. `divisor` must be `tri.area_divisor()`.
#[inline(always)]
pub(crate) fn attribute_ramps_of(tri: &Tri, divisor: &Divisor) -> AttributeRamps
    requires divisor { divisor.now ≡ divisor_for tri.now }
    ensures coord_ramps { AreCoordRamps tri.now result.coord_ramps }
    ensures colors { AreColorRamps tri.now result.colors }
{
    let setup = tri.attribute_setup(divisor);
    AttributeRamps {
        coord_ramps: coord_ramps_with(&setup),
        colors: color_ramps_with(&setup),
    }
}

impl CoordSource for CoordRamps {
    ghost places = { λ coord_ramps s. AreCoordRampsOf s.paint coord_ramps };

    #[inline(always)]
    fn coordinates(&self, chunk: &Chunk) -> Coordinates {
        let x = chunk.span.x + chunk.first;
        Coordinates {
            us: self.u.lanes(x, chunk.span.y),
            vs: self.v.lanes(x, chunk.span.y),
        }
    }
}

impl ColorSource for ColorRamps {
    ghost suits = { λ colors s. AreColorsOf s.paint colors };

    #[inline(always)]
    fn colors(&self, chunk: &Chunk) -> ColorLanes {
        let x = chunk.span.x + chunk.first;
        ColorLanes {
            red: self.red.lanes(x, chunk.span.y),
            green: self.green.lanes(x, chunk.span.y),
            blue: self.blue.lanes(x, chunk.span.y),
        }
    }
}

impl Sampler for CoordRamps {
    ghost finds = { λ coord_ramps s t. AreCoordRampsOf s.paint coord_ramps };

    #[inline(always)]
    fn read_texels<L: Ledger>(
        &self,
        vram: &Vram,
        texture: &Texture,
        chunk: &Chunk,
        steps: &mut Steps<L>,
    ) -> u16x16 {
        texels_by_coords(self, vram, texture, chunk, steps)
    }
}

impl IndexSampler for CoordRamps {
    ghost finds = { λ coord_ramps s t. AreCoordRampsOf s.paint coord_ramps };

    #[inline(always)]
    fn read_indexes<L: Ledger>(
        &self,
        vram: &Vram,
        texture: &Texture,
        chunk: &Chunk,
        steps: &mut Steps<L>,
    ) -> u8x16 {
        indexes_by_coords(self, vram, texture, chunk, steps)
    }
}
