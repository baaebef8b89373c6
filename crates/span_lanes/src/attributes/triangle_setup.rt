// Textured triangles, set up for their rows.
ghost use Rattle.std.specs.Prelude.{◌≡◌};
ghost use Rattle.edge_walk.specs.Held.{divisor_for};
ghost use Rattle.span_lanes.specs.SpanDrawer.{IsShadingOf};
ghost use Rattle.span_lanes.specs.Attributes.TriangleSetup.{IsSetupFor};

use crate::attributes::shading::{Shading, triangle_shading};
use crate::attributes::tex_coords::{CoordPlanes, coord_planes_of};
use crate::{Brush, Texture};
use edge_walk::{Divisor, Tri};

// What all rows of a textured triangle share.
#[derive(Clone, Copy)]
pub(crate) struct TriangleSetup {
    pub(crate) tri: Tri,
    pub(crate) texture: Texture,
    pub(crate) brush: Brush,
    pub(crate) shading: Shading,
    pub(crate) coord_planes: CoordPlanes,
}

// Returns the setup of a textured triangle.
#[inline(always)]
pub(crate) fn triangle_setup_of(tri: &Tri, texture: &Texture, brush: &Brush) -> TriangleSetup
    ensures { IsSetupFor tri.now texture.now brush.now result }
{
    let divisor = tri.area_divisor();
    let shading = triangle_shading(tri, &divisor);
    triangle_setup_with(tri, texture, brush, shading, &divisor)
}

// As [`triangle_setup_of`], with known colours. `divisor` must be `tri.area_divisor()`.
#[inline(always)]
pub(crate) fn triangle_setup_with(
    tri: &Tri,
    texture: &Texture,
    brush: &Brush,
    shading: Shading,
    divisor: &Divisor,
) -> TriangleSetup
    requires shading { IsShadingOf tri.now shading }
    requires divisor { divisor.now ≡ divisor_for tri.now }
    ensures { IsSetupFor tri.now texture.now brush.now result }
{
    TriangleSetup {
        tri: *tri,
        texture: *texture,
        brush: *brush,
        shading,
        coord_planes: coord_planes_of(tri, divisor),
    }
}
