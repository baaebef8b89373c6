// Colours and texture coordinates along a row.

pub(crate) mod color_lanes;
pub(crate) mod ramps;
pub(crate) mod shading;
pub(crate) mod tex_coords;
pub(crate) mod triangle_setup;
