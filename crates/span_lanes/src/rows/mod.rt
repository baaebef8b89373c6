// Rows of cells, and what draws them.

pub(crate) mod by_coords;
pub(crate) mod by_ramps;
pub(crate) mod contiguous;
pub(crate) mod draw;
pub(crate) mod rectangle;
pub(crate) mod row_drawer;
pub(crate) mod span_drawer;
pub(crate) mod texel_rows;
pub(crate) mod triangle;
