// Figures: triangles and rectangles, row by row.

pub(crate) mod rectangle;
pub(crate) mod rows;
pub(crate) mod solid;
pub(crate) mod triangle;
