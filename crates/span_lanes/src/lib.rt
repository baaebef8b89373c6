//! Triangles and rectangles, drawn row by row, up to sixteen cells at a time.
//!
//! [`draw_triangle`] draws the cells of a box that are inside a triangle. [`draw_flat_rectangle`] and
//! [`TexelRows::draw`] draw all cells of a clip rectangle. They choose how. [`draw_span`] draws one row.
//!
//! A span is one or more consecutive cells of a row, drawn from left to right. Every pixel reads video memory as it is
//! when that pixel is drawn (our own rule). It reads its own cell if it is blended or tested, its texel, and the
//! CLUT entry of the texel.
//!
//! A span is cut from its left into chunks of sixteen cells; the last may be shorter. A chunk has a hazard if one of
//! its cells is in the CLUT, or contains the texel of a later cell of the chunk. A chunk without a hazard is read as
//! a whole and stored at once. Other chunks are drawn cell after cell. So the result always equals that of drawing one
//! cell after another.
//!
//! Pixels are opaque if they are neither blended nor tested, and the mask setting does not force their bit 15.
#![tactic(auto)]

mod attributes;
mod chunks;
mod clut;
mod figures;
mod hazard;
pub mod laws;
mod rows;
mod span;
mod texels;

pub use figures::rectangle::draw_flat_rectangle;
pub use figures::triangle::{TrianglePaint, TriangleState, draw_triangle};
pub use rows::span_drawer::draw_span;
pub use rows::texel_rows::{TexelRows, row_u};
pub use span::{Brush, ClipRect, DrawState, Paint, Span};
pub use texel_lanes::Texture;
