//! Primitives: triangles, quads, rectangles and segments, drawn into video memory.
//!
//! The pixels of a primitive are drawn one after another. Triangles and rectangles are drawn row by row from the top,
//! and each row from left to right. A quad is two triangles, one after the other. The points of a segment are drawn in
//! their order. Every pixel reads video memory as it is when that pixel is drawn (our own rule). This also holds if the
//! primitive samples what it has drawn itself.
#![tactic(auto)]

mod boxes;
pub mod laws;
mod lines;
mod primitives;
mod rectangles;
mod settings;
mod triangles;

pub use boxes::area_of;
pub use primitives::draw;
