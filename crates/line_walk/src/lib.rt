//! Lines: which cells a segment draws, and the colour of each.
//!
//! The coordinates of vertices include the drawing offset. A segment takes one step per cell along its longer side.
//! Both of its ends belong to it.
#![tactic(auto)]

mod rise;
mod segment;
mod slope;
mod tones;
mod walk;

pub use segment::Segment;
pub use walk::Walk;
