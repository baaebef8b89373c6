//! Hazards: whether a chunk reads a cell that it writes itself.
//!
//! A chunk is 1 to 16 cells of one row that are drawn or copied from left to right. Its lane `i` writes the cell `i`
//! columns to the right of its first cell. Every pixel reads video memory as it is when that pixel is drawn (our own
//! rule). So all lanes may be read before the first is written exactly if no lane reads a cell that an earlier lane
//! writes.
//!
//! The functions of this crate decide this. They compare positions and access no video memory.
#![tactic(auto)]

mod copy;
mod lanes;
pub mod laws;
mod texture;

pub use copy::copy_hazard;
pub use lanes::lanes_hazard;
pub use texture::{clut_hazard, texture_hazard};
