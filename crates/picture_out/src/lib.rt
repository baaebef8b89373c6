//! Video memory as output: the dump of all cells, the shown picture as PPM, and the SHA-256 of each.
#![tactic(auto)]

mod colors;
mod dump;
mod picture;
mod rows;
mod sums;

pub use dump::write_vram;
pub use picture::{shape, write_ppm};
pub use sums::{picture_sum, vram_sum};
