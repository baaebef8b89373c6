//! Small numbers, vectors and the plain types that the other crates share.
//!
//! Coordinates increase to the right and downward. A row of video memory has 1024 cells. The number of rows, called
//! height, is 512 or 1024; formulas take it as a value.
#![tactic(auto)]

pub mod bytes;
mod error;
pub mod halves;
mod height;
pub mod lanes;
mod number;
mod shape;
mod word;

pub use error::OutOfMemory;
pub use height::{SHORT_HEIGHT, TALL_HEIGHT, height_of_profile};
pub use number::{floor_div, sign11, wrap_at, wrap_x, wrap_y};
pub use shape::{Box2, Cell, Strip, Vertex};
pub use word::{bit, bits};
