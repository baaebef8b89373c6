//! Fills, copies, loads and stores of rectangles of video memory.
//!
//! Pixels are processed from left to right in each row, and rows from the top. A rectangle that passes the edge of
//! video memory continues at the other side: X wraps at 1024 and Y at the height, with no carry between them
//! (psx-spx, "GPU Memory Transfer Commands"). The contracts count the store steps, which are accesses to video
//! memory. Fills and copies process sixteen cells at a time, or a whole piece of a row. A copy keeps the order of its
//! pixels if the result depends on it.
#![tactic(auto)]

mod cells;
mod chunks;
mod copies;
mod cursor;
mod fills;
pub mod laws;
mod loads;
mod moves;
mod place;
mod plots;
mod transfer;

pub use copies::copy;
pub use cursor::Cursor;
pub use fills::fill;
pub use transfer::{Transfer, load_word, load_words, store_word};
