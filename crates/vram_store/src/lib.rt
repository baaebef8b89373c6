//! Video memory: access to one cell, to up to sixteen or to a run of a row at a time, and a count of every access.
//!
//! A cell is a halfword (psx-spx, "GPU Video Memory (VRAM)"). It has red in bits 0 to 4, green in 5 to 9, blue in 10
//! to 14, and the mask bit in 15. Cell (x, y) has index `1024 * y + x`.
//!
//! A store step is one call of `get`, `put`, `load16` or `store16`, or one of the `n` cells that `gather` or
//! `gather_in_row` returns. `copy_run` costs a load and a store for every sixteen cells begun. No other call reads or
//! writes a single cell; `new` and `set_tall` create cells of 0.
#![tactic(auto)]

mod firsts;
mod gather;
pub mod laws;
pub mod mask;
mod runs;
mod steps;
mod vram;
mod whole;

pub use steps::Steps;
pub use vram::Vram;
