//! The registers of the GPU: the drawing environment, the display, the latch, and the status word.
//!
//! In contracts, a `Regs` is the record of its values. A register with a Y coordinate is as wide as the height of video
//! memory requires, 512 or 1024 rows.
#![tactic(auto)]

pub mod laws;
mod regs;

pub use regs::{Flips, Offset, Regs, allows, clears};
