//! Main memory, and the clearing of an ordering table by DMA channel 6.
//!
//! Memory has 524,288 words. An address counts bytes. Only its bits of 1FFFFCh matter, so it always names an aligned
//! word, and memory repeats every 200000h.
#![tactic(auto)]

mod ram;

pub use ram::{MEMORY_WORDS, Ram, cut};
