//! Writes a capture without main memory and DMA. Words moved to the GPU become GP0 writes; words moved to main memory
//! become reads.
#![tactic(auto)]

mod allowed;
mod block;
mod count;
mod ending;
pub mod laws;
mod pass;
mod passage;
mod refusal;
mod spell;
mod whole;

pub use ending::FlatEnding;
pub use refusal::FlatRefusal;
pub use whole::flat;
