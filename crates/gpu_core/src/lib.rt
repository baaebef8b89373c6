//! The GPU: words of GP0 and GP1, reads, and the status word.
//!
//! In contracts, a `Gpu` is the essential part of a state, which decides all later behaviour: video memory, the
//! registers, the open load and store, and what is pending of the GP0 words. A contract of a call is about every state
//! with this essential part, and about the state that the call leads to.
#![tactic(auto)]

mod gpu;
pub mod laws;
mod parts;

pub use gpu::{Gpu, NotedWords};
