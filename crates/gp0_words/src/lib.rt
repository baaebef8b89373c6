//! Cuts the stream of GP0 words (psx-spx, "GPU I/O Ports, DMA Channels, Commands, VRAM", port GP0) into items.
//!
//! A packet is the words of one command. A plain packet is one item; its first word decides its length, at most twelve
//! words. A load is three words, which are one item, then its data words, each an item. A polyline is its first two
//! vertices, which are one item, then joints, each an item, then an end word, which is an item. Nothing separates
//! packets in the stream: after the last word of a packet the next one begins.
#![tactic(auto)]

mod item;
mod kind;
pub mod laws;
mod next_word;
mod pending;
mod resuming;
mod size;
mod splitter;
mod words;

pub use item::Item;
pub use kind::{ends_polyline, first_len};
pub use pending::Pending;
pub use resuming::is_polyline;
pub use size::{height_of, width_of};
pub use splitter::Splitter;
pub use words::Words;
