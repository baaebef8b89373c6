//! The table of a snapshot: the state of the machine as words, and which words are allowed at each position.
#![tactic(auto)]

mod bytes;
mod fault;
pub mod laws;
mod needs;
mod outline;
mod parts;
mod read;
mod section;
mod taking;
mod values;
mod write;

pub use fault::SnapFault;
pub use outline::Outline;
pub use read::read_outline;
pub use taking::take_word;
pub use write::{SNAPSHOT_HEAD, write_head, write_outline};
