//! Opens and plays captures and snapshots of a machine. Re-exports what cuts a capture into a snapshot from
//! `capture_cut`, and the error of opening from `snapshot_words`.
#![tactic(auto)]

mod block;
mod cells;
mod ending;
mod head;
pub mod laws;
mod memories;
mod memory;
mod opening;
mod outline;
mod play;
mod profile;
mod restore;

pub use capture_cut::{CutEnding, cut};
pub use ending::AnyEnding;
pub use head::FileHead;
pub use opening::open;
pub use play::play_any;
pub use snapshot_words::SnapFault;
