//! Plays events, and captures of them.
#![tactic(auto)]

mod block;
mod ending;
mod fault;
mod feed;
mod film;
mod finals;
pub mod laws;
mod operation;
mod outlet;
mod record_words;
mod rig;
mod stop;
mod validate;
mod words;

pub use block::Block;
pub use ending::{Ending, FrameTrigger, Mode, PlayRefusal};
pub use fault::EventFault;
pub use finals::write_report;
pub use operation::{Operation, Words};
pub use rig::{Rig, TALL_VERSION};
pub use words::WordCursor;
