//! Writes captures without dead drawing: packets that draw nothing, or whose cells a later fill overwrites before
//! anything reads them.
#![tactic(auto)]

mod effect;
mod ending;
pub mod laws;
mod pass;
mod queue;
mod record;
mod rest;
mod settling;
mod slim;
mod slot;
mod slots;
mod track;
mod waiting;

pub use ending::{SlimEnding, SlimRefusal};
pub use pass::Slim;
