//! Cuts a capture after its first events: writes the state after them and the records of the others.
#![tactic(auto)]

mod bounds;
mod ending;
mod first;
mod memory;
mod record;
mod rest;
mod state;
mod whole;

pub use bounds::keep_bounds;
pub use ending::{CutEnding, CutRefusal};
pub use state::{state_size, write_state};
pub use whole::cut;
