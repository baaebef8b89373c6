//! One loop over the events of a source. A trait says what happens at each event and what output it has. Loops of other
//! crates use only [`write_at_pause`], [`next_event`], [`end_after`] and the types of endings.
#![tactic(auto)]

mod ended;
mod pass;
mod passage;
mod pause;
mod stop;

pub use ended::{AsEnded, Ended, Halt};
pub use pass::pass_all;
pub use passage::Passage;
pub use pause::{next_event, write_at_pause};
pub use stop::end_after;
