//! Taps: observers of the notes of a run. Each records numbers of its kind (this project's own rule).
//!
//! A note is the message that taps receive when a GP0 item has taken effect. Kind 0 counts the notes of each class,
//! kind 1 records the last 64 notes, and kind 2 measures the areas. Numbers stop at 2^64 - 1.
#![tactic(auto)]

mod counts;
mod cover;
mod listener;
mod noted;
mod tap;
mod trace;

pub use counts::Counts;
pub use cover::Cover;
pub use listener::{Listener, tell_all, tell_all_bare};
pub use tap::{Tap, bare_note};
pub use trace::Trace;
