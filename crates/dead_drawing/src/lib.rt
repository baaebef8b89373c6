//! Drawing that is never seen: which packets of a list of events are dead, and that leaving them out shows the same.
#![tactic(auto)]

pub mod laws;
