//! What a person at a terminal is told, and the reader and the writers that record what explains a failed run.
#![tactic(auto)]

mod lasts;
mod noticed;
mod person;

pub use noticed::{Lines, NoticedReader, NoticedWriter};
pub use person::{Outcome, Person, is_file};
