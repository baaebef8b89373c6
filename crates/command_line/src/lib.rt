//! The command that the arguments of the program name, and hints for a person whose arguments or input are refused.
#![tactic(auto)]

mod command;
mod hints;
mod spelled;
mod typed;

pub use command::{Command, read_command};
pub use hints::{NOT_UTF8, refusal_hint, usage_hint};
pub use typed::{Typed, names_binary, names_reader, typed_of};
