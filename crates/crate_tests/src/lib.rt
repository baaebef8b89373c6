//! Tests of the public items of the other crates.
//!
//! They are not in the crates that they test: a build with tests proves its whole crate again, and the crates below
//! this one are proved already. Tests of whole commands are in `psxgpu_tool`.
#![tactic(auto)]

#[cfg(test)]
mod tests;
