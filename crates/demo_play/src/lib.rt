//! The demo: a long list of packets that is generated from a number, played on a rig, and what they did.
#![tactic(auto)]

mod demo;
mod generator;
mod sum;

pub use demo::{play_demo, tell_demo};
