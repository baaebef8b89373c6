//! Buffered output, so that the sink is called once for many pieces.
//!
//! A piece is an output chunk: a line or a record with the number of its event, or a part of one. If a write fails,
//! the error is the event number of the first incomplete piece, however many pieces were written together.
#![tactic(auto)]

mod counted;
mod extent;
mod output_buffer;

pub use output_buffer::OutputBuffer;
