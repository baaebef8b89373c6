//! Sources and sinks of bytes.
//!
//! A source has a list of bytes left, a sink a list of bytes held. Each has a count of faults, which never falls and
//! stops at 2^64 - 1. Contracts know the bytes of the sources and sinks in memory. They do not know those of the
//! adapters over std's readers and writers, which the proofs trust.
#![tactic(auto)]

mod attempt;
mod buffer;
mod cut_source;
mod device;
mod edge;
mod fail_sink;
mod mem_sink;
mod mem_source;
mod pieces;
mod retry;

pub use attempt::{Reader, Writer};
pub use buffer::fill;
pub use cut_source::CutSource;
pub use device::{Failed, Sink, Source};
pub use edge::{ReadEdge, WriteEdge};
pub use fail_sink::FailSink;
pub use mem_sink::MemSink;
pub use mem_source::MemSource;
pub use pieces::{write_all, write_pieces};
