//! Captures: reads the events of a recording from any source, whatever number of bytes each read returns, and writes
//! them.
//!
//! A capture begins with the 8 bytes `PSXGPUC1`, `PSXGPUC2` or `PSXGPUC3`, for versions 1 to 3. Little-endian words
//! follow, in records. A record begins with a tag: kind in bits 24 to 31, count in bits 0 to 23. `docs/CAPTURE.md`
//! describes the whole format.
#![tactic(auto)]

mod block;
mod draft;
mod event;
mod head;
pub mod laws;
mod open_words;
mod progress;
mod reader;
mod record;
mod tags;
mod write;

pub use block::WordBlock;
pub use draft::{CaptureFile, Draft, WITH_HEAD_MOST};
pub use event::{Event, Stop};
pub use head::head_among;
pub use progress::{LIMIT, Progress};
pub use reader::EventReader;
pub use record::Expected;
pub use write::{
    RECORD_MOST, head_bytes, record_bytes, word_record, write_end, write_event, write_start,
};
