// Runs and their outcomes.
use crate::tests::{LINES, status_over};
use dev_io::{FailSink, MemSink, MemSource, Source};
use std::alloc::Global;
use std::test::Fail;

/// The outcome of a run.
#[derive(Drop)]
pub(crate) struct Outcome {
    pub(crate) status: u8,
    pub(crate) out: MemSink,
    pub(crate) err: MemSink,
}

impl Outcome {
    /// Whether it ended with this status, and wrote these bytes to `out` and to `err`.
    pub(crate) fn is(&self, status: u8, out: &[u8], err: &[u8]) -> bool {
        self.status == status && self.out.bytes() == out && self.err.bytes() == err
    }
}

/// Runs a command without taps over a source. `room`: the capacity in bytes of `out`.
pub(crate) fn ran<S: Source>(
    alloc: Global,
    words: &str,
    source: &mut S,
    room: usize,
) -> Result<Outcome, Fail> {
    let mut out = MemSink::new(alloc, room)?;
    let mut err = MemSink::new(alloc, LINES)?;
    let status = status_over(alloc, words, source, &mut out, &mut err)?;
    Ok(Outcome { status, out, err })
}

/// Whether a run whose write of the byte at this offset fails has written the bytes before it, and names the event to
/// which that byte belongs.
pub(crate) fn is_refused_at(
    alloc: Global,
    words: &str,
    bytes: Vec<u8>,
    want: &[u8],
    offset: usize,
    event: u64,
) -> Result<bool, Fail> {
    let mut source = MemSource::new(bytes);
    let mut out = FailSink::new(alloc, LINES, 1, [offset as u64].to_vec(alloc)?)?;
    let mut err = MemSink::new(alloc, LINES)?;
    let status = status_over(alloc, words, &mut source, &mut out, &mut err)?;
    let line = format!(in alloc; "psxgpu: write-fault at event {event}\n")?;
    Ok(
        status == 4
            && out.bytes().len() == offset
            && want.starts_with(out.bytes())
            && err.bytes() == line.as_bytes(),
    )
}
