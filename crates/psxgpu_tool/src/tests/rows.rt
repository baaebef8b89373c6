// Test cases as rows of a table.
use crate::tests::LINES;
use crate::tests::capture::{bytewise, capture};
use crate::tests::runs::ran;
use dev_io::MemSource;
use std::alloc::Global;
use std::io;
use std::test::Fail;

/// `COMMAND < RECORDS | LINES`, with slashes between the lines. For a failure, a second bar follows, the exit status
/// and the lines of `err`.
#[derive(Clone, Copy)]
pub(crate) struct Row<'a> {
    pub(crate) words: &'a str,
    pub(crate) records: &'a str,
    pub(crate) out: &'a str,
    pub(crate) status: u8,
    pub(crate) err: &'a str,
}

/// Parses a row.
pub(crate) fn row_of(text: &str) -> Option<Row<'_>> {
    let (words, after) = text.split_once('<')?;
    let (records, lines) = after.split_once('|')?;
    let (out, fault) = lines.split_once('|').unwrap_or((lines, "0 "));
    let (status, err) = fault.trim_start().split_once(' ')?;
    Some(Row {
        words,
        records,
        out,
        status: status.parse().ok()?,
        err,
    })
}

/// Returns the bytes of lines with slashes between them.
pub(crate) fn lines_of(alloc: Global, text: &str) -> io::Result<Vec<u8>> {
    let mut bytes = Vec::new(alloc);
    for line in text.split('/') {
        let line = line.trim();
        if !line.is_empty() {
            bytes.extend_from_slice(line.as_bytes())?;
            bytes.push(b'\n')?;
        }
    }
    Ok(bytes)
}

/// Whether a row holds with this magic number, with the whole capture at once and with one byte per call.
pub(crate) fn holds(alloc: Global, head: &[u8], row: &str) -> Result<bool, Fail> {
    let row = row_of(row).ok_or("no row")?;
    let bytes = capture(alloc, head, row.records)?;
    let out = lines_of(alloc, row.out)?;
    let err = lines_of(alloc, row.err)?;
    let mut pieces = bytewise(alloc, &bytes, &[])?;
    let slow = ran(alloc, row.words, &mut pieces, LINES)?;
    let mut source = MemSource::new(bytes);
    let whole = ran(alloc, row.words, &mut source, LINES)?;
    Ok(slow.is(row.status, &out, &err) && whole.is(row.status, &out, &err))
}
