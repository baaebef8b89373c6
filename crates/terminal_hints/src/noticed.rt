// A reader and a writer that record what explains a failed run to a person.
ghost use Rattle.std.specs.Prelude.{◌≡◌, ◌≤◌, ◌++◌, [], List, ℕ, None, Some, length, take, IfOk, MatchResult, OnOk};
ghost use Rattle.std.specs.Io.{ReadsAtMost, WritesAtMost};
ghost use Rattle.std.specs.Io.KnownBytes.{Keeps, ReadConsumes, WriteAppends};
ghost use Rattle.std.specs.IoError.{raw_os_error};

use std::io;
use std::io::{Read, Write};

/// The number of first bytes that are recorded.
pub const KEPT: usize = 12;

/// A reader that records its first `KEPT` bytes and the error of its last call.
#[derive(Drop)]
pub struct NoticedReader<R: Read> {
    reader: R,
    first: [u8; KEPT],
    len: usize,
    error: Option<i32>,
    ghost few: { len ≤ 12 },
}

impl<R: Read> NoticedReader<R> {
    pub fn new(reader: R) -> Self
        ensures first { take result.len result.first ≡ [] }
        ensures error { result.error ≡ None }
    {
        NoticedReader {
            reader,
            first: [0; KEPT],
            len: 0,
            error: None,
        }
    }

    /// Returns the recorded first bytes.
    pub fn first(&self) -> &[u8]
        ensures { result.now ≡ take self.now.len self.now.first }
    {
        &self.first[..self.len]
    }

    /// Returns the operating system's number of the last call's error; None after a call that succeeded.
    pub fn error(&self) -> Option<i32>
        ensures { result ≡ self.now.error }
    {
        self.error
    }

    // Records bytes until there are `KEPT`.
    fn keep(&mut self, came: &[u8])
        ensures first { take self.new.len self.new.first ≡ take 12 (take self.old.len self.old.first ++ came.now) }
        ensures reader { self.new.reader ≡ self.old.reader }
    {
        let n = came.len().min(KEPT - self.len);
        let to = self.len + n;
        self.first[self.len..to].copy_from_slice(&came[..n]);
        self.len = to;
    }
}

impl<R: Read> Read for NoticedReader<R> {
    ghost remaining = { λ noticed. R.remaining noticed.reader };

    fn read(&mut self, buf: &mut [u8]) -> io::Result<usize>
        ensures bound { ReadsAtMost result buf.new }
        ensures bytes { ReadConsumes (R.remaining self.old.reader) (R.remaining self.new.reader) result buf.new }
        ensures first { IfOk result (λ n. take self.new.len self.new.first
            ≡ take 12 (take self.old.len self.old.first ++ take n buf.new)) }
        ensures error { MatchResult result (λ _. self.new.error ≡ None) (λ error. self.new.error ≡ raw_os_error error) }
    {
        match self.reader.read(buf) {
            Ok(n) => {
                self.keep(&buf[..n]);
                self.error = None;
                Ok(n)
            }
            Err(error) => {
                self.error = error.raw_os_error();
                Err(error)
            }
        }
    }
}

/// A writer that records the error of its last call of `write`.
#[derive(Drop)]
pub struct NoticedWriter<W: Write> {
    writer: W,
    error: Option<i32>,
}

impl<W: Write> NoticedWriter<W> {
    pub fn new(writer: W) -> Self
        ensures { result.error ≡ None }
    {
        NoticedWriter {
            writer,
            error: None,
        }
    }

    /// Returns the operating system's number of the last call's error; None after a call that succeeded.
    pub fn error(&self) -> Option<i32>
        ensures { result ≡ self.now.error }
    {
        self.error
    }
}

impl<W: Write> Write for NoticedWriter<W> {
    ghost contents = { λ noticed. W.contents noticed.writer };

    fn write(&mut self, buf: &[u8]) -> io::Result<usize>
        ensures bound { WritesAtMost result buf.now }
        ensures bytes { WriteAppends (W.contents self.old.writer) (W.contents self.new.writer) result buf.now }
        ensures error { MatchResult result (λ _. self.new.error ≡ None) (λ error. self.new.error ≡ raw_os_error error) }
    {
        match self.writer.write(buf) {
            Ok(n) => {
                self.error = None;
                Ok(n)
            }
            Err(error) => {
                self.error = error.raw_os_error();
                Err(error)
            }
        }
    }

    fn flush(&mut self) -> io::Result<()> {
        self.writer.flush()
    }
}

/// The maximum size in bytes of the lines and last items of a run.
const MOST: usize = 4096;

/// Buffers the lines of a run until it has ended, up to 4,096 bytes.
#[derive(Drop)]
pub struct Lines {
    bytes: [u8; MOST],
    len: usize,
    ghost few: { len ≤ 4096 },
}

impl Lines {
    pub fn new() -> Lines
        ensures { take result.len result.bytes ≡ [] }
    {
        Lines {
            bytes: [0; MOST],
            len: 0,
        }
    }

    /// Returns what was written.
    pub fn as_slice(&self) -> &[u8]
        ensures { result.now ≡ take self.now.len self.now.bytes }
    {
        &self.bytes[..self.len]
    }
}

impl Write for Lines {
    ghost contents = { λ lines. Some (take lines.len lines.bytes) };

    fn write(&mut self, buf: &[u8]) -> io::Result<usize> {
        let n = buf.len().min(MOST - self.len);
        let to = self.len + n;
        self.bytes[self.len..to].copy_from_slice(&buf[..n]);
        self.len = to;
        Ok(n)
    }

    fn flush(&mut self) -> io::Result<()> {
        Ok(())
    }
}
