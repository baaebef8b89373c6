// The trusted adapters: std's readers and writers as a source and a sink. Contracts do not know their bytes.
ghost use Rattle.std.specs.Prelude.{◌≡◌, ◌≤◌, ◌<◌, ◌+◌, ◌-◌, None, length, min, IfOk, IsOkAnd, OnErr};
ghost use Rattle.std_io.specs.declared.io.kind.ErrorKind.TheVariants.{Interrupted};
ghost use Rattle.dev_io.specs.Calls.{CallsAgain, IsRead, IsSame, IsWritten};
ghost use Rattle.dev_io.specs.Device.{Rose, Gives, Accepts};

use crate::attempt::{Reader, Writer};
use crate::device::{Failed, Sink, Source};
use crate::retry::{read_again, write_again};

/// Adapts a reader of std to a source. It has a buffer of 4,096 bytes and calls the reader only if the buffer is empty.
/// Every error of the reader is a fault, except an interruption by a signal: the read is repeated.
#[derive(Drop)]
pub struct ReadEdge<R: Reader> {
    reader: R,
    buffer: [u8; 4096],
    start: usize,
    end: usize,
    faults: u64,
    ghost ordered: { start ≤ end },
    ghost in_buffer: { end ≤ 4096 },
}

impl<R: Reader> ReadEdge<R> {
    /// Returns a source over `reader`, without faults.
    pub fn new(reader: R) -> Self
        ensures { ⟦<ReadEdge<R> as Source>⟧.faults result ≡ 0 }
    {
        ReadEdge {
            reader,
            buffer: [0; 4096],
            start: 0,
            end: 0,
            faults: 0,
        }
    }

    // Replaces the buffer by what the reader returns next, and returns the number of its bytes. Counts a fault.
    fn refill(&mut self) -> Result<usize, Failed>
        ensures calls { CallsAgain Interrupted (R.calls self.old.reader) (R.calls self.new.reader)
            IsSame result }
        ensures count { IfOk result (λ n. self.new.end ≡ self.new.start + n) }
        ensures cause { OnErr result (Rose self.old.faults self.new.faults) }
        ensures faults { self.old.faults ≤ self.new.faults }
    {
        match read_again(&mut self.reader, &mut self.buffer) {
            Ok(n) => {
                self.start = 0;
                self.end = n;
                Ok(n)
            }
            Err(_) => {
                self.faults = self.faults.saturating_add(1);
                Err(Failed)
            }
        }
    }

    // Moves bytes of the buffer to the start of `buf`, as many as it can hold, and returns their number.
    fn give(&mut self, buf: &mut [u8]) -> usize
        ensures count { result ≡ min (length buf.old) (self.old.end - self.old.start) }
        ensures long { length buf.new ≡ length buf.old }
        ensures reader { self.new.reader ≡ self.old.reader }
        ensures faults { self.new.faults ≡ self.old.faults }
    {
        let n = buf.len().min(self.end - self.start);
        buf[..n].copy_from_slice(&self.buffer[self.start..self.start + n]);
        self.start += n;
        n
    }
}

impl<R: Reader> Source for ReadEdge<R> {
    ghost left = { λ _. None };

    ghost faults = { λ edge. edge.faults };

    // the bytes in the buffer
    ghost at_hand = { λ edge. edge.end - edge.start };

    fn read(&mut self, buf: &mut [u8]) -> Result<usize, Failed>
        requires { 0 < length buf.old }
        ensures ok { IfOk result (λ n. Gives None None buf.new n) }
        ensures cause { OnErr result (Rose self.old.faults self.new.faults) }
        ensures faults { self.old.faults ≤ self.new.faults }

        // The reader is called only if the buffer is empty, and again after each interruption by a signal.
        ensures buffered { self.old.start < self.old.end → R.calls self.new.reader ≡ R.calls self.old.reader }
        ensures given { self.old.start < self.old.end →
            IsOkAnd result (λ n. n ≡ min (length buf.old) (self.old.end - self.old.start)) }
        ensures called { self.old.start ≡ self.old.end → CallsAgain Interrupted (R.calls self.old.reader)
            (R.calls self.new.reader) (IsRead (length buf.old)) result }
    {
        if self.start < self.end {
            return Ok(self.give(buf));
        }
        self.refill()?;
        Ok(self.give(buf))
    }

    fn ready(&self) -> usize {
        self.end - self.start
    }
}

/// Adapts a writer of std to a sink. Every error of the writer is a fault, and so is a write of 0 bytes of a nonempty
/// piece. A write that a signal interrupts is no fault: it is repeated.
#[derive(Drop)]
pub struct WriteEdge<W: Writer> {
    writer: W,
    faults: u64,
}

impl<W: Writer> WriteEdge<W> {
    /// Returns a sink over `writer`, without faults.
    pub fn new(writer: W) -> Self
        ensures { ⟦<WriteEdge<W> as Sink>⟧.faults result ≡ 0 }
    {
        WriteEdge { writer, faults: 0 }
    }
}

impl<W: Writer> Sink for WriteEdge<W> {
    ghost held = { λ _. None };

    ghost faults = { λ edge. edge.faults };

    fn write(&mut self, piece: &[u8]) -> Result<usize, Failed>
        ensures ok { IfOk result (λ n. Accepts None None piece.now n) }
        ensures cause { OnErr result (Rose self.old.faults self.new.faults) }
        ensures faults { self.old.faults ≤ self.new.faults }

        // The writer is called, and again after each interruption by a signal.
        ensures called { CallsAgain Interrupted (W.calls self.old.writer) (W.calls self.new.writer)
            (IsWritten (length piece.now)) result }
    {
        match write_again(&mut self.writer, piece) {
            Ok(n) if n > 0 || piece.is_empty() => Ok(n),
            _ => {
                self.faults = self.faults.saturating_add(1);
                Err(Failed)
            }
        }
    }
}
