// Calls of std's readers and writers, repeated if a signal interrupts them.
ghost use Rattle.std.specs.Prelude.{◌≡◌, ◌≢◌, ◌<◌, take, length, IfOk, IfErr, OnErr};
ghost use Rattle.std.specs.Io.{ReadsAtMost, WritesAtMost};
ghost use Rattle.std.specs.Io.KnownBytes.{Keeps, Appends, Consumes, IsAtEnd};
ghost use Rattle.std.specs.IoError.{error_kind};
ghost use Rattle.dev_io.specs.Calls.{Repeats, outcome_of};

use crate::attempt::{Reader, Writer};
use std::io::{Error, ErrorKind, Result};

/// The most attempts of one call. After as many interruptions in a row it returns an error, since each call must end.
const MOST: u64 = u64::MAX;

/// Reads once, and again after each interruption by a signal, as std's `read_exact` does. No error that it returns is
/// an interruption. On an error, nothing was read.
pub(crate) fn read_again<R: Reader>(reader: &mut R, buf: &mut [u8]) -> Result<usize>
    ensures bound { ReadsAtMost result buf.new }
    ensures bytes { IfOk result (λ n. Consumes (R.remaining reader.old) (R.remaining reader.new) (take n buf.new)) }
    ensures end { IfOk result (λ n. n ≡ 0 → 0 < length buf.old → IsAtEnd (R.remaining reader.new)) }
    ensures failed { OnErr result (Keeps (R.remaining reader.old) (R.remaining reader.new)) }
    ensures retried { IfErr result (λ error. error_kind error ≢ ErrorKind.Interrupted) }
    ensures calls { Repeats ErrorKind.Interrupted (R.calls reader.old) (R.calls reader.new)
        (outcome_of error_kind result) }
{
    for _interruptions in 0..MOST {
        match reader.attempt(buf) {
            Err(error) if error.kind() == ErrorKind::Interrupted => {}
            read => return read,
        }
    }
    Err(Error::from(ErrorKind::TimedOut))
}

/// Writes once, and again after each interruption by a signal, as std's `write_all` does. No error that it returns is
/// an interruption. On an error, nothing was appended.
pub(crate) fn write_again<W: Writer>(writer: &mut W, piece: &[u8]) -> Result<usize>
    ensures bound { WritesAtMost result piece.now }
    ensures bytes { IfOk result (λ n. Appends (W.contents writer.old) (W.contents writer.new) (take n piece.now)) }
    ensures failed { OnErr result (Keeps (W.contents writer.old) (W.contents writer.new)) }
    ensures retried { IfErr result (λ error. error_kind error ≢ ErrorKind.Interrupted) }
    ensures calls { Repeats ErrorKind.Interrupted (W.calls writer.old) (W.calls writer.new)
        (outcome_of error_kind result) }
{
    for _interruptions in 0..MOST {
        match writer.attempt(piece) {
            Err(error) if error.kind() == ErrorKind::Interrupted => {}
            written => return written,
        }
    }
    Err(Error::from(ErrorKind::TimedOut))
}
