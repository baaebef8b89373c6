// Fills a buffer from a source.
ghost use Rattle.std.specs.Prelude.{◌≡◌, ◌≤◌, ◌<◌, length, IfOk, IfErr, OnErr, MatchOption, unwrap_or};
ghost use Rattle.dev_io.specs.Device.{Rose, Gives, IsAtEnd};

use crate::device::{Failed, Source};

/// Reads until `buf` is full or the source is at its end, and returns the number of bytes as `Ok`. If the source fails,
/// returns the number of bytes read before as `Err`; it is less than the length of `buf`.
pub fn fill<S: Source>(source: &mut S, buf: &mut [u8]) -> Result<usize, usize>
    ensures ok { IfOk result (λ n. Gives (S.left source.old) (S.left source.new) buf.new n) }
    ensures ended { IfOk result (λ n. n < length buf.new → IsAtEnd (S.left source.new)) }
    ensures failed { IfErr result (λ n. Gives (S.left source.old) (S.left source.new) buf.new n) }
    ensures part { IfErr result (λ n. n < length buf.new) }
    ensures cause { OnErr result (Rose (S.faults source.old) (S.faults source.new)) }
    ensures faults { S.faults source.old ≤ S.faults source.new }
{
    let mut n = 0;
    while n < buf.len() {
        let Ok(taken) = take_some(source, &mut buf[n..]) else {
            return Err(n);
        };
        let Some(more) = taken else {
            return Ok(n);
        };
        n += more;
    }
    Ok(n)
}

/// One turn of a loop over a source. Returns the number of bytes read, at least 1, or `None` at the end of the source.
fn take_some<S: Source>(source: &mut S, rest: &mut [u8]) -> Result<Option<usize>, Failed>
    requires { 0 < length rest.old }
    ensures some { IfOk result (λ taken. MatchOption taken (IsAtEnd (S.left source.new)) (λ n. 0 < n)) }
    ensures ok { IfOk result (λ taken. Gives (S.left source.old) (S.left source.new) rest.new (unwrap_or taken 0)) }
    ensures failed { OnErr result (S.left source.new ≡ S.left source.old) }
    ensures cause { OnErr result (Rose (S.faults source.old) (S.faults source.new)) }
    ensures faults { S.faults source.old ≤ S.faults source.new }
{
    match source.read(rest)? {
        0 => Ok(None),
        n => Ok(Some(n)),
    }
}
