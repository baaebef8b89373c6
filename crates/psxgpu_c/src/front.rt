// Writes values to the start of a caller's buffer.
ghost use Rattle.psxgpu_c.specs.Codes.{code_of};
ghost use Rattle.std.specs.Prelude.{◌≡◌, ◌≤◌, length};
ghost use Rattle.psxgpu_c.specs.Shown.{Puts, PutsIfRoom, StandsInFront, count_of};

use crate::ended::code_for;
use crate::refusal::Refusal;

/// Writes `bytes` to the start of `out` and returns their number. If `out` is shorter, writes nothing and returns
/// `NoRoom`.
pub(crate) fn put_front(out: &mut [u8], bytes: &[u8]) -> Result<usize, Refusal>
    ensures { Puts bytes.now out.old out.new result }
{
    if bytes.len() > out.len() {
        return Err(Refusal::NoRoom);
    }
    put_all(out, bytes);
    Ok(bytes.len())
}

/// Writes `bytes` to the start of `out`, which must be long enough.
pub(crate) fn put_all(out: &mut [u8], bytes: &[u8])
    requires { length bytes.now ≤ length out.old }
    ensures { StandsInFront bytes.now out.old out.new }
{
    out[..bytes.len()].copy_from_slice(bytes);
}

/// Writes `words` to the start of `out` and returns their number. If `out` is shorter, writes nothing and returns
/// `NoRoom`.
pub(crate) fn put_words(out: &mut [u32], words: &[u32]) -> Result<usize, Refusal>
    ensures { PutsIfRoom words.now out.old out.new result }
{
    let n = words.len();
    if n > out.len() {
        return Err(Refusal::NoRoom);
    }
    out[..n].copy_from_slice(words);
    Ok(n)
}

/// Returns 0, or the code of a refusal.
pub(crate) fn code_of(answer: Result<usize, Refusal>) -> u32
    ensures { result ≡ code_of answer }
{
    match answer {
        Ok(_) => 0,
        Err(why) => code_for(why),
    }
}

/// Sets `written` to the number of values, or to 0 after a refusal. Returns 0, or the refusal's code.
pub(crate) fn tell(answer: Result<usize, Refusal>, written: &mut usize) -> u32
    ensures code { result ≡ code_of answer }
    ensures count { written.new ≡ count_of answer }
{
    match answer {
        Ok(count) => {
            *written = count;
            0
        }
        Err(why) => {
            *written = 0;
            code_for(why)
        }
    }
}
