// The first 8 bytes of a file.
ghost use Rattle.std.specs.Prelude.{◌≡◌, ◌≤◌, ◌<◌, IfOk, IfErr};
ghost use Rattle.dev_io.specs.Device.{Rose};
ghost use Rattle.gpu_capture.specs.Reader.{IsReadFault};
ghost use Rattle.gpu_snapshot.specs.Head.{file_head, IsFileHead, TakesHead, StopsInHead};

use dev_io::{Source, fill};
use gpu_capture::{Stop, head_among};

/// The known magic numbers: those of captures in the order of their versions, then that of a snapshot.
const HEADS: [[u8; 8]; 4] = [*b"PSXGPUC1", *b"PSXGPUC2", *b"PSXGPUC3", *b"PSXGPUS1"];

/// The kind of a file, by its magic number.
#[derive(Clone, Copy, Debug, PartialEq, Eq)]
pub enum FileHead {
    /// A capture of this version.
    Capture { version: u8 },
    /// A snapshot.
    Snapshot,
}

/// Returns the kind of a file by its first 8 bytes. If they are no known magic number, returns the index of the first
/// byte at which they no longer agree with any of them.
#[tactic(auto, unfolding(crate::specs::Head::file_head))]
fn file_head(bytes: &[u8; 8]) -> Result<FileHead, usize>
    ensures head { result ≡ file_head bytes.now }
    ensures bounds { IfOk result IsFileHead }
    ensures offset { IfErr result (λ offset. offset < 8) }
{
    match head_among(&HEADS, bytes) {
        Ok(3) => Ok(FileHead::Snapshot),
        Ok(number) => Ok(FileHead::Capture {
            version: number as u8 + 1,
        }),
        Err(offset) => Err(offset),
    }
}

/// Reads the magic number of a file, 8 bytes. If it is not known, returns `NotCapture` with the first byte that fits
/// none; if there are fewer bytes, `Truncated` or `ReadFault` with the offset of the first missing byte.
pub(crate) fn take_head<S: Source>(source: &mut S) -> Result<FileHead, Stop>
    ensures takes { IfOk result (λ head. TakesHead (S.left source.old) (S.left source.new) head) }
    ensures bounds { IfOk result IsFileHead }
    ensures stop { IfErr result (λ stop. StopsInHead (S.left source.old) (S.left source.new) stop) }
    ensures cause { IfErr result (λ stop. IsReadFault stop → Rose (S.faults source.old) (S.faults source.new)) }
    ensures faults { S.faults source.old ≤ S.faults source.new }
{
    let mut bytes = [0u8; 8];
    match fill(source, &mut bytes) {
        Ok(8) => match file_head(&bytes) {
            Ok(head) => Ok(head),
            Err(offset) => Err(Stop::NotCapture {
                byte: offset as u32,
            }),
        },
        Ok(n) => Err(Stop::Truncated { byte: n as u32 }),
        Err(n) => Err(Stop::ReadFault { byte: n as u32 }),
    }
}
