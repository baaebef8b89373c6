// Reads blocks of 512 words from a source.
ghost use Rattle.std.specs.Prelude.{◌≡◌, ◌<◌, ◌+◌, ◌*◌, ◌^◌, Some, drop, length, IfErr, OnOk};
ghost use Rattle.dev_io.specs.Device.{prepended};
ghost use Rattle.gpu_snapshot.specs.Memories.{HasCause, LacksWords};
ghost use Rattle.snapshot_words.specs.Taking.{IsWord};

use byteorder::{ByteOrder, LittleEndian};
use dev_io::{Source, fill};
use gpu_capture::Stop;
use snapshot_words::SnapFault;

/// Reads the next 512 words (2,048 bytes) into `block`, and no byte after them. `offset`: byte offset of the first,
/// below 2^31. If the source ends or fails, returns `Truncated` or `ReadFault` with the offset of the first missing
/// byte.
pub(crate) fn take_block<S: Source>(
    source: &mut S,
    offset: u32,
    block: &mut [u8; 2048],
) -> Result<(), SnapFault>
    requires { offset < 2 ^ 31 }
    ensures takes { OnOk result (S.left source.old ≡ prepended block.new (S.left source.new)) }
    ensures long { length block.new ≡ 2048 }
    ensures fault { IfErr result (λ fault. LacksWords (S.left source.old) (S.left source.new) offset 512 fault) }
    ensures cause { HasCause (S.faults source.old) (S.faults source.new) result }
{
    match fill(source, block) {
        Ok(2048) => Ok(()),
        Ok(n) => {
            let stop = Stop::Truncated {
                byte: offset + n as u32,
            };
            Err(SnapFault::Stop { stop })
        }
        Err(n) => {
            let stop = Stop::ReadFault {
                byte: offset + n as u32,
            };
            Err(SnapFault::Stop { stop })
        }
    }
}

/// Returns word `k` of a block, `k` below 512.
pub(crate) fn word_in(block: &[u8; 2048], k: usize) -> u32
    requires { k < 512 }
    ensures { IsWord (Some (drop (4 * k) block.now)) (Some (drop (4 * (k + 1)) block.now)) result }
{
    LittleEndian::read_u32(&block[4 * k..4 * k + 4])
}
