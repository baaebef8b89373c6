// Reads a state without its memories, part by part.
ghost use Rattle.std.specs.Prelude.{◌≤◌, ◌<◌, ◌+◌, ◌^◌, IfOk, IfErr};
ghost use Rattle.dev_io.specs.Device.{Rose};
ghost use Rattle.snapshot_words.specs.Outline.{IsOutline};
ghost use Rattle.snapshot_words.specs.Reading.{outline_from};
ghost use Rattle.snapshot_words.specs.Taking.{TakesOutline, Stops, IsReadFault};

use crate::fault::SnapFault;
use crate::outline::Outline;
use crate::parts::{read_front, read_pending, read_registers, read_run, read_store};
use dev_io::Source;

/// Reads a state without its memories. `offset` is the byte offset of its first word, below 2^29. On success it is then
/// the offset after the state.
///
/// Reads no byte after the state. Refuses a word that is not allowed at its offset as soon as it is read.
pub fn read_outline<S: Source>(source: &mut S, offset: &mut u32) -> Result<Outline, SnapFault>
    requires { offset.old < 2 ^ 29 }
    // The bytes read are its encoding, and it is within the bounds.
    ensures takes { IfOk result (λ outline.
        TakesOutline (S.left source.old) (S.left source.new) offset.old offset.new outline) }
    ensures bounds { IfOk result IsOutline }
    ensures near { offset.new ≤ offset.old + 260 }

    // The reason of a refusal is that of the bytes read. It is a failure of the source only if the source failed.
    ensures fault { IfErr result (λ fault.
        Stops (outline_from offset.old) (S.left source.old) (S.left source.new) fault) }
    ensures cause { IfErr result (λ fault. IsReadFault fault → Rose (S.faults source.old) (S.faults source.new)) }
    ensures faults { S.faults source.old ≤ S.faults source.new }
{
    let (height, played) = read_front(source, offset)?;
    let regs = read_registers(source, offset, height)?;
    let (pending, load) = read_pending(source, offset, height)?;
    let store = read_store(source, offset, height)?;
    let run = read_run(source, offset)?;
    Ok(Outline {
        played,
        regs,
        pending,
        load,
        store,
        run,
    })
}
