// Reads a state into a machine.
ghost use Rattle.std.specs.Prelude.{◌≡◌, ◌≤◌, ◌==◌, IfOk, IfErr};
ghost use Rattle.dev_io.specs.Device.{Rose};
ghost use Rattle.gpu_capture.specs.Capture.{IsVersion};
ghost use Rattle.event_play.specs.RigState.{first_rig};
ghost use Rattle.snapshot_words.specs.Taking.{IsReadFault};
ghost use Rattle.gpu_snapshot.specs.Intake.{intake};
ghost use Rattle.gpu_snapshot.specs.Restored.{version_after, Restores, StopsInState};

use crate::memories::read_memories;
use crate::outline::put_outline;
use dev_io::Source;
use event_play::Rig;
use gpu_capture::EventReader;
use snapshot_words::{SnapFault, read_outline};
use std::sync::ledger::Ledger;
use vram_store::Steps;

/// The rows of a tall video memory.
const TALL_HEIGHT: u16 = 1024;

/// The byte offset of a state, after the magic number.
const FIRST_OFFSET: u32 = 8;

/// Returns the version of the records after a state with this height: 3 for 1024 rows, else 2.
fn version_after(height: u16) -> u8
    ensures value { result ≡ version_after height }
    ensures known { IsVersion result }
{
    if height == TALL_HEIGHT { 3 } else { 2 }
}

/// Reads a state into a new machine and returns the reader of the records after it.
pub(crate) fn restore<S: Source, L: Ledger>(
    rig: &mut Rig,
    source: &mut S,
    steps: &mut Steps<L>,
) -> Result<EventReader, SnapFault>
    requires new { rig.old ≡ first_rig }
    ensures restored { IfOk result (λ reader. Restores (intake (S.left source.old) steps.old)
        (intake (S.left source.new) steps.new) rig.new reader) }
    ensures fault { IfErr result (λ fault. StopsInState (intake (S.left source.old) steps.old)
        (intake (S.left source.new) steps.new) fault) }
    ensures cause { IfErr result (λ fault. IsReadFault fault → Rose (S.faults source.old) (S.faults source.new)) }
    ensures faults { S.faults source.old ≤ S.faults source.new }
{
    let mut offset = FIRST_OFFSET;
    let outline = match read_outline(source, &mut offset) {
        Ok(outline) => outline,
        Err(fault) => return Err(fault),
    };
    let version = version_after(outline.regs.height());
    put_outline(rig, outline);
    match read_memories(source, &mut offset, rig, steps) {
        Ok(()) => Ok(EventReader::at(version, offset)),
        Err(fault) => Err(fault),
    }
}
