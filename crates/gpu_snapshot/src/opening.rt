// Opens a capture or a snapshot.
ghost use Rattle.std.specs.Prelude.{◌≡◌, ◌≤◌, ◌⊎◌, IfOk, IfErr};
ghost use Rattle.dev_io.specs.Device.{Rose};
ghost use Rattle.event_play.specs.RigState.{first_rig};
ghost use Rattle.snapshot_words.specs.Taking.{IsReadFault};
ghost use Rattle.gpu_snapshot.specs.Intake.{intake};
ghost use Rattle.gpu_snapshot.specs.Opening.{OpensCapture, OpensState, Refuses};

use crate::head::{FileHead, take_head};
use crate::profile::set_profile;
use crate::restore::restore;
use dev_io::Source;
use event_play::{Rig, TALL_VERSION};
use gpu_capture::EventReader;
use snapshot_words::SnapFault;
use std::sync::ledger::Ledger;
use vram_store::Steps;

/// The byte offset after the magic number.
const AFTER_HEAD: u32 = 8;

/// Opens the capture or snapshot in `source` with a new machine. Returns the machine and a reader of the records that
/// follow.
///
/// For a capture, reads the file header, and the machine has as many rows of video memory as its version needs. For a
/// snapshot, reads also the state, and the machine is in that state. No further byte is read. Requires a machine
/// as [`Rig::new`] makes it; a refusal drops it.
///
/// Refuses with `Stop`: NotCapture (no known magic number), Truncated or ReadFault; and with `Bad`: the first invalid
/// word of a state. Costs one step per sixteen cells of a state, and none for a capture.
pub fn open<S: Source, L: Ledger>(
    rig: Rig,
    source: &mut S,
    steps: &mut Steps<L>,
) -> Result<(Rig, EventReader), SnapFault>
    requires new { rig ≡ first_rig }
    ensures opened { IfOk result (λ opened.
        OpensCapture (intake (S.left source.old) steps.old) (intake (S.left source.new) steps.new) opened.0 opened.1
        ⊎ OpensState (intake (S.left source.old) steps.old) (intake (S.left source.new) steps.new) opened.0 opened.1) }
    ensures refused { IfErr result (λ fault.
        Refuses (intake (S.left source.old) steps.old) (intake (S.left source.new) steps.new) fault) }
    ensures cause { IfErr result (λ fault. IsReadFault fault → Rose (S.faults source.old) (S.faults source.new)) }
    ensures faults { S.faults source.old ≤ S.faults source.new }
{
    let mut rig = rig;
    match take_head(source) {
        Ok(FileHead::Capture { version }) => {
            set_profile(&mut rig, version == TALL_VERSION);
            Ok((rig, EventReader::at(version, AFTER_HEAD)))
        }
        Ok(FileHead::Snapshot) => match restore(&mut rig, source, steps) {
            Ok(reader) => Ok((rig, reader)),
            Err(fault) => Err(fault),
        },
        Err(stop) => Err(SnapFault::Stop { stop }),
    }
}
