// Plays a capture or a snapshot to its end.
ghost use Rattle.std.specs.Prelude.{◌≡◌, ◌≤◌, map};
ghost use Rattle.dev_io.specs.Device.{Rose};
ghost use Rattle.event_play.specs.Replay.{from_state};
ghost use Rattle.event_play.specs.RigState.{first_rig, Stands};
ghost use Rattle.event_play.specs.Step.{Machine};
ghost use Rattle.event_play.specs.Streams.{streams};
ghost use Rattle.gpu_snapshot.specs.PlayAny.{EndsAny, IsAnyEnding, AnyMayReadFault, AnyMayWriteFault, any_ending_of};

use crate::ending::AnyEnding;
use crate::opening::open;
use dev_io::{Sink, Source};
use event_play::{Ending, Mode, Rig};
use gpu_taps::Listener;
use snapshot_words::SnapFault;
use std::sync::ledger::Ledger;
use vram_store::Steps;

/// Plays a capture, or a snapshot and the records after it, to its End with a new machine. Writes to `out` what `mode`
/// asks for, and sends every note to the taps. If the bytes are neither capture nor snapshot, or end within the magic
/// number or the state, stops at event 1.
pub fn play_any<S: Source, K: Sink, T: Listener, L: Ledger>(
    rig: Rig,
    source: &mut S,
    out: &mut K,
    mode: Mode,
    taps: &mut Vec<T>,
    steps: &mut Steps<L>,
) -> AnyEnding
    requires new { rig ≡ first_rig }
    // For every machine that a new rig represents, this is how playing the bytes ends.
    ensures ends { (s : Machine) → Stands first_rig s → EndsAny mode (from_state s 0)
        (streams (S.left source.old) (K.held out.old) (map T.heard taps.old.items) steps.old)
        (streams (S.left source.new) (K.held out.new) (map T.heard taps.new.items) steps.new) result }
    ensures known { IsAnyEnding result }
    ensures read_cause { AnyMayReadFault result → Rose (S.faults source.old) (S.faults source.new) }
    ensures write_cause { AnyMayWriteFault result → Rose (K.faults out.old) (K.faults out.new) }
    ensures read_faults { S.faults source.old ≤ S.faults source.new }
    ensures write_faults { K.faults out.old ≤ K.faults out.new }
{
    match open(rig, source, steps) {
        Ok((rig, reader)) => {
            let mut rig = rig;
            let mut reader = reader;
            let ending = rig.play_from(&mut reader, source, out, mode, taps, steps);
            AnyEnding::Played { ending }
        }
        Err(fault) => refused(fault),
    }
}

/// Returns the ending for a file that was not opened.
fn refused(fault: SnapFault) -> AnyEnding
    ensures { result ≡ any_ending_of fault }
{
    match fault {
        SnapFault::Stop { stop } => AnyEnding::Played {
            ending: Ending::Stopped { event: 1, stop },
        },
        SnapFault::Bad { byte, word } => AnyEnding::BadSnapshot { byte, word },
    }
}
