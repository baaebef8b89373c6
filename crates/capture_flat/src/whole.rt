// Reads, plays and writes a whole capture.
ghost use Rattle.std.specs.Prelude.{◌≡◌, ◌≤◌, map};
ghost use Rattle.dev_io.specs.Device.{Rose};
ghost use Rattle.gathered_out.specs.Causes.{Causes};
ghost use Rattle.event_play.specs.Replay.{from_state};
ghost use Rattle.event_play.specs.RigState.{Stands};
ghost use Rattle.event_play.specs.Step.{Machine};
ghost use Rattle.event_play.specs.Streams.{streams};
ghost use Rattle.capture_flat.specs.Passing.{EndsFlat, MayReadFault, MayWriteFault, IsEnding};

use crate::ending::{FlatEnding, flat_ending};
use crate::passage::Flattening;
use dev_io::{Sink, Source};
use event_loop::pass_all;
use event_play::Rig;
use gpu_capture::{CaptureFile, EventReader};
use gpu_taps::Listener;
use std::sync::ledger::Ledger;
use vram_store::Steps;

/// Plays a capture on a rig that has played no event, and writes the capture of its flat events. The output has version
/// 3 if the capture has, otherwise version 2. An event is played before its records are added. The words of a Gp0
/// record that are at hand are played as one block, as long as their records fit. Allocates no memory.
///
/// The file header is the output of the first event, or of End if there is no event. Records are buffered, up to 4,096
/// bytes. The buffer is flushed if a record does not fit, before a read that may wait, after 4,096 bytes of input, and
/// before every ending.
///
/// A write may fail while a later event is processed. The error still names the first event whose output is incomplete.
/// By then, at most 4,112 bytes after that event were read. Before any other ending, all earlier output was written.
/// The rig is as after all events that were played.
///
/// After `Done` the file is a whole capture that uses only the ports. It shows the same words, and leads to the same
/// status word and the same video memory.
pub fn flat<S: Source, K: Sink, T: Listener, L: Ledger>(
    rig: &mut Rig,
    source: &mut S,
    out: &mut K,
    taps: &mut Vec<T>,
    steps: &mut Steps<L>,
) -> FlatEnding
    requires { rig.old.played ≡ 0 }
    // For every machine that agrees with the rig, flattening the capture from it ends like this.
    ensures ends { (s : Machine) → Stands rig.old s → EndsFlat (from_state s 0)
        (streams (S.left source.old) (K.held out.old) (map T.heard taps.old.items) steps.old)
        (streams (S.left source.new) (K.held out.new) (map T.heard taps.new.items) steps.new) rig.new result }
    ensures known { IsEnding result }
    ensures read_cause { MayReadFault result → Rose (S.faults source.old) (S.faults source.new) }
    ensures write_cause { MayWriteFault result → Rose (K.faults out.old) (K.faults out.new) }
    ensures read_faults { S.faults source.old ≤ S.faults source.new }
    ensures write_faults { K.faults out.old ≤ K.faults out.new }
{
    let file = CaptureFile {
        version: 0,
        size: 0,
    };
    let flattening = &mut Flattening {
        rig,
        taps,
        steps,
        file,
    };
    flatten(flattening, source, out)
}

// Does the same with the machine, the taps and the file in one value.
fn flatten<S: Source, K: Sink, T: Listener, L: Ledger>(
    flattening: &mut Flattening<T, L>,
    source: &mut S,
    out: &mut K,
) -> FlatEnding
    requires { flattening.old.rig.now.played ≡ 0 }
    ensures ends { (s : Machine) → Stands flattening.old.rig.now s → EndsFlat (from_state s 0)
        (streams (S.left source.old) (K.held out.old) (map T.heard flattening.old.taps.now.items)
        flattening.old.steps.now)
        (streams (S.left source.new) (K.held out.new) (map T.heard flattening.new.taps.now.items)
        flattening.new.steps.now) flattening.new.rig.now result }
    ensures known { IsEnding result }
    ensures reads { Causes (MayReadFault result) (S.faults source.old) (S.faults source.new) }
    ensures writes { Causes (MayWriteFault result) (K.faults out.old) (K.faults out.new) }
    ensures rig { flattening.new.rig.ghost_name ≡ flattening.old.rig.ghost_name }
    ensures taps { flattening.new.taps.ghost_name ≡ flattening.old.taps.ghost_name }
    ensures steps { flattening.new.steps.ghost_name ≡ flattening.old.steps.ghost_name }
{
    let mut reader = EventReader::new();
    flat_ending(pass_all(flattening, &mut reader, source, out))
}
