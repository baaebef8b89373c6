// Cuts a whole capture.
ghost use Rattle.std.specs.Prelude.{◌≡◌, ◌≤◌, map};
ghost use Rattle.dev_io.specs.Device.{Rose};
ghost use Rattle.event_play.specs.Replay.{from_state};
ghost use Rattle.event_play.specs.RigState.{Stands};
ghost use Rattle.event_play.specs.Step.{Machine};
ghost use Rattle.event_play.specs.Streams.{streams};
ghost use Rattle.capture_cut.specs.Cut.{EndsCut, cut_at, IsEnding, MayReadFault, MayWriteFault};

use crate::bounds::keep_bounds;
use crate::ending::CutEnding;
use crate::first::play_first;
use crate::rest::write_rest;
use crate::state::{state_size, write_state};
use dev_io::{Sink, Source};
use event_play::Rig;
use gpu_taps::Listener;
use std::sync::ledger::Ledger;
use vram_store::Steps;

/// Plays the first `n` events of a capture, at least one, on a rig that has played none. Writes a snapshot: the file
/// header, the state after these events, the records of the later events, and an End record. Later events are not
/// played. Allocates no memory.
///
/// The header and the state are the output of event `n`; each later record is the output of its event. Records are
/// buffered, up to 4,096 bytes. The buffer is flushed if a record does not fit, before a read that may wait, after
/// 4,096 bytes of input, and before every ending.
///
/// A write may fail while a later event is processed. The error still names the event of the first incomplete record.
/// By then, at most 4,112 bytes after that event were read. Before any other ending, all earlier output was written,
/// and no byte was read that the ending does not need. The rig and the taps are as after the events that were played.
pub fn cut<S: Source, K: Sink, T: Listener, L: Ledger>(
    rig: &mut Rig,
    n: u32,
    source: &mut S,
    out: &mut K,
    taps: &mut Vec<T>,
    steps: &mut Steps<L>,
) -> CutEnding
    requires unplayed { rig.old.played ≡ 0 }
    requires some { 1 ≤ n }
    // For every machine that agrees with the rig, cutting the capture from it ends like this.
    ensures ends { (s : Machine) → Stands rig.old s → EndsCut (cut_at n (from_state s 0))
        (streams (S.left source.old) (K.held out.old) (map T.heard taps.old.items) steps.old)
        (streams (S.left source.new) (K.held out.new) (map T.heard taps.new.items) steps.new) rig.new result }
    ensures known { IsEnding result }
    ensures read_cause { MayReadFault result → Rose (S.faults source.old) (S.faults source.new) }
    ensures write_cause { MayWriteFault result → Rose (K.faults out.old) (K.faults out.new) }
    ensures read_faults { S.faults source.old ≤ S.faults source.new }
    ensures write_faults { K.faults out.old ≤ K.faults out.new }
{
    let mut reader = match play_first(rig, n, source, taps, steps) {
        Ok(reader) => reader,
        Err(ending) => return ending,
    };
    match write_state(rig, out, steps) {
        Ok(()) => {
            keep_bounds(rig);
            write_rest(&mut reader, source, state_size(rig), n, out)
        }
        Err(_) => CutEnding::WriteFailed {
            event: u64::from(n),
        },
    }
}
