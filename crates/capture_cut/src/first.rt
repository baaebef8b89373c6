// Plays the first events of a capture.
ghost use Rattle.std.specs.Prelude.{◌≡◌, ◌≤◌, ℕ, List, Option, Ok, map, IfOk, IfErr, IsOk, OnErr, OnOk};
ghost use Rattle.dev_io.specs.Device.{Rose};
ghost use Rattle.gpu_capture.specs.Reader.{IsReadFault};
ghost use Rattle.event_play.specs.Replay.{Replay, from_state};
ghost use Rattle.event_play.specs.RigState.{Stands, StandsFor};
ghost use Rattle.event_play.specs.Step.{Machine};
ghost use Rattle.event_play.specs.Streams.{streams, without_sink};
ghost use Rattle.capture_cut.specs.Came.{PlaysFirst, PlaysAnswer, EndsAnswer, EndsEarly, IsIdle, IsReadFailure};
ghost use Rattle.capture_cut.specs.Came.{IsReady};
ghost use Rattle.capture_cut.specs.Cut.{EndsCut, cut_at, IsEnding, MayReadFault, MayWriteFault};

use crate::ending::CutEnding;
use dev_io::Source;
use event_play::Rig;
use gpu_capture::{Event, EventReader, Stop};
use gpu_taps::Listener;
use std::sync::ledger::Ledger;
use vram_store::Steps;

/// Plays the first `n` events of a capture, at least one, on a rig that has played none. Returns the reader after the
/// last of them. On a fault or an earlier stop, returns how the cut ends.
pub(crate) fn play_first<S: Source, T: Listener, L: Ledger>(
    rig: &mut Rig,
    n: u32,
    source: &mut S,
    taps: &mut Vec<T>,
    steps: &mut Steps<L>,
) -> Result<EventReader, CutEnding>
    requires unplayed { rig.old.played ≡ 0 }
    requires some { 1 ≤ n }
    ensures ok { (s : Machine) (held : Option (List ℕ)) → Stands rig.old s → IfOk result (λ reader.
        PlaysFirst (cut_at n (from_state s 0))
        (streams (S.left source.old) held (map T.heard taps.old.items) steps.old)
        (streams (S.left source.new) held (map T.heard taps.new.items) steps.new) rig.new reader.progress) }
    ensures ready { IfOk result (λ reader. IsReady reader.progress reader.stop) }
    ensures ends { (s : Machine) (held : Option (List ℕ)) → Stands rig.old s → IfErr result
        (EndsCut (cut_at n (from_state s 0))
        (streams (S.left source.old) held (map T.heard taps.old.items) steps.old)
        (streams (S.left source.new) held (map T.heard taps.new.items) steps.new) rig.new) }
    ensures known { IfErr result (λ ending. IsEnding ending × (MayWriteFault ending → ⊥)) }
    ensures cause { IfErr result (λ ending. MayReadFault ending → Rose (S.faults source.old) (S.faults source.new)) }
    ensures faults { S.faults source.old ≤ S.faults source.new }
{
    let mut reader = EventReader::new();
    let first = reader.next(source);
    rig.raise(reader.version());
    play_answer(rig, first, taps, steps)?;
    'events: for k in 1..n {
        let _ = k;
        let next = reader.next(source);
        play_answer(rig, next, taps, steps)?;
    }
    Ok(reader)
}

// Plays the event that the reader returned. If it has a fault or the reader stopped, plays nothing and returns how the
// cut ends.
fn play_answer<T: Listener, L: Ledger>(
    rig: &mut Rig,
    answer: Result<Event, Stop>,
    taps: &mut Vec<T>,
    steps: &mut Steps<L>,
) -> Result<(), CutEnding>
    ensures ok { (t : Replay) → StandsFor rig.old t → OnOk result (PlaysAnswer t answer
        (without_sink (map T.heard taps.old.items) steps.old)
        (without_sink (map T.heard taps.new.items) steps.new) rig.new) }
    ensures ends { (t : Replay) → StandsFor rig.old t → IfErr result (EndsAnswer t answer) }
    ensures idle { OnErr result (IsIdle (without_sink (map T.heard taps.old.items) steps.old)
        (without_sink (map T.heard taps.new.items) steps.new) rig.old rig.new) }
    ensures answered { OnOk result (IsOk answer) }
    ensures known { IfErr result (λ ending. IsEnding ending × (MayWriteFault ending → ⊥)) }
    ensures stopped { IfErr result (λ ending. MayReadFault ending → IsReadFailure answer) }
{
    let number = rig.played().saturating_add(1);
    match answer {
        Ok(event) => match rig.event(&event, taps, steps) {
            Ok(_) => Ok(()),
            Err(fault) => Err(CutEnding::Faulted {
                event: number,
                fault,
            }),
        },
        Err(stop) => Err(stopped(stop, number)),
    }
}

// Returns the ending for a stop before event `n`. `number`: the number of the next event.
fn stopped(stop: Stop, number: u64) -> CutEnding
    ensures ends { EndsEarly number stop result }
    ensures known { IsEnding result × (MayWriteFault result → ⊥) }
    ensures cause { MayReadFault result → IsReadFault stop }
{
    match stop {
        Stop::End => CutEnding::PastEnd { event: number },
        _ => CutEnding::Stopped {
            event: number,
            stop,
        },
    }
}
