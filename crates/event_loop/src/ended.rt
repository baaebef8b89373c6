// How a loop over events ends.
ghost use Rattle.std.specs.Prelude.{◌≡◌};
ghost use Rattle.gpu_capture.specs.Reader.{IsReadFault};
ghost use Rattle.event_loop.specs.Closing.{closed_as, ended_by};
ghost use Rattle.event_loop.specs.Ending.{MayReadFault, MayWriteFault, IsEnding};
ghost use Rattle.event_loop.specs.Halting.{MayLack};
ghost use Rattle.event_loop.specs.declared.ended.Ended.{Ended};

use gpu_capture::Stop;

/// How a loop over events ends. `R` is the type of the command's own refusals.
#[derive(Clone, Copy, Debug, PartialEq, Eq)]
pub enum Ended<R> {
    /// The source was read to its End record, and all output was written.
    Done,
    /// The reader stopped before event `event`, other than at an End record.
    Stopped { event: u64, stop: Stop },
    /// The command refused an event or a stop of the reader.
    Refused { why: R },
    /// The output of event `event` could not be written completely.
    WriteFailed { event: u64 },
}

/// The ending of a command that reads events. Each is an ending of a loop.
pub trait AsEnded: Copy {
    /// The command's own refusals.
    type Refusal: Copy;

    /// The ending as that of a loop.
    ghost as_ended: { Self → Ended Self.Refusal };

    /// Returns the ending as that of a loop.
    fn ended(self) -> Ended<Self::Refusal>
        ensures { result ≡ as_ended self };
}

/// Why the output of an event is not complete.
#[derive(Clone, Copy, Debug, PartialEq, Eq)]
pub enum Halt<R> {
    /// A write failed. `event` is the first event whose output is incomplete.
    Lacks { event: u64 },
    /// The command refuses the event or the stop.
    Refuses { why: R },
}

/// Returns the ending for a stop of the reader. `event` is the number of the next event.
pub(crate) fn closed<R: Copy>(stop: Stop, event: u64) -> Ended<R>
    ensures value { result ≡ closed_as event stop }
    ensures known { IsEnding result × (MayWriteFault result → ⊥) }
    ensures stopped { MayReadFault result → IsReadFault stop }
{
    match stop {
        Stop::End => Ended::Done,
        _ => Ended::Stopped { event, stop },
    }
}

/// Returns the ending for a stop whose output is not complete.
pub(crate) fn ended_by<R: Copy>(halt: Halt<R>) -> Ended<R>
    ensures value { result ≡ ended_by halt }
    ensures known { IsEnding result × (MayReadFault result → ⊥) }
    ensures lacks { MayWriteFault result → MayLack halt }
{
    match halt {
        Halt::Lacks { event } => Ended::WriteFailed { event },
        Halt::Refuses { why } => Ended::Refused { why },
    }
}
