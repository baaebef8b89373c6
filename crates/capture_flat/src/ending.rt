// How a flat capture ends.
ghost use Rattle.std.specs.Prelude.{◌≡◌};
ghost use Rattle.capture_flat.specs.Ended.{flat_ending, refused_as};

use crate::refusal::FlatRefusal;
use event_loop::{AsEnded, Ended};
use event_play::EventFault;
use gpu_capture::Stop;

/// How a flat capture ends. Events are numbered from 1.
#[derive(Clone, Copy, Debug, PartialEq, Eq)]
pub enum FlatEnding {
    /// The capture was read to its End, and the whole flat capture was written.
    Done,
    /// The reader stopped for another reason. `event`: the number of the next event.
    Stopped { event: u64, stop: Stop },
    /// This event has a fault and was not played.
    Faulted { event: u64, fault: EventFault },
    /// This event was played. With its records and an End record, the file would have more than 2^30 bytes.
    TooLong { event: u64 },
    /// This event was played, and its output was not written completely. If the output at End is incomplete, `event` is
    /// the number of the next event.
    WriteFailed { event: u64 },
}

impl AsEnded for FlatEnding {
    ghost use Rattle.capture_flat.specs.Ended.{flat_ended};

    type Refusal = FlatRefusal;

    ghost as_ended = { flat_ended };

    fn ended(self) -> Ended<FlatRefusal> {
        match self {
            FlatEnding::Done => Ended::Done,
            FlatEnding::Stopped { event, stop } => Ended::Stopped { event, stop },
            FlatEnding::Faulted { event, fault } => Ended::Refused {
                why: FlatRefusal::Fault { event, fault },
            },
            FlatEnding::TooLong { event } => Ended::Refused {
                why: FlatRefusal::TooMuch { event },
            },
            FlatEnding::WriteFailed { event } => Ended::WriteFailed { event },
        }
    }
}

/// Returns the ending of the loop as the ending of a flat capture.
pub(crate) fn flat_ending(ended: Ended<FlatRefusal>) -> FlatEnding
    ensures { result ≡ flat_ending ended }
{
    match ended {
        Ended::Done => FlatEnding::Done,
        Ended::Stopped { event, stop } => FlatEnding::Stopped { event, stop },
        Ended::Refused { why } => refused_as(why),
        Ended::WriteFailed { event } => FlatEnding::WriteFailed { event },
    }
}

// Returns a refusal as the ending of a flat capture.
fn refused_as(why: FlatRefusal) -> FlatEnding
    ensures { result ≡ refused_as why }
{
    match why {
        FlatRefusal::Fault { event, fault } => FlatEnding::Faulted { event, fault },
        FlatRefusal::TooMuch { event } => FlatEnding::TooLong { event },
    }
}
