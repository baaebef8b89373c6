// How cutting a capture ends.
use event_loop::{AsEnded, Ended};
use event_play::EventFault;
use gpu_capture::Stop;

/// How cutting a capture after its first `n` events ends. Events are numbered from 1.
#[derive(Clone, Copy, Debug, PartialEq, Eq)]
pub enum CutEnding {
    /// The capture was read to its End. The state after its first events and the records of the others were written.
    Done,
    /// The End record came before event `n`. `event`: the number of the next event. Nothing was written.
    PastEnd { event: u64 },
    /// The reader stopped for another reason. `event`: the number of the next event.
    Stopped { event: u64, stop: Stop },
    /// This event is one of the first `n`. It has a fault and was not played. Nothing was written.
    Faulted { event: u64, fault: EventFault },
    /// With the record of this event and an End record, the file would have more than 2^30 bytes.
    TooLong { event: u64 },
    /// The output of this event was not written completely. If the End record is incomplete, `event` is the number of
    /// the next event.
    WriteFailed { event: u64 },
}

/// Why a cut is refused. Events are numbered from 1.
#[derive(Clone, Copy, Debug, PartialEq, Eq)]
pub enum CutRefusal {
    /// The End record came before event `n`. `event`: the number of the next event.
    PastEnd { event: u64 },
    /// This event is one of the first `n`. It has a fault and was not played.
    Fault { event: u64, fault: EventFault },
    /// With the record of this event and an End record, the file would have more than 2^30 bytes.
    TooLong { event: u64 },
}

impl AsEnded for CutEnding {
    ghost use Rattle.capture_cut.specs.Ended.{cut_ended};

    type Refusal = CutRefusal;

    ghost as_ended = { cut_ended };

    fn ended(self) -> Ended<CutRefusal> {
        match self {
            CutEnding::Done => Ended::Done,
            CutEnding::Stopped { event, stop } => Ended::Stopped { event, stop },
            CutEnding::PastEnd { event } => Ended::Refused {
                why: CutRefusal::PastEnd { event },
            },
            CutEnding::Faulted { event, fault } => Ended::Refused {
                why: CutRefusal::Fault { event, fault },
            },
            CutEnding::TooLong { event } => Ended::Refused {
                why: CutRefusal::TooLong { event },
            },
            CutEnding::WriteFailed { event } => Ended::WriteFailed { event },
        }
    }
}
