// How writing a capture without dead drawing ends.
use event_loop::{AsEnded, Ended};
use gpu_capture::Stop;

/// How writing a capture without dead drawing ends. Events are numbered from 1.
#[derive(Clone, Copy, Debug, PartialEq, Eq)]
pub enum SlimEnding {
    /// The capture was read to its End record and everything was written.
    Done,
    /// The reader stopped without an End record, at event `event`. The earlier events were written as if there
    /// were no others, without an End record.
    Stopped { event: u64, stop: Stop },
    /// Event `event` is not at the ports (`IsAtPorts`). The earlier events were written as if there were no others,
    /// without an End record.
    NotFlat { event: u64 },
    /// With the record of event `event` and an End record, the file would have more than 2^30 bytes.
    TooLong { event: u64 },
    /// The record of event `event` was not written completely. If it is the End record, `event` is the number of events
    /// plus 1.
    WriteFailed { event: u64 },
}

/// Why an event is refused. Events are numbered from 1.
#[derive(Clone, Copy, Debug, PartialEq, Eq)]
pub enum SlimRefusal {
    /// The event is not at the ports.
    NotFlat { event: u64 },
    /// With the record of the event and an End record, the file would have more than 2^30 bytes.
    TooLong { event: u64 },
}

impl AsEnded for SlimEnding {
    ghost use Rattle.capture_slim.specs.Ended.{slim_ended};

    type Refusal = SlimRefusal;

    ghost as_ended = { slim_ended };

    fn ended(self) -> Ended<SlimRefusal> {
        match self {
            SlimEnding::Done => Ended::Done,
            SlimEnding::Stopped { event, stop } => Ended::Stopped { event, stop },
            SlimEnding::NotFlat { event } => Ended::Refused {
                why: SlimRefusal::NotFlat { event },
            },
            SlimEnding::TooLong { event } => Ended::Refused {
                why: SlimRefusal::TooLong { event },
            },
            SlimEnding::WriteFailed { event } => Ended::WriteFailed { event },
        }
    }
}
