// Why an event of a flat capture is refused.
use event_play::EventFault;

/// Why an event is refused. Events are numbered from 1.
#[derive(Clone, Copy, Debug, PartialEq, Eq)]
pub enum FlatRefusal {
    /// The event has a fault and was not played.
    Fault { event: u64, fault: EventFault },
    /// The event was played. With its records and an End record, the file would exceed 2^30 bytes.
    TooMuch { event: u64 },
}
