use event_play::EventFault;
use snapshot_words::SnapFault;

/// Why a call failed.
#[derive(Clone, Copy, Debug, PartialEq, Eq)]
pub enum Refusal {
    /// The handle has no machine.
    Closed,
    /// The handle has a machine already.
    Open,
    /// Memory ran out.
    NoMemory,
    /// The caller's buffer is too short.
    NoRoom,
    /// The shown picture has no pixel.
    NoPicture,
    /// Video memory has no such cell.
    NoCell,
    /// The words are not all in main memory, or the address is not a multiple of 4.
    BadAddress,
    /// The channel is neither 2 nor 6.
    BadChannel,
    /// No mode has this number.
    BadMode,
    /// 2^63 events or more were played: a snapshot counts at most 2^63 - 1.
    TooManyEvents,
    /// Event `event` has a fault.
    Faulted { event: u64, fault: EventFault },
    /// The bytes cannot be opened as a capture or a snapshot.
    Unopened { fault: SnapFault },
}
