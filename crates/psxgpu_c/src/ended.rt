// The details of how a call ended, as numbers.
ghost use Rattle.std.specs.Prelude.{◌≡◌};
ghost use Rattle.psxgpu_c.specs.Codes.{at_fault, at_place, at_stop, code_for, numbers, refused, unopened};

use crate::refusal::Refusal;
use event_play::EventFault;
use gpu_capture::Stop;
use snapshot_words::SnapFault;

/// The details of how a call ended: `psxgpu_ended` in c/psxgpu.h. A field that the code does not name is 0.
#[repr(C)]
#[derive(Clone, Copy)]
pub struct Ended {
    /// The number of bytes written to the caller's buffer.
    pub written: usize,
    /// The number of the event at which the call ended, or 0.
    pub event: u64,
    /// A byte offset, or a count of words.
    pub place: u64,
    /// A word, or an address.
    pub word: u32,
    /// The code that the call returns.
    pub code: u32,
}

/// Returns the code of a refusal.
pub(crate) fn code_for(why: Refusal) -> u32
    ensures { result ≡ code_for why }
{
    of_refusal(why).code
}

/// Returns the details of a refusal, with nothing written.
pub(crate) fn of_refusal(why: Refusal) -> Ended
    ensures { result ≡ refused why }
{
    match why {
        Refusal::Closed => numbers(14, 0, 0, 0),
        Refusal::Open => numbers(15, 0, 0, 0),
        Refusal::NoMemory => numbers(13, 0, 0, 0),
        Refusal::NoRoom => numbers(11, 0, 0, 0),
        Refusal::NoPicture => numbers(10, 0, 0, 0),
        Refusal::NoCell => numbers(17, 0, 0, 0),
        Refusal::BadAddress => numbers(18, 0, 0, 0),
        Refusal::BadChannel => numbers(19, 0, 0, 0),
        Refusal::BadMode => numbers(16, 0, 0, 0),
        Refusal::TooManyEvents => numbers(20, 0, 0, 0),
        Refusal::Faulted { event, fault } => of_fault(event, fault),
        Refusal::Unopened { fault } => of_unopened(fault),
    }
}

/// Returns the details of a fault of event `event`.
pub(crate) fn of_fault(event: u64, fault: EventFault) -> Ended
    ensures { result ≡ at_fault event fault }
{
    match fault {
        EventFault::BadDma => numbers(7, event, 0, 0),
        EventFault::DmaTooLong { words } => numbers(8, event, words, 0),
        EventFault::ListLoop { node } => numbers(9, event, 0, node),
    }
}

/// Returns the details of a stop of the reader. `event`: the number of the event that would have been read.
pub(crate) fn of_stop(event: u64, stop: Stop) -> Ended
    ensures { result ≡ at_stop event stop }
{
    match stop {
        Stop::End => numbers(1, event, 0, 0),
        Stop::NotCapture { byte } => at_place(2, event, byte, 0),
        Stop::Truncated { byte } => at_place(3, event, byte, 0),
        Stop::BadRecord { byte, word } => at_place(4, event, byte, word),
        Stop::TooLong { byte } => at_place(5, event, byte, 0),
        Stop::ReadFault { byte } => at_place(6, event, byte, 0),
    }
}

// Returns the details for bytes that cannot be opened: event 1.
fn of_unopened(fault: SnapFault) -> Ended
    ensures { result ≡ unopened fault }
{
    match fault {
        SnapFault::Stop { stop } => of_stop(1, stop),
        SnapFault::Bad { byte, word } => at_place(12, 1, byte, word),
    }
}

/// Returns the details of an ending at byte offset `byte`.
pub(crate) fn at_place(code: u32, event: u64, byte: u32, word: u32) -> Ended
    ensures { result ≡ at_place code event byte word }
{
    numbers(code, event, u64::from(byte), word)
}

/// Returns these details, with nothing written.
pub(crate) fn numbers(code: u32, event: u64, place: u64, word: u32) -> Ended
    ensures { result ≡ numbers code event place word }
{
    Ended {
        written: 0,
        event,
        place,
        word,
        code,
    }
}
