// Plays a whole capture or snapshot with a machine of its own.
ghost use Rattle.std.specs.Prelude.{◌≡◌};
ghost use Rattle.psxgpu_c.specs.Whole.{CountsMode, PlaysMode, at_end, at_ending, cell_in, mode_named};

use crate::ended::{Ended, at_place, numbers, of_fault, of_refusal, of_stop};
use crate::refusal::Refusal;
use crate::run::{play_counted, play_over};
use event_play::{Ending, FrameTrigger, Mode};
use gpu_snapshot::AnyEnding;
use px_num::Cell;
use std::alloc::Global;

/// Plays a capture or a snapshot with a new machine, and writes what the mode asks for to the start of `out`. `mode`: a
/// `PSXGPU_MODE_` number. `cell`: x | y << 16, for `Pixel` only. Sets `ended` in every case and returns its code. An
/// unknown mode is refused with `BadMode`.
#[unsafe(no_mangle)]
pub extern "C" fn psxgpu_play(
    alloc: Global,
    mode: u32,
    cell: u32,
    capture: &[u8],
    out: &mut [u8],
    ended: &mut Ended,
) -> u32
    ensures played { PlaysMode (mode_named mode cell) capture.now out.old out.new ended.new }
    ensures code { result ≡ ended.new.code }
{
    *ended = play_mode(alloc, mode_of(mode, cell), capture, out);
    ended.code
}

fn play_mode(alloc: Global, mode: Option<Mode>, capture: &[u8], out: &mut [u8]) -> Ended
    ensures { PlaysMode mode capture.now out.old out.new result }
{
    match mode {
        Some(mode) => match play_over(alloc, mode, capture, out) {
            Some(told) => told,
            None => of_refusal(Refusal::NoMemory),
        },
        None => of_refusal(Refusal::BadMode),
    }
}

/// Plays a capture or a snapshot as `psxgpu_play` does and counts the bytes of the output. Sets `ended` in every case
/// and returns its code: `written` is their number. An unknown mode is refused with `BadMode`.
#[unsafe(no_mangle)]
pub extern "C" fn psxgpu_play_size(
    alloc: Global,
    mode: u32,
    cell: u32,
    capture: &[u8],
    ended: &mut Ended,
) -> u32
    ensures counted { CountsMode (mode_named mode cell) capture.now ended.new }
    ensures code { result ≡ ended.new.code }
{
    *ended = count_mode(alloc, mode_of(mode, cell), capture);
    ended.code
}

fn count_mode(alloc: Global, mode: Option<Mode>, capture: &[u8]) -> Ended
    ensures { CountsMode mode capture.now result }
{
    match mode {
        Some(mode) => match play_counted(alloc, mode, capture) {
            Some(told) => told,
            None => of_refusal(Refusal::NoMemory),
        },
        None => of_refusal(Refusal::BadMode),
    }
}

/// Returns the mode with this number, if there is one.
pub(crate) fn mode_of(number: u32, cell: u32) -> Option<Mode>
    ensures { result ≡ mode_named number cell }
{
    let modes = [
        Mode::Play,
        Mode::Vram,
        Mode::Shot,
        Mode::List,
        Mode::Report,
        Mode::Frames {
            at: FrameTrigger::Flip,
        },
        Mode::Frames {
            at: FrameTrigger::Mark,
        },
        Mode::Sums {
            at: FrameTrigger::Flip,
        },
        Mode::Sums {
            at: FrameTrigger::Mark,
        },
        Mode::Pixel {
            cell: cell_in(cell),
        },
    ];
    modes.get(number as usize).copied()
}

// Returns the cell with the column in the low half of a word and the row in the high half.
fn cell_in(word: u32) -> Cell
    ensures { result ≡ cell_in word }
{
    Cell {
        x: (word & 0xffff) as u16,
        y: (word >> 16) as u16,
    }
}

/// Returns the details of an ending.
pub(crate) fn at_end(end: AnyEnding) -> Ended
    ensures { result ≡ at_end end }
{
    match end {
        AnyEnding::Played { ending } => at_ending(ending),
        AnyEnding::BadSnapshot { byte, word } => at_place(12, 1, byte, word),
    }
}

fn at_ending(ending: Ending) -> Ended
    ensures { result ≡ at_ending ending }
{
    match ending {
        Ending::Done => numbers(0, 0, 0, 0),
        Ending::Stopped { event, stop } => of_stop(event, stop),
        Ending::Faulted { event, fault } => of_fault(event, fault),
        Ending::NoPicture { event } => numbers(10, event, 0, 0),
        Ending::WriteFailed { event } => numbers(11, event, 0, 0),
    }
}
