// Writes the lines of refusals.
ghost use Rattle.dev_io.specs.Device.{Writes, side};
ghost use Rattle.psxgpu_tool.specs.Line.{event_line, offset_line, word_line, too_long_line, list_loop_line};
ghost use Rattle.psxgpu_tool.specs.Line.{fault_line, stop_line};

use dev_io::{Failed, Sink, write_pieces};
use event_play::EventFault;
use gpu_capture::Stop;
use itoa::Buffer;
use packet_text::{address_digits, decimal_text, hex_digits};

/// Writes the line of a stop of the reader. `event`: the number of the event that would have been read. End has no
/// line.
pub(crate) fn write_stop<E: Sink>(err: &mut E, event: u64, stop: Stop) -> Result<(), Failed>
    ensures { Writes (side E.held E.faults) err.old err.new (stop_line event stop) result }
{
    match stop {
        Stop::NotCapture { byte } => write_offset(err, b"not-capture", event, byte),
        Stop::Truncated { byte } => write_offset(err, b"truncated", event, byte),
        Stop::BadRecord { byte, word } => write_word(err, b"bad-record", event, byte, word),
        Stop::TooLong { byte } => write_offset(err, b"too-long", event, byte),
        Stop::ReadFault { byte } => write_offset(err, b"read-fault", event, byte),
        Stop::End => Ok(()),
    }
}

/// Writes the line of a faulty event.
pub(crate) fn write_fault<E: Sink>(err: &mut E, event: u64, fault: EventFault) -> Result<(), Failed>
    ensures { Writes (side E.held E.faults) err.old err.new (fault_line event fault) result }
{
    match fault {
        EventFault::BadDma => write_event(err, b"bad-dma", event),
        EventFault::DmaTooLong { words } => write_too_long(err, event, words),
        EventFault::ListLoop { node } => write_list_loop(err, event, node),
    }
}

/// Writes `psxgpu: NAME at event N`.
#[tactic(auto, unfolding(crate::specs::Line::event_line))]
pub(crate) fn write_event<E: Sink>(err: &mut E, name: &[u8], event: u64) -> Result<(), Failed>
    ensures { Writes (side E.held E.faults) err.old err.new (event_line name.now event) result }
{
    let mut number = Buffer::new();
    let n = decimal_text(&mut number, event);
    write_pieces(err, &[b"psxgpu: ", name, b" at event ", n, b"\n"])
}

#[tactic(auto, unfolding(crate::specs::Line::offset_line))]
fn write_offset<E: Sink>(err: &mut E, name: &[u8], event: u64, byte: u32) -> Result<(), Failed>
    ensures { Writes (side E.held E.faults) err.old err.new (offset_line name.now event byte) result }
{
    let mut number = Buffer::new();
    let n = decimal_text(&mut number, event);
    let mut offset = Buffer::new();
    let b = decimal_text(&mut offset, byte as u64);
    write_pieces(
        err,
        &[b"psxgpu: ", name, b" at event ", n, b" byte ", b, b"\n"],
    )
}

/// Writes `psxgpu: NAME at event N byte B word W`.
#[tactic(auto, unfolding(crate::specs::Line::word_line))]
pub(crate) fn write_word<E: Sink>(
    err: &mut E,
    name: &[u8],
    event: u64,
    byte: u32,
    word: u32,
) -> Result<(), Failed>
    ensures { Writes (side E.held E.faults) err.old err.new (word_line name.now event byte word) result }
{
    let mut number = Buffer::new();
    let n = decimal_text(&mut number, event);
    let mut offset = Buffer::new();
    let b = decimal_text(&mut offset, byte as u64);
    let digits = hex_digits(word);
    write_pieces(
        err,
        &[
            b"psxgpu: ",
            name,
            b" at event ",
            n,
            b" byte ",
            b,
            b" word ",
            &digits,
            b"\n",
        ],
    )
}

#[tactic(auto, unfolding(crate::specs::Line::too_long_line))]
fn write_too_long<E: Sink>(err: &mut E, event: u64, words: u64) -> Result<(), Failed>
    ensures { Writes (side E.held E.faults) err.old err.new (too_long_line event words) result }
{
    let mut number = Buffer::new();
    let n = decimal_text(&mut number, event);
    let mut count = Buffer::new();
    let w = decimal_text(&mut count, words);
    write_pieces(
        err,
        &[b"psxgpu: dma-too-long at event ", n, b" words ", w, b"\n"],
    )
}

#[tactic(auto, unfolding(crate::specs::Line::list_loop_line))]
fn write_list_loop<E: Sink>(err: &mut E, event: u64, node: u32) -> Result<(), Failed>
    ensures { Writes (side E.held E.faults) err.old err.new (list_loop_line event node) result }
{
    let mut number = Buffer::new();
    let n = decimal_text(&mut number, event);
    let digits = address_digits(node);
    write_pieces(
        err,
        &[b"psxgpu: list-loop at event ", n, b" node ", &digits, b"\n"],
    )
}
