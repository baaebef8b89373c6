// The lines of words, of the status word, of notes and of changes.
ghost use Rattle.std.specs.Prelude.{◌≡◌, ◌≤◌, None, Some, flat_map, length};
ghost use Rattle.dev_io.specs.Device.{Writes, side};
ghost use Rattle.packet_text.specs.Line.{word_line, status_line, note_name, note_line, change_line};

use crate::number::{cell_digits, decimal_text, hex_digits, signed_text};
use arrayvec::ArrayVec;
use dev_io::{Failed, Sink, write_all, write_pieces};
use gp0_packets::{Note, sets_register};
use itoa::Buffer;
use px_num::{Box2, bits};

/// The bytes of a line. The line of a note or of a change has at most 90.
pub type LineText = ArrayVec<u8, 128>;

/// Writes the line of a word that was read: eight hexadecimal digits.
#[tactic(auto, unfolding(crate::specs::Line::word_line))]
pub fn write_word<K: Sink>(out: &mut K, word: u32) -> Result<(), Failed>
    ensures { Writes (side K.held K.faults) out.old out.new (word_line word) result }
{
    write_pieces(out, &[&hex_digits(word), b"\n"])
}

/// Writes the status line: `status ` and eight hexadecimal digits.
#[tactic(auto, unfolding(crate::specs::Line::status_line))]
pub fn write_status<K: Sink>(out: &mut K, word: u32) -> Result<(), Failed>
    ensures { Writes (side K.held K.faults) out.old out.new (status_line word) result }
{
    write_pieces(out, &[b"status ", &hex_digits(word), b"\n"])
}

/// Returns the line of a note: its event in decimal, its name, its head in eight hexadecimal digits, and the corners of
/// its area, or a dash if it has none. The class must be at most 9.
pub fn note_text(note: &Note) -> LineText
    requires { note.now.class ≤ 9 }
    ensures { result.items ≡ note_line note.now }
{
    match &note.area {
        None => bare_text(note),
        Some(area) => text_with_area(note, area),
    }
}

/// Returns the line of an item that changed a cell (16-bit VRAM halfword): its event in decimal, its name, its head in
/// eight hexadecimal digits, and the cell before and after it in four each.
#[tactic(auto, unfolding(crate::specs::Line::change_line))]
pub fn change_text(note: &Note, before: u16, after: u16) -> LineText
    ensures { result.items ≡ change_line note.now before after }
{
    let mut number = Buffer::new();
    let event = decimal_text(&mut number, note.event);
    let name = name_of(note.class, note.head);
    let head = hex_digits(note.head);
    let old = cell_digits(before);
    let new = cell_digits(after);
    line_text(&[
        event, b" ", name, b" ", &head, b" ", &old, b" ", &new, b"\n",
    ])
}

/// Writes the line of a note: the bytes of [`note_text`], from which `list` too takes its lines. The class must be at
/// most 9.
pub fn write_note<K: Sink>(out: &mut K, note: &Note) -> Result<(), Failed>
    requires { note.now.class ≤ 9 }
    ensures { Writes (side K.held K.faults) out.old out.new (note_line note.now) result }
{
    write_all(out, note_text(note).as_slice())
}

// Returns the name of a note.
fn name_of(class: u8, head: u32) -> &'static [u8]
    ensures name { result.now ≡ note_name class head }
    ensures fits { length result.now ≤ 11 }
{
    let opcode = bits(head, 24, 8);
    match class {
        0 => match opcode {
            0x02 => b"fill",
            0x1f => b"irq",
            _ => b"nop",
        },
        1 => b"polygon",
        2 => b"line",
        3 => b"rectangle",
        4 => b"copy",
        5 => b"load",
        6 => b"store",
        7 if sets_register(opcode) => b"environment",
        7 => b"nop",
        8 => b"finish",
        _ => b"pixels",
    }
}

// Returns the line of a note without an area.
#[tactic(auto, unfolding(crate::specs::Line::note_line))]
fn bare_text(note: &Note) -> LineText
    requires { note.now.area ≡ None }
    ensures { result.items ≡ note_line note.now }
{
    let mut number = Buffer::new();
    let event = decimal_text(&mut number, note.event);
    let name = name_of(note.class, note.head);
    let head = hex_digits(note.head);
    line_text(&[event, b" ", name, b" ", &head, b" -", b"\n"])
}

// Returns the line of a note with this area.
#[tactic(auto, unfolding(crate::specs::Line::note_line))]
fn text_with_area(note: &Note, area: &Box2) -> LineText
    requires { note.now.area ≡ Some area.now }
    ensures { result.items ≡ note_line note.now }
{
    let mut number = Buffer::new();
    let event = decimal_text(&mut number, note.event);
    let name = name_of(note.class, note.head);
    let head = hex_digits(note.head);
    let mut left = Buffer::new();
    let x1 = signed_text(&mut left, &area.x1);
    let mut top = Buffer::new();
    let y1 = signed_text(&mut top, &area.y1);
    let mut right = Buffer::new();
    let x2 = signed_text(&mut right, &area.x2);
    let mut bottom = Buffer::new();
    let y2 = signed_text(&mut bottom, &area.y2);
    line_text(&[
        event, b" ", name, b" ", &head, b" ", x1, b" ", y1, b" ", x2, b" ", y2, b"\n",
    ])
}

// Returns the bytes of the pieces, one after another. They must be at most 128.
fn line_text(pieces: &[&[u8]]) -> LineText
    requires { length (flat_map (λ piece. piece.now) pieces.now) ≤ 128 }
    ensures { result.items ≡ flat_map (λ piece. piece.now) pieces.now }
{
    let mut text = ArrayVec::new();
    for piece in pieces {
        if let Err(_) = text.try_extend_from_slice(piece) {
            unreachable!()
        }
    }
    text
}
