// The lines of taps and sums.
ghost use Rattle.std.specs.Prelude.{◌++◌, codes, decimal};
ghost use Rattle.dev_io.specs.Device.{Writes, side};
ghost use Rattle.packet_text.specs.Tap.{number_text, numbers_text, tap_line, sum_line, item_line, item_lines};
ghost use Rattle.packet_text.specs.Tap.{last_numbers, last_lines};

use crate::number::decimal_text;
use dev_io::{Failed, Sink, write_all, write_pieces};
use gpu_taps::Listener;
use itoa::Buffer;

/// The most items that [`write_last`] writes.
const LAST_ITEMS: u32 = 8;

/// Writes the line of a tap: `tap`, its kind and each of its numbers, in decimal.
pub fn write_tap<K: Sink, T: Listener>(out: &mut K, tap: &T) -> Result<(), Failed>
    ensures { Writes (side K.held K.faults) out.old out.new (tap_line (T.heard tap.now)) result }
{
    write_kind(out, tap.kind())?;
    write_numbers(out, tap)?;
    write_all(out, b"\n")
}

/// Writes the line of a sum: `sum` and the number in decimal.
#[tactic(auto, unfolding(crate::specs::Tap::sum_line))]
pub fn write_sum<K: Sink>(out: &mut K, sum: u64) -> Result<(), Failed>
    ensures { Writes (side K.held K.faults) out.old out.new (sum_line sum) result }
{
    let mut buffer = Buffer::new();
    let digits = decimal_text(&mut buffer, sum);
    write_pieces(out, &[b"sum ", digits, b"\n"])
}

/// Writes a line for each of the last eight items that a tap of kind 1 has recorded: `psxgpu: last`, then the event,
/// class and head of the item in decimal. Writes nothing for a tap of another kind.
#[tactic(auto, unfolding(crate::specs::Tap::last_lines))]
pub fn write_last<K: Sink, T: Listener>(out: &mut K, tap: &T) -> Result<(), Failed>
    ensures { Writes (side K.held K.faults) out.old out.new (last_lines (T.heard tap.now)) result }
{
    if tap.kind() == 1 {
        write_items(out, tap)
    } else {
        Ok(())
    }
}

// Writes the lines of the last items.
fn write_items<K: Sink, T: Listener>(out: &mut K, tap: &T) -> Result<(), Failed>
    ensures { Writes (side K.held K.faults) out.old out.new
        (item_lines (last_numbers (T.heard tap.now).numbers)) result }
{
    let items = tap.len() / 3;
    for item in items.saturating_sub(LAST_ITEMS)..items {
        let event = tap.number(3 * item);
        let class = tap.number(3 * item + 1);
        let head = tap.number(3 * item + 2);
        write_item(out, event, class, head)?;
    }
    Ok(())
}

// Writes the line of an item.
#[tactic(auto, unfolding(crate::specs::Tap::item_line))]
fn write_item<K: Sink>(out: &mut K, event: u64, class: u64, head: u64) -> Result<(), Failed>
    ensures { Writes (side K.held K.faults) out.old out.new (item_line event class head) result }
{
    let mut of_event = Buffer::new();
    let event = decimal_text(&mut of_event, event);
    let mut of_class = Buffer::new();
    let class = decimal_text(&mut of_class, class);
    let mut of_head = Buffer::new();
    let head = decimal_text(&mut of_head, head);
    write_pieces(
        out,
        &[b"psxgpu: last", b" ", event, b" ", class, b" ", head, b"\n"],
    )
}

// Writes `tap` and the kind of a tap.
fn write_kind<K: Sink>(out: &mut K, kind: u8) -> Result<(), Failed>
    ensures { Writes (side K.held K.faults) out.old out.new (codes "tap " ++ decimal kind) result }
{
    let mut buffer = Buffer::new();
    let digits = decimal_text(&mut buffer, kind as u64);
    write_pieces(out, &[b"tap ", digits])
}

// Writes the numbers of a tap, each after a space.
fn write_numbers<K: Sink, T: Listener>(out: &mut K, tap: &T) -> Result<(), Failed>
    ensures { Writes (side K.held K.faults) out.old out.new (numbers_text (T.heard tap.now).numbers) result }
{
    for i in 0..tap.len() {
        write_number(out, tap.number(i))?;
    }
    Ok(())
}

// Writes a number after a space.
fn write_number<K: Sink>(out: &mut K, number: u64) -> Result<(), Failed>
    ensures { Writes (side K.held K.faults) out.old out.new (number_text number) result }
{
    let mut buffer = Buffer::new();
    let digits = decimal_text(&mut buffer, number);
    write_pieces(out, &[b" ", digits])
}
