// The receivers of lines of items.
ghost use Rattle.std.specs.Prelude.{◌≡◌, ◌≤◌, [], ◌∷◌, length, Option, option_to_list, IfSome};
ghost use Rattle.gathered_out.specs.Pieces.{piece};
ghost use Rattle.gathered_out.specs.Puts.{Puts, SinkState};
ghost use Rattle.packet_text.specs.Line.{change_line};
ghost use Rattle.event_play.specs.Listing.{PutsLines, listed_pieces};
ghost use Rattle.event_play.specs.Changes.{cell_change_line};
ghost use Rattle.event_play.specs.declared.ending.Mode.{Mode as SpecMode};

use crate::ending::Mode;
use dev_io::Sink;
use gathered_out::OutputBuffer;
use gp0_packets::Note;
use packet_text::{change_text, note_text};

/// A receiver of the lines of items.
pub(crate) trait Outlet {
    /// The mode whose lines it receives, or `None` if it receives none.
    ghost mode: { Self → Option SpecMode };

    /// The sink and its buffer.
    ghost state: { Self → SinkState };

    /// Whether two values are the same receiver at two times.
    ghost same: { Self → Self → Type 0 };

    /// Returns the mode whose lines it receives, or `None` if it receives none.
    fn mode(&self) -> Option<Mode>
        ensures { result ≡ mode self.now };

    /// Adds `line`, at most 4,096 bytes, to the output of event `number`. On failure, returns the number of the first
    /// event whose lines are incomplete.
    fn put(&mut self, number: u64, line: &[u8]) -> Result<(), u64>
        requires { length line.now ≤ 4096 }
        ensures puts { PutsLines (piece number line.now ∷ []) (state self.old) (state self.new) result }
        ensures same { same self.old self.new };

    ghost same_at_first: { (x : Self) → same x x };

    ghost same_on: { (x y z : Self) → same x y → same y z → same x z };

    ghost same_mode: { (x y : Self) → same x y → mode x ≡ mode y };
}

/// Buffers the lines of a mode for a sink.
#[derive(Drop)]
pub(crate) struct Lines<'a, K: Sink> {
    pub(crate) mode: Mode,
    pub(crate) buffered: &'a mut OutputBuffer,
    pub(crate) out: &'a mut K,
}

impl<'a, K: Sink> Outlet for Lines<'a, K> {
    ghost use Rattle.std.proofs.Common.{◌≡◌, ◌∙◌, Some, ap, refl};
    ghost use Rattle.event_play.specs.Feeding.{AreSameLines};
    ghost use Rattle.gathered_out.specs.Puts.{sink_state};

    ghost mode = { λ s. Some s.mode };

    ghost state = { λ s. sink_state K.held K.faults s.out.now s.buffered.now };

    ghost same = { AreSameLines };

    fn mode(&self) -> Option<Mode> {
        Some(self.mode)
    }

    fn put(&mut self, number: u64, line: &[u8]) -> Result<(), u64> {
        self.buffered.put(number, line, self.out)
    }

    ghost same_at_first = { λ x. (refl, refl, refl) };

    ghost same_on = { λ x y z first then. (first.0 ∙ then.0, first.1 ∙ then.1, first.2 ∙ then.2) };

    ghost same_mode = { λ x y same. ap (λ mode. Some mode) same.2 };
}

/// Ignores all lines.
#[derive(Drop)]
pub(crate) struct NoLines {}

impl Outlet for NoLines {
    ghost use Rattle.std.specs.Prelude.{[], None, refl};

    ghost mode = { λ _. None };

    ghost state = { λ _. record { held = None; faults = 0; buffered = [] } };

    ghost same = { λ _ _. Unit {0} };

    fn mode(&self) -> Option<Mode> {
        None
    }

    fn put(&mut self, number: u64, line: &[u8]) -> Result<(), u64> {
        Ok(())
    }

    ghost same_at_first = { λ x. tt };

    ghost same_on = { λ x y z first then. tt };

    ghost same_mode = { λ x y same. refl };
}

/// Adds the line of an item if one was completed and `before` and `after`, the values of the cell, differ.
pub(crate) fn put_changed<O: Outlet>(
    number: u64,
    note: &Option<Note>,
    before: u16,
    after: u16,
    lines: &mut O,
) -> Result<(), u64>
    ensures puts { Puts (piece number (cell_change_line note.now before after))
        (O.state lines.old) (O.state lines.new) result }
    ensures same { O.same lines.old lines.new }
{
    match note {
        Some(note) if before != after => put_change(number, note, before, after, lines),
        _ => Ok(()),
    }
}

/// Adds the line of a note to the note's own event, unless there is none or it is for pixels of a load. The class of
/// the note must be at most 9.
pub(crate) fn put_listed<O: Outlet>(note: &Option<Note>, lines: &mut O) -> Result<(), u64>
    requires { IfSome note.now (λ note. note.class ≤ 9) }
    ensures puts { PutsLines (listed_pieces (option_to_list note.now)) (O.state lines.old) (O.state lines.new) result }
    ensures same { O.same lines.old lines.new }
{
    match note {
        Some(told) if told.class != 9 => lines.put(told.event, note_text(told).as_slice()),
        _ => Ok(()),
    }
}

// Adds the line of an item that changed the cell from `before` to `after`.
fn put_change<O: Outlet>(
    number: u64,
    note: &Note,
    before: u16,
    after: u16,
    lines: &mut O,
) -> Result<(), u64>
    ensures puts { Puts (piece number (change_line note.now before after))
        (O.state lines.old) (O.state lines.new) result }
    ensures same { O.same lines.old lines.new }
{
    lines.put(number, change_text(note, before, after).as_slice())
}
