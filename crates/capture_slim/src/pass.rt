// Reads a whole capture and writes it without its dead drawing.
ghost use Rattle.std.specs.Prelude.{◌≡◌, ◌≤◌, IfOk};
ghost use Rattle.px_num.specs.Height.{short_height};
ghost use Rattle.dev_io.specs.Device.{Rose};
ghost use Rattle.gathered_out.specs.Causes.{Causes};
ghost use Rattle.dead_drawing.specs.Laws.{height_for};
ghost use Rattle.capture_slim.specs.Passing.{EndsSlim, IsEnding, MayReadFault, MayWriteFault, streams};
ghost use Rattle.capture_slim.specs.Window.{first_window};

use crate::ending::SlimEnding;
use crate::slim::{finish, take_event};
use crate::waiting::Waiting;
use dev_io::{Sink, Source};
use event_loop::{next_event, write_at_pause};
use event_play::TALL_VERSION;
use gpu_capture::{Draft, EventReader};
use px_num::OutOfMemory;
use std::alloc::Global;
use std::marker::Model;

/// Removes dead drawing from a capture. In contracts, a value is the window of events that are not yet written.
#[derive(Drop)]
pub struct Slim {
    window: Waiting,
}

impl Model for Slim {
    ghost use Rattle.capture_slim.specs.Window.{Window};

    ghost Value = { Window };

    ghost view = { λ slim. slim.window };
}

impl Slim {
    /// Creates an empty window for 512 rows of video memory, and allocates all memory that [`Slim::pass`] needs. If
    /// there is not enough, returns `OutOfMemory`.
    pub fn new(alloc: Global) -> Result<Slim, OutOfMemory>
        ensures { IfOk result (λ slim. slim ≡ first_window short_height) }
    {
        match Waiting::new(alloc) {
            Ok(window) => Ok(Slim { window }),
            Err(_) => Err(OutOfMemory),
        }
    }

    /// Reads a capture of port events from `source` and writes a capture of the same version without its dead drawing
    /// to `out`. Requires that no event was pushed yet. Allocates nothing.
    ///
    /// The record of an event is written 4,096 events later, or at the end of reading if that is earlier. The file
    /// header is written with the first record or with End. Records are buffered, up to 4,096 bytes, and written
    /// together: if there is no room for one more, before a read that may have to wait, and before every ending.
    ///
    /// A write may therefore fail while a later event is processed. The error still names the first record that lacks a
    /// byte. By then, at most 4,112 bytes were read after the event at which that record had to be written. At every
    /// other ending, all records that had to be written before it are written, and no byte is read past what the ending
    /// needs.
    pub fn pass<S: Source, K: Sink>(&mut self, source: &mut S, out: &mut K) -> SlimEnding
        requires { self.old ≡ first_window short_height }
        ensures ends { EndsSlim (streams (S.left source.old) (S.faults source.old) (K.held out.old))
            (streams (S.left source.new) (S.faults source.new) (K.held out.new)) result }
        ensures known { IsEnding result }
        ensures read_cause { MayReadFault result → Rose (S.faults source.old) (S.faults source.new) }
        ensures write_cause { MayWriteFault result → Rose (K.faults out.old) (K.faults out.new) }
        ensures read_faults { S.faults source.old ≤ S.faults source.new }
        ensures write_faults { K.faults out.old ≤ K.faults out.new }
    {
        pass_on(&mut self.window, source, out)
    }
}

// Does what [`Slim::pass`] does, with the given window.
fn pass_on<S: Source, K: Sink>(window: &mut Waiting, source: &mut S, out: &mut K) -> SlimEnding
    requires { window.old ≡ first_window short_height }
    ensures ends { EndsSlim (streams (S.left source.old) (S.faults source.old) (K.held out.old))
        (streams (S.left source.new) (S.faults source.new) (K.held out.new)) result }
    ensures known { IsEnding result }
    ensures reads { Causes (MayReadFault result) (S.faults source.old) (S.faults source.new) }
    ensures writes { Causes (MayWriteFault result) (K.faults out.old) (K.faults out.new) }
{
    let mut reader = EventReader::new();
    let mut next = reader.next(source);
    // If no header was read, there are no events and nothing is written.
    let version = reader.version().max(1);
    raise(window, version);
    let mut draft = Draft::new(version, 0);
    let mut count = 0;
    let mut since = 0;
    'events: loop {
        match next {
            Ok(event) => {
                match take_event(window, event, &mut draft, count, out) {
                    Ok(()) => {}
                    Err(ending) => return ending,
                }
                count += 1;
                match write_at_pause(&reader, source, since, &mut draft.buffered, out) {
                    Ok(offset) => since = offset,
                    Err(event) => return SlimEnding::WriteFailed { event },
                }
                next = next_event(&mut reader, source, &draft.buffered);
            }
            Err(stop) => return finish(window, stop, &mut draft, count, out),
        }
    }
}

// Extends video memory to 1024 rows if captures of this version are replayed with them.
fn raise(window: &mut Waiting, version: u8)
    requires { window.old ≡ first_window short_height }
    ensures { window.new ≡ first_window (height_for version) }
{
    if version == TALL_VERSION {
        window.set_tall();
    }
}
