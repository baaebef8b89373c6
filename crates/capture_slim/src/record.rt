// Writes the records of the events that stay.
ghost use Rattle.std.specs.Prelude.{◌≡◌, ◌≤◌, ◌<◌, ◌+◌, ◌*◌, ◌^◌, ◌++◌, ◌∷◌, [], List, ℕ, Option, Some, length, IfErr};
ghost use Rattle.std.specs.Prelude.{MatchResult, OnOk};
ghost use Rattle.dev_io.specs.Device.{Writes, side};
ghost use Rattle.gathered_out.specs.Causes.{Causes};
ghost use Rattle.gpu_capture.specs.Capture.{IsVersion};
ghost use Rattle.gpu_capture.specs.Written.{spelled};
ghost use Rattle.gpu_capture.specs.declared.event.Event.{Event as SpecEvent};
ghost use Rattle.event_play.specs.Ports.{IsAtPorts};
ghost use Rattle.gpu_capture.specs.Draft.{IsOpen, end_at};
ghost use Rattle.capture_slim.specs.File.{AreFrom, EndsTooLong, FailsNext, IsDraft, LacksFrom, due};
ghost use Rattle.capture_slim.specs.File.{output_of};
ghost use Rattle.capture_slim.specs.Passing.{EndsWriting, MayWriteFault, IsWriteEnding};

use crate::ending::SlimEnding;
use arrayvec::ArrayVec;
use dev_io::{Failed, Sink, write_all};
use gathered_out::OutputBuffer;
use gpu_capture::{CaptureFile, Draft, Event, RECORD_MOST, WITH_HEAD_MOST, record_bytes};

// Returns the record of a port event.
fn port_record(event: &Event) -> ArrayVec<u8, RECORD_MOST>
    requires { IsAtPorts event.now }
    ensures { result.items ≡ spelled event.now }
{
    match *event {
        Event::Gp0 { .. } | Event::Gp1 { .. } | Event::Read | Event::Stat | Event::Skip => {
            record_bytes(event)
        }
        _ => unreachable!(),
    }
}

// Returns the record of a port event, after the file header if the file is empty.
fn due_bytes(file: CaptureFile, event: &Event) -> ArrayVec<u8, WITH_HEAD_MOST>
    requires version { IsVersion file.version }
    requires event { IsAtPorts event.now }
    ensures value { result.items ≡ due file event.now }
    ensures few { length result.items ≤ 24 }
{
    file.with_head(port_record(event).as_slice())
}

/// Writes the End record, after the file header if there was no record before.
pub(crate) fn write_last<K: Sink>(out: &mut K, file: CaptureFile) -> Result<(), Failed>
    requires version { IsVersion file.version }
    ensures { Writes (side K.held K.faults) out.old out.new (end_at file) result }
{
    write_all(out, file.end().as_slice())
}

// Flushes the buffer and returns `TooLong` at event `number`, or `WriteFailed` if the flush fails.
fn end_too_long<K: Sink>(buffered: &mut OutputBuffer, number: u64, out: &mut K) -> SlimEnding
    ensures ends { EndsTooLong buffered.old (K.held out.old) (K.held out.new) number result }
    ensures late { (least : ℕ) → AreFrom least buffered.old → LacksFrom least result }
    ensures known { IsWriteEnding result }
    ensures causes { Causes (MayWriteFault result) (K.faults out.old) (K.faults out.new) }
{
    match buffered.write(out) {
        Ok(()) => SlimEnding::TooLong { event: number },
        Err(event) => SlimEnding::WriteFailed { event },
    }
}

/// Buffers the record of `event`, which has number `number`, and flushes the buffer before if it has no room. If the
/// file with it and an End record would pass 2^30 bytes, flushes the buffer and returns `TooLong`. If a write fails,
/// returns `WriteFailed` at the first record that lacks a byte. Requires a port event, and room for an End record.
pub(crate) fn add_record<K: Sink>(
    draft: &mut Draft,
    number: u64,
    event: &Event,
    out: &mut K,
) -> Result<(), SlimEnding>
    requires file { IsOpen draft.old.file }
    requires event { IsAtPorts event.now }
    ensures ok { (base : Option (List ℕ)) (outs : List (Option SpecEvent))
        → IsDraft draft.old base (K.held out.old) outs
        → number ≡ length outs + 1
        → OnOk result (IsDraft draft.new base (K.held out.new) (outs ++ Some event.now ∷ [])) }
    ensures ends { (base : Option (List ℕ)) (outs : List (Option SpecEvent))
        → IsDraft draft.old base (K.held out.old) outs
        → number ≡ length outs + 1
        → IfErr result (FailsNext (output_of draft.old base (K.held out.new)) outs event.now) }
    ensures late { (least : ℕ) → AreFrom least draft.old.buffered → least ≤ number
        → MatchResult result (λ _. AreFrom least draft.new.buffered) (LacksFrom least) }
    ensures few { OnOk result (draft.new.file.size + 4 ≤ 2 ^ 30) }
    ensures version { draft.new.file.version ≡ draft.old.file.version }
    ensures writing { EndsWriting (K.faults out.old) (K.faults out.new) result }
{
    let bytes = due_bytes(draft.file, event);
    if !draft.file.has_room(bytes.len() as u32) {
        return Err(end_too_long(&mut draft.buffered, number, out));
    }
    match draft.put(number, bytes.as_slice(), out) {
        Ok(()) => Ok(()),
        Err(event) => Err(SlimEnding::WriteFailed { event }),
    }
}
