// Reads the events after the first ones and writes their records.
ghost use Rattle.std.specs.Prelude.{◌≤◌, ◌<◌, ◌+◌, ◌^◌, ℕ, List, IfErr, OnOk};
ghost use Rattle.gathered_out.specs.Causes.{Causes};
ghost use Rattle.gpu_capture.specs.Record.{IsEvent};
ghost use Rattle.gpu_capture.specs.Reader.{IsReadFault};
ghost use Rattle.gpu_capture.specs.Written.{Allows};
ghost use Rattle.gpu_taps.specs.Tally.{Reading};
ghost use Rattle.event_play.specs.RigState.{RigState};
ghost use Rattle.event_play.specs.Streams.{Streams, streams};
ghost use Rattle.capture_cut.specs.Came.{Came, EndsAt, EndsReading, EndsRecord, EndsTooLong, IsReady, PutsRecord};
ghost use Rattle.capture_cut.specs.Came.{reached, writing};
ghost use Rattle.capture_cut.specs.Cut.{CutAt, EndsCut, EndsWriting, IsEnding, MayReadFault, MayWriteFault};
ghost use Rattle.capture_cut.specs.Cut.{WritesOrEnds};

use crate::ending::CutEnding;
use crate::record::allowed;
use dev_io::{Sink, Source};
use event_loop::{next_event, write_at_pause};
use gathered_out::OutputBuffer;
use gpu_capture::{Draft, Event, EventReader, Stop, record_bytes, write_end};

/// The version of the records after a state.
const RECORDS_VERSION: u8 = 2;

/// Reads the events after the first `read`, and writes their records and an End record. `size`: length of the file so
/// far in bytes, at most 2^30 - 4. The reader must not have stopped.
///
/// Records are buffered, up to 4,096 bytes. The buffer is flushed if a record does not fit, before a read that may
/// wait, after 4,096 bytes of input, and before every ending.
pub(crate) fn write_rest<S: Source, K: Sink>(
    reader: &mut EventReader,
    source: &mut S,
    size: u32,
    read: u32,
    out: &mut K,
) -> CutEnding
    requires ready { IsReady reader.old.progress reader.old.stop }
    requires room { size + 4 ≤ 2 ^ 30 }
    ensures ends { (at : CutAt) (before : Streams) (heard : List Reading) (steps : ℕ) (rig : RigState)
        → Came at before (streams (S.left source.old) (K.held out.old) heard steps) rig
        (reached reader.old.progress read size)
        → EndsCut at before (streams (S.left source.new) (K.held out.new) heard steps) rig result }
    ensures known { IsEnding result }
    ensures reads { Causes (MayReadFault result) (S.faults source.old) (S.faults source.new) }
    ensures writes { Causes (MayWriteFault result) (K.faults out.old) (K.faults out.new) }
{
    let mut draft = Draft::new(RECORDS_VERSION, size);
    let mut since = reader.offset();
    let mut number = u64::from(read);
    'events: loop {
        match write_at_pause(reader, source, since, &mut draft.buffered, out) {
            Ok(offset) => since = offset,
            Err(event) => return CutEnding::WriteFailed { event },
        }
        number += 1;
        match next_event(reader, source, &draft.buffered) {
            Ok(event) => match put_record(&mut draft, number, &event, out) {
                Ok(()) => {}
                Err(ending) => return ending,
            },
            Err(stop) => return end_reading(stop, number, &mut draft, out),
        }
    }
}

// Adds the record of event `number` to the file. If the file would be too long with it and an End record, flushes the
// buffer and returns `TooLong`.
fn put_record<K: Sink>(
    draft: &mut Draft,
    number: u64,
    event: &Event,
    out: &mut K,
) -> Result<(), CutEnding>
    requires event { IsEvent event.now }
    requires room { draft.old.file.size + 4 ≤ 2 ^ 30 }
    ensures ok { OnOk result
        (PutsRecord number event.now (writing draft.old (K.held out.old)) (writing draft.new (K.held out.new))) }
    ensures room { OnOk result (draft.new.file.size + 4 ≤ 2 ^ 30) }
    ensures allowed { Allows 2 event.now }
    ensures ends { IfErr result (EndsRecord number event.now (writing draft.old (K.held out.old)) (K.held out.new)) }
    ensures known { WritesOrEnds (K.faults out.old) (K.faults out.new) result }
{
    allowed(*event);
    let bytes = record_bytes(event);
    if !draft.file.has_room(bytes.len() as u32) {
        return Err(end_too_long(number, &mut draft.buffered, out));
    }
    match draft.put(number, bytes.as_slice(), out) {
        Ok(()) => Ok(()),
        Err(event) => Err(CutEnding::WriteFailed { event }),
    }
}

// Ends at a record that would make the file too long. Flushes the buffer first; if that fails, returns `WriteFailed`.
fn end_too_long<K: Sink>(number: u64, buffered: &mut OutputBuffer, out: &mut K) -> CutEnding
    ensures ends { EndsTooLong number buffered.old (K.held out.old) (K.held out.new) result }
    ensures known { EndsWriting (K.faults out.old) (K.faults out.new) result }
{
    match buffered.write(out) {
        Ok(()) => CutEnding::TooLong { event: number },
        Err(event) => CutEnding::WriteFailed { event },
    }
}

// Flushes the buffer, then ends at a stop of the reader. `number`: the number of the next event.
fn end_reading<K: Sink>(stop: Stop, number: u64, draft: &mut Draft, out: &mut K) -> CutEnding
    ensures ends { EndsReading number stop (writing draft.old (K.held out.old)) (K.held out.new) result }
    ensures known { IsEnding result }
    ensures stopped { MayReadFault result → IsReadFault stop }
    ensures causes { Causes (MayWriteFault result) (K.faults out.old) (K.faults out.new) }
{
    match draft.buffered.write(out) {
        Ok(()) => finish(stop, number, out),
        Err(event) => CutEnding::WriteFailed { event },
    }
}

// Ends at a stop of the reader. If it is `End`, writes the End record. `number`: the number of the next event.
fn finish<K: Sink>(stop: Stop, number: u64, out: &mut K) -> CutEnding
    ensures ends { EndsAt number stop (K.held out.old) (K.held out.new) result }
    ensures known { IsEnding result }
    ensures stopped { MayReadFault result → IsReadFault stop }
    ensures causes { Causes (MayWriteFault result) (K.faults out.old) (K.faults out.new) }
{
    match stop {
        Stop::End => match write_end(out) {
            Ok(()) => CutEnding::Done,
            Err(_) => CutEnding::WriteFailed { event: number },
        },
        _ => CutEnding::Stopped {
            event: number,
            stop,
        },
    }
}
