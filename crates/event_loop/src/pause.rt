// Buffered output is written before a read that may have to wait.
ghost use Rattle.std.specs.Prelude.{◌≡◌, ◌≤◌, ◌⊎◌, [], ◌∷◌, None, IfErr, IfOk, OnOk};
ghost use Rattle.dev_io.specs.Device.{Rose};
ghost use Rattle.gathered_out.specs.Causes.{Causes, Fails};
ghost use Rattle.gathered_out.specs.Puts.{BreaksWriting, holding};
ghost use Rattle.gpu_capture.specs.Limit.{IsAtHand};
ghost use Rattle.gpu_capture.specs.Reader.{IsReadFault, StopsAt, Takes, reader_input};
ghost use Rattle.gpu_capture.specs.State.{KeepsStop};
ghost use Rattle.event_loop.specs.Pausing.{GivesEvent, Pauses};

use dev_io::{Sink, Source};
use gathered_out::OutputBuffer;
use gpu_capture::{Event, EventReader, Stop};

/// Flushes `buffered` if `reader.pauses(source, since)`. So nothing is buffered when the next event has to wait for a
/// byte. `since` is the byte offset of the reader at the last flush. Returns the offset at the latest flush. On
/// failure, returns the number of the first event whose output is incomplete.
pub fn write_at_pause<S: Source, K: Sink>(
    reader: &EventReader,
    source: &S,
    since: u32,
    buffered: &mut OutputBuffer,
    out: &mut K,
) -> Result<u32, u64>
    ensures ok { IfOk result (Pauses reader.now.progress.offset since
        (holding (K.held out.old) buffered.old) (holding (K.held out.new) buffered.new)) }
    ensures waits { OnOk result ((buffered.new ≡ []) ⊎ IsAtHand reader.now.progress (S.at_hand source.now)) }
    ensures failed { IfErr result (BreaksWriting (K.held out.old) (K.held out.new) buffered.old) }
    ensures causes { Causes (Fails result) (K.faults out.old) (K.faults out.new) }
{
    if reader.pauses(source, since) {
        match buffered.write(out) {
            Ok(()) => Ok(reader.offset()),
            Err(lacking) => Err(lacking),
        }
    } else {
        Ok(since)
    }
}

/// Returns the next event, as `EventReader::next` does. `buffered` is the output that is not written yet. Unless it is
/// empty, the event must wait for no byte. So no output is held back while a source waits for its next event.
pub fn next_event<S: Source>(
    reader: &mut EventReader,
    source: &mut S,
    buffered: &OutputBuffer,
) -> Result<Event, Stop>
    requires waits { (buffered.now ≡ []) ⊎ IsAtHand reader.old.progress (S.at_hand source.old) }
    ensures takes { IfOk result (λ event. Takes (reader_input reader.old.progress (S.left source.old))
        (reader_input reader.new.progress (S.left source.new)) (event ∷ [])) }
    ensures gives { GivesEvent reader.old.progress reader.new.progress result }
    ensures stop { reader.old.stop ≡ None → IfErr result
        (StopsAt (reader_input reader.old.progress (S.left source.old))
        (reader_input reader.new.progress (S.left source.new))) }
    ensures keeps { KeepsStop reader.old reader.new (S.left source.old) (S.left source.new) result }
    ensures cause { reader.old.stop ≡ None → IfErr result
        (λ stop. IsReadFault stop → Rose (S.faults source.old) (S.faults source.new)) }
    ensures faults { S.faults source.old ≤ S.faults source.new }
{
    let _ = buffered;
    reader.next(source)
}
