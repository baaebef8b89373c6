// The loop over the events of a source.
ghost use Rattle.std.specs.Prelude.{◌≡◌, ◌≤◌, ◌<◌, ◌+◌, ◌*◌, ◌⊎◌, ℕ, List, [], None};
ghost use Rattle.dev_io.specs.Device.{Rose};
ghost use Rattle.gathered_out.specs.Pieces.{Piece};
ghost use Rattle.gpu_capture.specs.Reader.{capture_from};
ghost use Rattle.gpu_capture.specs.declared.event.Event.{Event as SpecEvent};
ghost use Rattle.event_loop.specs.Ending.{Ends, MayReadFault, MayWriteFault, IsEnding, held_at, matter, taker};

use crate::ended::Ended;
use crate::passage::Passage;
use crate::pause::{next_event, write_at_pause};
use crate::stop::{end_after, end_reading};
use dev_io::{Sink, Source};
use gathered_out::OutputBuffer;
use gpu_capture::{EventReader, WordBlock};

/// Passes the events of `source` to `passage`, from the state of `reader` on, and writes their output to `out`.
///
/// Output is buffered, up to 4,096 bytes. It is written if there is no room for more, before a read that may have to
/// wait, and before every ending. So a write may fail while a later event is processed. The ending still names the
/// first event whose output is incomplete. By then, at most 4,112 bytes after that event were read.
pub fn pass_all<P: Passage, S: Source, K: Sink>(
    passage: &mut P,
    reader: &mut EventReader,
    source: &mut S,
    out: &mut K,
) -> Ended<P::Refusal>
    requires { reader.old.stop ≡ None }
    // This holds for every start value of `passage`, and for the version of the capture that is read.
    ensures ends { (s : P.Start) → P.begins passage.old s → (version : ℕ) × Ends
        (matter (capture_from reader.old.progress) version (P.due s version) (P.knows s version) (P.most s version)
        (P.closing s version))
        (taker (P.stands passage.new s version) (λ events stop. P.closes s version events stop passage.new)
        (λ events event why. P.refuses s version events event passage.new why)
        (λ events stop why. P.refuses_stop s version events stop passage.new why)
        (λ events. P.breaks s version events passage.new) (P.number s version))
        (S.left source.old) (S.left source.new) (held_at (K.held out.old) (K.held out.new)) result }
    ensures known { IsEnding result }
    ensures read_cause { MayReadFault result → Rose (S.faults source.old) (S.faults source.new) }
    ensures write_cause { MayWriteFault result → Rose (K.faults out.old) (K.faults out.new) }
    ensures read_faults { S.faults source.old ≤ S.faults source.new }
    ensures write_faults { K.faults out.old ≤ K.faults out.new }
    ensures same { P.same passage.old passage.new }
{
    let mut block = WordBlock::new();
    let mut buffered = OutputBuffer::new();
    let mut next = next_event(reader, source, &buffered);
    let version = reader.version();
    passage.begin(version);
    let mut since = reader.offset();
    'events: loop {
        match next {
            Ok(event) => {
                match passage.take(&event, &mut buffered, out) {
                    Ok(()) => {}
                    Err(halt) => return end_after(halt, &mut buffered, out),
                }
                match write_at_pause(reader, source, since, &mut buffered, out) {
                    Ok(offset) => since = offset,
                    Err(event) => return Ended::WriteFailed { event },
                }
                let most = words_at_once(passage, reader, source, since);
                let read = reader.words(source, most, &mut block);
                if let Err(event) = passage.take_words(block.as_slice(), &mut buffered, out) {
                    return Ended::WriteFailed { event };
                }
                if let Err(stop) = read {
                    return end_reading(passage, stop, &mut buffered, out);
                }
                match write_at_pause(reader, source, since, &mut buffered, out) {
                    Ok(offset) => since = offset,
                    Err(event) => return Ended::WriteFailed { event },
                }
                next = next_event(reader, source, &buffered);
            }
            Err(stop) => return end_reading(passage, stop, &mut buffered, out),
        }
    }
}

// Returns the most words of the open record that are read at once. The offset after them is less than 4,096 bytes after
// `since`, the offset of the last flush. They wait for no byte, unless `passage` has nothing buffered at any time.
fn words_at_once<P: Passage, S: Source>(
    passage: &P,
    reader: &EventReader,
    source: &S,
    since: u32,
) -> usize
    requires near { reader.now.progress.offset < since + 4096 }
    requires ready { P.ready passage.now [] }
    ensures near { reader.now.progress.offset + 4 * result < since + 4096 }
    ensures may { (n : ℕ) → n ≤ result → P.may_take passage.now n }
    ensures waits { (4 * result ≤ S.at_hand source.now)
        ⊎ ((pieces : List Piece) → P.ready passage.now pieces → pieces ≡ []) }
{
    let near = since.saturating_add(4095).saturating_sub(reader.offset()) / 4;
    let at_hand = source.ready() / 4;
    passage.most_words(at_hand).min(near as usize)
}
