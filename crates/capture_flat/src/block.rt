// Records of words of an open record that are read as one block.
ghost use Rattle.std.specs.Prelude.{◌≤◌, ◌<◌, ◌*◌};
ghost use Rattle.gathered_out.specs.Causes.{Causes, Fails};
ghost use Rattle.gathered_out.specs.Puts.{holding};
ghost use Rattle.event_play.specs.Listing.{PutsPieces};
ghost use Rattle.capture_flat.specs.Records.{record_pieces};

use dev_io::Sink;
use gathered_out::OutputBuffer;
use gpu_capture::word_record;

/// Adds the records of `words` to the buffer, one event per word, numbered from `played + 1`. On failure, returns the
/// number of the first event whose record is incomplete.
pub(crate) fn put_words<K: Sink>(
    played: u64,
    words: &[u32],
    buffered: &mut OutputBuffer,
    out: &mut K,
) -> Result<(), u64>
    ensures puts { PutsPieces (record_pieces played words.now)
        (holding (K.held out.old) buffered.old) (holding (K.held out.new) buffered.new) result }
    ensures causes { Causes (Fails result) (K.faults out.old) (K.faults out.new) }
{
    let mut number = played;
    for word in words {
        number = number.saturating_add(1);
        if let Err(lacking) = buffered.put(number, &word_record(*word), out) {
            return Err(lacking);
        }
    }
    Ok(())
}
