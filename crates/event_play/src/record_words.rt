// Words of a Gp0 record that are played as one block.
ghost use Rattle.std.specs.Prelude.{◌≡◌, ◌≤◌, ◌+◌, [], ◌∷◌, None, IfErr, IfSome, OnOk, length, take};
ghost use Rattle.gpu_capture.specs.Reader.{CountsFaults, IsReadFault, reader_input};
ghost use Rattle.gpu_capture.specs.Words.{TakesWords, StopsAfter, GoesOn};
ghost use Rattle.gpu_capture.specs.declared.event.Event.TheVariants.{Gp0};
ghost use Rattle.event_play.specs.Lines.{IsBuffered};
ghost use Rattle.event_play.specs.PlayedWords.{IsUnwatched};
ghost use Rattle.event_play.specs.Reading.{AreBlockOf, ReadsBlock, StopsInBlock};

use crate::ending::Mode;
use dev_io::Source;
use gpu_capture::{Event, EventReader, Stop, WordBlock};
use std::marker::Model;

/// Words of a Gp0 record that are played as one block, at most 513: the word of an event that was read, and the next
/// words of its record.
///
/// In contracts, the value is the list of its words.
#[derive(Drop)]
pub(crate) struct RecordWords {
    words: [u32; 513],
    count: usize,
    next_words: WordBlock,
}

impl Model for RecordWords {
    ghost use Rattle.std.specs.Prelude.{◌≤◌, List, ℕ, take};

    ghost Value = { List ℕ };

    ghost view = { λ r. take r.count r.words };

    ghost invariant = { λ r. r.count ≤ 513 };
}

impl RecordWords {
    /// Returns no words.
    pub(crate) fn new() -> RecordWords
        ensures { result ≡ [] }
    {
        RecordWords {
            words: [0; 513],
            count: 0,
            next_words: WordBlock::new(),
        }
    }

    /// The words, in order.
    pub(crate) fn as_slice(&self) -> &[u32]
        ensures { result.now ≡ self.now }
    {
        &self.words[..self.count]
    }

    /// Replaces the words by the word of `event`, which was just read, and the next words of its Gp0 record: in mode
    /// `List` those at hand, otherwise as many as fit. If the reader stops after them, returns the stop; the words read
    /// are kept nevertheless. There are no words, and nothing is read, if `event` is played on its own: no Gp0 record
    /// is open after it, or the mode is `Pixel`.
    pub(crate) fn read<S: Source>(
        &mut self,
        reader: &mut EventReader,
        source: &mut S,
        event: Event,
        mode: Mode,
    ) -> Result<(), Stop>
        requires { reader.old.stop ≡ None }
        ensures block { AreBlockOf mode event self.new }
        ensures goes_on { GoesOn reader.old.progress reader.new.progress }
        ensures few { IsBuffered mode → reader.new.progress.offset ≤ reader.old.progress.offset + 2048 }
        ensures waits { IsBuffered mode
            → reader.new.progress.offset ≤ reader.old.progress.offset + S.at_hand source.old }
        ensures reads { OnOk result (ReadsBlock (reader_input reader.old.progress (S.left source.old))
            (reader_input reader.new.progress (S.left source.new)) self.new) }
        ensures runs_on { OnOk result (reader.new.stop ≡ None) }
        ensures stop { IfErr result (StopsInBlock (reader_input reader.old.progress (S.left source.old))
            (reader_input reader.new.progress (S.left source.new)) self.new) }
        ensures faults { CountsFaults IsReadFault (S.faults source.old) (S.faults source.new) result }
    {
        self.count = 0;
        match block_word(event, reader.words_left(), mode) {
            None => Ok(()),
            Some(word) => {
                let read = read_words(reader, source, mode, &mut self.next_words);
                self.count = put_words(&mut self.words, word, self.next_words.as_slice());
                read
            }
        }
    }
}

// Returns the word of an event written to GP0 if `left` words of its record are left, at least one, and the mode is not
// `Pixel`.
fn block_word(event: Event, left: u32, mode: Mode) -> Option<u32>
    ensures { IfSome result (λ word. (event ≡ Gp0 word) × IsUnwatched mode) }
{
    if left == 0 {
        return None;
    }
    match mode {
        Mode::Pixel { .. } => None,
        _ => match event {
            Event::Gp0 { word } => Some(word),
            _ => None,
        },
    }
}

// Reads the next words of a Gp0 record: in mode `List` those at hand, otherwise as many as fit. If the reader stops
// after them, returns the stop; the words read are in `block` nevertheless.
fn read_words<S: Source>(
    reader: &mut EventReader,
    source: &mut S,
    mode: Mode,
    block: &mut WordBlock,
) -> Result<(), Stop>
    requires stop { reader.old.stop ≡ None }
    requires unwatched { IsUnwatched mode }
    ensures goes_on { GoesOn reader.old.progress reader.new.progress }
    ensures few { reader.new.progress.offset ≤ reader.old.progress.offset + 2048 }
    ensures waits { IsBuffered mode
        → reader.new.progress.offset ≤ reader.old.progress.offset + S.at_hand source.old }
    ensures takes { OnOk result (TakesWords (reader_input reader.old.progress (S.left source.old))
        (reader_input reader.new.progress (S.left source.new)) block.new) }
    ensures room { length block.new ≤ 512 }
    ensures runs_on { OnOk result (reader.new.stop ≡ None) }
    ensures stop { IfErr result (StopsAfter (reader_input reader.old.progress (S.left source.old))
        (reader_input reader.new.progress (S.left source.new)) block.new) }
    ensures faults { CountsFaults IsReadFault (S.faults source.old) (S.faults source.new) result }
{
    let most = match mode {
        Mode::List => source.ready() / 4,
        _ => usize::MAX,
    };
    reader.words(source, most, block)
}

// Stores `first` and the words after it at the start of `words`, and returns their number. There must be room.
fn put_words(words: &mut [u32; 513], first: u32, more: &[u32]) -> usize
    requires { length more.now ≤ 512 }
    ensures count { result ≡ 1 + length more.now }
    ensures words { take result words.new ≡ first ∷ more.now }
{
    let count = 1 + more.len();
    words[0] = first;
    words[1..count].copy_from_slice(more);
    count
}
