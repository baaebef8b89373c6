// Bulk reads of words of a Gp0 record.
ghost use Rattle.std.specs.Prelude.{◌≡◌, ◌≤◌, ◌+◌, ◌*◌, ◌/◌, ◌%◌, List, ℕ, Option, []};
ghost use Rattle.std.specs.Prelude.{length, drop, min, IfErr, OnOk};
ghost use Rattle.dev_io.specs.Device.{prepended};
ghost use Rattle.gpu_capture.specs.Reader.{CountsFaults, IsProgress, IsReadFault, reader_input};
ghost use Rattle.gpu_capture.specs.Words.{TakesWords, StopsAfter, CanTake, StaysWithin, progress_after_words};

use crate::event::Stop;
use crate::open_words::{progress_after_words, words_at_once};
use crate::progress::Progress;
use arrayvec::ArrayVec;
use byteorder::{ByteOrder, LittleEndian};
use dev_io::{Source, fill};
use std::marker::Model;

/// The words of one bulk read of a Gp0 record, at most 512, with a byte buffer for them.
///
/// In contracts, a block is the list of its words.
#[derive(Drop)]
pub struct WordBlock {
    bytes: [u8; 2048],
    words: ArrayVec<u32, 512>,
}

impl Model for WordBlock {
    ghost use Rattle.std.specs.Prelude.{List, ℕ};

    ghost Value = { List ℕ };

    ghost view = { λ b. b.words.items };
}

impl WordBlock {
    /// Returns an empty block.
    pub fn new() -> WordBlock
        ensures { result ≡ [] }
    {
        WordBlock {
            bytes: [0; 2048],
            words: ArrayVec::new(),
        }
    }

    /// The words, in order.
    pub fn as_slice(&self) -> &[u32]
        ensures { result.now ≡ self.now }
    {
        self.words.as_slice()
    }

    /// Removes all words.
    pub fn clear(&mut self)
        ensures { self.new ≡ [] }
    {
        self.words.clear();
    }

    /// Replaces the words by the next words of an open Gp0 record. Their number is the least of `most`, 512, the words
    /// left in the record, and the words that fit below byte offset 2^30. It is 0 if no Gp0 record is open. If the
    /// source ends or fails first, keeps the complete words read so far and returns the stop.
    pub(crate) fn take<S: Source>(
        &mut self,
        progress: &mut Progress,
        source: &mut S,
        most: usize,
    ) -> Result<(), Stop>
        requires { IsProgress progress.old }
        ensures takes { OnOk result (TakesWords (reader_input progress.old (S.left source.old))
            (reader_input progress.new (S.left source.new)) self.new) }
        ensures stays { StaysWithin progress.old progress.new }
        ensures few { progress.new.offset ≤ progress.old.offset + min (4 * most) 2048 }
        ensures stop { IfErr result (StopsAfter (reader_input progress.old (S.left source.old))
            (reader_input progress.new (S.left source.new)) self.new) }
        ensures faults { CountsFaults IsReadFault (S.faults source.old) (S.faults source.new) result }
    {
        self.words.clear();
        let expected = words_at_once(progress).min(most);
        if expected == 0 {
            return Ok(());
        }
        let WordBlock { bytes, words } = self;
        take_words(progress, source, expected, bytes, words)
    }
}

/// Reads the next `count` words of the open record into `words`, with `bytes` as buffer.
fn take_words<S: Source>(
    progress: &mut Progress,
    source: &mut S,
    count: usize,
    bytes: &mut [u8; 2048],
    words: &mut ArrayVec<u32, 512>,
) -> Result<(), Stop>
    requires can { CanTake progress.old count }
    requires empty { words.old.items ≡ [] }
    ensures takes { OnOk result (TakesWords (reader_input progress.old (S.left source.old))
        (reader_input progress.new (S.left source.new)) words.new.items) }
    ensures stays { StaysWithin progress.old progress.new }
    ensures few { progress.new.offset ≤ progress.old.offset + 4 * count }
    ensures stop { IfErr result (StopsAfter (reader_input progress.old (S.left source.old))
        (reader_input progress.new (S.left source.new)) words.new.items) }
    ensures faults { CountsFaults IsReadFault (S.faults source.old) (S.faults source.new) result }
{
    fill_words(progress, source, &mut bytes[..4 * count], words)
}

/// Fills `bytes` from the source and appends its complete words to `words`. If the source ends or fails first, does so
/// with the bytes read and returns the stop.
fn fill_words<S: Source>(
    progress: &mut Progress,
    source: &mut S,
    bytes: &mut [u8],
    words: &mut ArrayVec<u32, 512>,
) -> Result<(), Stop>
    requires can { CanTake progress.old (length bytes.old / 4) }
    requires whole { length bytes.old % 4 ≡ 0 }
    requires empty { words.old.items ≡ [] }
    ensures takes { OnOk result (TakesWords (reader_input progress.old (S.left source.old))
        (reader_input progress.new (S.left source.new)) words.new.items) }
    ensures stays { StaysWithin progress.old progress.new }
    ensures few { progress.new.offset ≤ progress.old.offset + length bytes.old }
    ensures stop { IfErr result (StopsAfter (reader_input progress.old (S.left source.old))
        (reader_input progress.new (S.left source.new)) words.new.items) }
    ensures faults { CountsFaults IsReadFault (S.faults source.old) (S.faults source.new) result }
{
    let offset = progress.offset;
    match fill(source, bytes) {
        Ok(n) => {
            read_words(progress, &bytes[..n], words);
            if n < bytes.len() {
                Err(Stop::Truncated {
                    byte: offset + n as u32,
                })
            } else {
                Ok(())
            }
        }
        Err(n) => {
            read_words(progress, &bytes[..n], words);
            Err(Stop::ReadFault {
                byte: offset + n as u32,
            })
        }
    }
}

/// Appends the complete words of `bytes` to `words` and advances `progress` past them. Ignores up to 3 bytes at the
/// end.
fn read_words(progress: &mut Progress, bytes: &[u8], words: &mut ArrayVec<u32, 512>)
    requires can { CanTake progress.old (length bytes.now / 4) }
    requires empty { words.old.items ≡ [] }
    ensures takes { (now : Option (List ℕ)) → TakesWords (reader_input progress.old (prepended bytes.now now))
        (reader_input progress.new (prepended (drop (4 * (length bytes.now / 4)) bytes.now) now)) words.new.items }
    ensures offset { progress.new ≡ progress_after_words progress.old (length bytes.now / 4) }
    ensures stays { StaysWithin progress.old progress.new }
{
    let count = bytes.len() / 4;
    for i in 0..count {
        words.push(LittleEndian::read_u32(&bytes[4 * i..]));
    }
    *progress = progress_after_words(progress, count as u32);
}
