// A reader of captures, which returns one event a call and keeps its stop.
ghost use Rattle.std.specs.Prelude.{◌≡◌, ◌≤◌, ◌<◌, ◌+◌, ◌*◌, ◌%◌, ◌^◌, [], ◌∷◌, false, None, min};
ghost use Rattle.std.specs.Prelude.{IfOk, IfErr, OnOk};
ghost use Rattle.dev_io.specs.Device.{Rose};
ghost use Rattle.gpu_capture.specs.Record.{IsEvent};
ghost use Rattle.gpu_capture.specs.Reader.{StopsAt, Takes, CountsFaults, IsReadFault, IsStart, reader_input, work_left};
ghost use Rattle.gpu_capture.specs.Reader.{tag_expected};
ghost use Rattle.gpu_capture.specs.Capture.{IsVersion};
ghost use Rattle.gpu_capture.specs.Limit.{IsAtHand};
ghost use Rattle.gpu_capture.specs.State.{KeepsStop};
ghost use Rattle.gpu_capture.specs.Words.{TakesWords, StopsAfter, GoesOn, gp0_left};

use crate::block::WordBlock;
use crate::event::{Event, Stop};
use crate::open_words::gp0_left;
use crate::progress::{Progress, advance, at_tag};
use crate::record::Expected;
use crate::write::RECORD_MOST;
use dev_io::Source;
use std::marker::Model;

/// After this many bytes, buffered output is written before the next event is read.
const FEW: u32 = 4096;

/// Reads the events of a capture, one a call.
///
/// In contracts, a reader is its state and the stop that it has returned. The bytes read and any rest mean the events
/// returned, and then what the rest means from the reader's position on.
#[derive(Drop)]
pub struct EventReader {
    progress: Progress,
    stop: Option<Stop>,
}

impl Model for EventReader {
    ghost use Rattle.gpu_capture.specs.Reader.{IsProgress};
    ghost use Rattle.gpu_capture.specs.State.{ReaderState};

    ghost Value = { ReaderState };

    ghost view = { λ r. record { progress = r.progress; stop = r.stop } };

    ghost invariant = { λ r. IsProgress r.progress };
}

impl EventReader {
    /// Returns a reader at the start of a capture. Allocates no memory.
    #[tactic(auto, unfolding(crate::specs::Reader::work_left))]
    pub fn new() -> Self
        ensures start { IsStart result.progress }
        ensures work { work_left result.progress < 2 ^ 51 }
        ensures stop { result.stop ≡ None }
    {
        EventReader {
            progress: Progress {
                version: 0,
                offset: 0,
                expected: Expected::Tag,
                repeated: Event::Stat,
                left: 0,
            },
            stop: None,
        }
    }

    /// Returns a reader of `version` that reads a tag next. `byte` is its offset in the capture: a multiple of 4, at
    /// least 8, at most 2^30.
    #[tactic(auto, unfolding(crate::specs::Reader::work_left))]
    pub fn at(version: u8, byte: u32) -> Self
        requires version { IsVersion version }
        requires whole { byte % 4 ≡ 0 }
        requires after_head { (8 ≤ byte) × (byte ≤ 2 ^ 30) }
        ensures offset { result.progress ≡ tag_expected version byte }
        ensures work { work_left result.progress < 2 ^ 51 }
        ensures stop { result.stop ≡ None }
    {
        EventReader {
            progress: at_tag(version, byte),
            stop: None,
        }
    }

    /// Returns the version of the capture, 0 until the header is read.
    pub fn version(&self) -> u8
        ensures value { result ≡ self.now.progress.version }
        ensures known { result ≤ 3 }
    {
        self.progress.version
    }

    /// Returns the byte offset of the next word: 0 until the header is read.
    pub fn offset(&self) -> u32
        ensures { result ≡ self.now.progress.offset }
    {
        self.progress.offset
    }

    /// Returns how many words are left in an open Gp0 record, and 0 if none is open.
    pub fn words_left(&self) -> u32
        ensures { result ≡ gp0_left self.now.progress.expected }
    {
        gp0_left(self.progress.expected)
    }

    /// Returns whether buffered output should be written before the next event is read: if the source may have to wait
    /// for that event, or if 4,096 bytes or more were read after offset `since`.
    pub fn pauses<S: Source>(&self, source: &S, since: u32) -> bool
        ensures waits { result ≡ false → IsAtHand self.now.progress (S.at_hand source.now) }
        ensures few { result ≡ false → self.now.progress.offset < since + 4096 }
    {
        let waits = self.progress.left == 0 && source.ready() < RECORD_MOST;
        waits || self.progress.offset >= since.saturating_add(FEW)
    }

    /// Returns the next event. Reads no byte after those that decide the event or the stop. After a stop, every call
    /// returns the same stop and reads nothing.
    pub fn next<S: Source>(&mut self, source: &mut S) -> Result<Event, Stop>
        ensures takes { IfOk result (λ event. Takes (reader_input self.old.progress (S.left source.old))
            (reader_input self.new.progress (S.left source.new)) (event ∷ [])) }
        ensures event { IfOk result IsEvent }
        ensures forward { OnOk result (work_left self.new.progress < work_left self.old.progress) }
        ensures version { OnOk result (1 ≤ self.new.progress.version) }
        ensures stop { self.old.stop ≡ None → IfErr result (StopsAt (reader_input self.old.progress (S.left source.old))
            (reader_input self.new.progress (S.left source.new))) }
        ensures keeps { KeepsStop self.old self.new source.old source.new result }
        ensures cause { self.old.stop ≡ None → IfErr result (λ stop.
            IsReadFault stop → Rose (S.faults source.old) (S.faults source.new)) }
        ensures faults { S.faults source.old ≤ S.faults source.new }
    {
        if let Some(stop) = self.stop {
            return Err(stop);
        }
        match advance(&mut self.progress, source) {
            Ok(event) => Ok(event),
            Err(stop) => {
                self.stop = Some(stop);
                Err(stop)
            }
        }
    }

    /// Replaces the words of `block` by the next words of an open Gp0 record. Each is one event. Their number is the
    /// least of `most`, 512, the words left in the record, and the words that fit below byte offset 2^30. It is 0 if no
    /// Gp0 record is open.
    ///
    /// If the source ends or fails first, `block` has the complete words read before, and the stop is returned. No
    /// event of such a record can be refused, so no byte is read too early. The reader must not have stopped.
    pub fn words<S: Source>(
        &mut self,
        source: &mut S,
        most: usize,
        block: &mut WordBlock,
    ) -> Result<(), Stop>
        requires { self.old.stop ≡ None }
        ensures takes { OnOk result (TakesWords (reader_input self.old.progress (S.left source.old))
            (reader_input self.new.progress (S.left source.new)) block.new) }
        ensures few { self.new.progress.offset ≤ self.old.progress.offset + min (4 * most) 2048 }
        ensures goes_on { GoesOn self.old.progress self.new.progress }
        ensures stop { IfErr result (StopsAfter (reader_input self.old.progress (S.left source.old))
            (reader_input self.new.progress (S.left source.new)) block.new) }
        ensures keeps { KeepsStop self.old self.new source.old source.new result }
        ensures faults { CountsFaults IsReadFault (S.faults source.old) (S.faults source.new) result }
    {
        self.stop = block.take(&mut self.progress, source, most).err();
        match self.stop {
            None => Ok(()),
            Some(stop) => Err(stop),
        }
    }
}
