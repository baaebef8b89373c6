// Plays a capture to its end.
ghost use Rattle.std.specs.Prelude.{◌≡◌, ◌≤◌, None, map, ◌+◌, [], ◌<◌, ◌⊎◌, IfErr, IfOk, OnOk};
ghost use Rattle.dev_io.specs.Device.{Rose};
ghost use Rattle.event_play.specs.Causes.{MayReadFault, MayWriteFault, IsEnding};
ghost use Rattle.event_play.specs.PlayInput.{at_end};
ghost use Rattle.event_play.specs.Playing.{EndsPlay};
ghost use Rattle.event_play.specs.Replay.{script_of, script_after, from_state};
ghost use Rattle.event_play.specs.RigState.{Stands};
ghost use Rattle.event_play.specs.Step.{Machine};
ghost use Rattle.event_play.specs.Streams.{streams};
ghost use Rattle.gathered_out.specs.Causes.{Causes, Fails};
ghost use Rattle.gathered_out.specs.Puts.{BreaksWriting, holding};
ghost use Rattle.gpu_capture.specs.Limit.{IsAtHand};
ghost use Rattle.event_loop.specs.Pausing.{Pauses};
ghost use Rattle.event_play.specs.Feeding.{AreSameLines};

use crate::ending::{Ending, Mode, play_ending};
use crate::outlet::Lines;
use crate::record_words::RecordWords;
use crate::rig::Rig;
use crate::rig::events::ReadEvent;
use dev_io::{Sink, Source};
use event_loop::{end_after, next_event, write_at_pause};
use gathered_out::OutputBuffer;
use gpu_capture::EventReader;
use gpu_taps::Listener;
use std::sync::ledger::Ledger;
use vram_store::Steps;

/// A capture that is played: its reader and its source.
#[derive(Drop)]
pub(crate) struct OpenCapture<'a, S: Source> {
    pub(crate) reader: &'a mut EventReader,
    pub(crate) source: &'a mut S,
}

impl Rig {
    /// Plays a capture to its End, from the machine as it is, and writes the output of `mode`. The taps receive every
    /// note. A capture of version 3 is played in the tall profile.
    ///
    /// Lines of items are buffered, up to 4,096 bytes. The buffer is flushed if a line does not fit, before a read that
    /// may wait, after 2,048 bytes of input, and before every ending. A write may fail while a later event is
    /// processed. The error still names the first event whose lines are incomplete. By then, at most 4,112 bytes after
    /// that event were read. All other output is written at its event.
    ///
    /// `Done` means that the capture was whole and all output was written. After every ending except `WriteFailed`, the
    /// rig is as after the events played. If the line of an item cannot be written, all events that were read are
    /// played and count, the named one and those after it too. Of the last one of them, perhaps only the first words
    /// were fed; then it does not count, and the running transfer is as before it. Which words these are is not stated.
    /// If a shown word, a picture or its line cannot be written, its event is the last one read; it is played and
    /// counts.
    pub fn play<S: Source, K: Sink, T: Listener, L: Ledger>(
        &mut self,
        source: &mut S,
        out: &mut K,
        mode: Mode,
        taps: &mut Vec<T>,
        steps: &mut Steps<L>,
    ) -> Ending
        // For every machine that agrees with the rig, playing the capture from it ends like this.
        ensures ends { (s : Machine) → Stands self.old s → EndsPlay mode (script_of (from_state s self.old.played))
            (streams (S.left source.old) (K.held out.old) (map T.heard taps.old.items) steps.old)
            (at_end (streams (S.left source.new) (K.held out.new) (map T.heard taps.new.items) steps.new) self.new)
            result }
        ensures known { IsEnding result }
        ensures read_cause { MayReadFault result → Rose (S.faults source.old) (S.faults source.new) }
        ensures write_cause { MayWriteFault result → Rose (K.faults out.old) (K.faults out.new) }
        ensures read_faults { S.faults source.old ≤ S.faults source.new }
        ensures write_faults { K.faults out.old ≤ K.faults out.new }
    {
        let mut reader = EventReader::new();
        self.play_from(&mut reader, source, out, mode, taps, steps)
    }

    /// Plays the rest of a capture from the reader's offset on, as `play` does with a new reader. The reader must not
    /// have stopped. If the capture has version 3, the rig becomes tall.
    pub fn play_from<S: Source, K: Sink, T: Listener, L: Ledger>(
        &mut self,
        reader: &mut EventReader,
        source: &mut S,
        out: &mut K,
        mode: Mode,
        taps: &mut Vec<T>,
        steps: &mut Steps<L>,
    ) -> Ending
        requires { reader.old.stop ≡ None }
        // For every machine that agrees with the rig, playing from it and from the reader's offset ends like this.
        ensures ends { (s : Machine) → Stands self.old s
            → EndsPlay mode (script_after (from_state s self.old.played) reader.old.progress)
            (streams (S.left source.old) (K.held out.old) (map T.heard taps.old.items) steps.old)
            (at_end (streams (S.left source.new) (K.held out.new) (map T.heard taps.new.items) steps.new) self.new)
            result }
        ensures known { IsEnding result }
        ensures read_cause { MayReadFault result → Rose (S.faults source.old) (S.faults source.new) }
        ensures write_cause { MayWriteFault result → Rose (K.faults out.old) (K.faults out.new) }
        ensures read_faults { S.faults source.old ≤ S.faults source.new }
        ensures write_faults { K.faults out.old ≤ K.faults out.new }
    {
        let mut buffered = OutputBuffer::new();
        let lines = &mut Lines {
            mode,
            buffered: &mut buffered,
            out,
        };
        self.play_rest(&mut OpenCapture { reader, source }, lines, taps, steps)
    }

    /// Plays the rest of a capture, as `play_from` does. The buffer must be empty.
    pub(crate) fn play_rest<S: Source, K: Sink, T: Listener, L: Ledger>(
        &mut self,
        capture: &mut OpenCapture<S>,
        lines: &mut Lines<K>,
        taps: &mut Vec<T>,
        steps: &mut Steps<L>,
    ) -> Ending
        requires stop { capture.old.reader.now.stop ≡ None }
        requires empty { lines.old.buffered.now ≡ [] }
        ensures ends { (s : Machine) → Stands self.old s
            → EndsPlay lines.old.mode (script_after (from_state s self.old.played) capture.old.reader.now.progress)
            (streams (S.left capture.old.source.now) (K.held lines.old.out.now)
            (map T.heard taps.old.items) steps.old)
            (at_end (streams (S.left capture.new.source.now) (K.held lines.new.out.now)
            (map T.heard taps.new.items) steps.new) self.new) result }
        ensures known { IsEnding result }
        ensures reads { Causes (MayReadFault result)
            (S.faults capture.old.source.now) (S.faults capture.new.source.now) }
        ensures writes { Causes (MayWriteFault result)
            (K.faults lines.old.out.now) (K.faults lines.new.out.now) }
        ensures reader { capture.new.reader.ghost_name ≡ capture.old.reader.ghost_name }
        ensures source { capture.new.source.ghost_name ≡ capture.old.source.ghost_name }
        ensures same { AreSameLines lines.old lines.new }
    {
        let mut words = RecordWords::new();
        let mut next = next_event(capture.reader, capture.source, lines.buffered);
        self.raise(capture.reader.version());
        let mut since = capture.reader.offset();
        'events: loop {
            match next {
                Ok(event) => {
                    match write_before_words(capture.reader, since, lines) {
                        Ok(offset) => since = offset,
                        Err(event) => return Ending::WriteFailed { event },
                    }
                    let stopped = words.read(capture.reader, capture.source, event, lines.mode);
                    let read = ReadEvent {
                        event: &event,
                        words: &words,
                    };
                    if let Err(halt) = self.play_read(read, lines, taps, steps) {
                        let ended = end_after(halt, lines.buffered, lines.out);
                        return play_ending(ended, self.next_number());
                    }
                    if let Err(stop) = stopped {
                        return self.end_reading(stop, lines, taps, steps);
                    }
                    match write_before_event(capture.reader, capture.source, since, lines) {
                        Ok(offset) => since = offset,
                        Err(event) => return Ending::WriteFailed { event },
                    }
                    next = next_event(capture.reader, capture.source, lines.buffered);
                }
                Err(stop) => return self.end_reading(stop, lines, taps, steps),
            }
        }
    }
}

/// A block of words has at most this many bytes. It is read only if fewer bytes were read since the last flush.
const BLOCK: u32 = 2048;

/// Flushes the buffer of `lines` before a block of words is read, if at least `BLOCK` bytes were read since the last
/// flush. Argument `since` and results are those of `event_loop::write_at_pause`.
pub(crate) fn write_before_words<K: Sink>(
    reader: &EventReader,
    since: u32,
    lines: &mut Lines<K>,
) -> Result<u32, u64>
    ensures ok { IfOk result (Pauses reader.now.progress.offset since
        (holding (K.held lines.old.out.now) lines.old.buffered.now)
        (holding (K.held lines.new.out.now) lines.new.buffered.now)) }
    ensures near { IfOk result (λ at. reader.now.progress.offset < at + 2048) }
    ensures failed { IfErr result (BreaksWriting (K.held lines.old.out.now) (K.held lines.new.out.now)
        lines.old.buffered.now) }
    ensures causes { Causes (Fails result) (K.faults lines.old.out.now) (K.faults lines.new.out.now) }
    ensures same { AreSameLines lines.old lines.new }
{
    if reader.offset() >= since.saturating_add(BLOCK) {
        match lines.buffered.write(lines.out) {
            Ok(()) => Ok(reader.offset()),
            Err(lacking) => Err(lacking),
        }
    } else {
        Ok(since)
    }
}

/// Flushes the buffer of `lines` before the next event is read, as `event_loop::write_at_pause` does.
pub(crate) fn write_before_event<S: Source, K: Sink>(
    reader: &EventReader,
    source: &S,
    since: u32,
    lines: &mut Lines<K>,
) -> Result<u32, u64>
    ensures ok { IfOk result (Pauses reader.now.progress.offset since
        (holding (K.held lines.old.out.now) lines.old.buffered.now)
        (holding (K.held lines.new.out.now) lines.new.buffered.now)) }
    ensures waits { OnOk result ((lines.new.buffered.now ≡ [])
        ⊎ IsAtHand reader.now.progress (S.at_hand source.now)) }
    ensures failed { IfErr result (BreaksWriting (K.held lines.old.out.now) (K.held lines.new.out.now)
        lines.old.buffered.now) }
    ensures causes { Causes (Fails result) (K.faults lines.old.out.now) (K.faults lines.new.out.now) }
    ensures same { AreSameLines lines.old lines.new }
{
    write_at_pause(reader, source, since, lines.buffered, lines.out)
}
