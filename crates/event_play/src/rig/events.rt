// Plays the events of a capture, with their output.
ghost use Rattle.std.specs.Prelude.{map};
ghost use Rattle.event_loop.specs.Halting.{FailsWriting};
ghost use Rattle.gathered_out.specs.Causes.{Causes};
ghost use Rattle.event_play.specs.Ends.{PlaysOrEnds};
ghost use Rattle.event_play.specs.PlayState.{play_state};
ghost use Rattle.event_play.specs.Reading.{PlaysRead};
ghost use Rattle.event_play.specs.Streams.{buffering, outlets};
ghost use Rattle.event_play.specs.Feeding.{AreSameLines};

use crate::fault::EventFault;
use crate::feed::{InEvent, feed_word};
use crate::film::Played;
use crate::finals::write_after;
use crate::outlet::Lines;
use crate::record_words::RecordWords;
use crate::rig::Rig;
use crate::validate::validate;
use dev_io::Sink;
use event_loop::Halt;
use gpu_capture::Event;
use gpu_taps::Listener;
use std::sync::ledger::Ledger;
use vram_store::Steps;

/// An event that was read, and the words that are played as one block, its own among them. There are none if the event
/// is played on its own.
#[derive(Clone, Copy)]
pub(crate) struct ReadEvent<'a> {
    pub(crate) event: &'a Event,
    pub(crate) words: &'a RecordWords,
}

impl Rig {
    /// Plays the words of `read` as one block, one event per word; or its event, if there are no words. Adds or writes
    /// their output. Refuses an event with a fault. If a write fails, returns the number of the first event whose
    /// output is incomplete; the words are all played nevertheless.
    pub(crate) fn play_read<K: Sink, T: Listener, L: Ledger>(
        &mut self,
        read: ReadEvent,
        lines: &mut Lines<K>,
        taps: &mut Vec<T>,
        steps: &mut Steps<L>,
    ) -> Result<(), Halt<EventFault>>
        ensures plays { PlaysRead lines.old.mode read.entry.event.now read.entry.words.now
            (play_state (buffering lines.old.buffered.now
            (outlets (K.held lines.old.out.now) (K.faults lines.old.out.now)
            (map T.heard taps.old.items) steps.old)) self.old)
            (play_state (buffering lines.new.buffered.now
            (outlets (K.held lines.new.out.now) (K.faults lines.new.out.now)
            (map T.heard taps.new.items) steps.new)) self.new) result }
        ensures causes { Causes (FailsWriting result) (K.faults lines.old.out.now) (K.faults lines.new.out.now) }
        ensures same { AreSameLines lines.old lines.new }
    {
        let words = read.words.as_slice();
        if words.is_empty() {
            return self.play_event(*read.event, lines, taps, steps);
        }
        match self.play_words(words, lines, taps, steps) {
            Ok(()) => Ok(()),
            Err(event) => Err(Halt::Lacks { event }),
        }
    }

    // Plays one event, and adds or writes its output. Refuses an event with a fault. If a write fails, returns the
    // number of the first event whose output is incomplete.
    fn play_event<K: Sink, T: Listener, L: Ledger>(
        &mut self,
        event: Event,
        lines: &mut Lines<K>,
        taps: &mut Vec<T>,
        steps: &mut Steps<L>,
    ) -> Result<(), Halt<EventFault>>
        ensures plays { PlaysOrEnds lines.old.mode event
            (play_state (buffering lines.old.buffered.now
            (outlets (K.held lines.old.out.now) (K.faults lines.old.out.now)
            (map T.heard taps.old.items) steps.old)) self.old)
            (play_state (buffering lines.new.buffered.now
            (outlets (K.held lines.new.out.now) (K.faults lines.new.out.now)
            (map T.heard taps.new.items) steps.new)) self.new) result }
        ensures same { AreSameLines lines.old lines.new }
    {
        match event {
            Event::Gp0 { word } => self.play_word(word, lines, taps, steps),
            _ => self.play_lines(event, lines, taps, steps),
        }
    }

    // Plays a word written to GP0, as `play_event` does. The word needs no validation, since it has no fault. It
    // changes only the GPU and the number of events.
    fn play_word<K: Sink, T: Listener, L: Ledger>(
        &mut self,
        word: u32,
        lines: &mut Lines<K>,
        taps: &mut Vec<T>,
        steps: &mut Steps<L>,
    ) -> Result<(), Halt<EventFault>>
        ensures plays { PlaysOrEnds lines.old.mode (Event.Gp0 word)
            (play_state (buffering lines.old.buffered.now
            (outlets (K.held lines.old.out.now) (K.faults lines.old.out.now)
            (map T.heard taps.old.items) steps.old)) self.old)
            (play_state (buffering lines.new.buffered.now
            (outlets (K.held lines.new.out.now) (K.faults lines.new.out.now)
            (map T.heard taps.new.items) steps.new)) self.new) result }
        ensures same { AreSameLines lines.old lines.new }
    {
        let number = self.next_number();
        let given = InEvent {
            number,
            value: word,
        };
        match feed_word(&mut self.gpu, given, lines, taps, steps) {
            Ok(()) => {
                self.played = number;
                Ok(())
            }
            Err(event) => Err(Halt::Lacks { event }),
        }
    }

    // Plays any event, as `play_event` does.
    fn play_lines<K: Sink, T: Listener, L: Ledger>(
        &mut self,
        event: Event,
        lines: &mut Lines<K>,
        taps: &mut Vec<T>,
        steps: &mut Steps<L>,
    ) -> Result<(), Halt<EventFault>>
        ensures plays { PlaysOrEnds lines.old.mode event
            (play_state (buffering lines.old.buffered.now
            (outlets (K.held lines.old.out.now) (K.faults lines.old.out.now)
            (map T.heard taps.old.items) steps.old)) self.old)
            (play_state (buffering lines.new.buffered.now
            (outlets (K.held lines.new.out.now) (K.faults lines.new.out.now)
            (map T.heard taps.new.items) steps.new)) self.new) result }
        ensures same { AreSameLines lines.old lines.new }
    {
        let number = self.next_number();
        let operation = match validate(&event, &mut self.walk, &self.ram, self.running) {
            Ok(operation) => operation,
            Err(why) => return Err(Halt::Refuses { why }),
        };
        let given = InEvent {
            number,
            value: operation,
        };
        match self.perform(given, lines, taps, steps) {
            Err(event) => Err(Halt::Lacks { event }),
            Ok(shown) => {
                self.played = number;
                let played = Played {
                    event,
                    number,
                    shown,
                };
                let Ok(()) = write_after(&self.gpu, played, lines.out, lines.mode, steps) else {
                    return Err(Halt::Lacks { event: number });
                };
                Ok(())
            }
        }
    }
}
