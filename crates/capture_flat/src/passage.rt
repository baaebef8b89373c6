// Each event is played, and its flat records are its output.
ghost use Rattle.std.specs.Prelude.{◌≡◌, ◌≤◌, ◌<◌, ◌+◌, ◌*◌, ◌^◌, map};

use crate::allowed::{allowed, slice_allowed};
use crate::block::put_words;
use crate::pass::{Performed, due_size, put_due, put_last};
use crate::refusal::FlatRefusal;
use dev_io::Sink;
use event_loop::{Halt, Passage};
use event_play::Rig;
use gathered_out::OutputBuffer;
use gpu_capture::{CaptureFile, Event, Stop};
use gpu_taps::Listener;
use std::sync::ledger::Ledger;
use vram_store::Steps;

/// The machine and the taps that play the events, and the file of their flat records.
#[derive(Drop)]
pub(crate) struct Flattening<'a, T: Listener, L: Ledger> {
    pub(crate) rig: &'a mut Rig,
    pub(crate) taps: &'a mut Vec<T>,
    pub(crate) steps: &'a mut Steps<L>,
    pub(crate) file: CaptureFile,
}

impl<'a, T: Listener, L: Ledger> Passage for Flattening<'a, T, L> {
    ghost use Rattle.std.proofs.Common.{◌∙◌, refl};
    ghost use Rattle.capture_flat.specs.Taking.{FlatStart, FlatBegins, FlatStands, FlatRefuses, FlatBreaks, FlatKnows};
    ghost use Rattle.capture_flat.specs.Taking.{flat_at, flat_closing, flat_due, flat_number};
    ghost use Rattle.event_loop.specs.Pausing.{most_after};
    ghost use Rattle.gpu_capture.specs.Draft.{HasRoom, IsOpen};

    type Refusal = FlatRefusal;

    ghost Start = { FlatStart };

    ghost begins = { λ x start.
        FlatBegins start (flat_at x.file x.rig.now (map T.heard x.taps.now.items) x.steps.now) };

    ghost stands = { λ x start version events. FlatStands start version events
        (flat_at x.file x.rig.now (map T.heard x.taps.now.items) x.steps.now) };

    ghost closes = { λ start version events _ x. FlatStands start version events
        (flat_at x.file x.rig.now (map T.heard x.taps.now.items) x.steps.now) };

    ghost breaks = { λ start version events x. FlatBreaks start version events
        (flat_at x.file x.rig.now (map T.heard x.taps.now.items) x.steps.now) };

    ghost number = { flat_number };

    ghost due = { flat_due };

    ghost knows = { FlatKnows };

    ghost closing = { flat_closing };

    ghost refuses = { λ start version events event x why. FlatRefuses start version events event
        (flat_at x.file x.rig.now (map T.heard x.taps.now.items) x.steps.now) why };

    ghost refuses_stop = { λ _ _ _ _ _ _. ⊥ };

    ghost most = { λ _ _ _ _. most_after };

    ghost ready = { λ x _. IsOpen x.file };

    ghost may_take = { λ x n. HasRoom x.file (8 * n) };

    ghost same = { λ x y. (x.rig.ghost_name ≡ y.rig.ghost_name) × (x.taps.ghost_name ≡ y.taps.ghost_name)
        × (x.steps.ghost_name ≡ y.steps.ghost_name) };

    fn begin(&mut self, version: u8) {
        self.file = CaptureFile {
            version: version.max(2),
            size: 0,
        };
        self.rig.raise(version);
    }

    fn take<K: Sink>(
        &mut self,
        event: &Event,
        buffered: &mut OutputBuffer,
        out: &mut K,
    ) -> Result<(), Halt<FlatRefusal>> {
        let played = self.rig.played();
        let number = played.saturating_add(1);
        let operation = match self.rig.asked(event) {
            Ok(operation) => operation,
            Err(fault) => {
                return Err(Halt::Refuses {
                    why: FlatRefusal::Fault {
                        event: number,
                        fault,
                    },
                });
            }
        };
        if let Err(fault) = self.rig.event(event, self.taps, self.steps) {
            return Err(Halt::Refuses {
                why: FlatRefusal::Fault {
                    event: number,
                    fault,
                },
            });
        }
        let performed = Performed {
            operation,
            ram: self.rig.ram(),
            played,
        };
        allowed(performed.ram, operation);
        let bytes = due_size(self.file, performed);
        if !self.file.has_room(bytes) {
            return Err(Halt::Refuses {
                why: FlatRefusal::TooMuch { event: number },
            });
        }
        match put_due(self.file, buffered, out, performed) {
            Ok(()) => {
                self.file.size += bytes;
                Ok(())
            }
            Err(event) => Err(Halt::Lacks { event }),
        }
    }

    fn most_words(&self, at_hand: usize) -> usize {
        at_hand.min((self.file.room() / 8) as usize)
    }

    fn take_words<K: Sink>(
        &mut self,
        words: &[u32],
        buffered: &mut OutputBuffer,
        out: &mut K,
    ) -> Result<(), u64> {
        slice_allowed(words);
        let played = self.rig.played();
        self.rig.take_words(words, self.taps, self.steps);
        self.file.size += 8 * words.len() as u32;
        put_words(played, words, buffered, out)
    }

    fn close<K: Sink>(
        &mut self,
        stop: Stop,
        buffered: &mut OutputBuffer,
        out: &mut K,
    ) -> Result<(), Halt<FlatRefusal>> {
        match stop {
            Stop::End => match put_last(self.file, buffered, out, self.rig.played()) {
                Ok(()) => Ok(()),
                Err(event) => Err(Halt::Lacks { event }),
            },
            _ => Ok(()),
        }
    }

    fn next_number(&self) -> u64 {
        self.rig.played().saturating_add(1)
    }

    ghost same_at_first = { λ x. (refl, refl, refl) };

    ghost same_on = { λ x y z first then. (first.0 ∙ then.0, first.1 ∙ then.1, first.2 ∙ then.2) };

    ghost ready_after = { λ x pieces ready. ready };
}
