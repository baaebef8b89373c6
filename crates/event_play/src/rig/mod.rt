// The machine that plays events.
mod capture;
mod events;
mod operations;
mod state;
mod words;

ghost use Rattle.std.specs.Prelude.{◌≡◌, None, map, IfOk, IfErr, OnOk, OnErr, Ok, Err};
ghost use Rattle.list_dma.specs.Plans.{IsRun};
ghost use Rattle.event_play.specs.Replay.{Replay, next_number, raised};
ghost use Rattle.event_play.specs.RigState.{RigState, first_rig, Stands, StandsFor};
ghost use Rattle.event_play.specs.PlayState.{play_state};
ghost use Rattle.event_play.specs.Step.{Machine, event_step, tall_machine};
ghost use Rattle.event_play.specs.Stepping.{HasStepped, numbered};
ghost use Rattle.event_play.specs.Streams.{without_sink};
ghost use Rattle.event_play.specs.Operation.{operation_of, IsOperation};

use crate::fault::EventFault;
use crate::feed::InEvent;
use crate::operation::Operation;
use crate::outlet::NoLines;
use crate::validate::validate;
use gpu_capture::Event;
use gpu_core::Gpu;
use gpu_taps::Listener;
use list_dma::{Run, Walk};
use ot_clear_dma::Ram;
use px_num::OutOfMemory;
use std::alloc::Global;
use std::marker::Model;
use std::sync::ledger::Ledger;
use vram_store::Steps;

/// Captures of this version are played in the tall profile (1024 rows of video memory).
pub const TALL_VERSION: u8 = 3;

/// A machine that plays events: the GPU, main memory, the running transfer, and the number of events played.
#[derive(Drop)]
pub struct Rig {
    pub(crate) gpu: Gpu,
    ram: Ram,
    walk: Walk,
    running: Run,
    played: u64,
}

impl Model for Rig {
    ghost Value = { RigState };

    ghost view = { λ r. record { gpu = r.gpu; ram = r.ram; running = r.running; played = r.played } };

    ghost invariant = { λ r. IsRun r.running };
}

impl Rig {
    /// Returns a machine with zeros in both memories, the registers after a reset, no running transfer and no event
    /// played. Fails if memory runs out.
    pub fn new(alloc: Global) -> Result<Rig, OutOfMemory>
        ensures { IfOk result (λ rig. rig ≡ first_rig) }
    {
        let gpu = Gpu::new(alloc)?;
        let ram = Ram::new(alloc)?;
        let walk = Walk::new(alloc)?;
        Ok(Rig {
            gpu,
            ram,
            walk,
            running: Run::Idle,
            played: 0,
        })
    }

    /// Extends video memory to 1024 rows, the tall profile. Rows 512 to 1023 are 0; everything else stays. Does nothing
    /// if the height is already 1024. Costs no step.
    pub fn set_tall(&mut self)
        ensures stands { (s : Machine) → Stands self.old s → Stands self.new (tall_machine s) }
        ensures played { self.new.played ≡ self.old.played }
    {
        self.gpu.set_tall();
    }

    /// Makes the machine tall (1024 rows of video memory) if captures of `version` are played so.
    pub fn raise(&mut self, version: u8)
        ensures { (t : Replay) → StandsFor self.old t → StandsFor self.new (raised t version) }
    {
        if version == TALL_VERSION {
            self.set_tall();
        }
    }

    /// Plays one event. Returns the word read for Read and Stat, and `None` for all other events. After a fault, the
    /// machine, the taps and the store steps are unchanged.
    pub fn event<T: Listener, L: Ledger>(
        &mut self,
        event: &Event,
        taps: &mut Vec<T>,
        steps: &mut Steps<L>,
    ) -> Result<Option<u32>, EventFault>
        ensures stepped { (s : Machine) → Stands self.old s → IfOk result (λ shown.
            HasStepped s (numbered (next_number self.old.played) event.now) shown
            (without_sink (map T.heard taps.old.items) steps.old)
            (play_state (without_sink (map T.heard taps.new.items) steps.new) self.new)) }
        ensures played { OnOk result (self.new.played ≡ next_number self.old.played) }

        ensures fault { (s : Machine) → Stands self.old s →
            IfErr result (λ fault. event_step s (next_number self.old.played) event.now ≡ Err fault) }
        ensures unchanged { OnErr result (self.new ≡ self.old) }
        ensures untold { OnErr result (map T.heard taps.new.items ≡ map T.heard taps.old.items) }
        ensures free { OnErr result (steps.new ≡ steps.old) }
    {
        if let Event::Gp0 { word } = *event {
            let _ = self.take_word(word, taps, steps);
            return Ok(None);
        }
        match validate(event, &mut self.walk, &self.ram, self.running) {
            Ok(operation) => {
                let number = self.next_number();
                let given = InEvent {
                    number,
                    value: operation,
                };
                match self.perform(given, &mut NoLines {}, taps, steps) {
                    Ok(shown) => {
                        self.played = number;
                        Ok(shown)
                    }
                    Err(_) => unreachable!(),
                }
            }
            Err(fault) => Err(fault),
        }
    }

    /// Returns the operation of an event, or its fault. Changes nothing.
    pub fn asked(&mut self, event: &Event) -> Result<Operation, EventFault>
        ensures value { result ≡ operation_of self.old.ram self.old.running event.now }
        ensures bounds { IfOk result IsOperation }
        ensures unchanged { self.new ≡ self.old }
    {
        validate(event, &mut self.walk, &self.ram, self.running)
    }

    /// Returns the number of the next event, at most 2^64 - 1.
    pub(crate) fn next_number(&self) -> u64
        ensures { result ≡ next_number self.now.played }
    {
        self.played.saturating_add(1)
    }
}
