// Performs the operation of an event.
ghost use Rattle.std.specs.Prelude.{◌≡◌, None, map, Ok, Err, ◌≤◌, ◌+◌, ℕ};
ghost use Rattle.event_play.specs.Does.{Performs, PutsOperation};
ghost use Rattle.event_play.specs.Feeding.{in_event};
ghost use Rattle.event_play.specs.RigState.{Stands, machine_of};
ghost use Rattle.event_play.specs.PlayState.{play_state};
ghost use Rattle.event_play.specs.Step.{done, operation_cost};
ghost use Rattle.event_play.specs.Streams.{with_sink};
ghost use Rattle.event_play.specs.Operation.{IsOperation, FeedsNoWord};
ghost use Rattle.gpu_core.specs.Kept.{kept_of};
ghost use Rattle.gpu_core.specs.Machine.{State};
ghost use Rattle.event_play.specs.Block.{IsBlock};
ghost use Rattle.event_play.specs.Taken.{taken};
ghost use Rattle.event_play.specs.Taking.{Takes};

use crate::block::{Block, address_in};
use crate::feed::{InEvent, feed};
use crate::operation::Operation;
use crate::outlet::Outlet;
use crate::rig::Rig;
use crate::words::WordCursor;
use gpu_core::Gpu;
use gpu_taps::Listener;
use ot_clear_dma::Ram;
use std::sync::ledger::Ledger;
use vram_store::Steps;

impl Rig {
    /// Performs an operation in its event, and adds the lines of its items that the mode asks for. Returns the shown
    /// word, if any. If a line cannot be written, feeds no further word, and returns the number of the first event
    /// whose lines are incomplete. `operation` must be in its bounds, as the operation of an event is.
    pub(crate) fn perform<O: Outlet, T: Listener, L: Ledger>(
        &mut self,
        operation: InEvent<Operation>,
        lines: &mut O,
        taps: &mut Vec<T>,
        steps: &mut Steps<L>,
    ) -> Result<Option<u32>, u64>
        requires { IsOperation operation.value }
        ensures performs { Performs (in_event operation.number (O.mode lines.old)) operation.value
            (play_state (with_sink (O.state lines.old) (map T.heard taps.old.items) steps.old) self.old)
            (play_state (with_sink (O.state lines.new) (map T.heard taps.new.items) steps.new) self.new) result }
        ensures puts { PutsOperation (in_event operation.number (O.mode lines.old)) operation.value
            (play_state (with_sink (O.state lines.old) (map T.heard taps.old.items) steps.old) self.old)
            (play_state (with_sink (O.state lines.new) (map T.heard taps.new.items) steps.new) self.new) result }
        ensures same { O.same lines.old lines.new }
    {
        match operation.value {
            Operation::Feed { words, next } => {
                let given = InEvent {
                    number: operation.number,
                    value: WordCursor::new(&self.ram, words),
                };
                match feed(&mut self.gpu, given, lines, taps, steps) {
                    Ok(()) => {
                        self.running = next;
                        Ok(None)
                    }
                    Err(lacking) => Err(lacking),
                }
            }
            _ => Ok(self.perform_quiet(operation.value, steps)),
        }
    }

    // Performs an operation that feeds no word. Returns the word that it shows.
    #[inline(always)]
    fn perform_quiet<L: Ledger>(
        &mut self,
        operation: Operation,
        steps: &mut Steps<L>,
    ) -> Option<u32>
        requires operation { IsOperation operation }
        requires quiet { FeedsNoWord operation }
        ensures shown { (s : State) (number : ℕ) → kept_of s ≡ self.old.gpu
            → result ≡ (done (machine_of self.old s) number operation).shown }
        ensures stands { (s : State) (number : ℕ) → kept_of s ≡ self.old.gpu
            → Stands self.new (done (machine_of self.old s) number operation).machine }
        ensures cost { (s : State) → kept_of s ≡ self.old.gpu
            → steps.new ≤ steps.old + operation_cost (machine_of self.old s) operation }
        ensures played { self.new.played ≡ self.old.played }
    {
        match operation {
            Operation::Nothing => None,
            Operation::Put { address, word } => {
                self.ram.put(address, word);
                None
            }
            Operation::Feed { .. } => unreachable!(),
            Operation::Take { block, next } => {
                take_block(&mut self.gpu, &mut self.ram, block, steps);
                self.running = next;
                None
            }
            Operation::Control { word } => {
                self.gpu.gp1(word);
                None
            }
            Operation::Read => Some(self.gpu.read(steps)),
            Operation::Skip => {
                let _ = self.gpu.read(steps);
                None
            }
            Operation::Stat => Some(self.gpu.status()),
            Operation::Clear { madr, n } => {
                self.ram.clear_table(madr, n);
                None
            }
            Operation::Begin { next } => {
                self.running = next;
                None
            }
        }
    }
}

// Reads a word from the GPU for each word of a block, and stores it there. The block must have at most 524,288 words.
fn take_block<L: Ledger>(gpu: &mut Gpu, ram: &mut Ram, block: Block, steps: &mut Steps<L>)
    requires { IsBlock block }
    ensures { (s : State) → kept_of s ≡ gpu.old → Takes (taken block s ram.old) gpu.new ram.new steps.old steps.new }
{
    for i in 0..block.n {
        let word = gpu.read(steps);
        ram.put(address_in(block, i), word);
    }
}
