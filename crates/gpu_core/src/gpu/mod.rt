// The GPU: words of GP0 and GP1, reads, and its essential state.
ghost use Rattle.std.specs.Prelude.{◌≡◌, ◌≤◌, ◌+◌, ◌*◌, length, map, Some, None, IfOk, IfSome, ◌<◌, ◌%◌};
ghost use Rattle.vram_store.specs.Vram.{blank};
ghost use Rattle.gpu_core.specs.Cost.{gp0_cost, read_cost};
ghost use Rattle.gpu_core.specs.Kept.{kept_of, kept_with, state_with, IsLinked, IsOpen, IsSet};
ghost use Rattle.gpu_core.specs.Machine.{State, first_state, after_gp0, gp0_note, after_gp1, after_read, read_word};
ghost use Rattle.gpu_core.specs.Machine.{is_idle_state, status_word, tall_state, told_option};
ghost use Rattle.gp0_words.specs.Next.{IsPending};

mod block;

use crate::parts::Parts;
pub use block::NotedWords;
use gp0_packets::Note;
use gp0_words::{Pending, Splitter};
use gp1_status::{Regs, clears};
use gpu_taps::{Listener, bare_note, tell_all};
use px_num::OutOfMemory;
use std::alloc::Global;
use std::marker::Model;
use std::simd::prelude::*;
use std::sync::ledger::Ledger;
use vram_copy::Transfer;
use vram_store::{Steps, Vram};

/// The GPU: video memory, the registers, the open transfers, and what is pending of the GP0 words.
#[derive(Drop)]
pub struct Gpu {
    pub(crate) parts: Parts,
    pub(crate) splitter: Splitter,
}

impl Model for Gpu {
    ghost use Rattle.gpu_core.specs.Kept.{Kept, IsLinked};

    ghost Value = { Kept };

    ghost use Rattle.gpu_core.specs.View.{kept};

    ghost view = { kept };

    ghost invariant = { λ g. IsLinked g.splitter g.parts.load };
}

impl Gpu {
    /// Returns a GPU in the first state: video memory of zeros and 512 rows, the registers after a reset, and nothing
    /// pending. Fails if memory runs out.
    pub fn new(alloc: Global) -> Result<Gpu, OutOfMemory>
        ensures { IfOk result (λ gpu. gpu ≡ kept_of first_state) }
    {
        match Vram::new(alloc) {
            Ok(vram) => Ok(Gpu::over(vram)),
            Err(refusal) => Err(refusal),
        }
    }

    // Returns the first state over video memory of zeros.
    #[tactic(auto, unfolding(crate::specs::Machine::first_state))]
    fn over(vram: Vram) -> Gpu
        requires cells { vram ≡ blank }
        requires long { length vram ≡ 1024 * 512 }
        ensures { result ≡ kept_of first_state }
    {
        Gpu {
            parts: Parts::over(vram),
            splitter: Splitter::new(),
        }
    }

    /// Extends video memory to 1024 rows. Rows 512 to 1023 are 0; all other cells, the registers, what is pending and
    /// the open transfers stay. Changes nothing if the height is already 1024. Costs no store step.
    pub fn set_tall(&mut self)
        ensures { (s : State) → kept_of s ≡ self.old → kept_of (tall_state s) ≡ self.new }
    {
        self.parts.set_tall();
    }

    /// Feeds `word` to GP0 as event `event`. If it completes an item, executes the item, sends its note to every
    /// listener in order, and returns the note. Otherwise returns `None`.
    #[inline(always)]
    pub fn gp0<T: Listener, L: Ledger>(
        &mut self,
        event: u64,
        word: u32,
        taps: &mut Vec<T>,
        steps: &mut Steps<L>,
    ) -> Option<Note>
        ensures feed { (s : State) → kept_of s ≡ self.old → kept_of (after_gp0 s word) ≡ self.new }
        ensures note { (s : State) → kept_of s ≡ self.old → gp0_note s event word ≡ result }
        ensures class { IfSome result (λ note. note.class ≤ 9) }
        ensures taps { map T.heard taps.new.items ≡ told_option result (map T.heard taps.old.items) }
        ensures cost { (s : State) → kept_of s ≡ self.old → steps.new ≤ steps.old + gp0_cost s word }
    {
        if self.splitter.push_pixels(word) {
            self.parts.take_pixels(word, steps);
            return tell(taps, bare_note(event, 9, word));
        }
        if self.splitter.passes(word) {
            self.parts.set_register(word);
            return tell(taps, bare_note(event, 7, word));
        }
        if self.splitter.push_inside(word) {
            return None;
        }
        self.push(event, word, taps, steps)
    }

    // The same for any word.
    #[inline(never)]
    fn push<T: Listener, L: Ledger>(
        &mut self,
        event: u64,
        word: u32,
        taps: &mut Vec<T>,
        steps: &mut Steps<L>,
    ) -> Option<Note>
        ensures feed { (s : State) → kept_of s ≡ self.old → kept_of (after_gp0 s word) ≡ self.new }
        ensures note { (s : State) → kept_of s ≡ self.old → gp0_note s event word ≡ result }
        ensures class { IfSome result (λ note. note.class ≤ 9) }
        ensures taps { map T.heard taps.new.items ≡ told_option result (map T.heard taps.old.items) }
        ensures cost { (s : State) → kept_of s ≡ self.old → steps.new ≤ steps.old + gp0_cost s word }
    {
        match self.splitter.push(word) {
            None => None,
            Some(item) => {
                let note = self.parts.take_item(event, &item, steps);
                tell(taps, note)
            }
        }
    }

    /// Feeds a word to GP1. Opcodes 00h and 01h also end an unfinished packet, load, polyline and store.
    pub fn gp1(&mut self, word: u32)
        ensures { (s : State) → kept_of s ≡ self.old → kept_of (after_gp1 s word) ≡ self.new }
    {
        self.parts.gp1(word);
        if clears(word) {
            self.splitter.clear();
            self.parts.clear();
        }
    }

    /// Reads GPUREAD. Returns the next two cells (16-bit VRAM halfwords) of the open store, the first in the low half,
    /// and puts them into the latch. Returns the latch if no store is open.
    pub fn read<L: Ledger>(&mut self, steps: &mut Steps<L>) -> u32
        ensures word { (s : State) → kept_of s ≡ self.old → result ≡ read_word s }
        ensures state { (s : State) → kept_of s ≡ self.old → kept_of (after_read s) ≡ self.new }
        ensures cost { (s : State) → kept_of s ≡ self.old → steps.new ≤ steps.old + read_cost s }
    {
        self.parts.take_word(steps)
    }

    /// Returns the status word.
    pub fn status(&self) -> u32
        ensures { (s : State) → kept_of s ≡ self.now → result ≡ status_word s }
    {
        self.parts
            .regs()
            .status(self.splitter.is_idle(), self.parts.is_sending())
    }

    /// Returns whether no packet, load or polyline is unfinished.
    pub fn is_idle(&self) -> bool
        ensures { (s : State) → kept_of s ≡ self.now → result ≡ is_idle_state s }
    {
        self.splitter.is_idle()
    }
}

// Sends a note to every listener, in order, and returns it.
fn tell<T: Listener>(taps: &mut Vec<T>, note: Note) -> Option<Note>
    ensures note { result ≡ Some note }
    ensures taps { map T.heard taps.new.items ≡ told_option (Some note) (map T.heard taps.old.items) }
{
    tell_all(taps, &note);
    Some(note)
}

impl Gpu {
    /// Returns video memory.
    pub fn vram(&self) -> &Vram
        ensures { result.now ≡ self.now.parts.m }
    {
        self.parts.vram()
    }

    /// Returns the height of video memory in rows, 512 or 1024.
    pub fn height(&self) -> u16
        ensures value { result ≡ self.now.parts.regs.height }
        ensures rows { length self.now.parts.m ≡ 1024 * result }
    {
        self.parts.height()
    }

    /// Returns the registers.
    pub fn regs(&self) -> &Regs
        ensures { result.now ≡ self.now.parts.regs }
    {
        self.parts.regs()
    }

    /// Returns the open load, or `None` if none is open.
    pub fn load_job(&self) -> Option<Transfer>
        ensures value { result ≡ self.now.parts.load }
        ensures bounds { IsOpen self.now.parts.regs.height result }
    {
        self.parts.load_job()
    }

    /// Returns the open store, or `None` if none is open.
    pub fn store_job(&self) -> Option<Transfer>
        ensures value { result ≡ self.now.parts.store }
        ensures bounds { IsOpen self.now.parts.regs.height result }
    {
        self.parts.store_job()
    }

    /// Returns what is pending of the GP0 words. It needs data words exactly if a load is open, and as many as the load
    /// has left.
    pub fn pending(&self) -> Pending
        ensures value { result ≡ self.now.pending }
        ensures bounds { IsPending result }
        ensures link { IsLinked result self.now.parts.load }
    {
        self.splitter.pending()
    }

    /// Replaces the registers, what is pending, and the open transfers. Video memory stays. Some list of words leads to
    /// `pending`, so the result is the essential part of some state.
    ///
    /// Requires: (1) video memory has the height of `regs`; (2) some list of words leads to `pending`; (3) it needs
    /// data words exactly if `load` is `Some`, as many as the load has left; (4) both transfers are possible at this
    /// height and unfinished, at a cell where a word begins.
    pub fn set_state(
        &mut self,
        regs: Regs,
        pending: Pending,
        load: Option<Transfer>,
        store: Option<Transfer>,
    )
        requires rows { length self.old.parts.m ≡ 1024 * regs.height }
        requires pending { IsPending pending }
        requires link { IsLinked pending load }
        requires load { IsOpen regs.height load }
        requires store { IsOpen regs.height store }
        ensures state { self.new ≡ kept_with self.old.parts.m regs pending load store }
        ensures stands { kept_of (state_with self.new) ≡ self.new }
    {
        match Splitter::resume(pending) {
            Some(splitter) => {
                self.splitter = splitter;
                self.parts.set_state(regs, load, store);
            }
            None => unreachable!(),
        }
    }

    /// Writes sixteen cells of row `y` from column `x` on, whatever the mask setting is. `x` is a multiple of 16 below
    /// 1024, `y` is below the height. Nothing else changes. Costs one store step.
    pub fn set_cells<L: Ledger>(&mut self, x: u16, y: u16, lanes: u16x16, steps: &mut Steps<L>)
        requires lanes { length lanes ≡ 16 }
        requires chunk { x % 16 ≡ 0 }
        requires in_row { x < 1024 }
        requires in_height { y < self.old.parts.regs.height }
        ensures cells { IsSet self.old.parts.m (1024 * y + x) lanes self.new.parts.m }
        ensures rest { self.new ≡ record self.old { parts = record self.old.parts { m = self.new.parts.m } } }
        ensures cost { steps.new ≡ steps.old + 1 }
    {
        self.parts.set_cells(x, y, lanes, steps);
    }
}
