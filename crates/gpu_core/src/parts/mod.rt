// The GPU without its splitter.
ghost use Rattle.std.specs.Prelude.{◌≡◌, ◌<◌, ◌+◌, ◌*◌, ◌%◌, length, is_some, None};
ghost use Rattle.px_num.specs.Height.{short_height};
ghost use Rattle.vram_store.specs.Vram.{blank};
ghost use Rattle.gp1_status.specs.Registers.{gp1_of, reset};
ghost use Rattle.gpu_core.specs.Kept.{IsOpen, IsSet};
ghost use Rattle.gpu_core.specs.Machine.{cleared, tall_parts};

mod effect;
mod transfer;

use crate::parts::transfer::{job_of, resumed};
use gp1_status::Regs;
use std::marker::Model;
use std::simd::prelude::*;
use std::sync::ledger::Ledger;
use vram_copy::{Cursor, Transfer};
use vram_store::{Steps, Vram};

/// The GPU without its splitter: video memory, the registers, and the open load and store.
#[derive(Drop)]
pub(crate) struct Parts {
    pub(crate) vram: Vram,
    pub(crate) regs: Regs,
    pub(crate) load: Option<Cursor>,
    pub(crate) store: Option<Cursor>,
}

impl Model for Parts {
    ghost use Rattle.gpu_core.specs.Kept.{KeepsBounds};
    ghost use Rattle.gpu_core.specs.Machine.{Parts};
    ghost use Rattle.gpu_core.specs.PartsView.{parts_of};

    ghost Value = { Parts };

    ghost view = { parts_of };

    ghost invariant = { λ p. KeepsBounds (parts_of p) };
}

impl Parts {
    /// Returns `vram`, which must be 512 rows of zeros, with the registers after a reset and no transfer.
    pub(crate) fn over(vram: Vram) -> Parts
        requires cells { vram ≡ blank }
        requires rows { length vram ≡ 1024 * short_height }
        ensures { result ≡ record { m = blank; regs = reset 0 short_height; load = None; store = None } }
    {
        Parts {
            vram,
            regs: Regs::new(),
            load: None,
            store: None,
        }
    }

    /// Extends video memory to 1024 rows.
    pub(crate) fn set_tall(&mut self)
        ensures { self.new ≡ tall_parts self.old }
    {
        self.vram.set_tall();
        self.regs.set_tall();
    }

    /// Feeds a word to GP1, except that no transfer ends.
    pub(crate) fn gp1(&mut self, word: u32)
        ensures { self.new ≡ record self.old { regs = gp1_of self.old.regs word } }
    {
        self.regs.gp1(word);
    }

    /// Ends the open load and store.
    pub(crate) fn clear(&mut self)
        ensures { self.new ≡ cleared self.old }
    {
        self.load = None;
        self.store = None;
    }

    /// Replaces the registers and the open transfers. Video memory stays; it must have the height of `regs`.
    pub(crate) fn set_state(&mut self, regs: Regs, load: Option<Transfer>, store: Option<Transfer>)
        requires rows { length self.old.m ≡ 1024 * regs.height }
        requires load { IsOpen regs.height load }
        requires store { IsOpen regs.height store }
        ensures { self.new ≡ record { m = self.old.m; regs = regs; load = load; store = store } }
    {
        self.regs = regs;
        self.load = resumed(load);
        self.store = resumed(store);
    }

    /// Writes sixteen cells of a row, whatever the mask setting is. `x` is a multiple of 16. Costs one store step.
    pub(crate) fn set_cells<L: Ledger>(
        &mut self,
        x: u16,
        y: u16,
        lanes: u16x16,
        steps: &mut Steps<L>,
    )
        requires lanes { length lanes ≡ 16 }
        requires chunk { x % 16 ≡ 0 }
        requires in_row { x < 1024 }
        requires in_height { y < self.old.regs.height }
        ensures cells { IsSet self.old.m (1024 * y + x) lanes self.new.m }
        ensures rest { self.new ≡ record self.old { m = self.new.m } }
        ensures cost { steps.new ≡ steps.old + 1 }
    {
        self.vram.store16(x, y, 16, lanes, 0xffff, steps);
    }

    /// Returns the open load.
    pub(crate) fn load_job(&self) -> Option<Transfer>
        ensures value { result ≡ self.now.load }
        ensures bounds { IsOpen self.now.regs.height result }
    {
        job_of(&self.load)
    }

    /// Returns the open store.
    pub(crate) fn store_job(&self) -> Option<Transfer>
        ensures value { result ≡ self.now.store }
        ensures bounds { IsOpen self.now.regs.height result }
    {
        job_of(&self.store)
    }

    /// Returns whether a store is open.
    pub(crate) fn is_sending(&self) -> bool
        ensures { result ≡ is_some self.now.store }
    {
        self.store.is_some()
    }

    /// Returns video memory.
    pub(crate) fn vram(&self) -> &Vram
        ensures { result.now ≡ self.now.m }
    {
        &self.vram
    }

    /// Returns the height of video memory in rows.
    pub(crate) fn height(&self) -> u16
        ensures value { result ≡ self.now.regs.height }
        ensures rows { length self.now.m ≡ 1024 * result }
    {
        self.regs.height()
    }

    /// Returns the registers.
    pub(crate) fn regs(&self) -> &Regs
        ensures { result.now ≡ self.now.regs }
    {
        &self.regs
    }
}
