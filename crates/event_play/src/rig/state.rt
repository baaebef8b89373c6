// The parts of a rig's state, and rigs that are built from parts.
ghost use Rattle.std.specs.Prelude.{◌≡◌, ◌<◌, ◌+◌, ◌*◌, ◌%◌, length};
ghost use Rattle.gp0_words.specs.Next.{IsPending};
ghost use Rattle.gpu_core.specs.Kept.{kept_of, kept_with, state_with, IsLinked, IsOpen, IsSet};
ghost use Rattle.list_dma.specs.Plans.{IsRun, IsWordAddress};
ghost use Rattle.ot_clear_dma.specs.Ram.{memory_words, set};
ghost use Rattle.event_play.specs.RigState.{with_gpu};

use crate::rig::Rig;
use gp0_words::Pending;
use gp1_status::Regs;
use gpu_core::Gpu;
use list_dma::Run;
use ot_clear_dma::Ram;
use std::simd::prelude::*;
use std::sync::ledger::Ledger;
use vram_copy::Transfer;
use vram_store::Steps;

impl Rig {
    /// Returns the number of events played, at most 2^64 - 1.
    pub fn played(&self) -> u64
        ensures { result ≡ self.now.played }
    {
        self.played
    }

    /// Returns the GPU.
    pub fn gpu(&self) -> &Gpu
        ensures { result.now ≡ self.now.gpu }
    {
        &self.gpu
    }

    /// Returns main memory.
    pub fn ram(&self) -> &Ram
        ensures { result.now ≡ self.now.ram }
    {
        &self.ram
    }

    /// Returns the running transfer.
    pub fn running(&self) -> Run
        ensures value { result ≡ self.now.running }
        ensures bounds { IsRun result }
    {
        self.running
    }

    /// Returns the open load, or `None` if none is open.
    pub fn load_job(&self) -> Option<Transfer>
        ensures value { result ≡ self.now.gpu.parts.load }
        ensures bounds { IsOpen self.now.gpu.parts.regs.height result }
    {
        self.gpu.load_job()
    }

    /// Returns the open store, or `None` if none is open.
    pub fn store_job(&self) -> Option<Transfer>
        ensures value { result ≡ self.now.gpu.parts.store }
        ensures bounds { IsOpen self.now.gpu.parts.regs.height result }
    {
        self.gpu.store_job()
    }

    /// Returns what is pending in the words of GP0. Data words are pending exactly if a load is open, as many as it has
    /// left.
    pub fn pending(&self) -> Pending
        ensures value { result ≡ self.now.gpu.pending }
        ensures bounds { IsPending result }
        ensures link { IsLinked result self.now.gpu.parts.load }
    {
        self.gpu.pending()
    }

    /// Replaces the registers, what is pending, and the open transfers; everything else stays. The new height must be
    /// that of video memory. All values must be in their bounds. Data words must be pending exactly if `load` is open,
    /// as many as it has left. The new state is that of a machine, since some words of GP0 leave `pending`.
    pub fn set_state(
        &mut self,
        regs: Regs,
        pending: Pending,
        load: Option<Transfer>,
        store: Option<Transfer>,
    )
        requires rows { length self.old.gpu.parts.m ≡ 1024 * regs.height }
        requires pending { IsPending pending }
        requires link { IsLinked pending load }
        requires load { IsOpen regs.height load }
        requires store { IsOpen regs.height store }
        ensures state { self.new ≡ with_gpu self.old (kept_with self.old.gpu.parts.m regs pending load store) }
        ensures stands { kept_of (state_with self.new.gpu) ≡ self.new.gpu }
    {
        self.gpu.set_state(regs, pending, load, store);
    }

    /// Sets sixteen cells from (`x`, `y`) on, whatever the mask setting is; everything else stays. `x` is a multiple of
    /// 16 below 1024, and `y` is below the height. Costs one store step.
    pub fn set_cells<L: Ledger>(&mut self, x: u16, y: u16, lanes: u16x16, steps: &mut Steps<L>)
        requires lanes { length lanes ≡ 16 }
        requires chunk { x % 16 ≡ 0 }
        requires in_row { x < 1024 }
        requires in_height { y < self.old.gpu.parts.regs.height }
        ensures cells { IsSet self.old.gpu.parts.m (1024 * y + x) lanes self.new.gpu.parts.m }
        ensures others { self.new ≡ with_gpu self.old
            (record self.old.gpu { parts = record self.old.gpu.parts { m = self.new.gpu.parts.m } }) }
        ensures cost { steps.new ≡ steps.old + 1 }
    {
        self.gpu.set_cells(x, y, lanes, steps);
    }

    /// Replaces the number of events played and the running transfer. Everything else stays. `run` must be in its
    /// bounds: word addresses of main memory, 1 to 524,288 words left, blocks of 1 to 10000h words.
    pub fn set_run(&mut self, played: u64, run: Run)
        requires { IsRun run }
        ensures { self.new ≡ record self.old { running = run; played = played } }
    {
        self.running = run;
        self.played = played;
    }

    /// Sets the word of main memory at byte address `address`, a multiple of 4 below 200000h. Everything else stays.
    pub fn set_word(&mut self, address: u32, word: u32)
        requires { IsWordAddress address }
        ensures word { self.new ≡ record self.old { ram = set self.old.ram address word } }
        ensures long { length self.new.ram ≡ memory_words }
    {
        self.ram.put(address, word);
    }
}
