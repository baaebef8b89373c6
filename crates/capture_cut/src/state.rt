// Writes the state of a machine.
ghost use Rattle.std.specs.Prelude.{◌≡◌, ◌≤◌, ◌<◌, ◌+◌, ◌*◌, ◌^◌, ◌++◌, length, OnOk};
ghost use Rattle.dev_io.specs.Device.{Writes, side};
ghost use Rattle.gp0_words.specs.Next.{IsPending};
ghost use Rattle.gp1_status.specs.Registers.{KeepsWidths};
ghost use Rattle.picture_out.specs.Dump.{dump_cost};
ghost use Rattle.snapshot_words.specs.Outline.{bytes_of, outline_words, snapshot_head, AreCells};
ghost use Rattle.snapshot_words.specs.Values.{cell_words, load_words, pending_words, run_words, store_words};
ghost use Rattle.capture_cut.specs.File.{outline_of, rig_bytes};

use crate::memory::{cells_size, ram_size, write_cells, write_ram};
use dev_io::{Failed, Sink};
use event_play::Rig;
use gp0_words::Pending;
use gp1_status::Regs;
use list_dma::Run;
use snapshot_words::{Outline, write_head, write_outline};
use std::sync::ledger::Ledger;
use vram_copy::Transfer;
use vram_store::Steps;

/// Writes the file header of a snapshot and the state of a rig. On failure, a proper prefix was written. Costs at most
/// 64 store steps per row of video memory.
pub fn write_state<K: Sink, L: Ledger>(
    rig: &Rig,
    out: &mut K,
    steps: &mut Steps<L>,
) -> Result<(), Failed>
    ensures writes { Writes (side K.held K.faults) out.old out.new (rig_bytes rig.now) result }
    ensures cells { OnOk result (AreCells rig.now.gpu.parts.m) }
    ensures cost { steps.new ≤ steps.old + dump_cost rig.now.gpu.parts.m }
{
    write_front(&outline_of(rig), out)?;
    write_memories(rig, out, steps)
}

/// Returns the length of the file header and the state in bytes.
pub fn state_size(rig: &Rig) -> u32
    ensures value { result ≡ length (rig_bytes rig.now) }
    ensures few { result ≤ 2 ^ 23 }
{
    front_size(&outline_of(rig)) + cells_size(rig.gpu().vram()) + ram_size(rig.ram())
}

// Writes the file header and the state without its memories.
fn write_front<K: Sink>(outline: &Outline, out: &mut K) -> Result<(), Failed>
    requires { IsPending outline.now.pending }
    ensures { Writes (side K.held K.faults) out.old out.new
        (snapshot_head ++ bytes_of (outline_words outline.now)) result }
{
    write_head(out)?;
    write_outline(out, outline)
}

// Writes the cells of video memory, then the words of main memory.
fn write_memories<K: Sink, L: Ledger>(
    rig: &Rig,
    out: &mut K,
    steps: &mut Steps<L>,
) -> Result<(), Failed>
    ensures writes { Writes (side K.held K.faults) out.old out.new
        (bytes_of (cell_words rig.now.gpu.parts.m) ++ bytes_of rig.now.ram) result }
    ensures cells { OnOk result (AreCells rig.now.gpu.parts.m) }
    ensures cost { steps.new ≤ steps.old + dump_cost rig.now.gpu.parts.m }
{
    write_cells(rig.gpu().vram(), out, steps)?;
    write_ram(rig.ram(), out)
}

// Returns the state of a rig without its memories.
fn outline_of(rig: &Rig) -> Outline
    ensures value { result ≡ outline_of rig.now }
    ensures pending { IsPending result.pending }
{
    let gpu = rig.gpu();
    Outline {
        played: rig.played(),
        regs: copied(gpu.regs()),
        pending: gpu.pending(),
        load: gpu.load_job(),
        store: gpu.store_job(),
        run: rig.running(),
    }
}

// Returns a copy of the registers.
fn copied(regs: &Regs) -> Regs
    ensures { result ≡ regs.now }
{
    keep_widths(regs);
    match Regs::from_words(&regs.to_words(), regs.is_tall()) {
        Some(copy) => copy,
        None => unreachable!(),
    }
}

/// Proves that each register fits its number of bits. Does nothing.
pub(crate) fn keep_widths(regs: &Regs)
    ensures widths { KeepsWidths regs.now }
    ensures latch { regs.now.held < 2 ^ 32 }
{
    let _ = (regs.height(), regs.e1(), regs.window(), regs.top_left());
    let _ = (regs.bottom_right(), regs.offset(), regs.mask());
    let _ = (regs.direction(), regs.start(), regs.hrange());
    let _ = (regs.vrange(), regs.mode(), regs.held());
}

// Returns the length of the file header and of a state without its memories, in bytes.
#[tactic(auto, using(gpu_capture::proofs::Written::words_length))]
fn front_size(outline: &Outline) -> u32
    requires { IsPending outline.now.pending }
    ensures value { result ≡ length (snapshot_head ++ bytes_of (outline_words outline.now)) }
    ensures few { result ≤ 2 ^ 8 }
{
    8 + 4 * outline_len(outline)
}

// Returns the length of a state without its memories, in words.
#[tactic(auto, unfolding(snapshot_words::specs::Outline::outline_words))]
fn outline_len(outline: &Outline) -> u32
    requires { IsPending outline.now.pending }
    ensures value { result ≡ length (outline_words outline.now) }
    ensures few { result ≤ 48 }
{
    16 + pending_len(&outline.pending, &outline.load)
        + store_len(&outline.store)
        + run_len(&outline.run)
}

fn pending_len(pending: &Pending, load: &Option<Transfer>) -> u32
    requires { IsPending pending.now }
    ensures value { result ≡ length (pending_words pending.now load.now) }
    ensures few { result ≤ 14 }
{
    match pending {
        Pending::Idle => 1,
        Pending::Packet { words } => 2 + words.as_slice().len() as u32,
        Pending::Pixels { .. } => 1 + job_len(load),
        Pending::Poly { half, .. } => match half {
            None => 5,
            Some(_) => 6,
        },
    }
}

// Returns the number of words of an open load, or 0 if none is open.
fn job_len(job: &Option<Transfer>) -> u32
    ensures value { result ≡ length (load_words job.now) }
    ensures few { result ≤ 5 }
{
    match job {
        None => 0,
        Some(_) => 5,
    }
}

fn store_len(store: &Option<Transfer>) -> u32
    ensures value { result ≡ length (store_words store.now) }
    ensures few { result ≤ 6 }
{
    match store {
        None => 1,
        Some(_) => 6,
    }
}

fn run_len(run: &Run) -> u32
    ensures value { result ≡ length (run_words run.now) }
    ensures few { result ≤ 5 }
{
    match run {
        Run::Idle => 1,
        Run::Words { .. } => 5,
        Run::List { .. } => 2,
    }
}
