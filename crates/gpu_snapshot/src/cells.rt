// Reads cells (16-bit VRAM halfwords), sixteen at a time.
ghost use Rattle.std.specs.Prelude.{◌≡◌, ◌≤◌, ◌<◌, ◌+◌, ◌*◌, ◌/◌, ◌%◌, ◌^◌, Some, drop, length, IfErr, OnOk};
ghost use Rattle.gpu_core.specs.Kept.{IsSet};
ghost use Rattle.gpu_snapshot.specs.Memories.{HasCause, HasRow, HasRows, LacksWords, TakesCells, with_cells};

use crate::block::{take_block, word_in};
use dev_io::Source;
use event_play::Rig;
use snapshot_words::SnapFault;
use std::simd::prelude::*;
use std::sync::ledger::Ledger;
use vram_store::Steps;

/// Returns the cell in the low half of a word.
fn low_half(word: u32) -> u16
    ensures { result ≡ word % 2 ^ 16 }
{
    (word & 0xffff) as u16
}

/// Returns the cell in the high half of a word.
fn high_half(word: u32) -> u16
    ensures { result ≡ word / 2 ^ 16 }
{
    (word >> 16) as u16
}

/// Returns sixteen cells of a block, from word `8 * c` on: two in each word, the first in the low half.
fn lanes_in(block: &[u8; 2048], c: usize) -> [u16; 16]
    requires { c < 64 }
    ensures { TakesCells (Some (drop (32 * c) block.now)) (Some (drop (32 * (c + 1)) block.now)) result }
{
    let mut lanes = [0u16; 16];
    'words: for k in 0..8 {
        let word = word_in(block, 8 * c + k);
        lanes[2 * k] = low_half(word);
        lanes[2 * k + 1] = high_half(word);
    }
    lanes
}

/// Reads the cells of all `rows` rows of video memory. `offset`: byte offset of the first, below 2^29. `rows` is a
/// parameter so that no proof computes the list. Costs at most 64 steps per row.
pub(crate) fn read_cells<S: Source, L: Ledger>(
    source: &mut S,
    offset: u32,
    rig: &mut Rig,
    rows: u32,
    steps: &mut Steps<L>,
) -> Result<(), SnapFault>
    requires rows { HasRows rig.old rows }
    requires offset { offset < 2 ^ 29 }
    ensures takes { OnOk result (TakesCells (S.left source.old) (S.left source.new) rig.new.gpu.parts.m) }
    ensures others { rig.new ≡ with_cells rig.old rig.new.gpu.parts.m }
    ensures long { length rig.new.gpu.parts.m ≡ length rig.old.gpu.parts.m }
    ensures fault { IfErr result (λ fault.
        LacksWords (S.left source.old) (S.left source.new) offset (512 * rows) fault) }
    ensures cause { HasCause (S.faults source.old) (S.faults source.new) result }
    ensures cost { steps.new ≤ steps.old + 64 * rows }
{
    let mut block = [0u8; 2048];
    'rows: for y in 0..rows {
        if let Err(fault) = take_block(source, offset + 2048 * y, &mut block) {
            return Err(fault);
        }
        set_row(rig, y, &block, steps);
    }
    Ok(())
}

/// Sets the cells of row `y` to those of a block.
fn set_row<L: Ledger>(rig: &mut Rig, y: u32, block: &[u8; 2048], steps: &mut Steps<L>)
    requires row { y < rig.old.gpu.parts.regs.height }
    requires most { y < 1024 }
    ensures row { HasRow block.now y rig.old.gpu.parts.m rig.new.gpu.parts.m }
    ensures others { rig.new ≡ with_cells rig.old rig.new.gpu.parts.m }
    ensures long { length rig.new.gpu.parts.m ≡ length rig.old.gpu.parts.m }
    ensures cost { steps.new ≡ steps.old + 64 }
{
    'chunks: for c in 0..64 {
        set_chunk(rig, 64 * y + c, lanes_in(block, c as usize), steps);
    }
}

/// Sets the sixteen cells of chunk `c`. Chunks are numbered row by row, 64 per row.
fn set_chunk<L: Ledger>(rig: &mut Rig, c: u32, lanes: [u16; 16], steps: &mut Steps<L>)
    requires row { c < 64 * rig.old.gpu.parts.regs.height }
    requires most { c < 65536 }
    ensures set { IsSet rig.old.gpu.parts.m (16 * c) lanes rig.new.gpu.parts.m }
    ensures others { rig.new ≡ with_cells rig.old rig.new.gpu.parts.m }
    ensures cost { steps.new ≡ steps.old + 1 }
{
    let x = (c % 64 * 16) as u16;
    let y = (c / 64) as u16;
    rig.set_cells(x, y, u16x16::from_array(lanes), steps);
}
