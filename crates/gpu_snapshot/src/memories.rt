// Reads both memories of a state.
ghost use Rattle.std.specs.Prelude.{◌≡◌, ◌≤◌, ◌<◌, ◌+◌, ◌*◌, ◌^◌, OnOk, IfErr};
ghost use Rattle.gpu_snapshot.specs.Memories.{ChangesMemories, HasCause, HasMemories, LacksWords, TakesMemories};

use crate::cells::read_cells;
use crate::memory::read_words;
use dev_io::Source;
use event_play::Rig;
use snapshot_words::SnapFault;
use std::sync::ledger::Ledger;
use vram_store::Steps;

/// The number of blocks of 512 words in main memory.
const MEMORY_BLOCKS: u32 = 1024;

/// The size in bytes of a block, and of a row of cells.
const BLOCK_BYTES: u32 = 2048;

/// Reads video memory and main memory. `offset`: byte offset of the first byte, below 2^20; advanced past the last if
/// all was read.
pub(crate) fn read_memories<S: Source, L: Ledger>(
    source: &mut S,
    offset: &mut u32,
    rig: &mut Rig,
    steps: &mut Steps<L>,
) -> Result<(), SnapFault>
    requires sizes { HasMemories rig.old }
    requires offset { offset.old < 2 ^ 20 }
    ensures takes { OnOk result (TakesMemories (S.left source.old) (S.left source.new)
        rig.new.gpu.parts.m rig.new.ram) }
    ensures offset { OnOk result (offset.new ≡ offset.old + 4 * (512 * rig.old.gpu.parts.regs.height + 524288)) }
    ensures memories { ChangesMemories rig.old rig.new }
    ensures fault { IfErr result (λ fault. LacksWords (S.left source.old) (S.left source.new) offset.old
        (512 * rig.old.gpu.parts.regs.height + 524288) fault) }
    ensures cause { HasCause (S.faults source.old) (S.faults source.new) result }
    ensures cost { steps.new ≤ steps.old + 64 * rig.old.gpu.parts.regs.height }
{
    let start = *offset;
    let rows = u32::from(rig.gpu().height());
    if let Err(fault) = read_cells(source, start, rig, rows, steps) {
        return Err(fault);
    }
    let after = start + BLOCK_BYTES * rows;
    if let Err(fault) = read_words(source, after, rig, MEMORY_BLOCKS) {
        return Err(fault);
    }
    *offset = after + BLOCK_BYTES * MEMORY_BLOCKS;
    Ok(())
}
