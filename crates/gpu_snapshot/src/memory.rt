// Main memory, read in blocks.
ghost use Rattle.std.specs.Prelude.{◌≡◌, ◌<◌, ◌*◌, ◌^◌, length, OnOk, IfErr};
ghost use Rattle.gpu_snapshot.specs.Memories.{HasBlock, HasCause, LacksWords, TakesWords};

use crate::block::{take_block, word_in};
use dev_io::Source;
use event_play::Rig;
use snapshot_words::SnapFault;

/// Reads all words of main memory, in `blocks` blocks. `offset`: byte offset of the first, below 2^30. `blocks` is a
/// parameter so that no proof computes the list.
pub(crate) fn read_words<S: Source>(
    source: &mut S,
    offset: u32,
    rig: &mut Rig,
    blocks: u32,
) -> Result<(), SnapFault>
    requires all { 512 * blocks ≡ length rig.old.ram }
    requires long { length rig.old.ram ≡ 524288 }
    requires offset { offset < 2 ^ 30 }
    ensures takes { OnOk result (TakesWords (S.left source.old) (S.left source.new) rig.new.ram) }
    ensures others { rig.new ≡ record rig.old { ram = rig.new.ram } }
    ensures long { length rig.new.ram ≡ 524288 }
    ensures fault { IfErr result (λ fault.
        LacksWords (S.left source.old) (S.left source.new) offset (512 * blocks) fault) }
    ensures cause { HasCause (S.faults source.old) (S.faults source.new) result }
{
    let mut block = [0u8; 2048];
    'all: for b in 0..blocks {
        if let Err(fault) = take_block(source, offset + 2048 * b, &mut block) {
            return Err(fault);
        }
        set_block(rig, b, &block);
    }
    Ok(())
}

/// Sets the words of main memory from index `512 * b` on to those of a block.
fn set_block(rig: &mut Rig, b: u32, block: &[u8; 2048])
    requires within { b < 1024 }
    requires long { length rig.old.ram ≡ 524288 }
    ensures words { HasBlock block.now b rig.old.ram rig.new.ram }
    ensures others { rig.new ≡ record rig.old { ram = rig.new.ram } }
    ensures long { length rig.new.ram ≡ 524288 }
{
    'words: for k in 0..512 {
        rig.set_word(4 * (512 * b + k), word_in(block, k as usize));
    }
}
