// Contiguous words of main memory.
ghost use Rattle.std.specs.Prelude.{◌≡◌, ◌≤◌};
ghost use Rattle.ot_clear_dma.specs.Ram.{cut, memory_words};
ghost use Rattle.event_play.specs.Block.{address_in};

/// `n` contiguous words of main memory.
#[derive(Clone, Copy, Debug, PartialEq, Eq)]
pub struct Block {
    /// The byte address of the first word.
    pub at: u32,
    /// The number of words.
    pub n: u32,
    /// Whether addresses decrease by 4 instead of increasing by 4.
    pub back: bool,
}

/// Returns the byte address of word `i` of a block, `i` at most 524,288. For `i` = `block.n` this is the address after
/// the last word.
#[tactic(auto, unfolding(crate::specs::Block::address_in))]
pub(crate) fn address_in(block: Block, i: u32) -> u32
    requires { i ≤ memory_words }
    ensures value { result ≡ address_in block i }
    ensures cut { result ≡ cut result }
{
    let address = if block.back {
        block.at.wrapping_sub(4 * i)
    } else {
        block.at.wrapping_add(4 * i)
    };
    address & 0x1f_ffff & !3
}
