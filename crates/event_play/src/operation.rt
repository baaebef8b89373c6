// The operation of an event.
use crate::block::Block;
use list_dma::Run;

/// Words that are fed to GP0.
#[derive(Clone, Copy, Debug, PartialEq, Eq)]
pub enum Words {
    /// One word that the CPU writes.
    One { word: u32 },
    /// The words of a block of main memory.
    Block { block: Block },
    /// The words of one node of a list. `node`: byte address of its header.
    Node { node: u32 },
    /// The words of a whole list, node after node. `start`: address of its first node.
    List { start: u32 },
}

/// The operation of an event.
#[derive(Clone, Copy, Debug, PartialEq, Eq)]
pub enum Operation {
    Nothing,
    /// Stores a word in main memory.
    Put { address: u32, word: u32 },
    /// Feeds words to GP0. Then `next` is the running transfer.
    Feed { words: Words, next: Run },
    /// Reads words from the GPU into a block of main memory. Then `next` is the running transfer.
    Take { block: Block, next: Run },
    /// Writes a word to GP1.
    Control { word: u32 },
    /// Reads a word and shows it.
    Read,
    /// Reads a word and does not show it.
    Skip,
    /// Shows the status word.
    Stat,
    /// Clears an ordering table of `n` words.
    Clear { madr: u32, n: u32 },
    /// Makes `next` the running transfer.
    Begin { next: Run },
}
