// How many bytes the records of an operation have.
ghost use Rattle.std.specs.Prelude.{◌≡◌, ◌≤◌, ◌+◌, ◌*◌, ◌^◌, flat_map, length};
ghost use Rattle.list_dma.specs.Node.{node_words};
ghost use Rattle.list_dma.specs.Walk.{chain, list_words};
ghost use Rattle.ot_clear_dma.specs.Ram.{memory_words};
ghost use Rattle.event_play.specs.Step.{words_of};
ghost use Rattle.event_play.specs.Operation.{AreWords, IsOperation};
ghost use Rattle.capture_flat.specs.Flat.{flat_operation};
ghost use Rattle.gpu_capture.specs.Written.{spell};

use event_play::{Operation, Words};
use list_dma::{WALK_LIMIT, next_node, node_at};
use ot_clear_dma::Ram;

/// Returns the number of bytes of the records of an operation. `ram`: main memory.
#[tactic(auto, using(crate::proofs::Counts::words_bytes, crate::proofs::Counts::skips_bytes))]
pub(crate) fn count_operation(ram: &Ram, operation: Operation) -> u32
    requires { IsOperation operation }
    ensures value { result ≡ length (spell (flat_operation ram.now operation)) }
    ensures few { result ≤ 2 ^ 31 }
{
    match operation {
        Operation::Feed { words, .. } => 8 * count_words(ram, words),
        Operation::Take { block, .. } => 4 * block.n,
        Operation::Control { .. } => 8,
        Operation::Read => 4,
        Operation::Skip => 4,
        Operation::Stat => 4,
        Operation::Nothing => 0,
        Operation::Put { .. } => 0,
        Operation::Clear { .. } => 0,
        Operation::Begin { .. } => 0,
    }
}

// Returns how many words go to GP0.
#[tactic(auto, using(crate::proofs::Counts::block_length))]
fn count_words(ram: &Ram, words: Words) -> u32
    requires { AreWords words }
    ensures value { result ≡ length (words_of ram.now words) }
    ensures few { result ≤ 255 * (memory_words + 1) }
{
    match words {
        Words::One { .. } => 1,
        Words::Block { block } => block.n,
        Words::Node { node } => count_node(ram, node),
        Words::List { start } => count_list(ram, start),
    }
}

// Returns how many words a list node has: 0 to 255.
#[tactic(auto, using(crate::proofs::Counts::node_length))]
fn count_node(ram: &Ram, node: u32) -> u32
    ensures value { result ≡ length (node_words ram.now node) }
    ensures few { result ≤ 255 }
{
    ram.get(node) >> 24
}

// Returns how many words a list has. `start`: address of the first node.
#[tactic(auto, unfolding(list_dma::specs::Walk::list_words, list_dma::specs::Walk::walk_of))]
fn count_list(ram: &Ram, start: u32) -> u32
    ensures value { result ≡ length (list_words ram.now start) }
    ensures few { result ≤ 255 * (memory_words + 1) }
{
    count_nodes(ram, start, WALK_LIMIT)
}

// Returns how many words the first `limit` nodes of a list have.
fn count_nodes(ram: &Ram, start: u32, limit: u32) -> u32
    requires { limit ≤ memory_words + 1 }
    ensures value { result ≡ length (flat_map (node_words ram.now) (chain ram.now start limit)) }
    ensures few { result ≤ 255 * limit }
{
    let mut next = node_at(start);
    let mut n = 0;
    'nodes: for k in 0..limit {
        let _ = k;
        match next {
            None => return n,
            Some(node) => {
                n += count_node(ram, node);
                next = next_node(ram, node);
            }
        }
    }
    n
}
