// A transfer that runs in turns.
ghost use Rattle.std.specs.Prelude.{◌≡◌, ◌≤◌, IfOk, IfSome};
ghost use Rattle.list_dma.specs.Plans.{plan_of, turn_of, list_run_of, begun, IsRun};

use crate::node::ends;
use crate::plan::{DmaFault, Plan, block_plan, block_words, mode};
use ot_clear_dma::cut;

/// The rest of a transfer that runs in turns.
#[derive(Clone, Copy, Debug, PartialEq, Eq)]
pub enum Run {
    /// Nothing is left to transfer. A list without a node starts so.
    Idle,
    /// Words at consecutive addresses, up or down.
    Words {
        /// The address of the next word, a multiple of 4 below 200000h.
        at: u32,
        /// The number of words left, 1 to 524,288.
        left: u32,
        /// The number of words of one turn, 1 to 65,536.
        block: u32,
        /// Whether addresses decrease by 4 instead of increasing by 4.
        back: bool,
        /// Whether words are transferred from the GPU to memory.
        to_ram: bool,
    },
    /// A linked list.
    List {
        /// The address of the next node, a multiple of 4 below 200000h.
        node: u32,
    },
}

/// Returns the transfer that a start of DMA channel 2 with these values of MADR, BCR and CHCR begins. Returns `None`
/// if CHCR bit 24 is 0. Refuses what [`block_plan`] refuses. If bit 23 of a list's MADR is 1, the transfer is
/// `Run::Idle`.
pub fn start_run(madr: u32, bcr: u32, chcr: u32) -> Result<Option<Run>, DmaFault>
    ensures value { result ≡ begun madr bcr chcr (plan_of bcr chcr) }
    ensures bounds { IfOk result (λ run. IfSome run IsRun) }
{
    match block_plan(bcr, chcr)? {
        Plan::Idle => Ok(None),
        Plan::List => Ok(Some(list_run(madr))),
        Plan::Words { n, back, to_ram } => Ok(Some(Run::Words {
            at: cut(madr),
            left: n,
            block: turn(bcr, chcr, n),
            back,
            to_ram,
        })),
    }
}

// Returns the transfer of the list at an address.
fn list_run(address: u32) -> Run
    ensures value { result ≡ list_run_of address }
    ensures bounds { IsRun result }
{
    if ends(address) {
        Run::Idle
    } else {
        Run::List { node: cut(address) }
    }
}

// Returns the number of words of one turn: all `n` in mode 0, else one block.
fn turn(bcr: u32, chcr: u32, n: u32) -> u32
    requires { 1 ≤ n }
    ensures value { result ≡ turn_of bcr chcr n }
    ensures some { 1 ≤ result }
{
    if mode(chcr) == 0 { n } else { block_words(bcr) }
}
