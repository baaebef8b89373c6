// The operation of an event, or its fault. Nothing is changed before this is known.
ghost use Rattle.std.specs.Prelude.{◌≡◌, ◌≤◌, ◌-◌, ◌^◌, Option, IfOk, IfSome};
ghost use Rattle.ot_clear_dma.specs.Ram.{memory_words};
ghost use Rattle.list_dma.specs.Plans.{plan_of, begun, IsRun, IsWordAddress};
ghost use Rattle.event_play.specs.Block.{address_in, IsBlock};
ghost use Rattle.event_play.specs.Operation.{operation_of, move_operation, fault_of, clear_operation, start_operation};
ghost use Rattle.event_play.specs.Operation.{begin_operation, turn_operation};
ghost use Rattle.event_play.specs.Operation.{words_left, list_left, IsOperation};

use crate::block::{Block, address_in};
use crate::fault::EventFault;
use crate::operation::{Operation, Words};
use gpu_capture::Event;
use list_dma::{DmaFault, Plan, Run, Walk, block_plan, next_node, start_run};
use ot_clear_dma::Ram;

/// Returns the operation of an event, or its fault. Walks a list to its end before any of it is fed. `walk` is scratch
/// memory for that; it has no value in contracts. `running` must be in its bounds.
pub(crate) fn validate(
    event: &Event,
    walk: &mut Walk,
    ram: &Ram,
    running: Run,
) -> Result<Operation, EventFault>
    requires { IsRun running }
    ensures value { result ≡ operation_of ram.now running event.now }
    ensures bounds { IfOk result IsOperation }
{
    match *event {
        Event::Ram { address, word } => Ok(Operation::Put { address, word }),
        Event::Gp0 { word } => Ok(Operation::Feed {
            words: Words::One { word },
            next: running,
        }),
        Event::Gp1 { word } => Ok(Operation::Control { word }),
        Event::Read => Ok(Operation::Read),
        Event::Skip => Ok(Operation::Skip),
        Event::Stat => Ok(Operation::Stat),
        Event::Dma {
            channel,
            madr,
            bcr,
            chcr,
        } => {
            if channel == 6 {
                Ok(clear(madr, bcr, chcr))
            } else {
                start(walk, ram, madr, bcr, chcr)
            }
        }
        Event::Begin { madr, bcr, chcr } => begin(madr, bcr, chcr),
        Event::Turn => Ok(turn(ram, running)),
    }
}

// Returns the operation of a start of channel 6: clears a table if bit 24 of CHCR is set. The low half of BCR is the
// number of words, with 0 for 10000h.
fn clear(madr: u32, bcr: u32, chcr: u32) -> Operation
    ensures value { result ≡ clear_operation madr bcr chcr }
    ensures bounds { IsOperation result }
{
    if chcr >> 24 & 1 == 0 {
        return Operation::Nothing;
    }
    let field = bcr & 0xffff;
    Operation::Clear {
        madr,
        n: if field == 0 { 0x1_0000 } else { field },
    }
}

// Returns the operation of a start of channel 2 that moves everything at once, or its fault.
fn start(
    walk: &mut Walk,
    ram: &Ram,
    madr: u32,
    bcr: u32,
    chcr: u32,
) -> Result<Operation, EventFault>
    ensures value { result ≡ start_operation ram.now madr (plan_of bcr chcr) }
    ensures bounds { IfOk result IsOperation }
{
    match block_plan(bcr, chcr) {
        Err(why) => Err(fault_of(why)),
        Ok(Plan::Idle) => Ok(Operation::Nothing),
        Ok(Plan::Words { n, back, to_ram }) => {
            let block = Block { at: madr, n, back };
            Ok(move_words(block, to_ram, Run::Idle))
        }
        Ok(Plan::List) => match walk.check(ram, madr) {
            Ok(_) => Ok(Operation::Feed {
                words: Words::List { start: madr },
                next: Run::Idle,
            }),
            Err(refused) => Err(EventFault::ListLoop { node: refused.node }),
        },
    }
}

// Returns the operation of a start of channel 2 that moves nothing before its first turn, or its fault.
fn begin(madr: u32, bcr: u32, chcr: u32) -> Result<Operation, EventFault>
    ensures value { result ≡ begin_operation (begun madr bcr chcr (plan_of bcr chcr)) }
    ensures bounds { IfOk result IsOperation }
{
    match start_run(madr, bcr, chcr) {
        Err(why) => Err(fault_of(why)),
        Ok(None) => Ok(Operation::Nothing),
        Ok(Some(next)) => Ok(Operation::Begin { next }),
    }
}

// Returns the operation of a turn: one block of the running transfer or the rest of it, or the words of one node of a
// list. If no transfer runs, the turn does nothing.
fn turn(ram: &Ram, running: Run) -> Operation
    requires { IsRun running }
    ensures value { result ≡ turn_operation ram.now running }
    ensures bounds { IsOperation result }
{
    match running {
        Run::Idle => Operation::Nothing,
        Run::Words {
            at,
            left,
            block,
            back,
            to_ram,
        } => {
            let n = block.min(left);
            let turn = Block { at, n, back };
            let next = words_left(address_in(turn, n), left - n, block, back, to_ram);
            move_words(turn, to_ram, next)
        }
        Run::List { node } => Operation::Feed {
            words: Words::Node { node },
            next: list_left(next_node(ram, node)),
        },
    }
}

// Returns the operation that moves a block to main memory (`to_ram`) or from it. After it, `next` is the running
// transfer.
fn move_words(block: Block, to_ram: bool, next: Run) -> Operation
    requires size { IsBlock block }
    requires next { IsRun next }
    ensures value { result ≡ move_operation block to_ram next }
    ensures bounds { IsOperation result }
{
    if to_ram {
        Operation::Take { block, next }
    } else {
        Operation::Feed {
            words: Words::Block { block },
            next,
        }
    }
}

// Returns the rest of a transfer of words, or `Idle` if no word is left.
fn words_left(at: u32, left: u32, block: u32, back: bool, to_ram: bool) -> Run
    requires at { IsWordAddress at }
    requires left { left ≤ memory_words }
    requires block { (1 ≤ block) × (block ≤ 2 ^ 16) }
    ensures value { result ≡ words_left at left block back to_ram }
    ensures bounds { IsRun result }
{
    if left == 0 {
        Run::Idle
    } else {
        Run::Words {
            at,
            left,
            block,
            back,
            to_ram,
        }
    }
}

// Returns the rest of a list from `node` on, or `Idle` if the list ends.
fn list_left(node: Option<u32>) -> Run
    requires { IfSome node IsWordAddress }
    ensures value { result ≡ list_left node }
    ensures bounds { IsRun result }
{
    match node {
        None => Run::Idle,
        Some(node) => Run::List { node },
    }
}

fn fault_of(why: DmaFault) -> EventFault
    ensures { result ≡ fault_of why }
{
    match why {
        DmaFault::Bad => EventFault::BadDma,
        DmaFault::TooLong { words } => EventFault::DmaTooLong { words },
    }
}
