// The check that a list's walk ends.
ghost use Rattle.std.specs.Prelude.{◌≡◌, ℕ, length, false, MatchResult, None, Some, []};
ghost use Rattle.list_dma.specs.Walk.{chain, repeat_after, walk_of, loop_of};
ghost use Rattle.list_dma.specs.Marks.{is_marked};

use crate::marks::Marks;
use crate::node::{ends, next_address};
use ot_clear_dma::{MEMORY_WORDS, Ram, cut};
use px_num::OutOfMemory;
use std::alloc::Global;
use std::marker::Model;

/// One more than the number of word addresses of memory. A walk of this many nodes has visited one twice.
pub const WALK_LIMIT: u32 = MEMORY_WORDS + 1;

/// The error for a list that never ends: its walk visits an address twice.
#[derive(Clone, Copy, Debug, PartialEq, Eq)]
pub struct ListLoop {
    /// The first address that is visited a second time.
    pub node: u32,
}

/// The set of addresses visited by a list walk: a bitmap with one bit per word of main memory (524,288). It has no
/// value in contracts.
#[derive(Drop)]
pub struct Walk {
    marks: Marks,
}

impl Model for Walk {
    ghost use Rattle.std.specs.Prelude.{⊤};

    ghost Value = { ⊤ };

    ghost view = { λ _. tt };
}

impl Walk {
    /// Allocates an empty set. Returns `OutOfMemory` if the allocation fails.
    pub fn new(alloc: Global) -> Result<Self, OutOfMemory> {
        let marks = Marks::new(alloc)?;
        Ok(Walk { marks })
    }

    /// Walks a list before any of its words is transferred. `start` is its first address. Returns the number of
    /// nodes, 0 if `start` ends the list. If the walk visits an address twice, returns `ListLoop` with the first such
    /// address. Allocates nothing. The result does not depend on earlier checks.
    #[tactic(auto, unfolding(crate::specs::Walk::loop_of, crate::specs::Walk::walk_of))]
    pub fn check(&mut self, ram: &Ram, start: u32) -> Result<u32, ListLoop>
        ensures { MatchResult result
            (λ nodes. (loop_of ram.now start ≡ None) × (nodes ≡ length (walk_of ram.now start)))
            (λ refused. loop_of ram.now start ≡ Some refused.node) }
    {
        self.marks.clear();
        count_nodes(&mut self.marks, ram, start, WALK_LIMIT)
    }
}

// Returns the number of nodes of the walk, at most `limit`, or the first address that is visited twice. `limit` is a
// parameter, not a constant, so that no proof computes the walk.
#[tactic(auto, unfolding(crate::specs::Walk::chain))]
fn count_nodes(marks: &mut Marks, ram: &Ram, start: u32, limit: u32) -> Result<u32, ListLoop>
    requires { (place : ℕ) → is_marked marks.old place ≡ false }
    ensures { MatchResult result
        (λ nodes. (repeat_after [] (chain ram.now start limit) ≡ None) × (nodes ≡ length (chain ram.now start limit)))
        (λ refused. repeat_after [] (chain ram.now start limit) ≡ Some refused.node) }
{
    let mut address = start;
    for count in 0..limit {
        if ends(address) {
            return Ok(count);
        }
        let node = cut(address);
        if marks.contains(node / 4) {
            return Err(ListLoop { node });
        }
        marks.insert(node / 4);
        address = next_address(ram, node);
    }
    Ok(limit)
}
