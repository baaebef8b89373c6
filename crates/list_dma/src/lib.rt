//! DMA channel 2: linked lists in main memory, and what a start of the channel transfers.
//!
//! A linked list begins at an address. A node is the word at that address, its header: bits 0 to 23 are the next
//! address, and bits 24 to 31 the number of words that follow the header. An address with bit 23 ends the list. The
//! walk of a list is the sequence of its node addresses. A list whose walk visits an address twice never ends.
//! `Walk::check` refuses exactly these lists.
#![tactic(auto)]

pub mod laws;
mod marks;
mod node;
mod plan;
mod run;
mod walk;

pub use node::{next_node, node_at};
pub use plan::{DmaFault, Plan, block_plan};
pub use run::{Run, start_run};
pub use walk::{ListLoop, WALK_LIMIT, Walk};
