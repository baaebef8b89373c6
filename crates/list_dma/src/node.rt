// The nodes of a linked list.
ghost use Rattle.std.specs.Prelude.{◌≡◌, ◌<◌, ◌^◌, IfSome};
ghost use Rattle.list_dma.specs.Node.{is_end, next_of, node_of};
ghost use Rattle.list_dma.specs.Plans.{IsWordAddress};

use ot_clear_dma::{Ram, cut};
use px_num::{bit, bits};

/// Returns the address of the node that follows `node`, or `None` if the address in its header has bit 23. `node` is
/// a byte address; only its bits of 1FFFFCh matter.
pub fn next_node(ram: &Ram, node: u32) -> Option<u32>
    ensures value { result ≡ node_of (next_of ram.now node) }
    ensures whole { IfSome result IsWordAddress }
    ensures in_memory { IfSome result (λ next. next < 2 ^ 21) }
{
    node_at(next_address(ram, node))
}

/// Returns the node at `address`, a multiple of 4 below 200000h. Returns `None` if bit 23 of `address` is 1, which
/// ends a list.
pub fn node_at(address: u32) -> Option<u32>
    ensures value { result ≡ node_of address }
    ensures whole { IfSome result IsWordAddress }
    ensures in_memory { IfSome result (λ node. node < 2 ^ 21) }
{
    if ends(address) {
        None
    } else {
        Some(cut(address))
    }
}

// Returns whether an address ends a list: bit 23 is 1.
pub(crate) fn ends(address: u32) -> bool
    ensures { result ≡ is_end address }
{
    bit(address, 23)
}

// Returns the address in the header of a node.
pub(crate) fn next_address(ram: &Ram, node: u32) -> u32
    ensures { result ≡ next_of ram.now node }
{
    bits(ram.get(node), 0, 24)
}
