// The words that an operation feeds, one after another.
ghost use Rattle.std.specs.Prelude.{◌≡◌, ◌≤◌, ◌^◌, ◌++◌, ◌∷◌, [], MatchOption};
ghost use Rattle.list_dma.specs.Node.{next_of, node_words};
ghost use Rattle.event_play.specs.Block.{block_words, IsBlock};
ghost use Rattle.event_play.specs.Cursor.{IsNextNode, following_words, nodes_words};
ghost use Rattle.event_play.specs.Step.{words_of};
ghost use Rattle.event_play.specs.Operation.{AreWords};

use crate::block::{Block, address_in};
use crate::operation::Words;
use list_dma::{WALK_LIMIT, node_at};
use ot_clear_dma::Ram;
use std::marker::Model;

/// Iterates over the words that an operation feeds: one word, a block, a node or a list. Borrows main memory and reads
/// each word when `next` returns it. In contracts, a cursor is the list of remaining words.
#[derive(Drop)]
pub struct WordCursor<'a> {
    ram: &'a Ram,
    block: Block,
    at: u32,
    following: Following,
}

impl<'a> Model for WordCursor<'a> {
    ghost use Rattle.std.specs.Prelude.{ℕ, List, ◌≤◌};
    ghost use Rattle.event_play.specs.Block.{IsBlock};
    ghost use Rattle.event_play.specs.Cursor.{words_left};

    ghost Value = { List ℕ };

    ghost view = { λ c. words_left c.ram.now c.block c.at c.following };

    ghost invariant = { λ c. IsBlock c.block × (c.at ≤ c.block.n) };
}

// What follows a block.
#[derive(Clone, Copy)]
enum Following {
    Nothing,
    /// A word that the CPU writes.
    Word { word: u32 },
    /// The first nodes of a list.
    Nodes { list: NodeList },
}

// The first nodes of a list: its start address, and the most nodes to visit.
#[derive(Clone, Copy)]
struct NodeList {
    start: u32,
    limit: u32,
}

// The words of a node, and what follows it.
#[derive(Clone, Copy)]
struct Node {
    words: Block,
    following: Following,
}

// The empty block.
const NO_BLOCK: Block = Block {
    at: 0,
    n: 0,
    back: false,
};

impl<'a> WordCursor<'a> {
    /// Returns a cursor over all of these words. A block must have at most 524,288 words, and the address of a node
    /// must be at most 200000h.
    #[tactic(auto, unfolding(list_dma::specs::Walk::list_words, list_dma::specs::Walk::walk_of))]
    pub fn new(ram: &'a Ram, words: Words) -> WordCursor<'a>
        requires { AreWords words }
        ensures { result ≡ words_of ram.now words }
    {
        match words {
            Words::One { word } => WordCursor::of(ram, NO_BLOCK, Following::Word { word }),
            Words::Block { block } => WordCursor::of(ram, block, Following::Nothing),
            Words::Node { node } => WordCursor::of(ram, block_at(ram, node), Following::Nothing),
            Words::List { start } => {
                let list = NodeList {
                    start,
                    limit: WALK_LIMIT,
                };
                WordCursor::of(ram, NO_BLOCK, Following::Nodes { list })
            }
        }
    }

    // Returns a cursor over a block and what follows it.
    fn of(ram: &'a Ram, block: Block, following: Following) -> WordCursor<'a>
        requires { IsBlock block }
        ensures { result ≡ block_words ram.now block ++ following_words ram.now following }
    {
        WordCursor {
            ram,
            block,
            at: 0,
            following,
        }
    }

    /// Returns the next word, or `None` if no word is left.
    #[inline(always)]
    pub fn next(&mut self) -> Option<u32>
        ensures { MatchOption result (self.old ≡ []) (λ word. self.old ≡ word ∷ self.new) }
    {
        if self.at < self.block.n {
            let word = self.ram.get(address_in(self.block, self.at));
            self.at += 1;
            return Some(word);
        }
        match self.following {
            Following::Nothing => None,
            Following::Word { word } => {
                self.following = Following::Nothing;
                Some(word)
            }
            Following::Nodes { list } => match next_node(self.ram, list) {
                None => None,
                Some(node) => {
                    self.block = node.words;
                    self.at = 1;
                    self.following = node.following;
                    Some(self.ram.get(address_in(node.words, 0)))
                }
            },
        }
    }
}

// Returns the words of a node as a block. `node`: byte address of its header.
fn block_at(ram: &Ram, node: u32) -> Block
    requires { node ≤ 2 ^ 21 }
    ensures words { block_words ram.now result ≡ node_words ram.now node }
    ensures bounds { IsBlock result }
{
    Block {
        at: node + 4,
        n: ram.get(node) >> 24,
        back: false,
    }
}

// Returns the next address in the header of a node.
fn next_address(ram: &Ram, node: u32) -> u32
    ensures { result ≡ next_of ram.now node }
{
    ram.get(node) & 0xff_ffff
}

// Returns the first node of a list that has words, and what follows it. Returns `None` if no node has any.
fn next_node(ram: &Ram, list: NodeList) -> Option<Node>
    ensures { MatchOption result (nodes_words ram.now list ≡ []) (IsNextNode ram.now list) }
{
    let mut start = list.start;
    'nodes: for k in 0..list.limit {
        match node_at(start) {
            None => return None,
            Some(node) => {
                let words = block_at(ram, node);
                start = next_address(ram, node);
                if 0 < words.n {
                    let limit = list.limit - (k + 1);
                    let following = Following::Nodes {
                        list: NodeList { start, limit },
                    };
                    return Some(Node { words, following });
                }
            }
        }
    }
    None
}
