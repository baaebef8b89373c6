// The words of main memory.
ghost use Rattle.std.specs.Prelude.{◌≡◌, ◌≤◌, ◌<◌, ◌*◌, ◌/◌, ◌^◌, ℕ, List, length, vec_len, slice_index};
ghost use Rattle.std.specs.Prelude.{IfOk};
ghost use Rattle.ot_clear_dma.specs.Ram.{word_at, set, place_of, memory_words, first_memory, cut};
ghost use Rattle.px_num.specs.Zeros.{zeros};
ghost use Rattle.ot_clear_dma.specs.Table.{below, cleared_table, IsOrderingTable};

use px_num::{OutOfMemory, bits};
use std::alloc::{AllocError, Global};
use std::marker::Model;

/// The number of words of main memory.
pub const MEMORY_WORDS: u32 = 524_288;

/// The value of the last word of a table: an address that ends a list.
const END: u32 = 0xff_ffff;

/// Main memory. In contracts it is the list of its words.
#[derive(Drop)]
pub struct Ram {
    words: Vec<u32>,
}

impl Model for Ram {
    ghost Value = { List ℕ };

    ghost view = { λ ram. ram.words.items };

    ghost invariant = { λ ram. vec_len ram.words ≡ memory_words };
}

// Returns `n` words of 0. The length is a parameter, not a constant, so that no proof computes the list.
#[tactic(auto, unfolding(px_num::specs::Zeros::zeros))]
fn zeroed(alloc: Global, n: usize) -> Result<Vec<u32>, AllocError>
    ensures items { IfOk result (λ v. v.items ≡ zeros n) }
    ensures len { IfOk result (λ v. vec_len v ≡ n) }
{
    vec![in alloc; 0u32; n]
}

// Returns the index of the word at an address.
fn place(address: u32) -> usize
    ensures value { result ≡ place_of address }
    ensures in_memory { result < memory_words }
{
    bits(address, 2, 19) as usize
}

/// Returns the bitwise AND of `address` and 1FFFFCh: the address of the word, a multiple of 4 below 200000h.
pub fn cut(address: u32) -> u32
    ensures value { result ≡ cut address }
    ensures place { result / 4 ≡ place_of address }
    ensures in_memory { result < 2 ^ 21 }
{
    bits(address, 2, 19) * 4
}

// Returns the address `k` words below `address`. It wraps at the start of memory.
#[tactic(auto, unfolding(crate::specs::Table::below))]
fn below(address: u32, k: u32) -> u32
    requires { k ≤ 65536 }
    ensures { result ≡ below address k }
{
    cut(address.wrapping_sub(4 * k))
}

// States that each number of a slice has 32 bits. Does nothing.
fn fit(words: &[u32])
    ensures { (k : ℕ) → slice_index words.now k < 2 ^ 32 }
{
    let _ = words.len();
}

impl Ram {
    /// Returns memory with every word 0. Returns `OutOfMemory` if the allocation fails.
    #[tactic(auto, unfolding(crate::specs::Ram::first_memory))]
    pub fn new(alloc: Global) -> Result<Self, OutOfMemory>
        ensures words { IfOk result (λ ram. ram ≡ first_memory) }
        ensures long { IfOk result (λ ram. length ram ≡ memory_words) }
    {
        let words = zeroed(alloc, MEMORY_WORDS as usize)?;
        Ok(Ram { words })
    }

    /// Returns the word at `address`.
    pub fn get(&self, address: u32) -> u32
        ensures value { result ≡ word_at self.now address }
        ensures long { length self.now ≡ memory_words }
    {
        self.words[place(address)]
    }

    /// States, for proofs, that each word has 32 bits. Does nothing.
    pub fn words_fit(&self)
        ensures { (address : ℕ) → word_at self.now address < 2 ^ 32 }
    {
        fit(self.words.as_slice());
    }

    /// Writes `word` at `address`. Other words keep their values.
    pub fn put(&mut self, address: u32, word: u32)
        ensures words { self.new ≡ set self.old address word }
        ensures long { length self.new ≡ memory_words }
    {
        self.words[place(address)] = word;
    }

    /// Writes an ordering table of `n` words, 1 to 65,536, as DMA channel 6 does. The first word is at `madr`, and
    /// each later one 4 bytes below the one before. Each word is the address 4 bytes below its own; the last word is
    /// 00FFFFFFh. Addresses wrap at the start of memory.
    #[tactic(auto, unfolding(crate::specs::Table::cleared_table))]
    pub fn clear_table(&mut self, madr: u32, n: u32)
        requires some { 1 ≤ n }
        requires most { n ≤ 65536 }
        ensures words { self.new ≡ cleared_table self.old madr n }
        ensures table { IsOrderingTable self.old self.new madr n }
        ensures long { length self.new ≡ memory_words }
    {
        for k in 0..n - 1 {
            let address = below(madr, k);
            self.put(address, below(address, 1));
        }
        self.put(below(madr, n - 1), END);
    }
}
