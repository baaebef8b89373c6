//! Laws of walks. Each is the contract of a function that does nothing.
ghost use Rattle.std.specs.Prelude.{◌≡◌, ◌≤◌, ◌+◌, ℕ, List, length, None, MatchOption};
ghost use Rattle.ot_clear_dma.specs.Ram.{memory_words};
ghost use Rattle.list_dma.specs.Walk.{chain, walk_of, loop_of};
ghost use Rattle.list_dma.specs.Repeats.{AreApart, IsFirstRepeat};

/// A walk that visits no address twice has at most 524,288 nodes. A longer limit finds no further node.
pub fn walks_end()
    ensures most { (ram : List ℕ) → (start : ℕ) → loop_of ram start ≡ None → length (walk_of ram start) ≤ memory_words }
    ensures whole { (ram : List ℕ) → (start n : ℕ) → loop_of ram start ≡ None → memory_words + 1 ≤ n →
        chain ram start n ≡ walk_of ram start }
{}

/// If a walk visits an address twice, the reported address is the first that is equal to an earlier one. Otherwise
/// all its addresses are different.
pub fn walks_repeat()
    ensures { (ram : List ℕ) → (start : ℕ) → MatchOption (loop_of ram start)
        (AreApart (walk_of ram start) (length (walk_of ram start)))
        (IsFirstRepeat (walk_of ram start)) }
{}
