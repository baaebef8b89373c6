// Cuts the stream, one word a call.
ghost use Rattle.std.specs.Prelude.{◌≡◌, ◌↔◌, ◌≤◌, ◌<◌, ℕ, None, Some, List, [], ◌∷◌, ◌++◌, IsTrue, false};
ghost use Rattle.std.specs.Prelude.{option_to_list, MatchOption, IfSome};
ghost use Rattle.gp0_words.specs.Items.{items_of, pending_behind, IsIdle};
ghost use Rattle.gp0_words.specs.Kinds.{class_of};
ghost use Rattle.gp0_words.specs.Next.{wanted, next_pending, next_item, IsPending};
ghost use Rattle.gp0_words.specs.Pushed.{IsPushed};
ghost use Rattle.gp0_words.specs.Resuming.{list_of};
ghost use Rattle.gp0_words.specs.Skipped.{behind_pixels};
ghost use Rattle.gp0_words.specs.declared.item.Item.TheVariants.{Whole, Pixels};

use crate::item::Item;
use crate::next_word::{extend, take};
use crate::pending::{Pending, pixels_after, pixels_behind, wanted};
use crate::resuming::may_be_pending;
use std::marker::Model;

/// Cuts a stream of words into items, one word a call.
///
/// It stores only what is pending, and no list of the words received. In contracts, a splitter is what is pending: the
/// `pending_behind` of each list of words that leads to it.
#[derive(Drop)]
pub struct Splitter {
    pending: Pending,
}

impl Model for Splitter {
    ghost use Rattle.gp0_words.specs.declared.pending.Pending.{Pending};
    ghost use Rattle.gp0_words.specs.Next.{IsPending};

    ghost Value = { Pending };

    ghost view = { λ s. s.pending };

    ghost invariant = { λ s. IsPending s.pending };
}

impl Splitter {
    /// Returns a splitter with nothing pending, as after the empty list.
    #[tactic(auto, unfolding(crate::specs::Items::pending_behind))]
    pub fn new() -> Splitter
        ensures { result ≡ pending_behind [] }
    {
        Splitter {
            pending: Pending::Idle,
        }
    }

    /// Feeds the next word and returns the item that it completes.
    ///
    /// Returns `None` exactly if the words since the last item are a proper prefix of an item.
    pub fn push(&mut self, word: u32) -> Option<Item>
        // For every list of words that leads to the splitter: the items with `word` are those without it and the
        // result, and the splitter is now what the list with `word` leads to.
        ensures item { (words : List ℕ) → pending_behind words ≡ self.old →
            items_of (words ++ word ∷ []) ≡ items_of words ++ option_to_list result }
        ensures stands { (words : List ℕ) → pending_behind words ≡ self.old
            → pending_behind (words ++ word ∷ []) ≡ self.new }

        // What is pending and the word decide both.
        ensures pending { self.new ≡ next_pending self.old word }
        ensures answer { result ≡ next_item self.old word }

        // The bounds that every splitter keeps.
        ensures bounds { IsPending self.old × IsPending self.new }
    {
        take(&mut self.pending, word)
    }

    /// If a load is open, feeds its data word `word` and returns true. Otherwise changes nothing and returns false.
    /// Does the same as [`push`](Splitter::push) for a data word, and is faster.
    pub fn push_pixels(&mut self, word: u32) -> bool
        ensures pixels { IsTrue result → IsPushed self.old self.new word (Some (Pixels word)) }
        ensures others { result ≡ false → self.new ≡ self.old }
    {
        let left = wanted(&self.pending);
        if left == 0 {
            return false;
        }
        self.pending = pixels_after(left);
        true
    }

    /// Returns how many data words the open load still needs, and 0 if none is open.
    pub fn wanted(&self) -> u32
        ensures value { result ≡ wanted self.now }
        ensures bounds { IsPending self.now }
    {
        wanted(&self.pending)
    }

    /// Feeds the next `count` data words of the open load without their values. A load must be open and need at least
    /// `count` words.
    pub fn skip_pixels(&mut self, count: usize)
        requires some { 0 < wanted self.old }
        requires wanted { count ≤ wanted self.old }
        ensures pending { self.new ≡ behind_pixels self.old count }
        ensures bounds { IsPending self.old × IsPending self.new }
    {
        let left = wanted(&self.pending);
        self.pending = pixels_behind(left, count as u32);
    }

    /// Returns whether nothing is pending and `word` has opcode E0h to FFh. Then [`push`](Splitter::push) would return
    /// it as a packet of one word and leave the splitter unchanged.
    pub fn passes(&self, word: u32) -> bool
        ensures packet { IsTrue result → IsPushed self.now self.now word (Some (Whole (word ∷ []))) }
        ensures class { IsTrue result → class_of word ≡ 7 }
    {
        word >> 29 == 7 && self.is_idle()
    }

    /// If the first item of a packet is pending and `word` does not complete it, appends `word` and returns true.
    /// Otherwise changes nothing and returns false. Does the same as [`push`](Splitter::push) for such a word, and is
    /// faster.
    pub fn push_inside(&mut self, word: u32) -> bool
        ensures inside { IsTrue result → IsPushed self.old self.new word None }
        ensures others { result ≡ false → self.new ≡ self.old }
    {
        extend(&mut self.pending, word)
    }

    /// Drops everything pending, so the splitter is as after the empty list.
    #[tactic(auto, unfolding(crate::specs::Items::pending_behind))]
    pub fn clear(&mut self)
        ensures { self.new ≡ pending_behind [] }
    {
        self.pending = Pending::Idle;
    }

    /// Returns whether no packet, load or polyline is unfinished.
    pub fn is_idle(&self) -> bool
        ensures { IsTrue result ↔ IsIdle self.now }
    {
        matches!(&self.pending, Pending::Idle)
    }

    /// Returns a copy of what is pending.
    pub fn pending(&self) -> Pending
        ensures value { result ≡ self.now }
        ensures bounds { IsPending result }
    {
        self.pending.copied()
    }

    /// Returns a splitter with this pending, or `None` if no list of words leads to it.
    pub fn resume(pending: Pending) -> Option<Splitter>
        ensures exact { MatchOption result (IsPending pending → ⊥)
            (λ splitter. (splitter ≡ pending) × IsPending pending) }
        ensures list { IfSome result (λ splitter. pending_behind (list_of pending) ≡ splitter) }
    {
        if may_be_pending(&pending) {
            Some(Splitter { pending })
        } else {
            None
        }
    }
}
