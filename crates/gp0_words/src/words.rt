// The words of one item.
ghost use Rattle.std.specs.Prelude.{◌≡◌, ◌<◌, [], ◌∷◌, ◌++◌, length};

use arrayvec::ArrayVec;
use std::marker::Model;

/// The words of one item, at most twelve. They are in an array, so no call allocates memory.
///
/// In contracts, a value is the list of the words.
#[derive(Drop)]
pub struct Words {
    words: ArrayVec<u32, 12>,
}

impl Model for Words {
    ghost use Rattle.std.specs.Prelude.{List, ℕ};

    ghost Value = { List ℕ };

    ghost view = { λ w. w.words.items };
}

impl Words {
    /// Returns no words.
    pub fn new() -> Words
        ensures { result ≡ [] }
    {
        Words {
            words: ArrayVec::new(),
        }
    }

    /// Appends a word. There must be fewer than twelve.
    pub fn push(&mut self, word: u32)
        requires { length self.old < 12 }
        ensures { self.new ≡ self.old ++ word ∷ [] }
    {
        self.words.push(word);
    }

    /// Returns a copy.
    pub fn copied(&self) -> Words
        ensures { result ≡ self.now }
    {
        let slice = self.words.as_slice();
        let mut words = Words::new();
        for word in slice {
            words.push(*word);
        }
        words
    }

    /// Returns the words, in order.
    pub fn as_slice(&self) -> &[u32]
        ensures { result.now ≡ self.now }
    {
        self.words.as_slice()
    }
}
