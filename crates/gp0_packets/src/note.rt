// The note of an item.
ghost use Rattle.std.specs.Prelude.{◌≡◌, ◌≤◌};
ghost use Rattle.gp0_words.specs.Kinds.{class_of};
ghost use Rattle.gp0_packets.specs.Notes.{class_of_item, head_of_item};

use gp0_words::Item;
use px_num::Box2;

/// The note of an item: a message that observers receive when the item has taken effect (this project's own).
#[derive(Clone, Copy, Debug, PartialEq, Eq)]
pub struct Note {
    /// The number of the event that completed the item.
    pub event: u64,
    /// 0 to 7: the top three bits of the command word. 8: the end of a polyline. 9: two cells of a load.
    pub class: u8,
    /// The command word, the end word or the data word; 0 for a `Whole` without words.
    pub head: u32,
    /// The cells that the item may change, or `None` if it has no area.
    pub area: Option<Box2>,
}

/// Returns the class of an item's note, 0 to 9.
pub fn class_of(item: &Item) -> u8
    ensures value { result ≡ class_of_item item.now }
    ensures at_most_nine { result ≤ 9 }
{
    match item {
        Item::Whole { .. } => class_of_word(head_of(item)),
        Item::Joint { .. } => 2,
        Item::Finish { .. } => 8,
        Item::Pixels { .. } => 9,
    }
}

/// Returns the class of a packet that begins with `word`, 0 to 7.
pub fn class_of_word(word: u32) -> u8
    ensures value { result ≡ class_of word }
    ensures at_most_seven { result ≤ 7 }
{
    (word >> 29) as u8
}

/// Returns the head of an item's note: the command word, the end word or the data word; 0 for a `Whole` without words.
pub fn head_of(item: &Item) -> u32
    ensures { result ≡ head_of_item item.now }
{
    match item {
        Item::Whole { words } => {
            let words = words.as_slice();
            if words.is_empty() { 0 } else { words[0] }
        }
        Item::Joint { command, .. } => *command,
        Item::Finish { word } | Item::Pixels { word } => *word,
    }
}
