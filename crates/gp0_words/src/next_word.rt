// One more word, added to what is pending.
ghost use Rattle.std.specs.Prelude.{◌≡◌, ◌<◌, ◌≤◌, ◌+◌, IsTrue, false, nat_lt, None, Some, length, slice_index};
ghost use Rattle.gp0_words.specs.Kinds.{kind_of, start_len, first_len_of};
ghost use Rattle.gp0_words.specs.Next.{next_pending, next_item, IsPending};
ghost use Rattle.gp0_words.specs.Next.{pending_after, collected_pending, collected_item};

use crate::item::Item;
use crate::kind::{Kind, ends_polyline, first_len, read_kind, start_count};
use crate::pending::{Pending, pixels_after};
use crate::size::data_count;
use crate::words::Words;
use px_num::bit;
use std::mem;

/// Returns what is pending after the first item of a packet. `words` are the words of that item.
fn pending_after(kind: Kind, words: &[u32]) -> Pending
    requires { start_len kind ≤ length words.now }
    ensures { result ≡ pending_after kind words.now }
{
    match kind {
        Kind::Plain { .. } => Pending::Idle,
        Kind::Load => Pending::Pixels {
            left: data_count(words[2]),
        },
        Kind::Polyline { shaded } => {
            if shaded {
                Pending::Poly {
                    command: words[0],
                    color: words[2],
                    vertex: words[3],
                    half: None,
                }
            } else {
                Pending::Poly {
                    command: words[0],
                    color: words[0],
                    vertex: words[2],
                    half: None,
                }
            }
        }
    }
}

/// Returns what is pending after the first words of a packet, and the packet's first item if they are all of it.
fn collect(words: Words) -> (Pending, Option<Item>)
    requires { 0 < length words }
    ensures pending { result.0 ≡ collected_pending (kind_of (slice_index words 0)) words }
    ensures item { result.1 ≡ collected_item (kind_of (slice_index words 0)) words }
{
    let slice = words.as_slice();
    let kind = read_kind(slice[0]);
    if slice.len() < start_count(kind) {
        (Pending::Packet { words }, None)
    } else {
        let pending = pending_after(kind, slice);
        (pending, Some(Item::Whole { words }))
    }
}

/// Returns a segment from the last vertex to a new one, which is now the last.
fn joint(
    command: u32,
    from_color: u32,
    from_vertex: u32,
    to_color: u32,
    to_vertex: u32,
) -> (Pending, Option<Item>)
    ensures pending { result.0 ≡ Pending.Poly command to_color to_vertex None }
    ensures item { result.1 ≡ Some (Item.Joint command from_color from_vertex to_color to_vertex) }
{
    let pending = Pending::Poly {
        command,
        color: to_color,
        vertex: to_vertex,
        half: None,
    };
    let item = Item::Joint {
        command,
        from_color,
        from_vertex,
        to_color,
        to_vertex,
    };
    (pending, Some(item))
}

/// Adds a word that is the first word of a polyline's next vertex, or ends the polyline.
fn next_vertex(command: u32, color: u32, vertex: u32, word: u32) -> (Pending, Option<Item>)
    ensures pending { result.0 ≡ next_pending (Pending.Poly command color vertex None) word }
    ensures item { result.1 ≡ next_item (Pending.Poly command color vertex None) word }
{
    if ends_polyline(word) {
        (Pending::Idle, Some(Item::Finish { word }))
    } else if bit(command, 28) {
        let pending = Pending::Poly {
            command,
            color,
            vertex,
            half: Some(word),
        };
        (pending, None)
    } else {
        joint(command, color, vertex, command, word)
    }
}

/// Returns whether `words`, which begin a packet, are at least two words short of its first item.
fn want_more(words: &Words) -> bool
    requires { 0 < length words.now }
    ensures { result ≡ nat_lt (length words.now + 1) (first_len_of (slice_index words.now 0)) }
{
    let slice = words.as_slice();
    slice.len() + 1 < first_len(slice[0])
}

/// If a packet is pending and `word` does not complete its first item, appends `word` and returns true. Otherwise
/// changes nothing and returns false.
pub fn extend(pending: &mut Pending, word: u32) -> bool
    requires { IsPending pending.old }
    ensures taken { IsTrue result → (pending.new ≡ next_pending pending.old word)
        × (next_item pending.old word ≡ None) }
    ensures others { result ≡ false → pending.new ≡ pending.old }
{
    match pending {
        Pending::Packet { words } => {
            if want_more(words) {
                words.push(word);
                true
            } else {
                false
            }
        }
        Pending::Idle | Pending::Pixels { .. } | Pending::Poly { .. } => false,
    }
}

/// Adds one word. Returns what is pending after it, and the item that it completes.
pub fn after_word(pending: Pending, word: u32) -> (Pending, Option<Item>)
    requires { IsPending pending }
    ensures pending { result.0 ≡ next_pending pending word }
    ensures item { result.1 ≡ next_item pending word }
{
    match pending {
        Pending::Idle => {
            let mut words = Words::new();
            words.push(word);
            collect(words)
        }
        Pending::Packet { mut words } => {
            words.push(word);
            collect(words)
        }
        Pending::Pixels { left } => (pixels_after(left), Some(Item::Pixels { word })),
        Pending::Poly {
            command,
            color,
            vertex,
            half,
        } => match half {
            None => next_vertex(command, color, vertex, word),
            Some(half) => joint(command, color, vertex, half, word),
        },
    }
}

/// Adds one word to `pending`. Returns the item that it completes.
pub fn take(pending: &mut Pending, word: u32) -> Option<Item>
    requires { IsPending pending.old }
    ensures pending { pending.new ≡ next_pending pending.old word }
    ensures item { result ≡ next_item pending.old word }
{
    if extend(pending, word) {
        return None;
    }
    let before = mem::replace(pending, Pending::Idle);
    let (after, item) = after_word(before, word);
    *pending = after;
    item
}
