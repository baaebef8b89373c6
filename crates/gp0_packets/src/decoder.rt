// Decodes items into packets.
ghost use Rattle.std.specs.Prelude.{◌≡◌, ◌<◌, ◌≤◌, ℕ, length, slice_index};
ghost use Rattle.gp0_words.specs.Kinds.{opcode_of, first_len_of};
ghost use Rattle.gp0_words.specs.declared.item.Item.TheVariants.{Whole};
ghost use Rattle.px_num.specs.Height.{height_of_profile};
ghost use Rattle.gp0_packets.specs.Corners.{Carries};
ghost use Rattle.gp0_packets.specs.Drawn.{IsDrawnBy, IsOfClass};
ghost use Rattle.gp0_packets.specs.Packets.{sets_register, environment_of, other_of, whole_of, packet_of};
ghost use Rattle.gp0_packets.specs.Ranges.{IsInRange};

use crate::field::low24;
use crate::line::{line, segment};
use crate::note::class_of_word;
use crate::packet::Packet;
use crate::polygon::{Carried, carried_by, polygon};
use crate::rectangle::rectangle;
use crate::transfer::{copy, fill, load, store};
use gp0_words::{Item, first_len};
use px_num::height_of_profile;

/// Whether a word of class 7 with this opcode sets a register: E1h to E6h do, the others have no effect.
#[inline(always)]
pub fn sets_register(opcode: u32) -> bool
    ensures { result ≡ sets_register opcode }
{
    0xe1 <= opcode && opcode <= 0xe6
}

/// Returns the packet of a word of class 7: it sets a register or has no effect.
#[inline(never)]
#[tactic(auto, unfolding(crate::specs::Packets::environment_of))]
pub fn decode_environment(word: u32) -> Packet
    ensures value { result ≡ environment_of word }
    ensures ranges { (height : ℕ) → IsInRange height result }
{
    let opcode = word >> 24;
    if sets_register(opcode) {
        Packet::Env {
            index: (opcode - 0xe0) as u8,
            value: low24(word),
        }
    } else {
        Packet::Nop
    }
}

/// Returns the packet of words of class 0: a fill, an interrupt, or no effect.
#[inline(never)]
#[tactic(auto, unfolding(crate::specs::Packets::other_of))]
fn other(words: &[u32], height: u16) -> Packet
    requires some { 0 < length words.now }
    requires fill { opcode_of (slice_index words.now 0) ≡ 0x02 → length words.now ≡ 3 }
    requires rows { 1 ≤ height }
    ensures value { result ≡ other_of height words.now }
    ensures ranges { IsInRange height result }
{
    match words[0] >> 24 {
        0x02 => fill(words, height),
        0x1f => Packet::Irq,
        _ => Packet::Nop,
    }
}

/// Returns the polygon that `words` are. They must be a whole packet of opcode 20h to 3Fh, and `carried` what its
/// vertices carry. `carried` is an argument of its own so that a caller can pass a constant and the compiler
/// specializes the call.
#[inline(always)]
pub fn decode_polygon(words: &[u32], carried: Carried) -> Packet
    requires words { IsOfClass 1 words.now }
    requires carried { Carries carried (slice_index words.now 0) }
    ensures { IsDrawnBy words.now result }
{
    polygon(words, carried)
}

/// Returns the line that `words` are, or the first segment of a polyline. They must be a whole line packet (opcode 40h
/// to 5Fh) or the first item of a polyline.
#[inline(always)]
pub fn decode_line(words: &[u32]) -> Packet
    requires { IsOfClass 2 words.now }
    ensures { IsDrawnBy words.now result }
{
    line(words)
}

/// Returns the rectangle that `words` are. They must be a whole packet of opcode 60h to 7Fh.
#[inline(always)]
pub fn decode_rectangle(words: &[u32]) -> Packet
    requires { IsOfClass 3 words.now }
    ensures { IsDrawnBy words.now result }
{
    rectangle(words)
}

/// Returns the packet of `words`, as many as their first word requires. `height` is the height of video memory in rows.
#[inline(never)]
#[tactic(auto, unfolding(crate::specs::Packets::whole_of))]
pub fn decode_whole(words: &[u32], height: u16) -> Packet
    requires some { 0 < length words.now }
    requires len { length words.now ≡ first_len_of (slice_index words.now 0) }
    requires rows { 1 ≤ height }
    ensures value { result ≡ packet_of height (Whole words.now) }
    ensures ranges { IsInRange height result }
{
    let command = words[0];
    match class_of_word(command) {
        1 => polygon(words, carried_by(command)),
        2 => line(words),
        3 => rectangle(words),
        4 => copy(words, height),
        5 => load(words, height),
        6 => store(words, height),
        7 => decode_environment(command),
        _ => other(words, height),
    }
}

/// Returns the packet of an item. The Y of a fill, copy, load and store wraps at 1024 rows if `tall`, else at 512. A
/// `Whole` whose number of words does not match its first word is `Nop`; no splitter returns one.
pub fn decode(item: &Item, tall: bool) -> Packet
    ensures value { result ≡ packet_of (height_of_profile tall) item.now }
    ensures ranges { IsInRange (height_of_profile tall) result }
{
    match item {
        Item::Whole { words } => {
            let words = words.as_slice();
            if words.is_empty() {
                Packet::Nop
            } else if words.len() == first_len(words[0]) {
                decode_whole(words, height_of_profile(tall))
            } else {
                Packet::Nop
            }
        }
        Item::Joint {
            command,
            from_color,
            from_vertex,
            to_color,
            to_vertex,
        } => segment(*command, *from_color, *from_vertex, *to_color, *to_vertex),
        Item::Finish { .. } => Packet::Finish,
        Item::Pixels { word } => Packet::Pixels { word: *word },
    }
}
