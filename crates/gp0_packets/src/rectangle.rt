// Rectangles.
ghost use Rattle.std.specs.Prelude.{◌≡◌, ◌/◌, ◌%◌, ◌^◌, ◌<◌, length, slice_index, ℕ};
ghost use Rattle.gp0_words.specs.Kinds.{rectangle_len_of};
ghost use Rattle.gp0_packets.specs.Packets.{size_code_of, side_of, size_word_of, rectangle_of};
ghost use Rattle.gp0_packets.specs.Ranges.{IsInRange};

use crate::field::{attribute, vertex_at, word_where};
use crate::packet::Packet;
use px_num::{bit, bits};

/// Returns the width and height in cells, by the size code: those of the size word for 0, otherwise 1, 8 or 16 for
/// both.
fn sides(code: u32, size: u32) -> (u16, u16)
    ensures width { result.0 ≡ side_of code (size % 2 ^ 10) }
    ensures height { result.1 ≡ side_of code (size / 2 ^ 16 % 2 ^ 9) }
    ensures width_range { result.0 < 1024 }
    ensures height_range { result.1 < 512 }
{
    match code {
        0 => (bits(size, 0, 10) as u16, bits(size, 16, 9) as u16),
        1 => (1, 1),
        2 => (8, 8),
        _ => (16, 16),
    }
}

/// Returns the width and height in cells of the rectangle that `words` are.
fn rectangle_sides(words: &[u32]) -> (u16, u16)
    requires { length words.now ≡ rectangle_len_of (slice_index words.now 0) }
    ensures width { result.0 ≡ side_of (size_code_of words.now) (size_word_of words.now % 2 ^ 10) }
    ensures height { result.1 ≡ side_of (size_code_of words.now) (size_word_of words.now / 2 ^ 16 % 2 ^ 9) }
    ensures width_range { result.0 < 1024 }
    ensures height_range { result.1 < 512 }
{
    let command = words[0];
    let code = bits(command, 27, 2);
    let place = 2 + usize::from(bit(command, 26));
    let size = word_where(words, code == 0, place, 0);
    sides(code, size)
}

/// Returns the rectangle that `words` are.
#[inline(always)]
#[tactic(auto, unfolding(crate::specs::Packets::rectangle_of))]
pub fn rectangle(words: &[u32]) -> Packet
    requires { length words.now ≡ rectangle_len_of (slice_index words.now 0) }
    ensures value { result ≡ rectangle_of words.now }
    ensures ranges { (height : ℕ) → IsInRange height result }
{
    let command = words[0];
    let textured = bit(command, 26);
    let texcoord = word_where(words, textured, 2, 0);
    let first = vertex_at(words[1], command, texcoord);
    let (w, h) = rectangle_sides(words);
    Packet::Rect {
        x: first.x,
        y: first.y,
        w,
        h,
        color: first.color,
        textured,
        semi: bit(command, 25),
        raw: bit(command, 24) && textured,
        u: first.u,
        v: first.v,
        clut: attribute(texcoord),
    }
}
