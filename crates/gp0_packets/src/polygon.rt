// Triangles and quads.
ghost use Rattle.std.specs.Prelude.{◌≡◌, ◌<◌, ◌≤◌, if◌then◌else◌, length, slice_index, ℕ};
ghost use Rattle.gp0_words.specs.Kinds.{is_set, polygon_len_of};
ghost use Rattle.gp0_packets.specs.Corners.{Carries, HasCorner};
ghost use Rattle.gp0_packets.specs.Packets.{stride_of, corner_of, attribute_of, polygon_of};
ghost use Rattle.gp0_packets.specs.Ranges.{IsVertexInRange, IsInRange};

use crate::field::{attribute, vertex_at, word_where};
use crate::packet::Packet;
use px_num::{Vertex, bit};

/// What each vertex of a polygon carries besides its position.
#[derive(Clone, Copy)]
pub struct Carried {
    /// Its own colour.
    pub shaded: bool,
    /// A texcoord.
    pub textured: bool,
}

/// Returns what the vertices of a polygon with this command word carry.
pub fn carried_by(command: u32) -> Carried
    ensures { Carries result command }
{
    Carried {
        shaded: bit(command, 28),
        textured: bit(command, 26),
    }
}

/// Returns the number of words of a vertex: a colour if shaded, the vertex, and a texcoord if textured.
#[inline(always)]
fn stride(carried: Carried) -> usize
    ensures value { (command : ℕ) → Carries carried command → result ≡ stride_of command }
    ensures some { 1 ≤ result }
    ensures most { result ≤ 3 }
{
    1 + usize::from(carried.shaded) + usize::from(carried.textured)
}

/// Returns vertex `i`, counted from 0.
#[inline(always)]
fn corner(words: &[u32], carried: Carried, i: usize) -> Vertex
    requires some { 0 < length words.now }
    requires carried { Carries carried (slice_index words.now 0) }
    requires fits { i < 4 }
    requires within { HasCorner words.now i }
    ensures value { result ≡ corner_of words.now i }
    ensures ranges { IsVertexInRange result }
{
    let command = words[0];
    let first = i * stride(carried);
    let color = word_where(words, carried.shaded, first, command);
    let texcoord = word_where(words, carried.textured, first + 2, 0);
    vertex_at(words[first + 1], color, texcoord)
}

/// Returns the last vertex: the fourth if `four`, otherwise `third`.
#[inline(always)]
fn last_corner(words: &[u32], carried: Carried, four: bool, third: Vertex) -> Vertex
    requires words { length words.now ≡ polygon_len_of (slice_index words.now 0) }
    requires carried { Carries carried (slice_index words.now 0) }
    requires four { four ≡ is_set (slice_index words.now 0) 27 }
    requires third { third ≡ corner_of words.now 2 }
    requires third_range { IsVertexInRange third }
    ensures value { result ≡ corner_of words.now (if four then 3 else 2) }
    ensures ranges { IsVertexInRange result }
{
    if four {
        corner(words, carried, 3)
    } else {
        third
    }
}

/// Returns the attribute of the texcoord of vertex `i`, counted from 0, and 0 if there is no texcoord.
#[inline(always)]
fn attribute_at(words: &[u32], carried: Carried, i: usize) -> u16
    requires some { 0 < length words.now }
    requires carried { Carries carried (slice_index words.now 0) }
    requires fits { i < 4 }
    requires within { HasCorner words.now i }
    ensures { result ≡ attribute_of words.now i }
{
    if carried.textured {
        attribute(words[i * stride(carried) + 2])
    } else {
        0
    }
}

/// Returns the polygon that `words` are. `carried` must be what its vertices carry.
#[inline(always)]
#[tactic(auto, unfolding(crate::specs::Packets::polygon_of))]
pub fn polygon(words: &[u32], carried: Carried) -> Packet
    requires words { length words.now ≡ polygon_len_of (slice_index words.now 0) }
    requires carried { Carries carried (slice_index words.now 0) }
    ensures value { result ≡ polygon_of words.now }
    ensures ranges { (height : ℕ) → IsInRange height result }
{
    let command = words[0];
    let four = bit(command, 27);
    let third = corner(words, carried, 2);
    Packet::Poly {
        four,
        a: corner(words, carried, 0),
        b: corner(words, carried, 1),
        c: third,
        d: last_corner(words, carried, four, third),
        shaded: carried.shaded,
        textured: carried.textured,
        semi: bit(command, 25),
        raw: bit(command, 24) && carried.textured,
        clut: attribute_at(words, carried, 0),
        page: attribute_at(words, carried, 1),
    }
}
