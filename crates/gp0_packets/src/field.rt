// Fields that several packets have.
ghost use Rattle.std.specs.Prelude.{◌≡◌, ◌<◌, ◌^◌, if◌then◌else◌, IsTrue, length, slice_index};
ghost use Rattle.gp0_packets.specs.Fields.{vertex_of, low_24, high_half};
ghost use Rattle.gp0_packets.specs.Ranges.{IsVertexInRange};

use px_num::{Vertex, bits, sign11};

/// Returns the low 24 bits of a word: a colour or a register's value.
pub fn low24(word: u32) -> u32
    ensures value { result ≡ low_24 word }
    ensures fits { result < 2 ^ 24 }
{
    bits(word, 0, 24)
}

/// Returns the attribute of a texcoord word, bits 16 to 31.
pub fn attribute(texcoord: u32) -> u16
    ensures { result ≡ high_half texcoord }
{
    (texcoord >> 16) as u16
}

/// Returns a vertex from its vertex word `place`, its colour word and its texcoord word.
pub fn vertex_at(place: u32, color: u32, texcoord: u32) -> Vertex
    ensures value { result ≡ vertex_of place color texcoord }
    ensures ranges { IsVertexInRange result }
{
    Vertex {
        x: sign11(place),
        y: sign11(place >> 16),
        color: low24(color),
        u: bits(texcoord, 0, 8) as u8,
        v: bits(texcoord, 8, 8) as u8,
    }
}

/// Returns `words[at]` if `set`, else `otherwise`. If `set`, `at` must be an index of `words`.
pub fn word_where(words: &[u32], set: bool, at: usize, otherwise: u32) -> u32
    requires { IsTrue set → at < length words.now }
    ensures { result ≡ (if set then slice_index words.now at else otherwise) }
{
    if set { words[at] } else { otherwise }
}
