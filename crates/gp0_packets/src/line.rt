// Lines and the first segments of polylines.
ghost use Rattle.std.specs.Prelude.{◌≡◌, ◌+◌, length, slice_index, ℕ};
ghost use Rattle.std.specs.Int.{bit_at};
ghost use Rattle.gp0_packets.specs.Packets.{line_of, segment_of};
ghost use Rattle.gp0_packets.specs.Ranges.{IsInRange};

use crate::field::vertex_at;
use crate::packet::Packet;
use px_num::bit;

/// Returns the segment between two vertices, each with its colour word.
#[inline(always)]
pub fn segment(
    command: u32,
    from_color: u32,
    from_vertex: u32,
    to_color: u32,
    to_vertex: u32,
) -> Packet
    ensures value { result ≡ segment_of command from_color from_vertex to_color to_vertex }
    ensures ranges { (height : ℕ) → IsInRange height result }
{
    Packet::Segment {
        a: vertex_at(from_vertex, from_color, 0),
        b: vertex_at(to_vertex, to_color, 0),
        semi: bit(command, 25),
    }
}

/// Returns the line, or the first segment of a polyline, that `words` are.
#[inline(always)]
#[tactic(auto, unfolding(crate::specs::Packets::line_of))]
pub fn line(words: &[u32]) -> Packet
    requires { length words.now ≡ 3 + bit_at (slice_index words.now 0) 28 }
    ensures value { result ≡ line_of words.now }
    ensures ranges { (height : ℕ) → IsInRange height result }
{
    let command = words[0];
    if bit(command, 28) {
        segment(command, command, words[1], words[2], words[3])
    } else {
        segment(command, command, words[1], command, words[2])
    }
}
