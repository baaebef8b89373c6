// Fills, copies, loads and stores.
ghost use Rattle.std.specs.Prelude.{◌≡◌, ◌<◌, ◌≤◌, length};
ghost use Rattle.gp0_packets.specs.Fields.{cell_of};
ghost use Rattle.gp0_packets.specs.Packets.{fill_of, copy_of, load_of, store_of};
ghost use Rattle.gp0_packets.specs.Ranges.{IsInRange};

use crate::packet::Packet;
use gp0_words::{height_of, width_of};
use px_num::{Cell, bits, wrap_at, wrap_x};

/// Returns the cell that a corner word specifies: X modulo 1024, Y modulo `height`.
fn cell_at(corner: u32, height: u16) -> Cell
    requires { 1 ≤ height }
    ensures value { result ≡ cell_of height corner }
    ensures column { result.x < 1024 }
    ensures row { result.y < height }
{
    Cell {
        x: wrap_x(corner),
        y: wrap_at(corner >> 16, height),
    }
}

/// Returns the fill that `words` are. `height` is the height of video memory in rows.
#[inline(never)]
#[tactic(auto, unfolding(crate::specs::Packets::fill_of))]
pub fn fill(words: &[u32], height: u16) -> Packet
    requires len { length words.now ≡ 3 }
    requires some { 1 ≤ height }
    ensures value { result ≡ fill_of height words.now }
    ensures ranges { IsInRange height result }
{
    let command = words[0];
    let corner = words[1];
    let size = words[2];
    Packet::Fill {
        color: (bits(command, 3, 5)
            | bits(command, 11, 5) << 5
            | bits(command, 19, 5) << 10) as u16,
        x: (bits(corner, 0, 10) & !0xf) as u16,
        y: wrap_at(corner >> 16, height),
        w: (bits(size, 0, 10) + 0xf & !0xf) as u16,
        h: bits(size, 16, 9) as u16,
    }
}

/// Returns the copy that `words` are. `height` is the height of video memory in rows.
#[inline(never)]
#[tactic(auto, unfolding(crate::specs::Packets::copy_of))]
pub fn copy(words: &[u32], height: u16) -> Packet
    requires len { length words.now ≡ 4 }
    requires some { 1 ≤ height }
    ensures value { result ≡ copy_of height words.now }
    ensures ranges { IsInRange height result }
{
    let size = words[3];
    Packet::Copy {
        from: cell_at(words[1], height),
        to: cell_at(words[2], height),
        w: width_of(size),
        h: height_of(size),
    }
}

/// Returns the load that `words` are, without its data. `height` is the height of video memory in rows.
#[inline(never)]
#[tactic(auto, unfolding(crate::specs::Packets::load_of))]
pub fn load(words: &[u32], height: u16) -> Packet
    requires len { length words.now ≡ 3 }
    requires some { 1 ≤ height }
    ensures value { result ≡ load_of height words.now }
    ensures ranges { IsInRange height result }
{
    let Cell { x, y } = cell_at(words[1], height);
    let size = words[2];
    Packet::Load {
        x,
        y,
        w: width_of(size),
        h: height_of(size),
    }
}

/// Returns the store that `words` are. `height` is the height of video memory in rows.
#[inline(never)]
#[tactic(auto, unfolding(crate::specs::Packets::store_of))]
pub fn store(words: &[u32], height: u16) -> Packet
    requires len { length words.now ≡ 3 }
    requires some { 1 ≤ height }
    ensures value { result ≡ store_of height words.now }
    ensures ranges { IsInRange height result }
{
    let Cell { x, y } = cell_at(words[1], height);
    let size = words[2];
    Packet::Store {
        x,
        y,
        w: width_of(size),
        h: height_of(size),
    }
}
