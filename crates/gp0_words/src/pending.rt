// What is pending, and the data words that a load still needs.
ghost use Rattle.std.specs.Prelude.{◌≡◌, ◌<◌, ◌≤◌, ℕ};
ghost use Rattle.gp0_words.specs.Skipped.{behind_pixels};
ghost use Rattle.gp0_words.specs.Next.{wanted, next_pending};

use crate::words::Words;

/// The incomplete rest of a stream of words after its last complete packet.
///
/// It is all that a splitter stores of the words received.
#[derive(Drop)]
pub enum Pending {
    /// Nothing: every packet is complete.
    Idle,
    /// The words so far of an incomplete first item of a packet.
    Packet {
        /// The words, the command word first.
        words: Words,
    },
    /// A load that still needs data words.
    Pixels {
        /// Their number, 1 to 262,144.
        left: u32,
    },
    /// A polyline without its end word.
    Poly {
        /// Its command word.
        command: u32,
        /// The colour word of its last vertex; the command word if it is not shaded.
        color: u32,
        /// The vertex word of its last vertex.
        vertex: u32,
        /// The colour word of the next vertex, if it was received.
        half: Option<u32>,
    },
}

/// Returns how many data words a load still needs, and 0 if none is open.
pub fn wanted(pending: &Pending) -> u32
    ensures { result ≡ wanted pending.now }
{
    match pending {
        Pending::Pixels { left } => *left,
        Pending::Idle | Pending::Packet { .. } | Pending::Poly { .. } => 0,
    }
}

/// Returns what is pending after one of the `left` outstanding data words of a load. `left` must not be 0.
pub fn pixels_after(left: u32) -> Pending
    requires { 0 < left }
    ensures { (word : ℕ) → result ≡ next_pending (Pending.Pixels left) word }
{
    if left > 1 {
        Pending::Pixels { left: left - 1 }
    } else {
        Pending::Idle
    }
}

/// Returns what is pending after `count` of the `left` outstanding data words of a load. `count` must be at most
/// `left`.
pub fn pixels_behind(left: u32, count: u32) -> Pending
    requires { count ≤ left }
    ensures { result ≡ behind_pixels (Pending.Pixels left) count }
{
    if count < left {
        Pending::Pixels { left: left - count }
    } else {
        Pending::Idle
    }
}
