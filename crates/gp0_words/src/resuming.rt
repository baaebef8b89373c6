// Which values may be pending.
ghost use Rattle.std.specs.Prelude.{◌≡◌, ◌↔◌, ◌<◌, IsTrue, length, slice_index};
ghost use Rattle.gp0_words.specs.Kinds.{first_len_of, begins_polyline};
ghost use Rattle.gp0_words.specs.Next.{IsPending, IsPolyline};

use crate::kind::{ends_polyline, first_len};
use crate::pending::Pending;
use crate::size::MOST_DATA_WORDS;
use px_num::bit;

impl Pending {
    /// Returns a copy.
    pub fn copied(&self) -> Pending
        ensures { result ≡ self.now }
    {
        match self {
            Pending::Idle => Pending::Idle,
            Pending::Packet { words } => Pending::Packet {
                words: words.copied(),
            },
            Pending::Pixels { left } => Pending::Pixels { left: *left },
            Pending::Poly {
                command,
                color,
                vertex,
                half,
            } => Pending::Poly {
                command: *command,
                color: *color,
                vertex: *vertex,
                half: *half,
            },
        }
    }
}

/// Returns whether `command` begins a polyline.
pub fn is_polyline(command: u32) -> bool
    ensures value { result ≡ begins_polyline command }
    ensures kind { IsTrue result ↔ IsPolyline command }
{
    command >> 29 == 2 && bit(command, 27)
}

// Returns whether `words` begin the first item of a packet and are not all of it.
fn is_begun(words: &[u32]) -> bool
    ensures { IsTrue result ↔ (0 < length words.now) × (length words.now < first_len_of (slice_index words.now 0)) }
{
    if words.len() == 0 {
        false
    } else {
        words.len() < first_len(words[0])
    }
}

// Returns whether some polyline without its end word leads to these values.
fn is_open_polyline(command: u32, color: u32, vertex: u32, half: Option<u32>) -> bool
    ensures { IsTrue result ↔ IsPending (Pending.Poly command color vertex half) }
{
    if !is_polyline(command) {
        return false;
    }
    let shaded = bit(command, 28);
    match half {
        None => shaded || color == command,
        Some(half) => shaded && !ends_polyline(half),
    }
}

/// Returns whether some list of words leads to this value.
pub(crate) fn may_be_pending(pending: &Pending) -> bool
    ensures { IsTrue result ↔ IsPending pending.now }
{
    match pending {
        Pending::Idle => true,
        Pending::Packet { words } => is_begun(words.as_slice()),
        Pending::Pixels { left } => 1 <= *left && *left <= MOST_DATA_WORDS,
        Pending::Poly {
            command,
            color,
            vertex,
            half,
        } => is_open_polyline(*command, *color, *vertex, *half),
    }
}
