// A sink that counts its bytes and keeps none.
ghost use Rattle.std.specs.Prelude.{◌≡◌, ◌≤◌, ◌<◌, ◌-◌, ◌^◌, Some, [], length};
ghost use Rattle.psxgpu_c.specs.Room.{Accepted};

use crate::sent::{Piece, Sent};
use dev_io::{Failed, Sink};
use std::marker::Model;

/// A sink that counts its bytes. It fails only if their number is 2^64 - 1.
#[derive(Drop)]
pub(crate) struct CountSink {
    count: usize,
    faults: u64,
    sent: Sent,
}

impl Model for CountSink {
    ghost Value = { Accepted };

    ghost view = { λ s. record { held = s.sent.bytes; faults = s.faults } };

    ghost invariant = { λ s. (s.count ≡ length s.sent.bytes) × (0 < s.faults → s.count ≡ 2 ^ 64 - 1) };
}

impl CountSink {
    /// Creates a sink that counted no byte.
    pub(crate) fn new() -> Self
        ensures { result ≡ record { held = []; faults = 0 } }
    {
        CountSink {
            count: 0,
            faults: 0,
            sent: Sent::nothing(),
        }
    }

    /// Returns the number of bytes.
    pub(crate) fn count(&self) -> usize
        ensures value { result ≡ length self.now.held }
        ensures full { 0 < self.now.faults → result ≡ 2 ^ 64 - 1 }
    {
        self.count
    }
}

impl Sink for CountSink {
    ghost held = { λ s. Some s.held };

    ghost faults = { λ s. s.faults };

    fn write(&mut self, piece: &[u8]) -> Result<usize, Failed> {
        let n = piece.len().min(usize::MAX - self.count);
        if n == 0 && !piece.is_empty() {
            self.faults = self.faults.saturating_add(1);
            return Err(Failed);
        }
        self.sent = self.sent.then(&Piece { bytes: &piece[..n] });
        self.count += n;
        Ok(n)
    }
}
