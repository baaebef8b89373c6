// The output of a capture that was played, in memory of its own.
ghost use Rattle.std.specs.Prelude.{◌≡◌, ℕ, List, drop, length, take};

use std::marker::Model;

/// The bytes that a command wrote.
#[derive(Drop)]
pub struct Output {
    bytes: Vec<u8>,
}

impl Model for Output {
    ghost Value = { List ℕ };

    ghost view = { λ o. o.bytes.items };
}

impl Output {
    /// Returns an output of these bytes.
    pub(crate) fn new(bytes: Vec<u8>) -> Output
        ensures { result ≡ bytes.items }
    {
        Output { bytes }
    }

    /// Returns the number of bytes.
    pub(crate) fn len(&self) -> usize
        ensures { result ≡ length self.now }
    {
        self.bytes.len()
    }

    /// Returns the bytes from `offset` on, at most `room` of them.
    pub(crate) fn piece(&self, offset: usize, room: usize) -> &[u8]
        ensures { result.now ≡ take room (drop offset self.now) }
    {
        let start = offset.min(self.bytes.len());
        let rest = &self.bytes[start..];
        &rest[..room.min(rest.len())]
    }
}
