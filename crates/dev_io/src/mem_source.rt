// A source in memory, whose bytes contracts know.
ghost use Rattle.std.specs.Prelude.{◌≡◌, ◌≤◌, ◌<◌, List, ℕ, Some, drop, min, length, IfOk, IsOk, OnErr};
ghost use Rattle.std.specs.Vec.{vec_len};
ghost use Rattle.dev_io.specs.Device.{Rose, Gives, IsAtEnd};

use crate::device::{Failed, Source};
use std::marker::Model;

/// A source in memory. A read returns as many bytes as `buf` can hold and the source has. It never fails.
#[derive(Drop)]
pub struct MemSource {
    bytes: Vec<u8>,
    at: usize,
}

impl Model for MemSource {
    ghost Value = { List ℕ };

    ghost view = { λ s. drop s.at s.bytes.items };

    ghost invariant = { λ s. s.at ≤ vec_len s.bytes };
}

impl MemSource {
    /// Returns a source of these bytes.
    pub fn new(bytes: Vec<u8>) -> Self
        ensures { result ≡ bytes.items }
    {
        MemSource { bytes, at: 0 }
    }

    /// Returns the bytes left.
    pub fn left(&self) -> &[u8]
        ensures { result.now ≡ self.now }
    {
        &self.bytes[self.at..]
    }
}

impl Source for MemSource {
    ghost left = { λ s. Some s };

    ghost faults = { λ _. 0 };

    ghost at_hand = { λ s. length s };

    fn read(&mut self, buf: &mut [u8]) -> Result<usize, Failed>
        ensures ok { IfOk result (λ n. Gives (Some self.old) (Some self.new) buf.new n) }
        ensures end { IfOk result (λ n. n ≡ 0 → 0 < length buf.new → IsAtEnd (Some self.new)) }
        ensures failed { OnErr result (self.new ≡ self.old) }
        ensures cause { OnErr result (Rose 0 0) }
        ensures never { IsOk result }
        ensures count { IfOk result (λ n. n ≡ min (length buf.old) (length self.old)) }
    {
        let n = buf.len().min(self.bytes.len() - self.at);
        buf[..n].copy_from_slice(&self.bytes[self.at..self.at + n]);
        self.at += n;
        Ok(n)
    }

    fn ready(&self) -> usize
        ensures at_hand { result ≡ length self.now }
        ensures left { result ≤ length self.now }
    {
        self.bytes.len() - self.at
    }
}
