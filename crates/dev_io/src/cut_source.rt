// A source in memory that returns its bytes in pieces and fails at chosen calls.
ghost use Rattle.std.specs.Prelude.{◌≡◌, ◌≤◌, ◌<◌, ◌↔◌, Some, drop, length, Contains, IfOk, IsErr, OnErr};
ghost use Rattle.std.specs.Prelude.{MatchResult};
ghost use Rattle.std.specs.Vec.{vec_len};
ghost use Rattle.dev_io.specs.Cut.{CutState, most_of, gives_now, after_giving, after_failing};
ghost use Rattle.dev_io.specs.Device.{Rose, Gives, IsAtEnd};

use crate::device::{Failed, Source};
use std::marker::Model;

/// A source in memory that returns its bytes in pieces and fails at chosen calls.
///
/// Calls that return a byte are counted from 0, and call k of them returns at most `pieces[k]` bytes. An entry 0 counts
/// as 1; without an entry there is no limit. `fails` contains numbers of calls, where all calls are counted from 0.
/// These calls fail and read nothing. The count of faults is the number of failed calls.
#[derive(Drop)]
pub struct CutSource {
    bytes: Vec<u8>,
    at: usize,
    pieces: Vec<u32>,
    given: usize,
    fails: Vec<u64>,
    calls: u64,
    faults: u64,
}

impl Model for CutSource {
    ghost Value = { CutState };

    ghost view = { λ s. record {
      left = drop s.at s.bytes.items;
      pieces = s.pieces.items;
      given = s.given;
      fails = s.fails.items;
      calls = s.calls;
      faults = s.faults;
    } };

    ghost invariant = { λ s. (s.at ≤ vec_len s.bytes) × (s.given ≤ s.at) };
}

impl CutSource {
    /// Returns a source of these bytes. `pieces`: the limits of its pieces. `fails`: the numbers of the calls that
    /// fail.
    pub fn new(bytes: Vec<u8>, pieces: Vec<u32>, fails: Vec<u64>) -> Self
        ensures { result ≡ record {
          left = bytes.items;
          pieces = pieces.items;
          given = 0;
          fails = fails.items;
          calls = 0;
          faults = 0;
        } }
    {
        CutSource {
            bytes,
            at: 0,
            pieces,
            given: 0,
            fails,
            calls: 0,
            faults: 0,
        }
    }

    /// Returns the bytes left.
    pub fn left(&self) -> &[u8]
        ensures { result.now ≡ self.now.left }
    {
        &self.bytes[self.at..]
    }
}

impl Source for CutSource {
    ghost left = { λ s. Some s.left };

    ghost faults = { λ s. s.faults };

    ghost at_hand = { λ s. length s.left };

    fn read(&mut self, buf: &mut [u8]) -> Result<usize, Failed>
        ensures ok { IfOk result (λ n. Gives (Some self.old.left) (Some self.new.left) buf.new n) }
        ensures end { IfOk result (λ n. n ≡ 0 → 0 < length buf.new → IsAtEnd (Some self.new.left)) }
        ensures failed { OnErr result (self.new.left ≡ self.old.left) }
        ensures cause { OnErr result (Rose self.old.faults self.new.faults) }
        ensures faults { self.old.faults ≤ self.new.faults }

        // It fails exactly at the calls in `fails`, and otherwise returns as many bytes as its limit allows.
        ensures fails { IsErr result ↔ Contains self.old.fails self.old.calls }
        ensures count { IfOk result (λ n. n ≡ gives_now self.old (length buf.old)) }
        ensures state { MatchResult result (λ n. self.new ≡ after_giving self.old n)
            (λ _. self.new ≡ after_failing self.old) }
    {
        let call = self.calls;
        self.calls = call.saturating_add(1);
        if self.fails.contains(&call) {
            self.faults = self.faults.saturating_add(1);
            return Err(Failed);
        }
        let most = most(&self.pieces, self.given);
        let n = buf.len().min(self.bytes.len() - self.at).min(most);
        buf[..n].copy_from_slice(&self.bytes[self.at..self.at + n]);
        self.at += n;
        if n > 0 {
            self.given += 1;
        }
        Ok(n)
    }

    fn ready(&self) -> usize
        ensures at_hand { result ≡ length self.now.left }
        ensures left { result ≤ length self.now.left }
    {
        self.bytes.len() - self.at
    }
}

/// Returns the most bytes that a call returns if `given` calls returned a byte before it.
fn most(pieces: &[u32], given: usize) -> usize
    ensures { result ≡ most_of pieces.now given }
{
    match pieces.get(given) {
        Some(n) => (*n).max(1) as usize,
        None => usize::MAX,
    }
}
