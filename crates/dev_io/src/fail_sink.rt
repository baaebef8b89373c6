// A sink in memory that fails at chosen calls.
ghost use Rattle.std.specs.Prelude.{◌≡◌, ◌≤◌, ◌<◌, ◌↔◌, ◌⊎◌, [], Some, length, Contains, IfOk, IsErr, OnErr};
ghost use Rattle.std.specs.Prelude.{MatchResult};
ghost use Rattle.dev_io.specs.Device.{Rose, Accepts};
ghost use Rattle.dev_io.specs.Memory.{FailState, takes_next, after_part, after_fault};

use crate::device::{Failed, Sink};
use crate::mem_sink::MemSink;
use px_num::OutOfMemory;
use std::alloc::Global;
use std::marker::Model;

/// A sink in memory that holds at most `room` bytes and accepts at most `piece` bytes a call (0 counts as 1). It fails
/// at the calls in `fails`, counted from 0, and at each write of a nonempty piece while it is full.
#[derive(Drop)]
pub struct FailSink {
    sink: MemSink,
    piece: u32,
    fails: Vec<u64>,
    calls: u64,
}

impl Model for FailSink {
    ghost Value = { FailState };

    ghost view = { λ s. record {
      held = s.sink.held;
      room = s.sink.room;
      piece = s.piece;
      fails = s.fails.items;
      calls = s.calls;
      faults = s.sink.faults;
    } };
}

impl FailSink {
    /// Returns an empty sink. Fails if memory runs out.
    pub fn new(alloc: Global, room: usize, piece: u32, fails: Vec<u64>) -> Result<Self, OutOfMemory>
        ensures { IfOk result (λ sink. sink ≡ record {
          held = [];
          room = room;
          piece = piece;
          fails = fails.items;
          calls = 0;
          faults = 0;
        }) }
    {
        Ok(FailSink {
            sink: MemSink::new(alloc, room)?,
            piece,
            fails,
            calls: 0,
        })
    }

    /// Returns the bytes held.
    pub fn bytes(&self) -> &[u8]
        ensures { result.now ≡ self.now.held }
    {
        self.sink.bytes()
    }
}

impl Sink for FailSink {
    ghost held = { λ s. Some s.held };

    ghost faults = { λ s. s.faults };

    fn write(&mut self, piece: &[u8]) -> Result<usize, Failed>
        ensures ok { IfOk result (λ n. Accepts (Some self.old.held) (Some self.new.held) piece.now n) }
        ensures failed { OnErr result (self.new.held ≡ self.old.held) }
        ensures cause { OnErr result (Rose self.old.faults self.new.faults) }
        ensures faults { self.old.faults ≤ self.new.faults }

        // It fails exactly at the calls in `fails`, and if it is full and the piece is not empty. Otherwise it accepts
        // as many bytes as its limits allow.
        ensures fails { IsErr result ↔ (Contains self.old.fails self.old.calls
            ⊎ ((0 < length piece.now) × (self.old.room ≤ length self.old.held))) }
        ensures count { IfOk result (λ n. n ≡ takes_next self.old (length piece.now)) }
        ensures state { MatchResult result (λ n. self.new ≡ after_part self.old piece.now n)
            (λ _. self.new ≡ after_fault self.old) }
    {
        let call = self.calls;
        self.calls = call.saturating_add(1);
        if self.fails.contains(&call) {
            return self.sink.refuse();
        }
        let most = piece.len().min(self.piece.max(1) as usize);
        self.sink.write(&piece[..most])
    }
}
