// A sink in memory, whose bytes contracts know.
ghost use Rattle.std.specs.Prelude.{◌≡◌, ◌≤◌, ◌<◌, ◌↔◌, [], Some, length, IfOk, IsErr, OnErr, MatchResult};
ghost use Rattle.std.specs.Vec.{vec_len, vec_capacity};
ghost use Rattle.dev_io.specs.Device.{Rose, Accepts};
ghost use Rattle.dev_io.specs.Memory.{SinkState, takes_now, after_taking, after_refusing};

use crate::device::{Failed, Sink};
use px_num::OutOfMemory;
use std::alloc::Global;
use std::marker::Model;

/// A sink in memory that holds at most `room` bytes. A write accepts as many bytes as still fit. If it is full, a write
/// of a nonempty piece fails and is counted as a fault.
#[derive(Drop)]
pub struct MemSink {
    bytes: Vec<u8>,
    room: usize,
    faults: u64,
}

impl Model for MemSink {
    ghost Value = { SinkState };

    ghost view = { λ s. record { held = s.bytes.items; room = s.room; faults = s.faults } };

    ghost invariant = { λ s. (vec_len s.bytes ≤ s.room) × (s.room ≤ vec_capacity s.bytes) };
}

impl MemSink {
    /// Returns an empty sink for at most `room` bytes. Fails if memory runs out.
    pub fn new(alloc: Global, room: usize) -> Result<Self, OutOfMemory>
        ensures { IfOk result (λ sink. sink ≡ record { held = []; room = room; faults = 0 }) }
    {
        Ok(MemSink {
            bytes: Vec::with_capacity(alloc, room)?,
            room,
            faults: 0,
        })
    }

    /// Returns the bytes held.
    pub fn bytes(&self) -> &[u8]
        ensures { result.now ≡ self.now.held }
    {
        &self.bytes
    }

    // Counts a fault and returns it. Accepts nothing.
    pub(crate) fn refuse(&mut self) -> Result<usize, Failed>
        ensures refused { IsErr result }
        ensures state { self.new ≡ after_refusing self.old }
        ensures faults { self.old.faults ≤ self.new.faults }
    {
        self.faults = self.faults.saturating_add(1);
        Err(Failed)
    }
}

impl Sink for MemSink {
    ghost held = { λ s. Some s.held };

    ghost faults = { λ s. s.faults };

    fn write(&mut self, piece: &[u8]) -> Result<usize, Failed>
        ensures ok { IfOk result (λ n. Accepts (Some self.old.held) (Some self.new.held) piece.now n) }
        ensures failed { OnErr result (self.new.held ≡ self.old.held) }
        ensures cause { OnErr result (Rose self.old.faults self.new.faults) }
        ensures faults { self.old.faults ≤ self.new.faults }

        // It fails exactly if it is full and the piece is not empty. Otherwise it accepts as many bytes as fit.
        ensures full { IsErr result ↔ ((0 < length piece.now) × (self.old.room ≤ length self.old.held)) }
        ensures count { IfOk result (λ n. n ≡ takes_now self.old (length piece.now)) }
        ensures state { MatchResult result (λ n. self.new ≡ after_taking self.old piece.now n)
            (λ _. self.new ≡ after_refusing self.old) }
    {
        let n = piece.len().min(self.room - self.bytes.len());
        if n == 0 && !piece.is_empty() {
            return self.refuse();
        }
        match self.bytes.extend_from_slice(&piece[..n]) {
            Ok(()) => Ok(n),
            Err(_) => unreachable!(),
        }
    }
}
