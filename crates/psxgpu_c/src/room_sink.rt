// A sink in memory with a fixed capacity.
ghost use Rattle.std.specs.Prelude.{◌≡◌, [], IfOk};
ghost use Rattle.dev_io.specs.Memory.{SinkState};
ghost use Rattle.psxgpu_c.specs.Room.{FailsWhereFull, room_and_bytes};

use dev_io::{Failed, MemSink, Sink};
use px_num::OutOfMemory;
use std::alloc::Global;
use std::marker::Model;

/// A sink in memory that fails only if its capacity is reached.
#[derive(Drop)]
pub(crate) struct RoomSink {
    sink: MemSink,
}

impl Model for RoomSink {
    ghost Value = { SinkState };

    ghost view = { λ s. s.sink };

    ghost invariant = { λ s. FailsWhereFull s.sink };
}

impl RoomSink {
    /// Creates an empty sink for `room` bytes. Returns `OutOfMemory` if memory runs out.
    pub(crate) fn new(alloc: Global, room: usize) -> Result<Self, OutOfMemory>
        ensures { IfOk result (λ sink. sink ≡ record { held = []; room = room; faults = 0 }) }
    {
        Ok(RoomSink {
            sink: MemSink::new(alloc, room)?,
        })
    }

    /// Returns the bytes written.
    pub(crate) fn bytes(&self) -> &[u8]
        ensures value { result.now ≡ self.now.held }
        ensures bounds { FailsWhereFull self.now }
    {
        self.sink.bytes()
    }
}

impl Sink for RoomSink {
    ghost held = { λ s. room_and_bytes s };

    ghost faults = { λ s. s.faults };

    fn write(&mut self, piece: &[u8]) -> Result<usize, Failed> {
        self.sink.write(piece)
    }
}
