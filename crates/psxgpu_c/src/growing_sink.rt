// A sink in memory that grows.
ghost use Rattle.std.specs.Prelude.{◌≡◌, Some, []};
ghost use Rattle.psxgpu_c.specs.Room.{Accepted};

use crate::output::Output;
use dev_io::{Failed, Sink};
use std::alloc::Global;
use std::marker::Model;

/// A sink in memory that grows. It fails only if memory runs out.
#[derive(Drop)]
pub(crate) struct GrowingSink {
    bytes: Vec<u8>,
    faults: u64,
}

impl Model for GrowingSink {
    ghost Value = { Accepted };

    ghost view = { λ s. record { held = s.bytes.items; faults = s.faults } };
}

impl GrowingSink {
    /// Creates an empty sink.
    pub(crate) fn new(alloc: Global) -> Self
        ensures { result ≡ record { held = []; faults = 0 } }
    {
        GrowingSink {
            bytes: Vec::new(alloc),
            faults: 0,
        }
    }

    /// Returns the bytes written.
    pub(crate) fn into_output(self) -> Output
        ensures { result ≡ self.held }
    {
        Output::new(self.bytes)
    }
}

impl Sink for GrowingSink {
    ghost held = { λ s. Some s.held };

    ghost faults = { λ s. s.faults };

    fn write(&mut self, piece: &[u8]) -> Result<usize, Failed> {
        match self.bytes.extend_from_slice(piece) {
            Ok(()) => Ok(piece.len()),
            Err(_) => {
                self.faults = self.faults.saturating_add(1);
                Err(Failed)
            }
        }
    }
}
