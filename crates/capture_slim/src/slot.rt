// Events that are not yet written.
ghost use Rattle.std.specs.Prelude.{◌≡◌};
ghost use Rattle.capture_slim.specs.Window.{left_of};

use gpu_capture::Event;
use px_num::Box2;

/// Whether an event stays in the capture.
#[derive(Clone, Copy, Debug, PartialEq, Eq)]
pub enum Mark {
    /// It stays.
    Kept,
    /// It is dropped.
    Dropped,
    /// A word of a packet that draws in `area`. It is dropped if a fill covers `area` before anything may read it, at
    /// most 4,096 events after the packet's first word; else it stays. `offset`: the index of the word in its packet,
    /// from 0.
    Open { area: Box2, offset: u16 },
}

/// A waiting event.
#[derive(Clone, Copy, Debug, PartialEq, Eq)]
pub struct Slot {
    pub event: Event,
    pub mark: Mark,
}

impl Slot {
    /// Returns the event unless it was dropped. No event follows that could drop it.
    pub(crate) fn left(self) -> Option<Event>
        ensures { result ≡ left_of self.event self.mark }
    {
        match self.mark {
            Mark::Dropped => None,
            Mark::Kept | Mark::Open { .. } => Some(self.event),
        }
    }
}
