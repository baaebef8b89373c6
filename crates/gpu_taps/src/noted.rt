// The part of a note that a trace records.
ghost use Rattle.std.specs.Prelude.{◌≡◌};
ghost use Rattle.gpu_taps.specs.Tally.{note_number, noted_of};

use gp0_packets::Note;

/// The part of a note that a trace records: everything except the area.
#[derive(Clone, Copy, Drop)]
pub(crate) struct Noted {
    /// The number of the event.
    pub(crate) event: u64,
    /// The class.
    pub(crate) class: u8,
    /// The head.
    pub(crate) head: u32,
}

impl Noted {
    /// Returns this part of a note.
    pub(crate) fn of(note: &Note) -> Noted
        ensures { result ≡ noted_of note.now }
    {
        Noted {
            event: note.event,
            class: note.class,
            head: note.head,
        }
    }

    /// Returns the event for `index` 0, the class for 1, otherwise the head.
    pub(crate) fn number(&self, index: u32) -> u64
        ensures { result ≡ note_number self.now index }
    {
        match index {
            0 => self.event,
            1 => u64::from(self.class),
            _ => u64::from(self.head),
        }
    }
}
