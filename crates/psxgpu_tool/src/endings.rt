// The endings of the commands.
ghost use Rattle.std.specs.Prelude.{◌≡◌, ℕ, List, []};
ghost use Rattle.dev_io.specs.Device.{Writes, side};
ghost use Rattle.psxgpu_tool.specs.Line.{any_line, any_status, cut_line, cut_status, ending_line};
ghost use Rattle.psxgpu_tool.specs.Line.{flat_line, flat_status, slim_line, slim_status, status_of, status_of_stop};
ghost use Rattle.psxgpu_tool.specs.Line.{ended_line, ended_status, play_refusal_line, flat_refusal_line};
ghost use Rattle.psxgpu_tool.specs.Line.{slim_refusal_line, cut_refusal_line};

use crate::ending::Explained;
use crate::line::{write_event, write_fault, write_stop, write_word};
use capture_cut::{CutEnding, CutRefusal};
use capture_flat::{FlatEnding, FlatRefusal};
use capture_slim::{SlimEnding, SlimRefusal};
use dev_io::{Failed, Sink};
use event_loop::{AsEnded, Ended};
use event_play::{Ending, PlayRefusal};
use gpu_capture::Stop;
use gpu_snapshot::AnyEnding;

/// A command's own refusal.
trait Refusal: Copy {
    /// The line that explains it.
    ghost line: { Self → List ℕ };

    /// Writes the line.
    fn write_why<E: Sink>(self, err: &mut E) -> Result<(), Failed>
        ensures { Writes (side E.held E.faults) err.old err.new (line self) result };
}

impl Refusal for PlayRefusal {
    ghost line = { play_refusal_line };

    fn write_why<E: Sink>(self, err: &mut E) -> Result<(), Failed> {
        match self {
            PlayRefusal::Fault { event, fault } => write_fault(err, event, fault),
            PlayRefusal::NoPicture { event } => write_event(err, b"no-picture", event),
        }
    }
}

impl Refusal for FlatRefusal {
    ghost line = { flat_refusal_line };

    fn write_why<E: Sink>(self, err: &mut E) -> Result<(), Failed> {
        match self {
            FlatRefusal::Fault { event, fault } => write_fault(err, event, fault),
            FlatRefusal::TooMuch { event } => write_event(err, b"out-too-long", event),
        }
    }
}

impl Refusal for SlimRefusal {
    ghost line = { slim_refusal_line };

    fn write_why<E: Sink>(self, err: &mut E) -> Result<(), Failed> {
        match self {
            SlimRefusal::NotFlat { event } => write_event(err, b"not-flat", event),
            SlimRefusal::TooLong { event } => write_event(err, b"out-too-long", event),
        }
    }
}

impl Refusal for CutRefusal {
    ghost line = { cut_refusal_line };

    fn write_why<E: Sink>(self, err: &mut E) -> Result<(), Failed> {
        match self {
            CutRefusal::PastEnd { event } => write_event(err, b"cut-past-end", event),
            CutRefusal::Fault { event, fault } => write_fault(err, event, fault),
            CutRefusal::TooLong { event } => write_event(err, b"out-too-long", event),
        }
    }
}

/// Returns the exit status of a run that a stop of the reader ended: 3 after a failed read, else 2.
fn status_of_stop(stop: Stop) -> u8
    ensures { result ≡ status_of_stop stop }
{
    match stop {
        Stop::ReadFault { .. } => 3,
        _ => 2,
    }
}

/// Returns the exit status of a command that ends as a loop over events does.
fn ended_status<R: Refusal>(ended: Ended<R>) -> u8
    ensures exit { result ≡ ended_status ended }
    ensures silent { result ≡ 0 → ended_line R.line ended ≡ [] }
{
    match ended {
        Ended::Done => 0,
        Ended::Stopped { stop, .. } => status_of_stop(stop),
        Ended::Refused { .. } => 2,
        Ended::WriteFailed { .. } => 4,
    }
}

/// Writes the line of a command that ends as a loop over events does.
fn write_ended<R: Refusal, E: Sink>(ended: Ended<R>, err: &mut E) -> Result<(), Failed>
    ensures { Writes (side E.held E.faults) err.old err.new (ended_line R.line ended) result }
{
    match ended {
        Ended::Done => Ok(()),
        Ended::Stopped { event, stop } => write_stop(err, event, stop),
        Ended::Refused { why } => why.write_why(err),
        Ended::WriteFailed { event } => write_event(err, b"write-fault", event),
    }
}

impl Explained for Ending {
    ghost exit = { status_of };

    ghost line = { ending_line };

    fn status(self) -> u8 {
        ended_status(self.ended())
    }

    fn write_line<E: Sink>(self, err: &mut E) -> Result<(), Failed> {
        write_ended(self.ended(), err)
    }
}

impl Explained for AnyEnding {
    ghost exit = { any_status };

    ghost line = { any_line };

    fn status(self) -> u8 {
        match self {
            AnyEnding::Played { ending } => ending.status(),
            AnyEnding::BadSnapshot { .. } => 2,
        }
    }

    fn write_line<E: Sink>(self, err: &mut E) -> Result<(), Failed> {
        match self {
            AnyEnding::Played { ending } => ending.write_line(err),
            AnyEnding::BadSnapshot { byte, word } => write_word(
                err,
                b"bad-snapshot",
                1,
                byte,
                word,
            ),
        }
    }
}

impl Explained for FlatEnding {
    ghost exit = { flat_status };

    ghost line = { flat_line };

    fn status(self) -> u8 {
        ended_status(self.ended())
    }

    fn write_line<E: Sink>(self, err: &mut E) -> Result<(), Failed> {
        write_ended(self.ended(), err)
    }
}

impl Explained for SlimEnding {
    ghost exit = { slim_status };

    ghost line = { slim_line };

    fn status(self) -> u8 {
        ended_status(self.ended())
    }

    fn write_line<E: Sink>(self, err: &mut E) -> Result<(), Failed> {
        write_ended(self.ended(), err)
    }
}

impl Explained for CutEnding {
    ghost exit = { cut_status };

    ghost line = { cut_line };

    fn status(self) -> u8 {
        ended_status(self.ended())
    }

    fn write_line<E: Sink>(self, err: &mut E) -> Result<(), Failed> {
        write_ended(self.ended(), err)
    }
}
