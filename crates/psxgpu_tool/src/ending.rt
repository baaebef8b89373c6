// The exit status of a run, and the line that explains a failure.
ghost use Rattle.std.specs.Prelude.{◌≡◌, flat_map, map, ℕ, List, []};
ghost use Rattle.dev_io.specs.Device.{Writes, side};
ghost use Rattle.packet_text.specs.Tap.{last_lines};
ghost use Rattle.psxgpu_tool.specs.Line.{last_items, told};
ghost use Rattle.psxgpu_tool.specs.Outside.{Says};

use dev_io::{Failed, Sink, write_all};
use gpu_taps::Listener;
use packet_text::write_last;

/// The ending of a command, as an exit status and a line.
pub trait Explained: Copy {
    /// The exit status.
    ghost exit: { Self → ℕ };

    /// The line that explains a failure; empty after a success.
    ghost line: { Self → List ℕ };

    /// Returns the exit status: 0 only if the line is empty.
    fn status(self) -> u8
        ensures exit { result ≡ exit self }
        ensures silent { result ≡ 0 → line self ≡ [] };

    /// Writes the line.
    fn write_line<E: Sink>(self, err: &mut E) -> Result<(), Failed>
        ensures { Writes (side E.held E.faults) err.old err.new (line self) result };
}

/// Writes the line of a failure and the last items of the taps to `err`. Returns the exit status. Errors of `err` are
/// ignored.
pub fn end<N: Explained, E: Sink, T: Listener>(err: &mut E, ending: N, taps: &Vec<T>) -> u8
    ensures status { result ≡ N.exit ending }
    ensures says { Says (side E.held E.faults err.old) (side E.held E.faults err.new)
        (told (N.line ending) (N.exit ending) (map T.heard taps.now.items)) }
    ensures silent { result ≡ 0 → side E.held E.faults err.new ≡ side E.held E.faults err.old }
{
    let status = ending.status();
    if status != 0 {
        let _ = write_told(err, ending, taps);
    }
    status
}

// Writes the line of an ending and, for status 2, the last items.
fn write_told<N: Explained, E: Sink, T: Listener>(
    err: &mut E,
    ending: N,
    taps: &Vec<T>,
) -> Result<(), Failed>
    ensures { Writes (side E.held E.faults) err.old err.new
        (told (N.line ending) (N.exit ending) (map T.heard taps.now.items)) result }
{
    ending.write_line(err)?;
    write_last_items(err, ending.status(), taps)
}

// If the status is 2 (refused), writes the last items of every tap that stores them.
fn write_last_items<E: Sink, T: Listener>(
    err: &mut E,
    status: u8,
    taps: &Vec<T>,
) -> Result<(), Failed>
    ensures { Writes (side E.held E.faults) err.old err.new (last_items status (map T.heard taps.now.items)) result }
{
    if status == 2 {
        write_lasts(err, taps)
    } else {
        Ok(())
    }
}

fn write_lasts<E: Sink, T: Listener>(err: &mut E, taps: &Vec<T>) -> Result<(), Failed>
    ensures { Writes (side E.held E.faults) err.old err.new (flat_map last_lines (map T.heard taps.now.items)) result }
{
    for i in 0..taps.len() {
        write_last(err, &taps[i])?;
    }
    Ok(())
}

/// Writes a line. Errors of `err` are ignored.
pub fn tell<E: Sink>(err: &mut E, line: &[u8])
    ensures { Says (side E.held E.faults err.old) (side E.held E.faults err.new) line.now }
{
    let _ = write_all(err, line);
}
