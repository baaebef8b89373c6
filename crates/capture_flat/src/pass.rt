// The output of an event of a flat capture, and of its end.
ghost use Rattle.std.specs.Prelude.{◌≡◌, ◌≤◌, ◌+◌, ◌^◌, ◌++◌, length};
ghost use Rattle.gathered_out.specs.Pieces.{piece};
ghost use Rattle.gathered_out.specs.Puts.{Puts, sink_state};
ghost use Rattle.gpu_capture.specs.Capture.{IsVersion};
ghost use Rattle.gpu_capture.specs.Draft.{end_at, head_at};
ghost use Rattle.gpu_capture.specs.Written.{spell};
ghost use Rattle.event_play.specs.Replay.{next_number};
ghost use Rattle.event_play.specs.Operation.{IsOperation};
ghost use Rattle.capture_flat.specs.Flat.{flat_operation};

use crate::count::count_operation;
use crate::spell::spell_operation;
use dev_io::Sink;
use event_play::Operation;
use gathered_out::OutputBuffer;
use gpu_capture::CaptureFile;
use ot_clear_dma::Ram;

/// An operation that was performed, main memory after it, and the number of events played before it.
#[derive(Clone, Copy)]
pub(crate) struct Performed<'a> {
    pub(crate) operation: Operation,
    pub(crate) ram: &'a Ram,
    pub(crate) played: u64,
}

/// Returns the number of bytes that [`put_due`] adds.
pub(crate) fn due_size(file: CaptureFile, performed: Performed) -> u32
    requires version { IsVersion file.version }
    requires operation { IsOperation performed.operation }
    ensures { result ≡ length (head_at file
        ++ spell (flat_operation performed.entry.ram.now performed.entry.operation)) }
{
    let records = count_operation(performed.ram, performed.operation);
    match file.head() {
        None => records,
        Some(head) => records + head.len() as u32,
    }
}

/// Adds the output of an operation: the file header if the file is empty, then its records. On failure, returns the
/// number of the first event whose output is incomplete.
pub(crate) fn put_due<K: Sink>(
    file: CaptureFile,
    buffered: &mut OutputBuffer,
    out: &mut K,
    performed: Performed,
) -> Result<(), u64>
    requires version { IsVersion file.version }
    requires operation { IsOperation performed.operation }
    ensures { Puts (piece (next_number performed.entry.played) (head_at file
        ++ spell (flat_operation performed.entry.ram.now performed.entry.operation)))
        (sink_state K.held K.faults out.old buffered.old)
        (sink_state K.held K.faults out.new buffered.new) result }
{
    let number = performed.played.saturating_add(1);
    match put_head(file, number, buffered, out) {
        Ok(()) => spell_operation(number, buffered, out, performed.ram, performed.operation),
        Err(lacking) => Err(lacking),
    }
}

/// Adds the End record after `played` events, and before it the file header if the file is empty. On failure, returns
/// the number of the first event whose output is incomplete.
pub(crate) fn put_last<K: Sink>(
    file: CaptureFile,
    buffered: &mut OutputBuffer,
    out: &mut K,
    played: u64,
) -> Result<(), u64>
    requires { IsVersion file.version }
    ensures { Puts (piece (next_number played) (end_at file))
        (sink_state K.held K.faults out.old buffered.old)
        (sink_state K.held K.faults out.new buffered.new) result }
{
    buffered.put(played.saturating_add(1), file.end().as_slice(), out)
}

/// Adds the file header if the file is empty, as output of event `number`.
pub(crate) fn put_head<K: Sink>(
    file: CaptureFile,
    number: u64,
    buffered: &mut OutputBuffer,
    out: &mut K,
) -> Result<(), u64>
    requires { IsVersion file.version }
    ensures { Puts (piece number (head_at file))
        (sink_state K.held K.faults out.old buffered.old) (sink_state K.held K.faults out.new buffered.new) result }
{
    match file.head() {
        None => Ok(()),
        Some(head) => buffered.put(number, &head, out),
    }
}
