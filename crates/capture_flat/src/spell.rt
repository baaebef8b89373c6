// The records of an operation's effect at the ports, each buffered with the number of the event.
ghost use Rattle.std.specs.Prelude.{[], ◌∷◌, replicate};
ghost use Rattle.gathered_out.specs.Pieces.{piece};
ghost use Rattle.gathered_out.specs.Puts.{Puts, sink_state};
ghost use Rattle.gpu_capture.specs.declared.event.Event.TheVariants.{Skip};
ghost use Rattle.gpu_capture.specs.Record.{IsEvent};
ghost use Rattle.event_play.specs.Operation.{IsOperation};
ghost use Rattle.capture_flat.specs.Flat.{flat_operation};
ghost use Rattle.capture_flat.specs.Out.{spell_words};
ghost use Rattle.gpu_capture.specs.Written.{spell};

use dev_io::Sink;
use event_play::{Operation, WordCursor};
use gathered_out::OutputBuffer;
use gpu_capture::{Event, record_bytes};
use ot_clear_dma::Ram;

/// Adds the records of an operation to the buffer. `ram`: main memory. On failure, returns the number of the first
/// event whose record is incomplete.
pub(crate) fn spell_operation<K: Sink>(
    number: u64,
    buffered: &mut OutputBuffer,
    out: &mut K,
    ram: &Ram,
    operation: Operation,
) -> Result<(), u64>
    requires { IsOperation operation }
    ensures { Puts (piece number (spell (flat_operation ram.now operation)))
        (sink_state K.held K.faults out.old buffered.old) (sink_state K.held K.faults out.new buffered.new) result }
{
    match operation {
        Operation::Feed { words, .. } => spell_words(
            number,
            buffered,
            out,
            WordCursor::new(ram, words),
        ),
        Operation::Take { block, .. } => spell_skips(number, buffered, out, block.n),
        Operation::Control { word } => spell_one(number, buffered, out, Event::Gp1 { word }),
        Operation::Read => spell_one(number, buffered, out, Event::Read),
        Operation::Skip => spell_one(number, buffered, out, Event::Skip),
        Operation::Stat => spell_one(number, buffered, out, Event::Stat),
        Operation::Nothing => Ok(()),
        Operation::Put { .. } => Ok(()),
        Operation::Clear { .. } => Ok(()),
        Operation::Begin { .. } => Ok(()),
    }
}

// Adds the record of an event.
fn spell_one<K: Sink>(
    number: u64,
    buffered: &mut OutputBuffer,
    out: &mut K,
    event: Event,
) -> Result<(), u64>
    requires { IsEvent event }
    ensures { Puts (piece number (spell (event ∷ [])))
        (sink_state K.held K.faults out.old buffered.old) (sink_state K.held K.faults out.new buffered.new) result }
{
    buffered.put(number, record_bytes(&event).as_slice(), out)
}

// Adds the records of `n` reads that are not shown.
fn spell_skips<K: Sink>(
    number: u64,
    buffered: &mut OutputBuffer,
    out: &mut K,
    n: u32,
) -> Result<(), u64>
    ensures { Puts (piece number (spell (replicate n Skip)))
        (sink_state K.held K.faults out.old buffered.old) (sink_state K.held K.faults out.new buffered.new) result }
{
    for i in 0..n {
        let _ = i;
        match spell_one(number, buffered, out, Event::Skip) {
            Ok(()) => {}
            Err(lacking) => return Err(lacking),
        }
    }
    Ok(())
}

// Adds the records of words written to GP0.
fn spell_words<K: Sink>(
    number: u64,
    buffered: &mut OutputBuffer,
    out: &mut K,
    words: WordCursor,
) -> Result<(), u64>
    ensures { Puts (piece number (spell_words words.entry))
        (sink_state K.held K.faults out.old buffered.old) (sink_state K.held K.faults out.new buffered.new) result }
{
    let mut left = words;
    'words: while let Some(word) = left.next() {
        match spell_one(number, buffered, out, Event::Gp0 { word }) {
            Ok(()) => {}
            Err(lacking) => return Err(lacking),
        }
    }
    Ok(())
}
