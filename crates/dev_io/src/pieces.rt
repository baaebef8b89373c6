// Pieces that are written completely, one after another.
ghost use Rattle.std.specs.Prelude.{◌≡◌, ◌≤◌, ◌<◌, flat_map, length, IfOk, IfSome, OnErr};
ghost use Rattle.dev_io.specs.Device.{Accepts, Rose, Writes, side};

use crate::device::{Failed, Sink};
use arrayvec::ArrayVec;

/// The most bytes that [`write_pieces`] joins into one piece.
const GATHERED: usize = 128;

/// Writes the whole piece. On failure, only a proper prefix of it was appended, so an empty piece never fails.
#[tactic(auto, using(crate::proofs::Appended::write_steps))]
pub fn write_all<K: Sink>(sink: &mut K, piece: &[u8]) -> Result<(), Failed>
    ensures { Writes (side K.held K.faults) sink.old sink.new piece.now result }
{
    let mut at = 0;
    while at < piece.len() {
        at += give_some(sink, &piece[at..])?;
    }
    Ok(())
}

/// One turn of a loop over a sink. Returns the number of bytes accepted, at least 1.
fn give_some<K: Sink>(sink: &mut K, rest: &[u8]) -> Result<usize, Failed>
    requires { 0 < length rest.now }
    ensures some { IfOk result (λ n. 0 < n) }
    ensures ok { IfOk result (λ n. Accepts (K.held sink.old) (K.held sink.new) rest.now n) }
    ensures failed { OnErr result (K.held sink.new ≡ K.held sink.old) }
    ensures cause { OnErr result (Rose (K.faults sink.old) (K.faults sink.new)) }
    ensures faults { K.faults sink.old ≤ K.faults sink.new }
{
    sink.write(rest)
}

/// Writes the pieces, one after another. Pieces of at most 128 bytes in all are joined first: a sink that accepts all
/// of them is called once. On failure, only a proper prefix of all bytes was appended.
pub fn write_pieces<K: Sink>(sink: &mut K, pieces: &[&[u8]]) -> Result<(), Failed>
    ensures { Writes (side K.held K.faults) sink.old sink.new (flat_map (λ piece. piece.now) pieces.now) result }
{
    match gather(pieces) {
        Some(gathered) => write_all(sink, gathered.as_slice()),
        None => write_each(sink, pieces),
    }
}

/// Returns the bytes of all pieces, or `None` if they are more than 128.
fn gather(pieces: &[&[u8]]) -> Option<ArrayVec<u8, GATHERED>>
    ensures { IfSome result (λ gathered. gathered.items ≡ flat_map (λ piece. piece.now) pieces.now) }
{
    let mut gathered = ArrayVec::new();
    for piece in pieces {
        gathered.try_extend_from_slice(piece).ok()?;
    }
    Some(gathered)
}

/// Writes the pieces, one after another, without joining them.
fn write_each<K: Sink>(sink: &mut K, pieces: &[&[u8]]) -> Result<(), Failed>
    ensures { Writes (side K.held K.faults) sink.old sink.new (flat_map (λ piece. piece.now) pieces.now) result }
{
    for piece in pieces {
        write_all(sink, piece)?;
    }
    Ok(())
}
