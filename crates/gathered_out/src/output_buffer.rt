// Buffered pieces.
ghost use Rattle.std.specs.Prelude.{◌≡◌, ◌≤◌, ◌<◌, ◌+◌, ◌++◌, ◌∷◌, [], List, ℕ, Option, IsTrue, length};
ghost use Rattle.std.specs.Prelude.{IfErr, OnErr, OnOk};
ghost use Rattle.dev_io.specs.Device.{Rose, appended};
ghost use Rattle.gathered_out.specs.Pieces.{AreOut, BreaksOff, Piece, bytes_of, piece};

use crate::counted::{first_lacking, write_counted};
use crate::extent::Extent;
use arrayvec::ArrayVec;
use dev_io::Sink;
use std::marker::Model;

/// The capacity in bytes.
const CAPACITY: usize = 4096;

/// The capacity in pieces.
const PIECES: usize = 512;

/// An output buffer: pieces that are not written yet, at most 512 pieces and 4,096 bytes. In contracts it is the list
/// of the pieces.
#[derive(Drop)]
pub struct OutputBuffer {
    bytes: ArrayVec<u8, CAPACITY>,
    extents: ArrayVec<Extent, PIECES>,
}

impl Model for OutputBuffer {
    ghost use Rattle.std.specs.Prelude.{◌≡◌, List, length};
    ghost use Rattle.gathered_out.specs.Pieces.{Piece, cut, total};

    ghost Value = { List Piece };

    ghost view = { λ g. cut g.extents.items g.bytes.items };

    ghost invariant = { λ g. total g.extents.items ≡ length g.bytes.items };
}

// Returns whether a piece of `len` bytes fits after `bytes` bytes and `pieces` pieces.
fn fits(bytes: usize, pieces: usize, len: usize) -> bool
    requires { bytes ≤ 4096 }
    ensures bytes { IsTrue result → bytes + len ≤ 4096 }
    ensures pieces { IsTrue result → pieces < 512 }
{
    len <= CAPACITY - bytes && pieces < PIECES
}

impl OutputBuffer {
    /// Returns an empty buffer. Allocates nothing on the heap.
    pub fn new() -> OutputBuffer
        ensures { result ≡ [] }
    {
        OutputBuffer {
            bytes: ArrayVec::new(),
            extents: ArrayVec::new(),
        }
    }

    // Returns whether there is room for a piece of `len` bytes.
    fn has_room(&self, len: usize) -> bool
        ensures bytes { IsTrue result → length (bytes_of self.now) + len ≤ 4096 }
        ensures pieces { IsTrue result → length self.now < 512 }
    {
        fits(self.bytes.len(), self.extents.len(), len)
    }

    // Adds a piece. There must be room for it.
    fn add(&mut self, number: u64, bytes: &[u8])
        requires bytes { length (bytes_of self.old) + length bytes.now ≤ 4096 }
        requires pieces { length self.old < 512 }
        ensures { self.new ≡ self.old ++ piece number bytes.now ∷ [] }
    {
        if let Err(_) = self.bytes.try_extend_from_slice(bytes) {
            unreachable!()
        }
        self.extents.push(Extent {
            number,
            len: bytes.len(),
        });
    }

    // Flushes the buffer to `out` if it has no room for a piece of `len` bytes. On failure, returns the event number
    // of the first incomplete piece.
    fn make_room<K: Sink>(&mut self, len: usize, out: &mut K) -> Result<(), u64>
        requires { len ≤ 4096 }
        ensures ok { (before : Option (List ℕ)) (pieces : List Piece) → AreOut before pieces (K.held out.old) self.old
            → OnOk result (AreOut before pieces (K.held out.new) self.new) }
        ensures bytes { OnOk result (length (bytes_of self.new) + len ≤ 4096) }
        ensures pieces { OnOk result (length self.new < 512) }
        ensures failed { (before : Option (List ℕ)) (pieces : List Piece)
            → AreOut before pieces (K.held out.old) self.old
            → IfErr result (BreaksOff pieces before (K.held out.new)) }
        ensures cause { OnErr result (Rose (K.faults out.old) (K.faults out.new)) }
        ensures faults { K.faults out.old ≤ K.faults out.new }
    {
        if self.has_room(len) {
            Ok(())
        } else {
            self.write(out)
        }
    }

    /// Adds a piece of at most 4,096 bytes, which is output of event `number`. If there is no room for it, flushes
    /// the buffer to `out` first. On failure, returns the event number of the first incomplete piece, which is one of
    /// the pieces before this. The buffer must not be used after a failure.
    pub fn put<K: Sink>(&mut self, number: u64, bytes: &[u8], out: &mut K) -> Result<(), u64>
        requires { length bytes.now ≤ 4096 }
        ensures ok { (before : Option (List ℕ)) (pieces : List Piece) → AreOut before pieces (K.held out.old) self.old
            → OnOk result (AreOut before (pieces ++ piece number bytes.now ∷ []) (K.held out.new) self.new) }
        ensures failed { (before : Option (List ℕ)) (pieces : List Piece)
            → AreOut before pieces (K.held out.old) self.old
            → IfErr result (BreaksOff pieces before (K.held out.new)) }
        ensures cause { OnErr result (Rose (K.faults out.old) (K.faults out.new)) }
        ensures faults { K.faults out.old ≤ K.faults out.new }
    {
        match self.make_room(bytes.len(), out) {
            Ok(()) => {
                self.add(number, bytes);
                Ok(())
            }
            Err(lacking) => Err(lacking),
        }
    }

    /// Flushes the buffer to `out` and empties it. On failure, returns the event number of the first incomplete
    /// piece. The buffer must not be used after a failure.
    pub fn write<K: Sink>(&mut self, out: &mut K) -> Result<(), u64>
        ensures ok { (before : Option (List ℕ)) (pieces : List Piece) → AreOut before pieces (K.held out.old) self.old
            → OnOk result (K.held out.new ≡ appended before (bytes_of pieces)) }
        ensures none { OnOk result (self.new ≡ []) }
        ensures failed { (before : Option (List ℕ)) (pieces : List Piece)
            → AreOut before pieces (K.held out.old) self.old
            → IfErr result (BreaksOff pieces before (K.held out.new)) }
        ensures cause { OnErr result (Rose (K.faults out.old) (K.faults out.new)) }
        ensures faults { K.faults out.old ≤ K.faults out.new }
    {
        match self.write_out(out) {
            Ok(()) => {
                self.bytes.clear();
                self.extents.clear();
                Ok(())
            }
            Err(number) => Err(number),
        }
    }

    // Writes all pieces of the buffer to `out`. On failure, returns the event number of the first incomplete piece.
    fn write_out<K: Sink>(&self, out: &mut K) -> Result<(), u64>
        ensures ok { OnOk result (K.held out.new ≡ appended (K.held out.old) (bytes_of self.now)) }
        ensures failed { IfErr result (BreaksOff self.now (K.held out.old) (K.held out.new)) }
        ensures cause { OnErr result (Rose (K.faults out.old) (K.faults out.new)) }
        ensures faults { K.faults out.old ≤ K.faults out.new }
    {
        match write_counted(out, self.bytes.as_slice()) {
            Ok(()) => Ok(()),
            Err(taken) => Err(first_lacking(self.extents.as_slice(), taken)),
        }
    }
}
