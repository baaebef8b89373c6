// A capture file while it is written.
ghost use Rattle.std.specs.Prelude.{◌≡◌, ◌≤◌, ◌+◌, ◌++◌, ◌∷◌, ◌^◌, ◌↔◌, [], List, ℕ, Option, IsTrue, MatchOption};
ghost use Rattle.std.specs.Prelude.{IfErr, OnErr, OnOk, length};
ghost use Rattle.dev_io.specs.Device.{Rose};
ghost use Rattle.gathered_out.specs.Pieces.{AreOut, BreaksOff, Piece, piece};
ghost use Rattle.gpu_capture.specs.Capture.{IsVersion};
ghost use Rattle.gpu_capture.specs.Draft.{HasRoom, end_at, head_at, with_bytes};

use crate::progress::LIMIT;
use crate::write::{RECORD_MOST, end_bytes, head_bytes};
use arrayvec::ArrayVec;
use dev_io::Sink;
use gathered_out::OutputBuffer;

/// The length of an End record in bytes.
const END: u32 = 4;

/// The largest length of a file header and a record in bytes.
pub const WITH_HEAD_MOST: usize = RECORD_MOST + 8;

/// What is known of a capture file while it is written. `version`: that of its records, and of its file header. `size`:
/// its length in bytes so far, with buffered records.
#[derive(Clone, Copy)]
pub struct CaptureFile {
    pub version: u8,
    pub size: u32,
}

impl CaptureFile {
    /// Returns whether `bytes` more bytes and an End record fit. A capture has at most 2^30 bytes.
    pub fn has_room(&self, bytes: u32) -> bool
        ensures { IsTrue result ↔ HasRoom self.now bytes }
    {
        u64::from(self.size) + u64::from(bytes) + u64::from(END) <= u64::from(LIMIT)
    }

    /// Returns the largest number of bytes that [`CaptureFile::has_room`] accepts. Requires room for an End record.
    pub fn room(&self) -> u32
        requires { HasRoom self.now 0 }
        ensures { self.now.size + result + 4 ≡ 2 ^ 30 }
    {
        LIMIT - END - self.size
    }

    /// Returns the file header if the file is empty, otherwise `None`.
    pub fn head(&self) -> Option<[u8; 8]>
        requires { IsVersion self.now.version }
        ensures { MatchOption result (head_at self.now ≡ []) (λ head. head ≡ head_at self.now) }
    {
        if self.size == 0 {
            Some(head_bytes(self.version))
        } else {
            None
        }
    }

    /// Returns the bytes of a record, after the file header if the file is empty. Requires at most 16 bytes.
    pub fn with_head(&self, more: &[u8]) -> ArrayVec<u8, WITH_HEAD_MOST>
        requires version { IsVersion self.now.version }
        requires few { length more.now ≤ 16 }
        ensures value { result.items ≡ head_at self.now ++ more.now }
        ensures few { length result.items ≤ 24 }
    {
        let mut bytes = ArrayVec::new();
        if let Some(head) = self.head() {
            extend(&mut bytes, &head);
        }
        extend(&mut bytes, more);
        bytes
    }

    /// Returns an End record, after the file header if the file is empty.
    pub fn end(&self) -> ArrayVec<u8, WITH_HEAD_MOST>
        requires { IsVersion self.now.version }
        ensures value { result.items ≡ end_at self.now }
        ensures few { length result.items ≤ 24 }
    {
        self.with_head(&end_bytes())
    }
}

// Appends `more` to `bytes`. Requires at most 24 bytes in all.
fn extend(bytes: &mut ArrayVec<u8, WITH_HEAD_MOST>, more: &[u8])
    requires { length bytes.old.items + length more.now ≤ 24 }
    ensures { bytes.new.items ≡ bytes.old.items ++ more.now }
{
    if let Err(_) = bytes.try_extend_from_slice(more) {
        unreachable!()
    }
}

/// A capture file, and its records that are buffered and not yet written.
#[derive(Drop)]
pub struct Draft {
    pub file: CaptureFile,
    pub buffered: OutputBuffer,
}

impl Draft {
    /// Returns a file of `size` bytes that are all written.
    pub fn new(version: u8, size: u32) -> Draft
        ensures file { result.file ≡ record { version = version; size = size } }
        ensures buffered { result.buffered ≡ [] }
    {
        Draft {
            file: CaptureFile { version, size },
            buffered: OutputBuffer::new(),
        }
    }

    /// Adds `bytes`, the output of event `number`, if the file has room for them. If the buffer has no room, flushes it
    /// to `out` first. On failure, returns the event number of the first incomplete piece, which is one of those before
    /// this.
    pub fn put<K: Sink>(&mut self, number: u64, bytes: &[u8], out: &mut K) -> Result<(), u64>
        requires room { HasRoom self.old.file (length bytes.now) }
        requires few { length bytes.now ≤ 4096 }
        ensures file { OnOk result (self.new.file ≡ with_bytes self.old.file (length bytes.now)) }
        ensures version { self.new.file.version ≡ self.old.file.version }
        ensures ok { (before : Option (List ℕ)) (pieces : List Piece)
            → AreOut before pieces (K.held out.old) self.old.buffered
            → OnOk result
            (AreOut before (pieces ++ piece number bytes.now ∷ []) (K.held out.new) self.new.buffered) }
        ensures failed { (before : Option (List ℕ)) (pieces : List Piece)
            → AreOut before pieces (K.held out.old) self.old.buffered
            → IfErr result (BreaksOff pieces before (K.held out.new)) }
        ensures cause { OnErr result (Rose (K.faults out.old) (K.faults out.new)) }
        ensures faults { K.faults out.old ≤ K.faults out.new }
    {
        match self.buffered.put(number, bytes, out) {
            Ok(()) => {
                self.file.size += bytes.len() as u32;
                Ok(())
            }
            Err(lacking) => Err(lacking),
        }
    }
}
