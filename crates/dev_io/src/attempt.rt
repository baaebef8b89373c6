// Single calls of std's readers and writers, with a list of what they returned.
ghost use Rattle.std.specs.Prelude.{◌≡◌, [], ◌∷◌, ℕ, List, Option, Result, None};
ghost use Rattle.std.specs.Io.{ReadsAtMost, WritesAtMost};
ghost use Rattle.std.specs.Io.KnownBytes.{ReadConsumes, WriteAppends};
ghost use Rattle.dev_io.specs.Calls.{outcome_of, then_called};
ghost use Rattle.std.specs.IoError.{error_kind};
ghost use Rattle.std_io.specs.declared.io.kind.ErrorKind.{ErrorKind};

use std::io::{self, ErrorKind, Read, Write};

/// A reader of std. Contracts may know what its calls returned.
pub trait Reader: Read {
    /// What each call returned, in order; `None` if contracts do not know it.
    ghost calls: { Self → Option (List (Result ℕ ErrorKind)) };

    /// Calls `read` once.
    fn attempt(&mut self, buf: &mut [u8]) -> io::Result<usize>
        ensures bound { ReadsAtMost result buf.new }
        ensures bytes { ReadConsumes (Self.remaining self.old) (Self.remaining self.new) result buf.new }
        ensures calls { calls self.new ≡ then_called (calls self.old) (outcome_of error_kind result ∷ []) };
}

impl<R: Read> Reader for R {
    ghost calls = { λ _. None };

    fn attempt(&mut self, buf: &mut [u8]) -> io::Result<usize> {
        self.read(buf)
    }
}

/// A writer of std. Contracts may know what its calls returned.
pub trait Writer: Write {
    /// What each call returned, in order; `None` if contracts do not know it.
    ghost calls: { Self → Option (List (Result ℕ ErrorKind)) };

    /// Calls `write` once.
    fn attempt(&mut self, piece: &[u8]) -> io::Result<usize>
        ensures bound { WritesAtMost result piece.now }
        ensures bytes { WriteAppends (Self.contents self.old) (Self.contents self.new) result piece.now }
        ensures calls { calls self.new ≡ then_called (calls self.old) (outcome_of error_kind result ∷ []) };
}

impl<W: Write> Writer for W {
    ghost calls = { λ _. None };

    fn attempt(&mut self, piece: &[u8]) -> io::Result<usize> {
        self.write(piece)
    }
}
