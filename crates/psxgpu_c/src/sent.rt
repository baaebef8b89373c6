// The bytes that a sink accepted. They exist only in proofs.
ghost use Rattle.std.specs.Prelude.{◌≡◌, ◌++◌, ℕ, List, []};
ghost use Rattle.std.specs.Coded.{coded_list, coded_ℕ};
ghost use base.Fml.{ftrue};

use std::marker::Model;

/// The bytes accepted so far. Occupies no memory.
#[derive(Drop)]
pub(crate) struct Sent {
    pub ghost bytes: { List ℕ } by { coded_list coded_ℕ },
}

impl Model for Sent {
    ghost also_owns = { λ _. ftrue };
}

/// Bytes that are accepted next.
#[derive(Clone, Copy, Drop)]
pub(crate) struct Piece<'a> {
    pub(crate) bytes: &'a [u8],
}

impl Sent {
    /// Returns no bytes.
    pub(crate) fn nothing() -> Sent
        ensures { result.bytes ≡ [] }
    {
        Sent {}
    }

    /// Returns the bytes followed by those of `_piece`.
    pub(crate) fn then(&self, _piece: &Piece<'_>) -> Sent
        ensures { result.bytes ≡ self.now.bytes ++ _piece.now.bytes.now }
    {
        Sent {}
    }
}
