// The extent of a piece within the buffer.

/// The event number and the length in bytes of a piece.
#[derive(Clone, Copy, Default, Debug, PartialEq, Eq)]
pub(crate) struct Extent {
    pub number: u64,
    pub len: usize,
}
