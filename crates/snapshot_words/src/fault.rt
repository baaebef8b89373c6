// Why a snapshot cannot be read.
use gpu_capture::Stop;

/// Why a snapshot cannot be read.
#[derive(Clone, Copy, Debug, PartialEq, Eq)]
pub enum SnapFault {
    /// It is neither a capture nor a snapshot, it is truncated, or the source failed.
    Stop {
        /// Which of these, and at which offset: NotCapture, Truncated or ReadFault.
        stop: Stop,
    },
    /// A word is not allowed at its offset.
    Bad {
        /// Its byte offset in the snapshot.
        byte: u32,
        /// The word.
        word: u32,
    },
}
