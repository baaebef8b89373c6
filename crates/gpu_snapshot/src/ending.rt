use event_play::Ending;

/// How playing a capture or a snapshot ends.
#[derive(Clone, Copy, Debug, PartialEq, Eq)]
pub enum AnyEnding {
    /// The file was played to this ending, or refused before its first event.
    Played { ending: Ending },
    /// The file is a snapshot whose state has the invalid value `word` at byte offset `byte`. Nothing was played.
    BadSnapshot { byte: u32, word: u32 },
}
