// What a tag does: opens a record, is a record without payload, or ends the capture.
ghost use Rattle.std.specs.Prelude.{◌≡◌};
ghost use Rattle.gpu_capture.specs.Record.{IsStep, tag_step};

use crate::event::{Event, Stop};
use crate::record::{Expected, MEMORY_BYTES, Start, Step};
use px_num::bits;

/// The size of main memory in words.
const MEMORY_WORDS: u32 = MEMORY_BYTES / 4;

/// The largest count of a record without payload.
const MOST_REPEATS: u32 = 262_144;

/// Returns what the tag `word` at byte offset `offset` does, in a capture of this version.
pub(crate) fn tag(version: u8, offset: u32, word: u32) -> Step
    ensures value { result ≡ tag_step version offset word }
    ensures bounds { IsStep result }
{
    let count = bits(word, 0, 24);
    match word >> 24 {
        0 if count == 0 => Step::Closes { stop: Stop::End },
        1 if 1 <= count && count <= MEMORY_WORDS => Step::Opens {
            next: Expected::Address { count },
        },
        2 if 1 <= count => Step::Opens {
            next: Expected::Gp0 { left: count },
        },
        3 if count == 1 => Step::Opens {
            next: Expected::Gp1,
        },
        4 if 1 <= count && count <= MOST_REPEATS => repeats(Event::Read, count),
        5 if count == 1 => repeats(Event::Stat, 1),
        6 if count == 2 || count == 6 => Step::Opens {
            next: Expected::Madr {
                by: Start::Dma {
                    channel: count as u8,
                },
            },
        },
        7 if version >= 2 && count == 2 => Step::Opens {
            next: Expected::Madr { by: Start::Begin },
        },
        8 if version >= 2 && (1 <= count && count <= MOST_REPEATS) => repeats(Event::Turn, count),
        9 if version >= 2 && (1 <= count && count <= MOST_REPEATS) => repeats(Event::Skip, count),
        _ => Step::Closes {
            stop: Stop::BadRecord { byte: offset, word },
        },
    }
}

// A record without payload gives `event` `count` times.
fn repeats(event: Event, count: u32) -> Step
    ensures { result ≡ Step.Gives event count Expected.Tag }
{
    Step::Gives {
        event,
        count,
        next: Expected::Tag,
    }
}
