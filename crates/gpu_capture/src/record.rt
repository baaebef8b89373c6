// What a word does, by the record that is open at it.
ghost use Rattle.std.specs.Prelude.{◌≡◌, ◌<◌, ◌/◌};
ghost use Rattle.gpu_capture.specs.Record.{IsExpected, IsStep, word_step, address_step, gp0_expected};
ghost use Rattle.gpu_capture.specs.Record.{started_by, IsBy, IsEvent};

use crate::event::{Event, Stop};
use crate::tags::tag;

/// The size of main memory in bytes.
pub(crate) const MEMORY_BYTES: u32 = 0x20_0000;

/// What the next word of a capture is.
#[derive(Clone, Copy, Debug, PartialEq, Eq)]
pub enum Expected {
    /// No record is open; the next word is a tag.
    Tag,
    /// The address of a Ram record of `count` words.
    Address { count: u32 },
    /// The first of `left` words of a Ram record, for this address.
    Ram { address: u32, left: u32 },
    /// The first of `left` words of a Gp0 record.
    Gp0 { left: u32 },
    /// The word of a Gp1 record.
    Gp1,
    /// The value of MADR, the base address register of a DMA channel.
    Madr { by: Start },
    /// The value of BCR, the block control register, after MADR.
    Bcr { by: Start, madr: u32 },
    /// The value of CHCR, the channel control register, after MADR and BCR.
    Chcr { by: Start, madr: u32, bcr: u32 },
}

/// How a DMA channel is started.
#[derive(Clone, Copy, Debug, PartialEq, Eq)]
pub enum Start {
    /// The whole transfer is done at its start.
    Dma { channel: u8 },
    /// Nothing is moved before its first turn.
    Begin,
}

/// What a word does.
#[derive(Clone, Copy, Debug, PartialEq, Eq)]
pub(crate) enum Step {
    /// It is followed by another word of its record.
    Opens {
        next: Expected,
    },
    /// It gives `event` `count` times. `next` is what the following word is.
    Gives {
        event: Event,
        count: u32,
        next: Expected,
    },
    /// It ends the capture.
    Closes {
        stop: Stop,
    },
}

/// Returns what `word` at byte offset `offset` does, if `expected` is what the word is, in a capture of this version.
pub(crate) fn read_step(version: u8, expected: Expected, offset: u32, word: u32) -> Step
    requires { IsExpected expected }
    ensures value { result ≡ word_step version expected offset word }
    ensures bounds { IsStep result }
{
    match expected {
        Expected::Tag => tag(version, offset, word),
        Expected::Address { count } => address(offset, count, word),
        Expected::Ram { address, left } => ram(address, left, word),
        Expected::Gp0 { left } => Step::Gives {
            event: Event::Gp0 { word },
            count: 1,
            next: gp0(left),
        },
        Expected::Gp1 => Step::Gives {
            event: Event::Gp1 { word },
            count: 1,
            next: Expected::Tag,
        },
        Expected::Madr { by } => Step::Opens {
            next: Expected::Bcr { by, madr: word },
        },
        Expected::Bcr { by, madr } => Step::Opens {
            next: Expected::Chcr {
                by,
                madr,
                bcr: word,
            },
        },
        Expected::Chcr { by, madr, bcr } => Step::Gives {
            event: started(by, madr, bcr, word),
            count: 1,
            next: Expected::Tag,
        },
    }
}

// Returns the event of a start with these register values.
fn started(by: Start, madr: u32, bcr: u32, chcr: u32) -> Event
    requires { IsBy by }
    ensures value { result ≡ started_by by madr bcr chcr }
    ensures bounds { IsEvent result }
{
    match by {
        Start::Dma { channel } => Event::Dma {
            channel,
            madr,
            bcr,
            chcr,
        },
        Start::Begin => Event::Begin { madr, bcr, chcr },
    }
}

fn address(offset: u32, count: u32, word: u32) -> Step
    requires { IsExpected (Expected.Address count) }
    ensures value { result ≡ address_step offset count word }
    ensures bounds { IsStep result }
{
    if word % 4 == 0 && word <= MEMORY_BYTES && word + 4 * count <= MEMORY_BYTES {
        Step::Opens {
            next: Expected::Ram {
                address: word,
                left: count,
            },
        }
    } else {
        Step::Closes {
            stop: Stop::BadRecord { byte: offset, word },
        }
    }
}

fn ram(address: u32, left: u32, word: u32) -> Step
    requires { IsExpected (Expected.Ram address left) }
    ensures value { result ≡ word_step 1 (Expected.Ram address left) 0 word }
    ensures bounds { IsStep result }
{
    let next = if left > 1 {
        Expected::Ram {
            address: address + 4,
            left: left - 1,
        }
    } else {
        Expected::Tag
    };
    Step::Gives {
        event: Event::Ram { address, word },
        count: 1,
        next,
    }
}

/// Returns what follows the first of `left` words of a Gp0 record.
fn gp0(left: u32) -> Expected
    requires { IsExpected (Expected.Gp0 left) }
    ensures value { result ≡ gp0_expected left }
    ensures bounds { IsExpected result }
{
    if left > 1 {
        Expected::Gp0 { left: left - 1 }
    } else {
        Expected::Tag
    }
}
