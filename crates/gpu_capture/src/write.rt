// Writes captures: a file header, a record for each event, and an End record.
ghost use Rattle.std.specs.Prelude.{◌≡◌, ◌≤◌, ◌<◌, ◌^◌, length, flat_map};
ghost use Rattle.dev_io.specs.Device.{Writes, side};
ghost use Rattle.gpu_capture.specs.Capture.{IsVersion, head_of};
ghost use Rattle.gpu_capture.specs.Record.{IsEvent};
ghost use Rattle.gpu_capture.specs.Written.{spelled, spelled_end, word_bytes, tag_of};

use crate::event::Event;
use arrayvec::ArrayVec;
use dev_io::{Failed, Sink, write_all};

/// The largest size of the record of one event, in bytes.
pub const RECORD_MOST: usize = 16;

/// Returns the file header of a capture of this version, 1 to 3.
pub fn head_bytes(version: u8) -> [u8; 8]
    requires { IsVersion version }
    ensures { result ≡ head_of version }
{
    [b'P', b'S', b'X', b'G', b'P', b'U', b'C', b'0' + version]
}

/// Returns the record of one event, with count 1 if the count is not the channel. Requires an event that a reader can
/// return: the address of Ram is a multiple of 4 below 200000h, the channel of Dma is 2 or 6.
pub fn record_bytes(event: &Event) -> ArrayVec<u8, RECORD_MOST>
    requires { IsEvent event.now }
    ensures { result.items ≡ spelled event.now }
{
    match *event {
        Event::Ram { address, word } => words_bytes(&[tag(1, 1), address, word]),
        Event::Gp0 { word } => words_bytes(&[tag(2, 1), word]),
        Event::Gp1 { word } => words_bytes(&[tag(3, 1), word]),
        Event::Read => words_bytes(&[tag(4, 1)]),
        Event::Stat => words_bytes(&[tag(5, 1)]),
        Event::Dma {
            channel,
            madr,
            bcr,
            chcr,
        } => words_bytes(&[tag(6, u32::from(channel)), madr, bcr, chcr]),
        Event::Begin { madr, bcr, chcr } => words_bytes(&[tag(7, 2), madr, bcr, chcr]),
        Event::Turn => words_bytes(&[tag(8, 1)]),
        Event::Skip => words_bytes(&[tag(9, 1)]),
    }
}

/// Returns the record of a word that is written to GP0.
#[tactic(auto, unfolding(crate::specs::Written::word_bytes))]
pub fn word_record(word: u32) -> [u8; 8]
    ensures { result ≡ spelled (Event.Gp0 word) }
{
    let [a, b, c, d] = bytes(tag(2, 1));
    let [e, f, g, h] = bytes(word);
    [a, b, c, d, e, f, g, h]
}

/// Writes the file header of a capture of this version, 1 to 3. On failure, only a proper prefix of it was written.
pub fn write_start<K: Sink>(sink: &mut K, version: u8) -> Result<(), Failed>
    requires { IsVersion version }
    ensures { Writes (side K.held K.faults) sink.old sink.new (head_of version) result }
{
    write_all(sink, &head_bytes(version))
}

/// Writes the record of one event, as [`record_bytes`] returns it. On failure, only a proper prefix of it was written.
pub fn write_event<K: Sink>(sink: &mut K, event: &Event) -> Result<(), Failed>
    requires { IsEvent event.now }
    ensures { Writes (side K.held K.faults) sink.old sink.new (spelled event.now) result }
{
    write_all(sink, record_bytes(event).as_slice())
}

/// Writes an End record. On failure, only a proper prefix of it was written.
pub fn write_end<K: Sink>(sink: &mut K) -> Result<(), Failed>
    ensures { Writes (side K.held K.faults) sink.old sink.new spelled_end result }
{
    write_all(sink, &end_bytes())
}

/// Returns an End record.
pub(crate) fn end_bytes() -> [u8; 4]
    ensures { result ≡ spelled_end }
{
    bytes(tag(0, 0))
}

// Returns the bytes of a word, the low byte first.
#[tactic(auto, unfolding(crate::specs::Written::word_bytes))]
fn bytes(word: u32) -> [u8; 4]
    ensures { result ≡ word_bytes word }
{
    word.to_le_bytes()
}

// Returns the bytes of at most 4 words, in order.
fn words_bytes(words: &[u32]) -> ArrayVec<u8, RECORD_MOST>
    requires { length words.now ≤ 4 }
    ensures { result.items ≡ flat_map word_bytes words.now }
{
    let mut gathered = ArrayVec::new();
    for word in words {
        if let Err(_) = gathered.try_extend_from_slice(&bytes(*word)) {
            unreachable!()
        }
    }
    gathered
}

// Returns the tag of a record.
fn tag(kind: u32, count: u32) -> u32
    requires kind { kind < 2 ^ 8 }
    requires count { count < 2 ^ 24 }
    ensures { result ≡ tag_of kind count }
{
    kind * 0x100_0000 + count
}
