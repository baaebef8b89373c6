// The parts of a state, and which words are allowed in each.
ghost use Rattle.std.specs.Prelude.{◌≡◌, ◌≤◌, ◌<◌, ◌*◌, ◌==◌, length, slice_index};
ghost use Rattle.snapshot_words.specs.Sections.{
  allows,
  allows_front,
  allows_pending,
  allows_packet,
  allows_job,
  allows_line,
  allows_store,
  allows_run,
  allows_words,
  IsSection,
  is_address,
  is_within,
};

use gp0_words::{ends_polyline, first_len, is_polyline};
use px_num::bit;

/// The size of main memory in bytes.
const MEMORY_BYTES: u32 = 0x20_0000;

/// The size of main memory in words.
const MEMORY_WORDS: u32 = MEMORY_BYTES / 4;

/// The most words of a DMA block.
const BLOCK_WORDS: u32 = 65_536;

/// A part of a state. `height` is the height of video memory in rows.
#[derive(Clone, Copy, Debug, PartialEq, Eq)]
pub enum Section {
    /// The height, and the number of events played: its low and its high word.
    Front,
    /// The registers.
    Registers { height: u16 },
    /// What is pending of the GP0 words, with the open load.
    Pending { height: u16 },
    /// The open store.
    Store { height: u16 },
    /// The running transfer.
    Run,
}

/// Returns word `i` of a part, and 0 if it has not been read.
pub(crate) fn word_at(got: &[u32], i: usize) -> u32
    ensures { result ≡ slice_index got.now i }
{
    if i < got.len() { got[i] } else { 0 }
}

fn is_within(low: u32, high: u32, word: u32) -> bool
    ensures { result ≡ is_within low high word }
{
    low <= word && word <= high
}

fn is_address(word: u32) -> bool
    ensures { result ≡ is_address word }
{
    word % 4 == 0 && word < MEMORY_BYTES
}

fn allows_front(got: &[u32], word: u32) -> bool
    ensures { result ≡ allows_front got.now word }
{
    match got.len() {
        0 => word == 512 || word == 1024,
        1 => true,
        _ => word < 0x8000_0000,
    }
}

fn allows_job(height: u16, got: &[u32], word: u32) -> bool
    ensures { result ≡ allows_job height got.now word }
{
    match got.len() {
        1 => word < 1024,
        2 => word < u32::from(height),
        3 => is_within(1, 1024, word),
        4 => is_within(1, 512, word),
        _ => word % 2 == 0
            && u64::from(word) < u64::from(word_at(got, 3)) * u64::from(word_at(got, 4)),
    }
}

fn allows_packet(got: &[u32], word: u32) -> bool
    requires some { 1 ≤ length got.now }
    ensures { result ≡ allows_packet got.now word }
{
    match got.len() {
        1 => is_within(1, 11, word),
        2 => 1 < first_len(word),
        _ => got.len() - 1 < first_len(word_at(got, 2)),
    }
}

fn allows_line(got: &[u32], word: u32) -> bool
    ensures { result ≡ allows_line got.now word }
{
    match got.len() {
        1 => is_polyline(word),
        2 => bit(word_at(got, 1), 28) || word == word_at(got, 1),
        3 => true,
        4 => if bit(word_at(got, 1), 28) {
            word <= 1
        } else {
            word == 0
        },
        _ => !ends_polyline(word),
    }
}

fn allows_pending(height: u16, got: &[u32], word: u32) -> bool
    ensures { result ≡ allows_pending height got.now word }
{
    if got.len() == 0 {
        return word <= 3;
    }
    match word_at(got, 0) {
        1 => allows_packet(got, word),
        2 => allows_job(height, got, word),
        _ => allows_line(got, word),
    }
}

fn allows_store(height: u16, got: &[u32], word: u32) -> bool
    ensures { result ≡ allows_store height got.now word }
{
    if got.len() == 0 {
        word <= 1
    } else {
        allows_job(height, got, word)
    }
}

fn allows_words(got: &[u32], word: u32) -> bool
    ensures { result ≡ allows_words got.now word }
{
    match got.len() {
        1 => is_address(word),
        2 => is_within(1, MEMORY_WORDS, word),
        3 => is_within(1, BLOCK_WORDS, word),
        _ => word <= 3,
    }
}

fn allows_run(got: &[u32], word: u32) -> bool
    ensures { result ≡ allows_run got.now word }
{
    if got.len() == 0 {
        return word <= 2;
    }
    match word_at(got, 0) {
        1 => allows_words(got, word),
        _ => is_address(word),
    }
}

/// Returns whether `word` is allowed as the next word of a part. `got` are its words so far.
pub(crate) fn allows(section: Section, got: &[u32], word: u32) -> bool
    requires { IsSection section }
    ensures { result ≡ allows section got.now word }
{
    match section {
        Section::Front => allows_front(got, word),
        Section::Registers { height } => gp1_status::allows(height, got.len(), word),
        Section::Pending { height } => allows_pending(height, got, word),
        Section::Store { height } => allows_store(height, got, word),
        Section::Run => allows_run(got, word),
    }
}
