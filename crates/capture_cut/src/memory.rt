// The two memories of a state as words.
ghost use Rattle.std.specs.Prelude.{◌≡◌, ◌≤◌, ◌<◌, ◌+◌, ◌*◌, ◌^◌, ℕ, length, take, drop, slice_index, OnOk};
ghost use Rattle.dev_io.specs.Device.{Writes, side};
ghost use Rattle.gpu_capture.specs.Written.{word_bytes};
ghost use Rattle.ot_clear_dma.specs.Ram.{memory_words};
ghost use Rattle.picture_out.specs.Dump.{dump_cost};
ghost use Rattle.vram_store.specs.Vram.{height_of};
ghost use Rattle.snapshot_words.specs.Outline.{bytes_of, AreCells};
ghost use Rattle.snapshot_words.specs.Values.{cell_words};

use dev_io::{Failed, Sink, write_all};
use ot_clear_dma::{MEMORY_WORDS, Ram};
use std::sync::ledger::Ledger;
use vram_store::{Steps, Vram};

/// Writes video memory row by row: two cells (16-bit VRAM halfwords) per word, the first in the low half. Costs 64
/// store steps per row. On failure, a proper prefix was written.
pub(crate) fn write_cells<K: Sink, L: Ledger>(
    vram: &Vram,
    out: &mut K,
    steps: &mut Steps<L>,
) -> Result<(), Failed>
    ensures writes { Writes (side K.held K.faults) out.old out.new (bytes_of (cell_words vram.now)) result }
    ensures cells { OnOk result (AreCells vram.now) }
    ensures cost { steps.new ≤ steps.old + dump_cost vram.now }
{
    for y in 0..vram.height() {
        let words = row_words(vram, y, steps);
        write_words(out, &words)?;
    }
    Ok(())
}

/// Writes main memory, 512 words at a time. On failure, a proper prefix was written.
pub(crate) fn write_ram<K: Sink>(ram: &Ram, out: &mut K) -> Result<(), Failed>
    ensures { Writes (side K.held K.faults) out.old out.new (bytes_of ram.now) result }
{
    for i in 0..1024 {
        let words = ram_words(ram, 512 * i);
        write_words(out, &words)?;
    }
    Ok(())
}

/// Returns the size of video memory in bytes.
pub(crate) fn cells_size(vram: &Vram) -> u32
    ensures value { result ≡ length (bytes_of (cell_words vram.now)) }
    ensures few { result ≤ 2 ^ 21 }
{
    2048 * u32::from(vram.height())
}

/// Returns the size of main memory in bytes.
#[tactic(auto, using(gpu_capture::proofs::Written::words_length))]
pub(crate) fn ram_size(ram: &Ram) -> u32
    ensures value { result ≡ length (bytes_of ram.now) }
    ensures few { result ≤ 2 ^ 21 }
{
    let _ = ram.get(0);
    4 * MEMORY_WORDS
}

// Returns the 1,024 cells of row `y` as words. The row must exist. Costs 64 store steps.
fn row_words<L: Ledger>(vram: &Vram, y: u16, steps: &mut Steps<L>) -> [u32; 512]
    requires { y < height_of vram.now }
    ensures words { result ≡ cell_words (take 1024 (drop (1024 * y) vram.now)) }
    ensures cells { AreCells (take 1024 (drop (1024 * y) vram.now)) }
    ensures cost { steps.new ≡ steps.old + 64 }
{
    let mut words = [0u32; 512];
    for k in 0..64 {
        let lanes = vram.load16(16 * k, y, 16, steps).to_array();
        keep_cells(&lanes);
        let at = 8 * k as usize;
        put_lanes(&lanes, &mut words[at..at + 8]);
    }
    words
}

// Proves that each cell has 16 bits. Does nothing.
fn keep_cells(cells: &[u16])
    ensures { (k : ℕ) → slice_index cells.now k < 2 ^ 16 }
{
    let _ = cells.len();
}

// Stores sixteen cells in eight words, the first cell of each pair in the low half.
fn put_lanes(lanes: &[u16; 16], words: &mut [u32])
    requires { length words.old ≡ 8 }
    ensures lanes { words.new ≡ cell_words lanes.now }
    ensures count { length words.new ≡ 8 }
{
    for j in 0..8 {
        let low = lanes[2 * j] as u32;
        let high = lanes[2 * j + 1] as u32;
        words[j] = low + high * 0x1_0000;
    }
}

// Returns 512 words of main memory. `first`: index of the first word. All must exist.
fn ram_words(ram: &Ram, first: u32) -> [u32; 512]
    requires { first + 512 ≤ memory_words }
    ensures words { result ≡ take 512 (drop first ram.now) }
    ensures long { length ram.now ≡ memory_words }
{
    let mut words = [0u32; 512];
    for i in 0..512 {
        words[i] = ram.get(4 * (first + i as u32));
    }
    words
}

// Writes 512 words at once, the low byte of each first.
fn write_words<K: Sink>(out: &mut K, words: &[u32; 512]) -> Result<(), Failed>
    ensures { Writes (side K.held K.faults) out.old out.new (bytes_of words.now) result }
{
    let mut bytes = [0u8; 2048];
    for i in 0..512 {
        put_word(words[i], &mut bytes[4 * i..4 * i + 4]);
    }
    write_all(out, &bytes)
}

// Stores a word in four bytes, the low byte first.
#[tactic(auto, unfolding(gpu_capture::specs::Written::word_bytes))]
fn put_word(word: u32, bytes: &mut [u8])
    requires { length bytes.old ≡ 4 }
    ensures bytes { bytes.new ≡ word_bytes word }
    ensures count { length bytes.new ≡ 4 }
{
    bytes.copy_from_slice(&word.to_le_bytes());
}
