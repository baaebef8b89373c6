// Loads and stores by words of up to two pixels.
ghost use Rattle.std.specs.Prelude.{◌≡◌, ◌≤◌, ◌<◌, ◌+◌, ◌*◌, length};
ghost use Rattle.vram_copy.specs.Words.{advanced, advanced_by, pixels_in, pixels_next, words_left};
ghost use Rattle.vram_copy.specs.Words.{loaded_word, loaded_words, stored_word};

use crate::cursor::Cursor;
use std::sync::ledger::Ledger;
use vram_store::{Steps, Vram};

/// A rectangle that is loaded or stored word by word, with the number of pixels done.
///
/// Its pixels are numbered from 0, row by row and from left to right.
#[derive(Clone, Copy, Debug, PartialEq, Eq)]
pub struct Transfer {
    /// The column of its first pixel.
    pub x: u16,
    /// The row of its first pixel.
    pub y: u16,
    /// The number of pixels of a row.
    pub w: u16,
    /// The number of rows.
    pub h: u16,
    /// The number of the next pixel, `w * h` if none is left.
    pub at: u32,
}

/// Plots the next two pixels of the rectangle from `word`, the low half first, under the mask setting.
///
/// If only one pixel is left, the high half is dropped. At least one pixel must be left. X wraps at 1024 and Y at the
/// height. `job` advances by the pixels plotted. Costs at most two steps per pixel (psx-spx, GP0(A0h)).
pub fn load_word<L: Ledger>(
    vram: &mut Vram,
    mask: u8,
    job: &mut Transfer,
    word: u32,
    steps: &mut Steps<L>,
)
    requires more { job.old.at < job.old.w * job.old.h }
    ensures cells { vram.new ≡ loaded_word vram.old mask job.old word }
    ensures long { length vram.new ≡ length vram.old }
    ensures job { job.new ≡ advanced job.old }
    ensures cost { steps.new ≤ steps.old + 2 * pixels_next job.old }
{
    load_words(vram, mask, job, &[word], steps);
}

/// Plots the next two pixels of the rectangle from each of the words, in order and the low half first, under the mask
/// setting.
///
/// If only one pixel is left for the last word, its high half is dropped. There must be no more words than the
/// transfer needs. X wraps at 1024 and Y at the height. `job` advances by the pixels plotted. Costs at most two steps
/// per pixel (psx-spx, GP0(A0h)).
pub fn load_words<L: Ledger>(
    vram: &mut Vram,
    mask: u8,
    job: &mut Transfer,
    words: &[u32],
    steps: &mut Steps<L>,
)
    requires wanted { length words.now ≤ words_left job.old }
    ensures cells { vram.new ≡ loaded_words vram.old mask job.old words.now }
    ensures long { length vram.new ≡ length vram.old }
    ensures job { job.new ≡ advanced_by job.old (length words.now) }
    ensures cost { steps.new ≤ steps.old + 2 * pixels_in job.old (length words.now) }
{
    if !words.is_empty() {
        let mut cursor = Cursor::new(*job);
        cursor.load_words(vram, mask, words, steps);
        *job = cursor.job();
    }
}

/// Returns the next two pixels of the rectangle as a word, the low half first, as they are in video memory now.
///
/// If only one pixel is left, the high half is 0 (our own rule). At least one pixel must be left. X wraps at 1024 and
/// Y at the height. `job` advances by the pixels returned. Costs one step per pixel (psx-spx, GP0(C0h)).
pub fn store_word<L: Ledger>(vram: &Vram, job: &mut Transfer, steps: &mut Steps<L>) -> u32
    requires more { job.old.at < job.old.w * job.old.h }
    ensures word { result ≡ stored_word vram.now job.old }
    ensures job { job.new ≡ advanced job.old }
    ensures cost { steps.new ≡ steps.old + pixels_next job.old }
{
    let mut cursor = Cursor::new(*job);
    let word = cursor.store_word(vram, steps);
    *job = cursor.job();
    word
}
