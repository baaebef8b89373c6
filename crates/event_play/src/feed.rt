// Words that go to GP0, one after another.
ghost use Rattle.std.specs.Prelude.{◌≡◌, ◌≤◌, ◌<◌, ◌+◌, [], ◌∷◌, length, take, map};
ghost use Rattle.event_play.specs.Feeding.{FeedsWords, drawing, in_event};
ghost use Rattle.event_play.specs.PlayedWords.{IsTold, after_words, number_after};
ghost use Rattle.event_play.specs.Replay.{Replay};
ghost use Rattle.event_play.specs.Streams.{Outlets, with_sink, without_sink};
ghost use Rattle.event_play.specs.Changes.{seen_cell};

use crate::ending::Mode;
use crate::outlet::{Outlet, put_changed, put_listed};
use crate::words::WordCursor;
use gpu_core::Gpu;
use gpu_taps::Listener;
use px_num::Cell;
use std::sync::ledger::Ledger;
use vram_store::Steps;

/// A word, words or an operation of an event, and its number.
#[derive(Clone, Copy)]
pub(crate) struct InEvent<V> {
    pub(crate) number: u64,
    pub(crate) value: V,
}

/// Feeds `words` to GP0 in one event, and adds the lines of the completed items that the mode asks for. If a line
/// cannot be written, feeds no further word, and returns the number of the first event whose lines are incomplete.
pub(crate) fn feed<O: Outlet, T: Listener, L: Ledger>(
    gpu: &mut Gpu,
    words: InEvent<WordCursor>,
    lines: &mut O,
    taps: &mut Vec<T>,
    steps: &mut Steps<L>,
) -> Result<(), u64>
    ensures feeds { FeedsWords (in_event words.entry.number (O.mode lines.old)) words.entry.value
        (drawing (with_sink (O.state lines.old) (map T.heard taps.old.items) steps.old) gpu.old)
        (drawing (with_sink (O.state lines.new) (map T.heard taps.new.items) steps.new) gpu.new) result }
    ensures same { O.same lines.old lines.new }
{
    let number = words.number;
    let mut left = words.value;
    'words: while let Some(word) = left.next() {
        let given = InEvent {
            number,
            value: word,
        };
        match feed_word(gpu, given, lines, taps, steps) {
            Ok(()) => {}
            Err(lacking) => return Err(lacking),
        }
    }
    Ok(())
}

/// Feeds `word` to GP0. Adds the line of its note in mode `List`, and of its change of the cell in mode `Pixel`. On
/// failure, returns the number of the first event whose lines are incomplete; the word has then been fed.
pub(crate) fn feed_word<O: Outlet, T: Listener, L: Ledger>(
    gpu: &mut Gpu,
    word: InEvent<u32>,
    lines: &mut O,
    taps: &mut Vec<T>,
    steps: &mut Steps<L>,
) -> Result<(), u64>
    ensures feeds { FeedsWords (in_event word.number (O.mode lines.old)) (word.value ∷ [])
        (drawing (with_sink (O.state lines.old) (map T.heard taps.old.items) steps.old) gpu.old)
        (drawing (with_sink (O.state lines.new) (map T.heard taps.new.items) steps.new) gpu.new) result }
    ensures same { O.same lines.old lines.new }
{
    let number = word.number;
    match lines.mode() {
        Some(Mode::List) => {
            let note = gpu.gp0(number, word.value, taps, steps);
            put_listed(&note, lines)
        }
        Some(Mode::Pixel { cell }) => {
            let watch = Watch {
                number,
                word: word.value,
                cell,
            };
            feed_watched(gpu, watch, lines, taps, steps)
        }
        _ => {
            let _ = gpu.gp0(number, word.value, taps, steps);
            Ok(())
        }
    }
}

// A word fed in event `number`, and the cell that is watched.
#[derive(Clone, Copy)]
struct Watch {
    number: u64,
    word: u32,
    cell: Cell,
}

// Feeds a word, and adds the line of the item that it completes if that changed the cell.
fn feed_watched<O: Outlet, T: Listener, L: Ledger>(
    gpu: &mut Gpu,
    watch: Watch,
    lines: &mut O,
    taps: &mut Vec<T>,
    steps: &mut Steps<L>,
) -> Result<(), u64>
    ensures feeds { FeedsWords (in_event watch.number (Some (Mode.Pixel watch.cell))) (watch.word ∷ [])
        (drawing (with_sink (O.state lines.old) (map T.heard taps.old.items) steps.old) gpu.old)
        (drawing (with_sink (O.state lines.new) (map T.heard taps.new.items) steps.new) gpu.new) result }
    ensures same { O.same lines.old lines.new }
{
    let before = seen_cell(gpu, watch.cell, steps);
    let note = gpu.gp0(watch.number, watch.word, taps, steps);
    let after = seen_cell(gpu, watch.cell, steps);
    put_changed(watch.number, &note, before, after, lines)
}

// Returns the value of a cell, or 0 if video memory has no such cell. Costs at most one store step.
fn seen_cell<L: Ledger>(gpu: &Gpu, cell: Cell, steps: &mut Steps<L>) -> u16
    ensures value { result ≡ seen_cell cell gpu.now.parts.m }
    ensures cost { steps.new ≤ steps.old + 1 }
{
    let vram = gpu.vram();
    if cell.x < 1024 && cell.y < vram.height() {
        vram.get(cell.x, cell.y, steps)
    } else {
        0
    }
}

/// Words that are fed after `played` events, one event per word.
#[derive(Clone, Copy)]
pub(crate) struct EventWords<'a> {
    pub(crate) played: u64,
    pub(crate) words: &'a [u32],
}

/// Feeds words to GP0, one event per word. Writes no output.
pub(crate) fn feed_events<T: Listener, L: Ledger>(
    gpu: &mut Gpu,
    fed: EventWords,
    taps: &mut Vec<T>,
    steps: &mut Steps<L>,
)
    ensures { (t : Replay) (first : Outlets)
        → IsTold t first (without_sink (map T.heard taps.old.items) steps.old) gpu.old fed.entry.played
        → IsTold (after_words t fed.entry.words.now) first (without_sink (map T.heard taps.new.items) steps.new) gpu.new
        (number_after fed.entry.played (length fed.entry.words.now)) }
{
    let mut at = 0;
    'words: while at < fed.words.len() {
        let played = fed.played.saturating_add(at as u64);
        at += feed_first(gpu, played, &fed.words[at..], taps, steps);
    }
}

// Feeds a prefix of `words`, one event per word, as many as the GPU executes as one block. Returns its length, at
// least 1. There must be at least one word.
#[inline(always)]
fn feed_first<T: Listener, L: Ledger>(
    gpu: &mut Gpu,
    played: u64,
    words: &[u32],
    taps: &mut Vec<T>,
    steps: &mut Steps<L>,
) -> usize
    requires { 0 < length words.now }
    ensures some { 0 < result }
    ensures within { result ≤ length words.now }
    ensures told { (t : Replay) (first : Outlets)
        → IsTold t first (without_sink (map T.heard taps.old.items) steps.old) gpu.old played
        → IsTold (after_words t (take result words.now)) first
        (without_sink (map T.heard taps.new.items) steps.new) gpu.new (number_after played result) }
{
    gpu.take_first(played, words, taps, steps)
}
