// Plays words that are written to GP0, one event per word.
ghost use Rattle.std.specs.Prelude.{◌≡◌, map, ◌≤◌, ◌<◌, length, take, option_to_list, IfSome};
ghost use Rattle.gpu_core.specs.Machine.{gp0_note};
ghost use Rattle.event_play.specs.OwnWords.{Tells};
ghost use Rattle.event_play.specs.PlayedWords.{after_word, after_words, IsTold, number_after, word_notes};
ghost use Rattle.event_play.specs.Replay.{from_state, next_number, Replay};
ghost use Rattle.event_play.specs.RigState.{Stands};
ghost use Rattle.event_play.specs.Step.{Machine};
ghost use Rattle.event_play.specs.Streams.{without_sink, Outlets};
ghost use Rattle.gathered_out.specs.Causes.{Causes, Fails};
ghost use Rattle.gathered_out.specs.Puts.{holding};
ghost use Rattle.gpu_core.specs.Feeds.{but_pixels};
ghost use Rattle.event_play.specs.Lines.{MayBuffer};
ghost use Rattle.event_play.specs.Listing.{PutsPieces, listed_pieces, pieces_for};
ghost use Rattle.event_play.specs.Feeding.{AreSameLines};

use crate::ending::Mode;
use crate::feed::{EventWords, feed_events};
use crate::outlet::{Lines, Outlet, put_listed};
use crate::rig::Rig;
use dev_io::Sink;
use gp0_packets::Note;
use gpu_core::{Gpu, NotedWords};
use gpu_taps::Listener;
use std::sync::ledger::Ledger;
use vram_store::Steps;

impl Rig {
    /// Feeds `word` to GP0 as the next event. Returns the note of the item that it completes, or `None` if it completes
    /// none.
    pub fn take_word<T: Listener, L: Ledger>(
        &mut self,
        word: u32,
        taps: &mut Vec<T>,
        steps: &mut Steps<L>,
    ) -> Option<Note>
        ensures tells { (s : Machine) → Stands self.old s → Tells (after_word (from_state s self.old.played) word)
            (without_sink (map T.heard taps.old.items) steps.old)
            (without_sink (map T.heard taps.new.items) steps.new) self.new }
        ensures note { (s : Machine) → Stands self.old s →
            gp0_note s.gpu (next_number self.old.played) word ≡ result }
        ensures played { self.new.played ≡ next_number self.old.played }
    {
        let number = self.next_number();
        self.played = number;
        self.gpu.gp0(number, word, taps, steps)
    }

    /// Feeds `words` to GP0, one event per word. Words that belong together are executed as one block.
    pub fn take_words<T: Listener, L: Ledger>(
        &mut self,
        words: &[u32],
        taps: &mut Vec<T>,
        steps: &mut Steps<L>,
    )
        ensures { (s : Machine) → Stands self.old s → Tells (after_words (from_state s self.old.played) words.now)
            (without_sink (map T.heard taps.old.items) steps.old)
            (without_sink (map T.heard taps.new.items) steps.new) self.new }
    {
        let played = self.played;
        self.played = played.saturating_add(words.len() as u64);
        feed_events(&mut self.gpu, EventWords { played, words }, taps, steps);
    }

    /// Plays words written to GP0, one event per word. In mode `List`, adds the lines of their notes, except for pixels
    /// of a load. On failure, returns the number of the first event whose lines are incomplete; all words are played
    /// nevertheless.
    pub(crate) fn play_words<K: Sink, T: Listener, L: Ledger>(
        &mut self,
        words: &[u32],
        lines: &mut Lines<K>,
        taps: &mut Vec<T>,
        steps: &mut Steps<L>,
    ) -> Result<(), u64>
        ensures told { (t : Replay) (first : Outlets)
            → IsTold t first (without_sink (map T.heard taps.old.items) steps.old) self.old.gpu self.old.played
            → IsTold (after_words t words.now) first (without_sink (map T.heard taps.new.items) steps.new)
            self.new.gpu self.new.played }
        ensures puts { (t : Replay) (first : Outlets)
            → IsTold t first (without_sink (map T.heard taps.old.items) steps.old) self.old.gpu self.old.played
            → PutsPieces (pieces_for lines.old.mode (word_notes t words.now))
            (holding (K.held lines.old.out.now) lines.old.buffered.now)
            (holding (K.held lines.new.out.now) lines.new.buffered.now) result }
        ensures free { MayBuffer lines.old.mode lines.old.buffered.now
            → MayBuffer lines.old.mode lines.new.buffered.now }
        ensures ram { self.new.ram ≡ self.old.ram }
        ensures running { self.new.running ≡ self.old.running }
        ensures causes { Causes (Fails result) (K.faults lines.old.out.now) (K.faults lines.new.out.now) }
        ensures same { AreSameLines lines.old lines.new }
    {
        let played = self.played;
        self.played = played.saturating_add(words.len() as u64);
        let fed = EventWords { played, words };
        match lines.mode {
            Mode::List => list_events(&mut self.gpu, fed, lines, taps, steps),
            _ => {
                feed_events(&mut self.gpu, fed, taps, steps);
                Ok(())
            }
        }
    }
}

// Feeds words, one event per word, and adds the line of each note except for pixels of a load. If a line cannot be
// written, feeds the remaining words without lines, and returns the number of the first event whose lines are
// incomplete.
fn list_events<K: Sink, T: Listener, L: Ledger>(
    gpu: &mut Gpu,
    fed: EventWords,
    lines: &mut Lines<K>,
    taps: &mut Vec<T>,
    steps: &mut Steps<L>,
) -> Result<(), u64>
    ensures told { (t : Replay) (first : Outlets)
        → IsTold t first (without_sink (map T.heard taps.old.items) steps.old) gpu.old fed.entry.played
        → IsTold (after_words t fed.entry.words.now) first (without_sink (map T.heard taps.new.items) steps.new)
        gpu.new (number_after fed.entry.played (length fed.entry.words.now)) }
    ensures puts { (t : Replay) (first : Outlets)
        → IsTold t first (without_sink (map T.heard taps.old.items) steps.old) gpu.old fed.entry.played
        → PutsPieces (listed_pieces (word_notes t fed.entry.words.now))
        (holding (K.held lines.old.out.now) lines.old.buffered.now)
        (holding (K.held lines.new.out.now) lines.new.buffered.now) result }
    ensures causes { Causes (Fails result) (K.faults lines.old.out.now) (K.faults lines.new.out.now) }
    ensures same { AreSameLines lines.old lines.new }
{
    let mut at = 0;
    'words: while at < fed.words.len() {
        let played = fed.played.saturating_add(at as u64);
        let noted = feed_noted(gpu, played, &fed.words[at..], taps, steps);
        at += noted.count;
        if let Err(lacking) = put_listed(&noted.note, lines) {
            let rest = EventWords {
                played: fed.played.saturating_add(at as u64),
                words: &fed.words[at..],
            };
            feed_events(gpu, rest, taps, steps);
            return Err(lacking);
        }
    }
    Ok(())
}

// Feeds a prefix of `words`, one event per word, as many as the GPU executes as one block up to a note. Returns its
// length, at least 1, and the note if there is one. There must be at least one word.
fn feed_noted<T: Listener, L: Ledger>(
    gpu: &mut Gpu,
    played: u64,
    words: &[u32],
    taps: &mut Vec<T>,
    steps: &mut Steps<L>,
) -> NotedWords
    requires { 0 < length words.now }
    ensures some { 0 < result.count }
    ensures within { result.count ≤ length words.now }
    ensures class { IfSome result.note (λ note. note.class ≤ 9) }
    ensures told { (t : Replay) (first : Outlets)
        → IsTold t first (without_sink (map T.heard taps.old.items) steps.old) gpu.old played
        → IsTold (after_words t (take result.count words.now)) first
        (without_sink (map T.heard taps.new.items) steps.new) gpu.new (number_after played result.count) }
    ensures gives { (t : Replay) (first : Outlets)
        → IsTold t first (without_sink (map T.heard taps.old.items) steps.old) gpu.old played
        → but_pixels (word_notes t (take result.count words.now)) ≡ but_pixels (option_to_list result.note) }
{
    gpu.take_noted(played, words, taps, steps)
}
