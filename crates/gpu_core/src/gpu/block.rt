// Words that are fed at once, whole or up to a note.
ghost use Rattle.std.specs.Prelude.{◌≡◌, ◌≤◌, ◌<◌, ◌+◌, [], ◌∷◌, length, map, slice_index, take, ℕ, IfSome};
ghost use Rattle.gp0_words.specs.Kinds.{class_of, kind_of};
ghost use Rattle.gp0_words.specs.Next.{wanted};
ghost use Rattle.gp0_words.specs.declared.kind.Kind.TheVariants.{Plain};
ghost use Rattle.gp0_words.specs.declared.pending.Pending.TheVariants.{Idle};
ghost use Rattle.gpu_core.specs.Feeds.{SetsRegisters, TakesWords, feed_notes, GivesNote};
ghost use Rattle.gpu_core.specs.Kept.{kept_of};
ghost use Rattle.gpu_core.specs.Machine.{State};
ghost use Rattle.gpu_taps.specs.Bare.{bare_notes};

use crate::gpu::Gpu;
use crate::parts::Parts;
use gp0_packets::{Note, class_of_word};
use gp0_words::{Splitter, first_len, is_polyline};
use gpu_taps::{Listener, tell_all, tell_all_bare};
use std::sync::ledger::Ledger;
use vram_store::Steps;

impl Gpu {
    /// Consumes a prefix of `words`, one event per word, numbered from `played + 1`. Returns its length, at least 1.
    /// `words` must not be empty. The prefix is data words of the open load, a run of words E0h to FFh, one complete
    /// packet of fixed length, or one word.
    ///
    /// The effect equals calling [`gp0`](Gpu::gp0) for each word. Only the order of notes differs: each listener
    /// receives all of them before the next listener. Event numbers stop at 2^64 - 1.
    #[inline(always)]
    pub fn take_first<T: Listener, L: Ledger>(
        &mut self,
        played: u64,
        words: &[u32],
        taps: &mut Vec<T>,
        steps: &mut Steps<L>,
    ) -> usize
        requires { 0 < length words.now }
        ensures some { 0 < result }
        ensures within { result ≤ length words.now }
        ensures takes { (s : State) → kept_of s ≡ self.old → TakesWords s (played + 1) (take result words.now)
            (record { heard = map T.heard taps.old.items; steps = steps.old })
            (record { gpu = self.new; heard = map T.heard taps.new.items; steps = steps.new }) }
    {
        let wanted = (self.splitter.wanted() as usize).min(words.len());
        if wanted > 0 {
            self.load(played, &words[..wanted], taps, steps);
            return wanted;
        }
        let set = self.set_registers(words);
        if set > 0 {
            tell_all_bare(taps, 7, played, &words[..set]);
            return set;
        }
        let len = self.plain_len(words);
        if len > 0 {
            let _ = self.take_packet(played, &words[..len], taps, steps);
            return len;
        }
        let _ = self.gp0(played.saturating_add(1), words[0], taps, steps);
        1
    }

    /// Feeds `words`, data words of the open load: at least one, at most as many as it still needs.
    #[inline(always)]
    pub(crate) fn load<T: Listener, L: Ledger>(
        &mut self,
        played: u64,
        words: &[u32],
        taps: &mut Vec<T>,
        steps: &mut Steps<L>,
    )
        requires some { 0 < length words.now }
        requires wanted { length words.now ≤ wanted self.old.pending }
        ensures { (s : State) → kept_of s ≡ self.old → TakesWords s (played + 1) words.now
            (record { heard = map T.heard taps.old.items; steps = steps.old })
            (record { gpu = self.new; heard = map T.heard taps.new.items; steps = steps.new })
            × (feed_notes s (played + 1) words.now ≡ bare_notes 9 (played + 1) words.now) }
    {
        self.splitter.skip_pixels(words.len());
        self.parts.take_all_pixels(words, steps);
        tell_all_bare(taps, 9, played, words);
    }

    // If nothing is pending, executes the words E0h to FFh at the front of `words`. Returns how many. No listener
    // receives their notes yet.
    fn set_registers(&mut self, words: &[u32]) -> usize
        requires { 0 < length words.now }
        ensures within { result ≤ length words.now }
        ensures sets { (s : State) (first : ℕ) → kept_of s ≡ self.old
            → SetsRegisters s first (take result words.now) self.new }
    {
        if self.splitter.passes(words[0]) {
            set_all(&mut self.parts, &self.splitter, words)
        } else {
            0
        }
    }

    /// If nothing is pending and `words` begin with a complete packet of fixed length, returns its number of words.
    /// Otherwise returns 0.
    pub(crate) fn plain_len(&self, words: &[u32]) -> usize
        requires { 0 < length words.now }
        ensures within { result ≤ length words.now }
        ensures idle { 0 < result → self.now.pending ≡ Idle }
        ensures kind { 0 < result → kind_of (slice_index words.now 0) ≡ Plain result }
        ensures most { result ≤ 12 }
    {
        if !self.splitter.is_idle() {
            return 0;
        }
        let len = plain_count(words[0]);
        if len <= words.len() { len } else { 0 }
    }

    /// Feeds `words`, one complete packet of fixed length, and returns its note. Nothing may be pending.
    #[inline(always)]
    pub(crate) fn take_packet<T: Listener, L: Ledger>(
        &mut self,
        played: u64,
        words: &[u32],
        taps: &mut Vec<T>,
        steps: &mut Steps<L>,
    ) -> Note
        requires some { 0 < length words.now }
        requires idle { self.old.pending ≡ Idle }
        requires kind { kind_of (slice_index words.now 0) ≡ Plain (length words.now) }
        requires most { length words.now ≤ 12 }
        ensures takes { (s : State) → kept_of s ≡ self.old → TakesWords s (played + 1) words.now
            (record { heard = map T.heard taps.old.items; steps = steps.old })
            (record { gpu = self.new; heard = map T.heard taps.new.items; steps = steps.new })
            × (feed_notes s (played + 1) words.now ≡ result ∷ []) }
        ensures class { result.class ≤ 9 }
    {
        let event = played.saturating_add(words.len() as u64);
        let head = words[0];
        let area = self.parts.carry_out_words(words, steps);
        let note = Note {
            event,
            class: class_of_word(head),
            head,
            area,
        };
        tell_all(taps, &note);
        note
    }
}

// Executes the words E0h to FFh at the front of `words` and returns how many. Returns 0 if something is pending in
// `splitter`.
fn set_all(parts: &mut Parts, splitter: &Splitter, words: &[u32]) -> usize
    ensures within { result ≤ length words.now }
    ensures load { parts.new.load ≡ parts.old.load }
    ensures sets { (s : State) (first : ℕ) → kept_of s ≡ record { parts = parts.old; pending = splitter.now }
        → SetsRegisters s first (take result words.now) (record { parts = parts.new; pending = splitter.now }) }
{
    for i in 0..words.len() {
        let word = words[i];
        if !splitter.passes(word) {
            return i;
        }
        parts.set_register(word);
    }
    words.len()
}

// Returns how many words a packet that begins with `word` has, and 0 if it is a load or a polyline.
fn plain_count(word: u32) -> usize
    ensures kind { 0 < result → kind_of word ≡ Plain result }
    ensures most { result ≤ 12 }
{
    match class_of_word(word) {
        2 => line_count(word),
        5 => 0,
        _ => first_len(word),
    }
}

// The same for a line or polyline.
fn line_count(word: u32) -> usize
    requires { class_of word ≡ 2 }
    ensures kind { 0 < result → kind_of word ≡ Plain result }
    ensures most { result ≤ 12 }
{
    if is_polyline(word) {
        return 0;
    }
    first_len(word)
}

/// Words that were fed at once: how many, and their note. `None` if they have no note or only notes of data words of a
/// load.
#[derive(Clone, Copy, Debug, PartialEq, Eq)]
pub struct NotedWords {
    pub count: usize,
    pub note: Option<Note>,
}

impl Gpu {
    /// Feeds a prefix of `words` as [`take_first`](Gpu::take_first) does, but ends it after the first note that is not
    /// of a data word. The prefix is data words of the open load, one complete packet of fixed length, or one word.
    /// `words` must not be empty.
    pub fn take_noted<T: Listener, L: Ledger>(
        &mut self,
        played: u64,
        words: &[u32],
        taps: &mut Vec<T>,
        steps: &mut Steps<L>,
    ) -> NotedWords
        requires { 0 < length words.now }
        ensures some { 0 < result.count }
        ensures within { result.count ≤ length words.now }
        ensures class { IfSome result.note (λ note. note.class ≤ 9) }
        ensures gives { (s : State) → kept_of s ≡ self.old
            → GivesNote s (played + 1) (take result.count words.now) result.note }
        ensures takes { (s : State) → kept_of s ≡ self.old
            → TakesWords s (played + 1) (take result.count words.now)
            (record { heard = map T.heard taps.old.items; steps = steps.old })
            (record { gpu = self.new; heard = map T.heard taps.new.items; steps = steps.new }) }
    {
        let count = (self.splitter.wanted() as usize).min(words.len());
        if count > 0 {
            self.load(played, &words[..count], taps, steps);
            return NotedWords { count, note: None };
        }
        let count = self.packet_len(words);
        if count > 0 {
            let note = Some(self.take_packet(played, &words[..count], taps, steps));
            return NotedWords { count, note };
        }
        let note = self.gp0(played.saturating_add(1), words[0], taps, steps);
        NotedWords { count: 1, note }
    }

    // As `plain_len`, but 0 if the first word is E0h to FFh: `gp0` is faster for it.
    fn packet_len(&self, words: &[u32]) -> usize
        requires { 0 < length words.now }
        ensures within { result ≤ length words.now }
        ensures idle { 0 < result → self.now.pending ≡ Idle }
        ensures kind { 0 < result → kind_of (slice_index words.now 0) ≡ Plain result }
        ensures most { result ≤ 12 }
    {
        if self.splitter.passes(words[0]) {
            return 0;
        }
        self.plain_len(words)
    }
}
