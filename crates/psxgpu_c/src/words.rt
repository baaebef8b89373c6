// Feeds words to a machine, and plays events on it. There are no taps, and the count of steps is dropped.
ghost use Rattle.std.specs.Prelude.{◌≡◌, ◌<◌, ◌∷◌, []};
ghost use Rattle.psxgpu_c.specs.Calls.{HasPlayed, Takes};

use crate::refusal::Refusal;
use event_play::Rig;
use gpu_capture::Event;
use gpu_taps::Tap;
use std::alloc::Global;
use std::marker::Brand;
use std::sync::ledger::{Blank, Ledger};
use vram_store::Steps;

/// Feeds a word to GP0.
pub(crate) fn take_word(alloc: Global, rig: &mut Rig, word: u32)
    ensures { Takes (word ∷ []) rig.old rig.new 0 }
{
    take_one::<Brand>(alloc, rig, word, Blank::new(1));
}

fn take_one<L: Ledger>(alloc: Global, rig: &mut Rig, word: u32, blank: Blank)
    requires name { blank.name ≡ L.name }
    requires parts { blank.parts ≡ L.parts }
    requires some { 0 < blank.parts }
    ensures { Takes (word ∷ []) rig.old rig.new 0 }
{
    let mut steps = Steps::<L>::new(blank);
    let mut taps: Vec<Box<dyn Tap>> = Vec::new(alloc);
    let _ = rig.take_word(word, &mut taps, &mut steps);
}

/// Feeds `words` to GP0, one event per word.
pub(crate) fn take_words(alloc: Global, rig: &mut Rig, words: &[u32])
    ensures { Takes words.now rig.old rig.new 0 }
{
    take_all::<Brand>(alloc, rig, words, Blank::new(1));
}

fn take_all<L: Ledger>(alloc: Global, rig: &mut Rig, words: &[u32], blank: Blank)
    requires name { blank.name ≡ L.name }
    requires parts { blank.parts ≡ L.parts }
    requires some { 0 < blank.parts }
    ensures { Takes words.now rig.old rig.new 0 }
{
    let mut steps = Steps::<L>::new(blank);
    let mut taps: Vec<Box<dyn Tap>> = Vec::new(alloc);
    rig.take_words(words, &mut taps, &mut steps);
}

/// Plays an event. Returns the word that it shows, if any. If it has a fault, changes nothing and returns `Faulted`.
pub(crate) fn play(alloc: Global, rig: &mut Rig, event: &Event) -> Result<Option<u32>, Refusal>
    ensures { HasPlayed rig.old rig.new event.now (λ answer. answer ≡ result) }
{
    play_one::<Brand>(alloc, rig, event, Blank::new(1))
}

fn play_one<L: Ledger>(
    alloc: Global,
    rig: &mut Rig,
    event: &Event,
    blank: Blank,
) -> Result<Option<u32>, Refusal>
    requires name { blank.name ≡ L.name }
    requires parts { blank.parts ≡ L.parts }
    requires some { 0 < blank.parts }
    ensures { HasPlayed rig.old rig.new event.now (λ answer. answer ≡ result) }
{
    let mut steps = Steps::<L>::new(blank);
    let mut taps: Vec<Box<dyn Tap>> = Vec::new(alloc);
    let event_number = rig.played().saturating_add(1);
    match rig.event(event, &mut taps, &mut steps) {
        Ok(shown) => Ok(shown),
        Err(fault) => Err(Refusal::Faulted {
            event: event_number,
            fault,
        }),
    }
}
