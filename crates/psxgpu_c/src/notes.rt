// Feeds words to GP0 and returns notes of the items that they complete.
ghost use Rattle.std.specs.Prelude.{◌≡◌, ◌≤◌, ◌<◌, length};
ghost use Rattle.event_play.specs.Replay.{from_state};
ghost use Rattle.event_play.specs.RigState.{Stands};
ghost use Rattle.event_play.specs.Step.{Machine};
ghost use Rattle.gp0_words.specs.Next.{IsPending, wanted};
ghost use Rattle.psxgpu_c.specs.Notes.{HasNoted, TakesHeld, TakesNoted, noting};
ghost use Rattle.psxgpu_c.specs.Shown.{Tells};

use crate::front::tell;
use crate::handle::Psxgpu;
use crate::note::{ItemNote, put_note};
use crate::refusal::Refusal;
use event_play::Rig;
use gp0_packets::Note;
use gp0_words::Pending;
use gpu_taps::Tap;
use std::alloc::Global;
use std::marker::Brand;
use std::sync::ledger::{Blank, Ledger};
use vram_store::Steps;

/// Feeds `words` to GP0, one event per word, and stores one note per completed item at the start of `notes`. Data words
/// of a load have no note. `written`: the number of notes. If `notes` is shorter than `words`, feeds nothing and
/// returns the code of `NoRoom`.
#[unsafe(no_mangle)]
pub extern "C" fn psxgpu_gp0_notes(
    alloc: Global,
    gpu: &mut Psxgpu,
    words: &[u32],
    notes: &mut [ItemNote],
    written: &mut usize,
) -> u32
    ensures { Tells (TakesHeld words.now (noting gpu.old.held.value notes.old) (noting gpu.new.held.value notes.new))
        result written.new }
{
    tell(noted_of(alloc, gpu, words, notes), written)
}

fn noted_of(
    alloc: Global,
    gpu: &mut Psxgpu,
    words: &[u32],
    notes: &mut [ItemNote],
) -> Result<usize, Refusal>
    ensures { TakesHeld words.now (noting gpu.old.held.value notes.old) (noting gpu.new.held.value notes.new) result }
{
    match gpu.take(alloc) {
        Some(mut rig) => {
            let answer = take_noted(alloc, &mut rig, words, notes);
            gpu.put(rig);
            answer
        }
        None => Err(Refusal::Closed),
    }
}

// Does the same for a machine, and returns the number of notes.
fn take_noted(
    alloc: Global,
    rig: &mut Rig,
    words: &[u32],
    notes: &mut [ItemNote],
) -> Result<usize, Refusal>
    ensures { TakesNoted words.now (noting rig.old notes.old) (noting rig.new notes.new) result }
{
    if notes.len() < words.len() {
        return Err(Refusal::NoRoom);
    }
    Ok(take_told::<Brand>(alloc, rig, words, notes, Blank::new(1)))
}

// Does the same. Requires that `notes` is at least as long as `words`.
fn take_told<L: Ledger>(
    alloc: Global,
    rig: &mut Rig,
    words: &[u32],
    notes: &mut [ItemNote],
    blank: Blank,
) -> usize
    requires name { blank.name ≡ L.name }
    requires parts { blank.parts ≡ L.parts }
    requires some { 0 < blank.parts }
    requires room { length words.now ≤ length notes.old }
    ensures { (s : Machine) → Stands rig.old s
        → HasNoted (from_state s rig.old.played) words.now notes.old (noting rig.new notes.new) result }
{
    let mut steps = Steps::<L>::new(blank);
    let mut taps: Vec<Box<dyn Tap>> = Vec::new(alloc);
    let mut count = 0;
    let mut at = 0;
    let mut may_load = true;
    'words: while at < words.len() {
        let data = data_words(rig, may_load, words.len() - at);
        may_load = false;
        if data > 0 {
            rig.take_words(&words[at..at + data], &mut taps, &mut steps);
            at += data;
        } else {
            let note = rig.take_word(words[at], &mut taps, &mut steps);
            may_load = opens_load(&note);
            count = put_note(at, &note, notes, count);
            at += 1;
        }
    }
    count
}

// Returns how many of the next words are data words of an open load, at most `most`. Returns 0 if `may_load` is false.
fn data_words(rig: &Rig, may_load: bool, most: usize) -> usize
    ensures most { result ≤ most }
    ensures wanted { result ≤ wanted rig.now.gpu.pending }
    ensures bounds { IsPending rig.now.gpu.pending }
{
    match rig.pending() {
        Pending::Pixels { left } if may_load => (left as usize).min(most),
        _ => 0,
    }
}

// Whether a load may be open after this note: its class is 5.
fn opens_load(note: &Option<Note>) -> bool {
    match note {
        Some(note) => note.class == 5,
        None => false,
    }
}
