// Writes words to the ports of the machine, and reads them.
ghost use Rattle.std.specs.Prelude.{◌≡◌, ◌∷◌, []};
ghost use Rattle.psxgpu_c.specs.Calls.{Changes, Plays, Takes, word_shown};
ghost use Rattle.psxgpu_c.specs.Codes.{code_of};

use crate::ended::code_for;
use crate::handle::Psxgpu;
use crate::refusal::Refusal;
use crate::words::{play, take_word, take_words};
use gpu_capture::Event;
use std::alloc::Global;

/// Writes a word to GP0 (1F801810h): one event.
#[unsafe(no_mangle)]
pub extern "C" fn psxgpu_gp0(alloc: Global, gpu: &mut Psxgpu, word: u32) -> u32
    ensures { Changes gpu.old.held.value gpu.new.held.value result (Takes (word ∷ [])) }
{
    match gpu.take(alloc) {
        Some(mut rig) => {
            take_word(alloc, &mut rig, word);
            gpu.put(rig);
            0
        }
        None => code_for(Refusal::Closed),
    }
}

/// Writes `words` to GP0, one event per word.
#[unsafe(no_mangle)]
pub extern "C" fn psxgpu_gp0_words(alloc: Global, gpu: &mut Psxgpu, words: &[u32]) -> u32
    ensures { Changes gpu.old.held.value gpu.new.held.value result (Takes words.now) }
{
    match gpu.take(alloc) {
        Some(mut rig) => {
            take_words(alloc, &mut rig, words);
            gpu.put(rig);
            0
        }
        None => code_for(Refusal::Closed),
    }
}

/// Writes a word to GP1 (1F801814h): one event.
#[unsafe(no_mangle)]
pub extern "C" fn psxgpu_gp1(alloc: Global, gpu: &mut Psxgpu, word: u32) -> u32
    ensures { Plays gpu.old.held.value gpu.new.held.value (Event.Gp1 word) (λ answer. result ≡ code_of answer) }
{
    play_coded(alloc, gpu, &Event::Gp1 { word })
}

/// Reads a word from the data port (1F801810h): one event.
#[unsafe(no_mangle)]
pub extern "C" fn psxgpu_read(alloc: Global, gpu: &mut Psxgpu, word: &mut u32) -> u32
    ensures { Plays gpu.old.held.value gpu.new.held.value Event.Read
        (λ answer. (result ≡ code_of answer) × (word.new ≡ word_shown word.old answer)) }
{
    play_shown(alloc, gpu, &Event::Read, word)
}

/// Reads the status word (1F801814h): one event.
#[unsafe(no_mangle)]
pub extern "C" fn psxgpu_status(alloc: Global, gpu: &mut Psxgpu, word: &mut u32) -> u32
    ensures { Plays gpu.old.held.value gpu.new.held.value Event.Stat
        (λ answer. (result ≡ code_of answer) × (word.new ≡ word_shown word.old answer)) }
{
    play_shown(alloc, gpu, &Event::Stat, word)
}

/// Reads a word from the data port and discards it: one event.
#[unsafe(no_mangle)]
pub extern "C" fn psxgpu_skip(alloc: Global, gpu: &mut Psxgpu) -> u32
    ensures { Plays gpu.old.held.value gpu.new.held.value Event.Skip (λ answer. result ≡ code_of answer) }
{
    play_coded(alloc, gpu, &Event::Skip)
}

/// Plays an event on the machine of a handle. Returns 0, or the code of the refusal.
pub(crate) fn play_coded(alloc: Global, gpu: &mut Psxgpu, event: &Event) -> u32
    ensures { Plays gpu.old.held.value gpu.new.held.value event.now (λ answer. result ≡ code_of answer) }
{
    code_of(play_held(alloc, gpu, event))
}

// Plays an event on the machine of a handle, and sets `word` to the word that it shows, if any. Returns the code.
fn play_shown(alloc: Global, gpu: &mut Psxgpu, event: &Event, word: &mut u32) -> u32
    ensures { Plays gpu.old.held.value gpu.new.held.value event.now
        (λ answer. (result ≡ code_of answer) × (word.new ≡ word_shown word.old answer)) }
{
    let answer = play_held(alloc, gpu, event);
    if let Ok(Some(shown)) = answer {
        *word = shown;
    }
    code_of(answer)
}

/// Plays an event on the machine of a handle. Returns the word that it shows, if any. After a refusal the machine is
/// unchanged.
pub(crate) fn play_held(
    alloc: Global,
    gpu: &mut Psxgpu,
    event: &Event,
) -> Result<Option<u32>, Refusal>
    ensures { Plays gpu.old.held.value gpu.new.held.value event.now (λ answer. answer ≡ result) }
{
    match gpu.take(alloc) {
        Some(mut rig) => {
            let answer = play(alloc, &mut rig, event);
            gpu.put(rig);
            answer
        }
        None => Err(Refusal::Closed),
    }
}

// Returns 0, or the code of a refusal.
fn code_of(answer: Result<Option<u32>, Refusal>) -> u32
    ensures { result ≡ code_of answer }
{
    match answer {
        Ok(_) => 0,
        Err(why) => code_for(why),
    }
}
