// Main memory and DMA.
ghost use Rattle.std.specs.Prelude.{◌≡◌, Err};
ghost use Rattle.gpu_capture.specs.declared.event.Event.TheVariants.{Dma};
ghost use Rattle.psxgpu_c.specs.Calls.{Changes, Plays};
ghost use Rattle.psxgpu_c.specs.Codes.{code_of, told_of};
ghost use Rattle.psxgpu_c.specs.Memory.{Fills, Refuses, Starts, channel_named};

use crate::ended::{Ended, code_for, numbers, of_refusal};
use crate::fill::put_words;
use crate::handle::Psxgpu;
use crate::ports::{play_coded, play_held};
use crate::refusal::Refusal;
use gpu_capture::Event;
use std::alloc::Global;

/// The three registers of a DMA channel, as a start takes them.
#[derive(Clone, Copy)]
struct DmaRegisters {
    madr: u32,
    bcr: u32,
    chcr: u32,
}

/// Writes `words` to main memory from byte address `address` on, one event per word. If they are not all in main
/// memory, or `address` is not a multiple of 4, writes nothing and returns the code of `BadAddress`.
#[unsafe(no_mangle)]
pub extern "C" fn psxgpu_ram(alloc: Global, gpu: &mut Psxgpu, address: u32, words: &[u32]) -> u32
    ensures { Changes gpu.old.held.value gpu.new.held.value result (Fills address words.now) }
{
    match gpu.take(alloc) {
        Some(mut rig) => {
            let code = put_words(&mut rig, address, words);
            gpu.put(rig);
            code
        }
        None => code_for(Refusal::Closed),
    }
}

/// Starts DMA channel 2 or 6 with its three registers and moves all words: one event. Sets `ended` in every case and
/// returns its code. Any other channel is refused with `BadChannel`.
#[unsafe(no_mangle)]
pub extern "C" fn psxgpu_dma(
    alloc: Global,
    gpu: &mut Psxgpu,
    channel: u32,
    madr: u32,
    bcr: u32,
    chcr: u32,
    ended: &mut Ended,
) -> u32
    ensures told { Starts (channel_named channel) (λ c. Dma c madr bcr chcr) gpu.old.held.value gpu.new.held.value
        (λ answer. ended.new ≡ told_of answer) }
    ensures code { result ≡ ended.new.code }
{
    let registers = DmaRegisters { madr, bcr, chcr };
    *ended = told_of(start(alloc, gpu, channel_named(channel), registers));
    ended.code
}

// Returns the channel, if its number is 2 or 6.
fn channel_named(number: u32) -> Option<u8>
    ensures { result ≡ channel_named number }
{
    match number {
        2 => Some(2),
        6 => Some(6),
        _ => None,
    }
}

// Starts `channel`, or refuses with `BadChannel` if it is `None`.
fn start(
    alloc: Global,
    gpu: &mut Psxgpu,
    channel: Option<u8>,
    registers: DmaRegisters,
) -> Result<Option<u32>, Refusal>
    ensures { Starts channel (λ c. Dma c registers.madr registers.bcr registers.chcr)
        gpu.old.held.value gpu.new.held.value (λ answer. answer ≡ result) }
{
    match channel {
        Some(channel) => {
            let event = Event::Dma {
                channel,
                madr: registers.madr,
                bcr: registers.bcr,
                chcr: registers.chcr,
            };
            play_held(alloc, gpu, &event)
        }
        None => Err(refused(alloc, gpu, Refusal::BadChannel)),
    }
}

// Returns why nothing is done: `why`, or `Closed` if there is no machine.
fn refused(alloc: Global, gpu: &mut Psxgpu, why: Refusal) -> Refusal
    ensures { Refuses gpu.old.held.value gpu.new.held.value why (λ answer. answer ≡ Err result) }
{
    match gpu.take(alloc) {
        Some(rig) => {
            gpu.put(rig);
            why
        }
        None => Refusal::Closed,
    }
}

/// Starts DMA channel 2 and moves nothing before the first [`psxgpu_turn`]: one event. Sets `ended` in every case and
/// returns its code.
#[unsafe(no_mangle)]
pub extern "C" fn psxgpu_begin(
    alloc: Global,
    gpu: &mut Psxgpu,
    madr: u32,
    bcr: u32,
    chcr: u32,
    ended: &mut Ended,
) -> u32
    ensures told { Plays gpu.old.held.value gpu.new.held.value (Event.Begin madr bcr chcr)
        (λ answer. ended.new ≡ told_of answer) }
    ensures code { result ≡ ended.new.code }
{
    *ended = told_of(play_held(alloc, gpu, &Event::Begin { madr, bcr, chcr }));
    ended.code
}

/// Moves the next block of the running transfer, or the words of its next node: one event. Moves nothing if none runs.
#[unsafe(no_mangle)]
pub extern "C" fn psxgpu_turn(alloc: Global, gpu: &mut Psxgpu) -> u32
    ensures { Plays gpu.old.held.value gpu.new.held.value Event.Turn (λ answer. result ≡ code_of answer) }
{
    play_coded(alloc, gpu, &Event::Turn)
}

// Returns the details of a result.
fn told_of(answer: Result<Option<u32>, Refusal>) -> Ended
    ensures { result ≡ told_of answer }
{
    match answer {
        Ok(_) => numbers(0, 0, 0, 0),
        Err(why) => of_refusal(why),
    }
}
