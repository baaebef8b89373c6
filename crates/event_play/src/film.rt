// The pictures of a film and their digests.
ghost use Rattle.std.specs.Prelude.{◌≡◌, ◌≤◌, ◌+◌, ◌++◌, flat_map};
ghost use Rattle.dev_io.specs.Device.{Writes, side};
ghost use Rattle.picture_out.specs.Dump.{dump_cost};
ghost use Rattle.event_play.specs.Frames.{is_frame_trigger, frames_after, frame_bytes, frame_sum, frame_cost, vram_sum};
ghost use Rattle.event_play.specs.Frames.{picture_at, sum_at, frames_cost, bytes_at_end, cost_at_end};

use crate::ending::FrameTrigger;
use dev_io::{Failed, Sink};
use gpu_capture::Event;
use gpu_core::Gpu;
use packet_text::{write_frame_sum, write_vram_sum};
use picture_out::{picture_sum, shape, vram_sum, write_ppm};
use px_num::bits;
use std::sync::ledger::Ledger;
use vram_store::Steps;

/// An event that was played, its number, and the word that it shows.
#[derive(Clone, Copy)]
pub(crate) struct Played {
    pub(crate) event: Event,
    pub(crate) number: u64,
    pub(crate) shown: Option<u32>,
}

/// Writes the picture after an event if `at` selects that event and a picture is shown.
pub(crate) fn write_frames<K: Sink, L: Ledger>(
    gpu: &Gpu,
    played: Played,
    at: FrameTrigger,
    out: &mut K,
    steps: &mut Steps<L>,
) -> Result<(), Failed>
    ensures writes { Writes (side K.held K.faults) out.old out.new
        (flat_map (picture_at at) (frames_after played.event played.number gpu.now.parts)) result }
    ensures cost { steps.new ≤ steps.old + frames_cost at (frames_after played.event played.number gpu.now.parts) }
{
    match played.event {
        Event::Gp1 { word } if is_frame_trigger(at, word) => write_frame(gpu, out, steps),
        _ => Ok(()),
    }
}

/// The same for the line of the picture's digest.
pub(crate) fn write_sums<K: Sink, L: Ledger>(
    gpu: &Gpu,
    played: Played,
    at: FrameTrigger,
    out: &mut K,
    steps: &mut Steps<L>,
) -> Result<(), Failed>
    ensures writes { Writes (side K.held K.faults) out.old out.new
        (flat_map (sum_at at) (frames_after played.event played.number gpu.now.parts)) result }
    ensures cost { steps.new ≤ steps.old + frames_cost at (frames_after played.event played.number gpu.now.parts) }
{
    match played.event {
        Event::Gp1 { word } if is_frame_trigger(at, word) => write_sum(
            gpu,
            played.number,
            out,
            steps,
        ),
        _ => Ok(()),
    }
}

// Returns whether `at` selects this word of GP1: opcode 05h for `Flip`, 3Fh for `Mark`.
fn is_frame_trigger(at: FrameTrigger, word: u32) -> bool
    ensures { result ≡ is_frame_trigger at word }
{
    let opcode = bits(word, 24, 6);
    match at {
        FrameTrigger::Flip => opcode == 0x05,
        FrameTrigger::Mark => opcode == 0x3f,
    }
}

/// Writes the picture at the end if `at` is `Flip` and a picture is shown.
pub(crate) fn write_last_frame<K: Sink, L: Ledger>(
    gpu: &Gpu,
    at: FrameTrigger,
    out: &mut K,
    steps: &mut Steps<L>,
) -> Result<(), Failed>
    ensures writes { Writes (side K.held K.faults) out.old out.new
        (bytes_at_end at (frame_bytes gpu.now.parts)) result }
    ensures cost { steps.new ≤ steps.old + cost_at_end at (frame_cost gpu.now.parts) }
{
    match at {
        FrameTrigger::Flip => write_frame(gpu, out, steps),
        FrameTrigger::Mark => Ok(()),
    }
}

/// Writes the line of that picture's digest, with this event number. Then writes the line of the digest of video
/// memory.
pub(crate) fn write_last_sums<K: Sink, L: Ledger>(
    gpu: &Gpu,
    number: u64,
    at: FrameTrigger,
    out: &mut K,
    steps: &mut Steps<L>,
) -> Result<(), Failed>
    ensures writes { Writes (side K.held K.faults) out.old out.new
        (bytes_at_end at (frame_sum number gpu.now.parts) ++ vram_sum gpu.now.parts.m) result }
    ensures cost { steps.new ≤ steps.old + (cost_at_end at (frame_cost gpu.now.parts) + dump_cost gpu.now.parts.m) }
{
    write_last_sum(gpu, number, at, out, steps)?;
    write_memory_sum(gpu, out, steps)
}

// Writes the line of the digest of the picture at the end, if `at` is `Flip` and a picture is shown.
fn write_last_sum<K: Sink, L: Ledger>(
    gpu: &Gpu,
    number: u64,
    at: FrameTrigger,
    out: &mut K,
    steps: &mut Steps<L>,
) -> Result<(), Failed>
    ensures writes { Writes (side K.held K.faults) out.old out.new
        (bytes_at_end at (frame_sum number gpu.now.parts)) result }
    ensures cost { steps.new ≤ steps.old + cost_at_end at (frame_cost gpu.now.parts) }
{
    match at {
        FrameTrigger::Flip => write_sum(gpu, number, out, steps),
        FrameTrigger::Mark => Ok(()),
    }
}

// Writes the line of the digest of all cells of video memory.
#[tactic(auto, unfolding(crate::specs::Frames::vram_sum))]
fn write_memory_sum<K: Sink, L: Ledger>(
    gpu: &Gpu,
    out: &mut K,
    steps: &mut Steps<L>,
) -> Result<(), Failed>
    ensures writes { Writes (side K.held K.faults) out.old out.new (vram_sum gpu.now.parts.m) result }
    ensures cost { steps.new ≤ steps.old + dump_cost gpu.now.parts.m }
{
    let digest = vram_sum(gpu.vram(), steps);
    write_vram_sum(out, &digest)
}

// Writes the picture if one is shown.
#[tactic(auto, unfolding(crate::specs::Frames::frame_bytes, crate::specs::Frames::frame_cost))]
fn write_frame<K: Sink, L: Ledger>(
    gpu: &Gpu,
    out: &mut K,
    steps: &mut Steps<L>,
) -> Result<(), Failed>
    ensures writes { Writes (side K.held K.faults) out.old out.new (frame_bytes gpu.now.parts) result }
    ensures cost { steps.new ≤ steps.old + frame_cost gpu.now.parts }
{
    if shape(gpu.regs()).is_none() {
        return Ok(());
    }
    write_ppm(gpu.vram(), gpu.regs(), out, steps)
}

// Writes the line of the picture's digest if a picture is shown.
#[tactic(auto, unfolding(crate::specs::Frames::frame_sum, crate::specs::Frames::frame_cost))]
fn write_sum<K: Sink, L: Ledger>(
    gpu: &Gpu,
    number: u64,
    out: &mut K,
    steps: &mut Steps<L>,
) -> Result<(), Failed>
    ensures writes { Writes (side K.held K.faults) out.old out.new (frame_sum number gpu.now.parts) result }
    ensures cost { steps.new ≤ steps.old + frame_cost gpu.now.parts }
{
    match shape(gpu.regs()) {
        None => Ok(()),
        Some(shown) => {
            let digest = picture_sum(gpu.vram(), gpu.regs(), steps);
            write_frame_sum(out, number, shown, &digest)
        }
    }
}
