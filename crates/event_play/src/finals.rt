// The output after an event, and after the last one.
ghost use Rattle.std.specs.Prelude.{◌≡◌, ◌≤◌, ◌+◌, [], false, map, flat_map, option_to_list, OnErr};
ghost use Rattle.dev_io.specs.Device.{Writes, side};
ghost use Rattle.gathered_out.specs.Causes.{Causes, Fails};
ghost use Rattle.gpu_core.specs.Kept.{kept_of};
ghost use Rattle.gpu_core.specs.Machine.{State};
ghost use Rattle.packet_text.specs.Line.{word_line};
ghost use Rattle.packet_text.specs.Tap.{tap_line};
ghost use Rattle.event_play.specs.Frames.{frames_after};
ghost use Rattle.event_play.specs.Lines.{lines_after, lines_cost, WritesAfter};
ghost use Rattle.event_play.specs.Out.{final_bytes, final_cost, lacks_picture};
ghost use Rattle.event_play.specs.Replay.{next_number};

use crate::ending::Mode;
use crate::film::{Played, write_frames, write_last_frame, write_last_sums, write_sums};
use crate::rig::Rig;
use dev_io::{Failed, Sink};
use gpu_core::Gpu;
use gpu_taps::Listener;
use packet_text::{write_status, write_tap, write_word};
use picture_out::{shape, write_ppm, write_vram};
use std::sync::ledger::Ledger;
use vram_store::Steps;

/// Writes the output after an event by the mode: the line of its shown word, or the picture or the line of its digest
/// if the mode selects this event.
pub(crate) fn write_after<K: Sink, L: Ledger>(
    gpu: &Gpu,
    played: Played,
    out: &mut K,
    mode: Mode,
    steps: &mut Steps<L>,
) -> Result<(), Failed>
    ensures writes { Writes (side K.held K.faults) out.old out.new
        (lines_after mode (option_to_list played.shown)
        (frames_after played.event played.number gpu.now.parts)) result }
    ensures mode { OnErr result (WritesAfter mode) }
    ensures cost { steps.new ≤ steps.old
        + lines_cost mode (frames_after played.event played.number gpu.now.parts) [] }
{
    match mode {
        Mode::Play => write_shown(played.shown, out),
        Mode::Frames { at } => write_frames(gpu, played, at, out, steps),
        Mode::Sums { at } => write_sums(gpu, played, at, out, steps),
        _ => Ok(()),
    }
}

// Writes the line of the word that an event shows, if any.
fn write_shown<K: Sink>(shown: Option<u32>, out: &mut K) -> Result<(), Failed>
    ensures { Writes (side K.held K.faults) out.old out.new (flat_map word_line (option_to_list shown)) result }
{
    match shown {
        Some(word) => write_word(out, word),
        None => Ok(()),
    }
}

/// Returns whether the mode is `Shot` and the registers show no picture.
pub(crate) fn lacks_picture(gpu: &Gpu, mode: Mode) -> bool
    ensures { result ≡ lacks_picture mode gpu.now.parts.regs }
{
    match mode {
        Mode::Shot => shape(gpu.regs()).is_none(),
        _ => false,
    }
}

impl Rig {
    /// Writes the final output of `mode`. `lacks_picture` must be false.
    #[tactic(auto, unfolding(crate::specs::Out::final_bytes, crate::specs::Out::final_cost))]
    pub(crate) fn write_finals<K: Sink, T: Listener, L: Ledger>(
        &self,
        out: &mut K,
        mode: Mode,
        taps: &Vec<T>,
        steps: &mut Steps<L>,
    ) -> Result<(), Failed>
        requires { lacks_picture mode self.now.gpu.parts.regs ≡ false }
        ensures writes { (s : State) → kept_of s ≡ self.now.gpu →
            Writes (side K.held K.faults) out.old out.new
            (final_bytes mode (map T.heard taps.now.items) (next_number self.now.played) s) result }
        ensures causes { Causes (Fails result) (K.faults out.old) (K.faults out.new) }
        ensures cost { (s : State) → kept_of s ≡ self.now.gpu → steps.new ≤ steps.old + final_cost mode s }
    {
        let gpu = &self.gpu;
        match mode {
            Mode::Play => write_status(out, gpu.status()),
            Mode::Vram => write_vram(gpu.vram(), out, steps),
            Mode::Shot => write_ppm(gpu.vram(), gpu.regs(), out, steps),
            Mode::Frames { at } => write_last_frame(gpu, at, out, steps),
            Mode::Sums { at } => write_last_sums(gpu, self.next_number(), at, out, steps),
            Mode::List => Ok(()),
            Mode::Pixel { .. } => Ok(()),
            Mode::Report => write_report(out, taps),
        }
    }
}

/// Writes the line of each tap, in the order of the list.
pub fn write_report<K: Sink, T: Listener>(out: &mut K, taps: &Vec<T>) -> Result<(), Failed>
    ensures { Writes (side K.held K.faults) out.old out.new (flat_map tap_line (map T.heard taps.now.items)) result }
{
    for i in 0..taps.len() {
        write_tap(out, &taps[i])?;
    }
    Ok(())
}
