// Plays generated packets and writes what they did.
ghost use Rattle.std.specs.Prelude.{◌≡◌, ◌≤◌, ◌<◌, ◌+◌, ◌++◌, [], ◌∷◌, ℕ, List, map};
ghost use Rattle.dev_io.specs.Device.{Writes, side};
ghost use Rattle.event_play.specs.Replay.{Replay, next_number};
ghost use Rattle.event_play.specs.Streams.{Outlets, without_sink};
ghost use Rattle.gpu_core.specs.Kept.{kept_of};
ghost use Rattle.gpu_core.specs.Machine.{State};
ghost use Rattle.demo_play.specs.Demo.{demo_words};
ghost use Rattle.demo_play.specs.DemoOut.{demo_bytes, cells_cost};
ghost use Rattle.px_num.specs.Height.{short_height};
ghost use Rattle.demo_play.specs.Telling.{EndsTelling};
ghost use Rattle.demo_play.specs.Words.{HavePlayed};

use crate::generator::Generator;
use crate::sum::sum_of_cells;
use dev_io::{Failed, Sink};
use event_play::{Ending, Rig, write_report};
use gpu_capture::Event;
use gpu_taps::Listener;
use packet_text::{write_status, write_sum};
use std::sync::ledger::Ledger;
use vram_store::Steps;

/// Textures of 15 bits with dither, and the drawing area from (0, 0) to (1023, 511).
const PROLOGUE: [u32; 3] = [0xe100_0200, 0xe300_0000, 0xe407_ffff];

/// Plays the demo of `packets` packets: one GP0 event per word.
pub fn play_demo<T: Listener, L: Ledger>(
    rig: &mut Rig,
    packets: u32,
    taps: &mut Vec<T>,
    steps: &mut Steps<L>,
)
    ensures { (first : Replay) (start : Outlets)
        → HavePlayed first [] start (without_sink (map T.heard taps.old.items) steps.old) rig.old
        → HavePlayed first (demo_words packets) start (without_sink (map T.heard taps.new.items) steps.new) rig.new }
{
    play_words(rig, &PROLOGUE, taps, steps);
    let mut generator = Generator::new(packets);
    for k in 0..packets {
        play_words(rig, generator.packet(k).as_slice(), taps, steps);
    }
}

/// Writes the output of a demo that was played. On failure, the ending names the number of events plus 1.
pub fn tell_demo<K: Sink, T: Listener, L: Ledger>(
    rig: &Rig,
    out: &mut K,
    taps: &Vec<T>,
    steps: &mut Steps<L>,
) -> Ending
    ensures ends { (s : State) → kept_of s ≡ rig.now.gpu →
        EndsTelling (demo_bytes (map T.heard taps.now.items) s) (next_number rig.now.played)
        (side K.held K.faults out.old) (side K.held K.faults out.new) result }
    ensures cost { rig.now.gpu.parts.regs.height ≡ short_height → steps.new ≤ steps.old + cells_cost }
{
    match write_demo(rig, out, taps, steps) {
        Ok(()) => Ending::Done,
        Err(_) => Ending::WriteFailed {
            event: rig.played().saturating_add(1),
        },
    }
}

/// Writes the line of each tap, the status line and the sum line.
fn write_demo<K: Sink, T: Listener, L: Ledger>(
    rig: &Rig,
    out: &mut K,
    taps: &Vec<T>,
    steps: &mut Steps<L>,
) -> Result<(), Failed>
    ensures writes { (s : State) → kept_of s ≡ rig.now.gpu →
        Writes (side K.held K.faults) out.old out.new (demo_bytes (map T.heard taps.now.items) s) result }
    ensures cost { rig.now.gpu.parts.regs.height ≡ short_height → steps.new ≤ steps.old + cells_cost }
{
    let gpu = rig.gpu();
    write_report(out, taps)?;
    write_status(out, gpu.status())?;
    write_sum(out, sum_of_cells(gpu, steps))
}

/// Plays each of the words as an event of GP0, which has no fault.
fn play_words<T: Listener, L: Ledger>(
    rig: &mut Rig,
    words: &[u32],
    taps: &mut Vec<T>,
    steps: &mut Steps<L>,
)
    ensures { (first : Replay) (done : List ℕ) (start : Outlets)
        → HavePlayed first done start (without_sink (map T.heard taps.old.items) steps.old) rig.old
        → HavePlayed first (done ++ words.now) start (without_sink (map T.heard taps.new.items) steps.new) rig.new }
{
    for word in words {
        play_word(rig, *word, taps, steps);
    }
}

fn play_word<T: Listener, L: Ledger>(
    rig: &mut Rig,
    word: u32,
    taps: &mut Vec<T>,
    steps: &mut Steps<L>,
)
    ensures { (first : Replay) (done : List ℕ) (start : Outlets)
        → HavePlayed first done start (without_sink (map T.heard taps.old.items) steps.old) rig.old
        → HavePlayed first (done ++ word ∷ []) start (without_sink (map T.heard taps.new.items) steps.new) rig.new }
{
    let _ = rig.event(&Event::Gp0 { word }, taps, steps);
}
