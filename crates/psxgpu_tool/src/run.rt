// Runs the program.
ghost use Rattle.std.specs.Prelude.{◌≡◌, map};
ghost use Rattle.dev_io.specs.Device.{side};
ghost use Rattle.demo_play.specs.Telling.{EndsTelling};
ghost use Rattle.command_line.specs.Command.{IsCommand};
ghost use Rattle.psxgpu_tool.specs.Line.{memory_line};
ghost use Rattle.psxgpu_tool.specs.Outside.{outside, source_side, Says};
ghost use Rattle.psxgpu_tool.specs.Run.{CommandRun, Runs};

use crate::ending::{end, tell};
use crate::texts::{HELP, VERSION};
use capture_flat::flat;
use capture_slim::Slim;
use command_line::{Command, read_command};
use demo_play::{play_demo, tell_demo};
use dev_io::{Sink, Source, write_all};
use event_play::{Ending, Rig};
use gpu_snapshot::{cut, play_any};
use gpu_taps::{Listener, Tap};
use std::alloc::Global;
use std::sync::ledger::Ledger;
use vram_store::Steps;

/// Runs the command that the arguments name, and returns the exit status.
///
/// - 0: everything was written.
/// - 1: the arguments name no command.
/// - 2: the capture, or one of its events, is refused; `err` receives why and where.
/// - 3: `source` failed.
/// - 4: `out` failed.
/// - 5: memory ran out before anything was read or written.
///
/// Errors of `err` are ignored. The taps receive every note of the run, and are dropped at its end.
pub fn run<S: Source, K: Sink, E: Sink, L: Ledger>(
    alloc: Global,
    words: &Vec<String>,
    source: &mut S,
    out: &mut K,
    err: &mut E,
    mut taps: Vec<Box<dyn Tap>>,
    steps: &mut Steps<L>,
) -> u8
    ensures { Runs words.now (map ⟦<Box<dyn Tap> as Listener>⟧.heard taps.items)
        (outside (source_side (S.left source.old) (S.faults source.old))
        (side K.held K.faults out.old) (side E.held E.faults err.old) steps.old)
        (outside (source_side (S.left source.new) (S.faults source.new))
        (side K.held K.faults out.new) (side E.held E.faults err.new) steps.new)
        result }
{
    match read_command(words) {
        None => {
            tell(err, b"psxgpu: usage\n");
            1
        }
        Some(command) => run_command(alloc, command, source, out, err, &mut taps, steps),
    }
}

/// Runs a command.
fn run_command<S: Source, K: Sink, E: Sink, T: Listener, L: Ledger>(
    alloc: Global,
    command: Command,
    source: &mut S,
    out: &mut K,
    err: &mut E,
    taps: &mut Vec<T>,
    steps: &mut Steps<L>,
) -> u8
    requires { IsCommand command }
    ensures { CommandRun command (map T.heard taps.old.items)
        (outside (source_side (S.left source.old) (S.faults source.old))
        (side K.held K.faults out.old) (side E.held E.faults err.old) steps.old)
        (outside (source_side (S.left source.new) (S.faults source.new))
        (side K.held K.faults out.new) (side E.held E.faults err.new) steps.new)
        result }
{
    match command {
        Command::Help => end(err, tell_text(HELP, out), taps),
        Command::Version => end(err, tell_text(VERSION, out), taps),
        Command::Plays { mode } => match Rig::new(alloc) {
            Ok(rig) => {
                let ending = play_any(rig, source, out, mode, taps, steps);
                end(err, ending, taps)
            }
            Err(_) => tell_no_memory(err),
        },
        Command::Demo { packets } => match Rig::new(alloc) {
            Ok(mut rig) => {
                play_demo(&mut rig, packets, taps, steps);
                let ending = tell_demo(&rig, out, taps, steps);
                end(err, ending, taps)
            }
            Err(_) => tell_no_memory(err),
        },
        Command::Flat => match Rig::new(alloc) {
            Ok(mut rig) => {
                let ending = flat(&mut rig, source, out, taps, steps);
                end(err, ending, taps)
            }
            Err(_) => tell_no_memory(err),
        },
        Command::Cut { events } => match Rig::new(alloc) {
            Ok(mut rig) => {
                let ending = cut(&mut rig, events, source, out, taps, steps);
                end(err, ending, taps)
            }
            Err(_) => tell_no_memory(err),
        },
        Command::Slim => match Slim::new(alloc) {
            Ok(mut slim) => {
                let ending = slim.pass(source, out);
                end(err, ending, taps)
            }
            Err(_) => tell_no_memory(err),
        },
    }
}

/// Writes a text to `out`.
fn tell_text<K: Sink>(text: &[u8], out: &mut K) -> Ending
    ensures { EndsTelling text.now 1 (side K.held K.faults out.old) (side K.held K.faults out.new) result }
{
    match write_all(out, text) {
        Ok(()) => Ending::Done,
        Err(_) => Ending::WriteFailed { event: 1 },
    }
}

/// Writes that memory ran out, and returns its status, 5.
fn tell_no_memory<E: Sink>(err: &mut E) -> u8
    ensures status { result ≡ 5 }
    ensures says { Says (side E.held E.faults err.old) (side E.held E.faults err.new) memory_line }
{
    tell(err, b"psxgpu: memory\n");
    5
}
