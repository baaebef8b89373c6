// Explains failures to a person at a terminal, after the lines that programs read. None of it is written if standard
// error is not a terminal, except the line of a file that cannot be opened and that of binary output to a terminal.
ghost use Rattle.std.specs.Prelude.{◌≡◌, ◌↔◌, IsTrue};
ghost use Rattle.terminal_hints.specs.Person.{IsBrokenPipe};
ghost use Rattle.command_line.specs.Typed.{IsBinary, NamesSome};

use crate::lasts::tell_lasts;
use command_line::{names_binary, names_reader, refusal_hint, usage_hint};
use std::alloc::AllocError;
use std::io::{Error, ErrorKind, IsTerminal};
use std::{fs, str};

/// Whether standard input (`types`), output (`sees`) and error (`hears`) are terminals.
#[derive(Clone, Copy)]
pub struct Person {
    types: bool,
    sees: bool,
    hears: bool,
}

/// The outcome of a run.
#[derive(Clone, Copy)]
pub struct Outcome<'a> {
    pub status: u8,
    pub words: &'a [String],
    /// The first bytes of the input.
    pub first: &'a [u8],
    /// What the run wrote to standard error.
    pub lines: &'a [u8],
    /// The operating system's number of the error of a read or a write.
    pub error: Option<i32>,
}

impl Person {
    /// Returns which standard streams of this program are terminals.
    pub fn at(rt: &HostRuntime) -> Person {
        Person {
            types: rt.stdin().is_terminal(),
            sees: rt.stdout().is_terminal(),
            hears: rt.stderr().is_terminal(),
        }
    }

    /// Whether the command writes binary output and standard output is a terminal.
    pub fn refuses(self, words: &[String]) -> bool
        ensures { IsTrue result ↔ (IsTrue self.sees × NamesSome IsBinary words.now) }
    {
        self.sees && names_binary(words)
    }

    /// Writes that the output is binary and must be redirected.
    pub fn tell_refused(self, rt: &HostRuntime) {
        let _ = eprintln!(rt;
            "psxgpu: the output is binary: redirect it to a file or a program, as in > FILE"
        );
    }

    /// If standard input and error are terminals and the command reads a capture, writes that it reads from the
    /// terminal.
    pub fn tell_waiting(self, rt: &HostRuntime, words: &[String]) {
        if self.types && self.hears && names_reader(words) {
            let _ = eprintln!(rt;
                "psxgpu: reading a capture from the terminal: to read a file, name it after the command"
            );
        }
    }

    /// Writes why a file cannot be opened.
    pub fn tell_unopened(self, rt: &HostRuntime, name: &str, error: &Error) {
        let _ = eprintln!(rt; "psxgpu: {name}: {error}");
    }

    /// Whether the lines of a run are left out: standard error is a terminal, and a write failed since nobody reads the
    /// output any more. `wrote`: the operating system's number of the error of a write.
    pub fn passes_over(self, status: u8, wrote: Option<i32>) -> bool
        ensures { IsTrue result ↔ (IsTrue self.hears × (status ≡ 4) × IsBrokenPipe wrote) }
    {
        self.hears && status == 4 && is_broken_pipe(wrote)
    }

    /// Writes the likely cause of a failed run, if standard error is a terminal.
    pub fn tell_after(self, rt: &HostRuntime, outcome: &Outcome<'_>) {
        if self.hears {
            let _ = match outcome.status {
                1 => tell_usage(rt, outcome.words),
                2 => tell_refusal(rt, outcome),
                _ => tell_error(rt, outcome.error),
            };
        }
    }
}

fn tell_usage(rt: &HostRuntime, words: &[String]) -> Result<(), AllocError> {
    let is_there = match words.first() {
        Some(first) => is_file(rt, first.as_str()),
        None => false,
    };
    let hint = usage_hint(rt.alloc(), words, is_there)?;
    let _ = eprintln!(rt; "psxgpu: {hint}; psxgpu_tool --help lists the commands");
    Ok(())
}

fn tell_refusal(rt: &HostRuntime, outcome: &Outcome<'_>) -> Result<(), AllocError> {
    let Ok(lines) = str::from_utf8(outcome.lines) else {
        return Ok(());
    };
    tell_lasts(rt, lines);
    if let Some(hint) = refusal_hint(rt.alloc(), lines, outcome.first)? {
        let _ = eprintln!(rt; "psxgpu: {hint}");
    }
    Ok(())
}

fn tell_error(rt: &HostRuntime, error: Option<i32>) -> Result<(), AllocError> {
    if let Some(code) = error {
        let reason = Error::from_raw_os_error(code);
        let _ = eprintln!(rt; "psxgpu: {reason}");
    }
    Ok(())
}

/// Whether the system says that a file of this name exists. False if it cannot tell.
pub fn is_file(rt: &HostRuntime, name: &str) -> bool {
    fs::exists(rt, name).unwrap_or(false)
}

// Whether the error says that nobody reads the output any more.
fn is_broken_pipe(error: Option<i32>) -> bool
    ensures { IsTrue result ↔ IsBrokenPipe error }
{
    match error {
        Some(code) => Error::from_raw_os_error(code).kind() == ErrorKind::BrokenPipe,
        None => false,
    }
}
