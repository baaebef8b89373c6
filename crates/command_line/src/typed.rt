// The arguments as a person types them: those of a command, and a file name as the last of them.
ghost use Rattle.std.specs.Prelude.{◌≡◌, ◌↔◌, ℕ, List, [], ◌∷◌, IsTrue, IfOk, map, string_bytes, codes, MatchOption};
ghost use Rattle.command_line.specs.Command.{AreNames};
ghost use Rattle.command_line.specs.Typed.{AsksForHelp, EndsInHelp, HasFile, IsAlone, IsBinary, IsFileName, IsHelpWord};
ghost use Rattle.command_line.specs.Typed.{EndsAfterReader};
ghost use Rattle.command_line.specs.Typed.{IsTyped, NamesAny, NamesSome, Reads};

use crate::command::{Command, command_of};
use crate::spelled::is_same;
use event_play::Mode;
use std::alloc::{AllocError, Global};

/// The arguments of `run`, and the file to be read.
#[derive(Drop)]
pub struct Typed {
    /// The arguments for `run`.
    pub words: Vec<String>,
    /// The file that is read instead of standard input.
    pub file: Option<String>,
}

/// Separates the file name from the arguments. `is_there`: whether a file with the name of the last one exists.
///
/// 1. Arguments that name a command are this command over standard input, so a file named `marks` is typed `./marks`.
/// 2. `help` alone, and `-h` or `--help` after other arguments, ask for the help.
/// 3. After a command that reads a capture, an existing file or a name with a `/` or a `.` is the file to be read.
/// 4. All other arguments are returned as they are.
pub fn typed_of(alloc: Global, mut words: Vec<String>, is_there: bool) -> Result<Typed, AllocError>
    ensures { IfOk result (λ typed. IsTyped is_there words.items typed.words.items typed.file) }
{
    if names_command(&words) {
        return Ok(Typed { words, file: None });
    }
    if asks_for_help(&words) {
        return Ok(Typed {
            words: help_words(alloc)?,
            file: None,
        });
    }
    let file = if ends_in_file(&words, is_there) {
        words.pop()
    } else {
        None
    };
    Ok(Typed { words, file })
}

// The arguments of the help.
fn help_words(alloc: Global) -> Result<Vec<String>, AllocError>
    ensures { IfOk result (λ words. map string_bytes words.items ≡ codes "--help" ∷ []) }
{
    let mut words = Vec::new(alloc);
    words.push(String::from_str(alloc, "--help")?)?;
    Ok(words)
}

// Whether the arguments name a command.
fn names_command(words: &[String]) -> bool
    ensures { IsTrue result ↔ NamesAny words.now }
{
    command_of(words).is_some()
}

// Whether the arguments ask for the help, if they name no command.
fn asks_for_help(words: &[String]) -> bool
    ensures { IsTrue result ↔ AsksForHelp words.now }
{
    is_help_alone(words) || ends_in_help(words)
}

fn is_help_alone(words: &[String]) -> bool
    ensures { IsTrue result ↔ IsAlone words.now (codes "help") }
{
    match words {
        [only] => is_same(only.as_str(), "help"),
        _ => false,
    }
}

fn ends_in_help(words: &[String]) -> bool
    ensures { IsTrue result ↔ EndsInHelp words.now }
{
    match words {
        [.., last] => is_help_word(last.as_str()),
        [] => false,
    }
}

fn is_help_word(word: &str) -> bool
    ensures { IsTrue result ↔ IsHelpWord word.now }
{
    is_same(word, "-h") || is_same(word, "--help")
}

// Whether the arguments are a command that reads a capture, and then the name of a file.
fn ends_in_file(words: &[String], is_there: bool) -> bool
    ensures { IsTrue result ↔ HasFile is_there words.now }
{
    match after_reader(words) {
        Some(name) => is_file_name(name, is_there),
        None => false,
    }
}

/// Returns the last argument, if those before it name a command that reads a capture.
pub fn after_reader(words: &[String]) -> Option<&str>
    ensures { MatchOption result
        ((name : List ℕ) → EndsAfterReader words.now name → ⊥)
        (λ name. EndsAfterReader words.now name.now) }
{
    match words {
        [command @ .., last] if names_reader(command) => Some(last.as_str()),
        _ => None,
    }
}

/// Whether a name is that of a file: `is_there`, or it has a `/` or a `.`.
pub fn is_file_name(name: &str, is_there: bool) -> bool
    ensures { IsTrue result ↔ IsFileName is_there name.now }
{
    let bytes = name.as_bytes();
    is_there || bytes.contains(&b'/') || bytes.contains(&b'.')
}

/// Whether the arguments name a command that reads a capture.
pub fn names_reader(words: &[String]) -> bool
    ensures { IsTrue result ↔ NamesSome Reads words.now }
{
    match command_of(words) {
        Some(command) => reads(command),
        None => false,
    }
}

/// Whether the arguments name a command that writes bytes that are not text.
pub fn names_binary(words: &[String]) -> bool
    ensures { IsTrue result ↔ NamesSome IsBinary words.now }
{
    match command_of(words) {
        Some(command) => is_binary(command),
        None => false,
    }
}

// Whether a command reads a capture.
fn reads(command: Command) -> bool
    ensures { IsTrue result ↔ Reads command }
{
    match command {
        Command::Plays { .. } | Command::Flat | Command::Slim | Command::Cut { .. } => true,
        Command::Demo { .. } | Command::Help | Command::Version => false,
    }
}

// Whether a command writes bytes that are not text.
fn is_binary(command: Command) -> bool
    ensures { IsTrue result ↔ IsBinary command }
{
    match command {
        Command::Plays { mode } => match mode {
            Mode::Vram | Mode::Shot | Mode::Frames { .. } => true,
            Mode::Play | Mode::Sums { .. } | Mode::List | Mode::Pixel { .. } | Mode::Report =>
                false,
        },
        Command::Flat | Command::Slim | Command::Cut { .. } => true,
        Command::Demo { .. } | Command::Help | Command::Version => false,
    }
}
