// Explains refusals to a person at a terminal, after the lines that programs read.
ghost use Rattle.std.specs.Prelude.{◌≡◌, ◌≤◌, ◌⊎◌, ◌↔◌, None, IsTrue, codes, nat_eq};
ghost use Rattle.std.specs.List.{starts_with};

use crate::typed::after_reader;
use std::alloc::{AllocError, Global};
use strsim::osa_distance;

/// Replaces all arguments if one of them is not UTF-8. No command has this name.
pub const NOT_UTF8: &str = "\u{fffd}";

/// The names of the commands, in the order of the help.
const NAMES: [&str; 14] = [
    "play",
    "vram",
    "shot",
    "frames",
    "sums",
    "list",
    "pixel",
    "report",
    "flat",
    "slim",
    "cut",
    "demo",
    "--help",
    "--version",
];

/// The maximum distance of a name from the nearest command: two letters added, left out, changed or exchanged.
const FARTHEST: usize = 2;

/// Returns what is wrong with arguments that name no command. `is_there`: whether the first of them is the name of an
/// existing file.
pub fn usage_hint(alloc: Global, words: &[String], is_there: bool) -> Result<String, AllocError> {
    let Some(first) = words.first() else {
        return String::from_str(alloc, "no command was given");
    };
    let name = first.as_str();
    if name == NOT_UTF8 {
        return String::from_str(
            alloc,
            "an argument is not UTF-8: redirect a file of such a name, as in psxgpu_tool list < FILE",
        );
    }
    if let Some(last) = after_reader(words) {
        return format!(in alloc; "there is no file {last:?}");
    }
    match wrong_arguments(name) {
        Some(wrong) => String::from_str(alloc, wrong),
        None if is_there => format!(in alloc;
            "{name} is a file: a command comes first, as in psxgpu_tool list {name}"
        ),
        None => unknown_hint(alloc, name),
    }
}

// Returns what is wrong with arguments that begin with this name, if it is a command's.
fn wrong_arguments(name: &str) -> Option<&'static str> {
    match name {
        "cut" => Some("cut takes a number of events, 1 to 4294967295, and at most a file name"),
        "demo" => Some("demo takes a number of packets, 1 to 100000"),
        "pixel" => Some("pixel takes a column and a row, each 0 to 1023, and at most a file name"),
        "frames" => Some("frames takes at most the word marks and a file name"),
        "sums" => Some("sums takes at most the word marks and a file name"),
        "play" | "vram" | "shot" | "list" | "report" | "flat" | "slim" => {
            Some("too many arguments: this command takes at most a file name")
        }
        "--help" | "--version" => Some("too many arguments: this command takes none"),
        _ => None,
    }
}

// Returns the text for a name that no command has.
fn unknown_hint(alloc: Global, name: &str) -> Result<String, AllocError> {
    match nearest_name(alloc, name)? {
        Some(nearest) => format!(in alloc;
            "there is no command {name:?}; the nearest is {nearest}"
        ),
        None => format!(in alloc; "there is no command {name:?}"),
    }
}

// Returns the name of the nearest command, if it is at most `FARTHEST` away.
fn nearest_name(alloc: Global, name: &str) -> Result<Option<&'static str>, AllocError> {
    let mut nearest = None;
    let mut least = FARTHEST;
    for known in NAMES {
        let distance = osa_distance(alloc, name, known)?;
        if distance <= least && distance < known.len() {
            nearest = Some(known);
            least = distance.saturating_sub(1);
        }
    }
    Ok(nearest)
}

/// The size in bytes of a capture's magic number.
const HEAD: usize = 8;

// Returns what an input seems to be whose first bytes are not those of a capture.
fn input_hint(first: &[u8]) -> Option<&'static str>
    ensures { IsTrue (starts_with nat_eq first.now (codes "PSXGPUC")) → result ≡ None }
{
    if first.starts_with(b"PSXGPUC") {
        None
    } else if first.is_empty() {
        Some("the input is empty")
    } else if first.starts_with(b"PSXGPUDUMPv1") {
        Some("the input is a GPU dump of DuckStation or PCSX-Redux: psxgpu from-dump FILE")
    } else if first.starts_with(b"PSXGPUS") {
        Some("the input is a snapshot: flat, slim and cut read only captures")
    } else if first.starts_with(b"PSXGPU") || b"PSXGPU".starts_with(first) {
        None
    } else if first.starts_with(b"\x89PNG") || first.starts_with(b"P6\n") {
        Some("the input is a picture, not a capture")
    } else if first.iter().all(|&byte| is_text(byte)) {
        Some("the input is text: psxgpu from-log FILE makes a capture of a log")
    } else {
        compression_hint(first)
    }
}

// Returns how to decompress an input with these first bytes, if it is compressed.
fn compression_hint(first: &[u8]) -> Option<&'static str> {
    if first.starts_with(b"\x1f\x8b") {
        Some("the input is compressed: gzip -dc FILE | psxgpu_tool COMMAND")
    } else if first.starts_with(b"\x28\xb5\x2f\xfd") {
        Some("the input is compressed: zstd -dc FILE | psxgpu_tool COMMAND")
    } else if first.starts_with(b"\xfd7zXZ") {
        Some("the input is compressed: xz -dc FILE | psxgpu_tool COMMAND")
    } else if first.starts_with(b"PK\x03\x04") {
        Some("the input is a zip archive: unzip -p FILE | psxgpu_tool COMMAND")
    } else {
        None
    }
}

// Whether a byte occurs in text.
fn is_text(byte: u8) -> bool
    ensures { IsTrue result ↔ ((byte ≡ 9) ⊎ ((byte ≡ 10) ⊎ ((byte ≡ 13) ⊎ ((32 ≤ byte) × (byte ≤ 126))))) }
{
    byte == b'\t' || byte == b'\n' || byte == b'\r' || (b' '..=b'~').contains(&byte)
}

/// Returns what a refusal means for a person. `lines`: the lines of the refusal. `first`: the first bytes of the input.
pub fn refusal_hint(
    alloc: Global,
    lines: &str,
    first: &[u8],
) -> Result<Option<String>, AllocError> {
    let hint = match refusal_of(lines) {
        Some(("truncated", next)) if HEAD <= first.len() => {
            truncation_hint(alloc, next.saturating_sub(1), first)?
        }
        Some(("cut-past-end", next)) => past_end_hint(alloc, next.saturating_sub(1))?,
        Some(("truncated" | "not-capture", _)) => match input_hint(first) {
            Some(hint) => String::from_str(alloc, hint)?,
            None => return Ok(None),
        },
        _ => return Ok(None),
    };
    Ok(Some(hint))
}

// Returns the text for a cut after the last event of a capture of `events` events.
fn past_end_hint(alloc: Global, events: u64) -> Result<String, AllocError> {
    match events {
        0 => String::from_str(alloc, "the capture has no events"),
        1 => String::from_str(alloc, "the capture has 1 event: cut takes 1"),
        _ => format!(in alloc; "the capture has {events} events: cut takes 1 to {events}"),
    }
}

// Returns the text for an input that ends after `events` complete events.
fn truncation_hint(alloc: Global, events: u64, first: &[u8]) -> Result<String, AllocError> {
    if events == 0 {
        String::from_str(alloc, "the input ends before its first event is complete")
    } else if first.starts_with(b"PSXGPUC") {
        format!(in alloc;
            "everything up to event {events} was processed: psxgpu mend FILE completes the capture"
        )
    } else {
        format!(in alloc; "everything up to event {events} was processed")
    }
}

// Returns the name and the event of a refusal from its first line, `psxgpu: NAME at event N ..`.
fn refusal_of(lines: &str) -> Option<(&str, u64)> {
    let (line, _) = lines.split_once('\n')?;
    let (name, rest) = line.strip_prefix("psxgpu: ")?.split_once(" at event ")?;
    let event = rest.split(' ').next()?;
    Some((name, event.parse::<u64>().ok()?))
}
