// The last items before a refusal, with the names that `list` gives them.
ghost use Rattle.std.specs.Prelude.{◌≡◌, ◌≤◌, None, IfSome};

use gp0_packets::Note;
use packet_text::note_text;
use std::str;

/// Writes the last items among the lines of a refusal, as `psxgpu packets` does: event, name and first word.
pub fn tell_lasts(rt: &HostRuntime, lines: &str) {
    for line in lines.lines() {
        if let Some(note) = item_of(line) {
            let text = note_text(&note);
            if let Ok(text) = str::from_utf8(text.as_slice()) {
                let item = text.trim_end_matches(" -\n");
                let _ = eprintln!(rt; "psxgpu: last: {item}");
            }
        }
    }
}

// Returns the item of a line `psxgpu: last EVENT CLASS WORD`, if it is one.
fn item_of(line: &str) -> Option<Note>
    ensures { IfSome result (λ note. (note.class ≤ 9) × (note.area ≡ None)) }
{
    let mut numbers = line.strip_prefix("psxgpu: last ")?.split(' ');
    let event = numbers.next()?.parse::<u64>().ok()?;
    let class = numbers.next()?.parse::<u8>().ok()?;
    let head = numbers.next()?.parse::<u32>().ok()?;
    if class > 9 {
        return None;
    }
    Some(Note {
        event,
        class,
        head,
        area: None,
    })
}
