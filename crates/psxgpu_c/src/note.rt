// The notes that a caller receives.
ghost use Rattle.std.specs.Prelude.{◌≡◌, ◌≤◌, ◌<◌, ◌+◌, ◌++◌, length, take, drop, Some};
ghost use Rattle.psxgpu_c.specs.Notes.{item_note, noted_at};

use gp0_packets::Note;
use px_num::Box2;

/// One completed item: `psxgpu_note` in c/psxgpu.h.
#[repr(C)]
#[derive(Clone, Copy)]
pub struct ItemNote {
    /// The number of the event that completed the item.
    pub event: u64,
    /// The index in the call of the word that completed it, from 0.
    pub word: usize,
    /// The command, or the end word of a polyline.
    pub head: u32,
    /// 0 to 7: the top three bits of the command. 8: the end of a polyline.
    pub class: u16,
    /// 1 if the item has an area, else 0.
    pub has_area: u16,
    /// The first column of the area; 0 without an area.
    pub x1: i32,
    /// Its first row.
    pub y1: i32,
    /// Its last column.
    pub x2: i32,
    /// Its last row.
    pub y2: i32,
}

impl ItemNote {
    // Returns the note of an item. `word`: the index of the word that completed it.
    fn of(word: usize, note: &Note) -> ItemNote
        ensures { result ≡ item_note word note.now }
    {
        let (has_area, area) = match note.area {
            Some(area) => (1, area),
            None => (
                0,
                Box2 {
                    x1: 0,
                    y1: 0,
                    x2: 0,
                    y2: 0,
                },
            ),
        };
        ItemNote {
            event: note.event,
            word,
            head: note.head,
            class: u16::from(note.class),
            has_area,
            x1: area.x1,
            y1: area.y1,
            x2: area.x2,
            y2: area.y2,
        }
    }
}

/// Stores the note, if there is one and it is not of data words of a load (class 9), at index `count` of `notes`.
/// Returns the new number of notes. Requires that `notes` is longer than `count`.
pub(crate) fn put_note(
    word: usize,
    note: &Option<Note>,
    notes: &mut [ItemNote],
    count: usize,
) -> usize
    requires { count < length notes.old }
    ensures count { result ≡ count + length (noted_at word note.now) }
    ensures most { result ≤ count + 1 }
    ensures front { take result notes.new ≡ take count notes.old ++ noted_at word note.now }
    ensures after { drop result notes.new ≡ drop result notes.old }
{
    match note {
        Some(note) if note.class != 9 => {
            notes[count] = ItemNote::of(word, note);
            count + 1
        }
        _ => count,
    }
}
