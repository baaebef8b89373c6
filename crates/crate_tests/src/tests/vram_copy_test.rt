// Fills, copies, loads and stores.
ghost use Rattle.std.specs.Prelude.{◌≡◌, ◌<◌, ◌%◌};

use px_num::Cell;
use std::alloc::Global;
use std::marker::Brand;
use std::sync::ledger::{Blank, Ledger};
use std::test::Fail;
use vram_copy::{Transfer, copy, fill, laws, load_word, store_word};
use vram_store::{Steps, Vram};

// Returns cells at the corners of a fill and around them.
fn filled<L: Ledger>(
    alloc: Global,
    blank: Blank,
    x: u16,
    y: u16,
    w: u16,
    h: u16,
) -> Result<[u16; 8], Fail>
    requires name { blank.name ≡ L.name }
    requires parts { blank.parts ≡ L.parts }
    requires some { 0 < blank.parts }
    requires whole { (x % 16 ≡ 0) × (w % 16 ≡ 0) }
{
    let mut steps = Steps::<L>::new(blank);
    let mut vram = Vram::new(alloc)?;
    fill(&mut vram, x, y, w, h, 0x1f, &mut steps);
    Ok([
        vram.get(1008, 511, &mut steps),
        vram.get(15, 511, &mut steps),
        vram.get(1023, 0, &mut steps),
        vram.get(0, 0, &mut steps),
        vram.get(16, 0, &mut steps),
        vram.get(31, 0, &mut steps),
        vram.get(32, 0, &mut steps),
        vram.get(0, 1, &mut steps),
    ])
}

#[test]
fn fills_wrap_in_both_directions(rt: HostRuntime) -> Result<(), Fail> {
    for (x, y, w, h, want) in [
        (16, 0, 16, 1, [0, 0, 0, 0, 0x1f, 0x1f, 0, 0]),
        (1008, 511, 32, 2, [0x1f, 0x1f, 0x1f, 0x1f, 0, 0, 0, 0]),
        (16, 0, 0, 1, [0; 8]),
        (16, 0, 16, 0, [0; 8]),
    ] {
        let cells = filled::<Brand>(rt.alloc(), Blank::new(1), x, y, w, h)?;
        assert_eq!(rt; cells, want, "{w} by {h} at {x} {y}");
    }
    Ok(())
}

// Returns (0, 0), (16, 0), (17, 0), (1023, 0) and (1, 1) after a copy one column to the right.
fn smeared<L: Ledger>(alloc: Global, blank: Blank, w: u16, h: u16) -> Result<[u16; 5], Fail>
    requires name { blank.name ≡ L.name }
    requires parts { blank.parts ≡ L.parts }
    requires some { 0 < blank.parts }
{
    let mut steps = Steps::<L>::new(blank);
    let mut vram = Vram::new(alloc)?;
    vram.put(0, 0, 0x1234, &mut steps);
    let from = Cell { x: 0, y: 0 };
    copy(&mut vram, 0, from, Cell { x: 1, y: 0 }, w, h, &mut steps);
    Ok([
        vram.get(0, 0, &mut steps),
        vram.get(16, 0, &mut steps),
        vram.get(17, 0, &mut steps),
        vram.get(1023, 0, &mut steps),
        vram.get(1, 1, &mut steps),
    ])
}

#[test]
fn copies_repeat_what_they_wrote(rt: HostRuntime) -> Result<(), Fail> {
    laws::rows_are_cut_in_chunks();
    laws::costs_are_small();
    laws::some_costs();
    for (w, h, want) in [
        (16, 1, [0x1234, 0x1234, 0, 0, 0]),
        (1024, 512, [0x1234, 0x1234, 0x1234, 0x1234, 0]),
    ] {
        let cells = smeared::<Brand>(rt.alloc(), Blank::new(1), w, h)?;
        assert_eq!(rt; cells, want, "{w} by {h}");
    }
    Ok(())
}

// Returns three pixels that were loaded and stored again, and a pixel loaded over one that the mask setting protects.
fn moved<L: Ledger>(alloc: Global, blank: Blank) -> Result<[u32; 3], Fail>
    requires name { blank.name ≡ L.name }
    requires parts { blank.parts ≡ L.parts }
    requires some { 0 < blank.parts }
{
    let mut steps = Steps::<L>::new(blank);
    let mut vram = Vram::new(alloc)?;
    let three = Transfer {
        x: 0,
        y: 0,
        w: 3,
        h: 1,
        at: 0,
    };
    let mut job = three;
    load_word(&mut vram, 0, &mut job, 0x2222_1111, &mut steps);
    load_word(&mut vram, 0, &mut job, 0x9999_3333, &mut steps);
    let mut job = three;
    let first = store_word(&vram, &mut job, &mut steps);
    let second = store_word(&vram, &mut job, &mut steps);
    let one = Transfer { w: 1, ..three };
    let mut job = one;
    load_word(&mut vram, 0, &mut job, 0x8000, &mut steps);
    let mut job = one;
    load_word(&mut vram, 2, &mut job, 0x1234, &mut steps);
    Ok([first, second, vram.get(0, 0, &mut steps) as u32])
}

#[test]
fn loads_and_stores_go_by_words_of_two_pixels(rt: HostRuntime) -> Result<(), Fail> {
    let words = moved::<Brand>(rt.alloc(), Blank::new(1))?;
    assert_eq!(rt; words, [0x2222_1111, 0x3333, 0x8000]);
    Ok(())
}
