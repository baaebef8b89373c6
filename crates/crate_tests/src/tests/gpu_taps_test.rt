// The readings of a list of taps.
use gp0_packets::Note;
use gpu_taps::{Counts, Cover, Tap, Trace, tell_all};
use px_num::Box2;
use std::test::Fail;

fn note(event: u64, class: u8, head: u32, area: Option<Box2>) -> Note {
    Note {
        event,
        class,
        head,
        area,
    }
}

fn number_at(taps: &[Box<dyn Tap>], tap: usize, i: u32) -> Option<u64> {
    let tap = taps.get(tap)?;
    if i < tap.len() {
        Some(tap.number(i))
    } else {
        None
    }
}

#[test]
fn every_tap_of_a_list_is_told(rt: HostRuntime) -> Result<(), Fail> {
    let alloc = rt.alloc();
    let mut taps: Vec<Box<dyn Tap>> = Vec::new(alloc);
    taps.push(Box::new(alloc, Counts::new())?)?;
    let trace = Trace::new(alloc)?;
    assert_eq!(rt; trace.len(), 0);
    taps.push(Box::new(alloc, trace)?)?;
    taps.push(Box::new(alloc, Cover::new())?)?;
    let area = Box2 {
        x1: 464,
        y1: 136,
        x2: 847,
        y2: 413,
    };
    tell_all(&mut taps, &note(3, 7, 0xe407_ffff, None));
    tell_all(&mut taps, &note(6, 0, 0x0288_596c, Some(area)));
    for (tap, i, want) in [
        (0, 0, Some(1)),
        (0, 7, Some(1)),
        (0, 9, Some(0)),
        (1, 2, Some(0xe407_ffff)),
        (1, 3, Some(6)),
        (1, 5, Some(0x0288_596c)),
        (1, 6, None),
        (2, 0, Some(1)),
        (2, 1, Some(106_752)),
        (2, 2, Some(106_752)),
    ] {
        assert_eq!(rt; number_at(&taps, tap, i), want, "at {tap}, {i}");
    }
    Ok(())
}
