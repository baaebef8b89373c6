// The lines of a replay and of taps.
use dev_io::MemSink;
use gp0_packets::Note;
use gpu_taps::{Counts, Listener, Tap, Trace};
use packet_text::{write_last, write_note, write_status, write_sum, write_tap, write_word};
use px_num::Box2;
use std::test::Fail;

const ENVIRONMENT: Note = Note {
    event: 1,
    class: 7,
    head: 0xe407_ffff,
    area: None,
};

const POLYGON: Note = Note {
    event: 5,
    class: 1,
    head: 0x20ff_ffff,
    area: Some(Box2 {
        x1: 0,
        y1: -1,
        x2: 8,
        y2: 8,
    }),
};

#[test]
fn lines_of_notes_words_and_status(rt: HostRuntime) -> Result<(), Fail> {
    let mut out = MemSink::new(rt.alloc(), 100)?;
    assert_eq!(rt; write_note(&mut out, &ENVIRONMENT), Ok(()));
    assert_eq!(rt; write_note(&mut out, &POLYGON), Ok(()));
    assert_eq!(rt; write_word(&mut out, 0x000f_ffff), Ok(()));
    assert_eq!(rt; write_status(&mut out, 0x1480_2000), Ok(()));
    assert_eq!(rt;
        out.bytes(),
        b"1 environment e407ffff -\n5 polygon 20ffffff 0 -1 8 8\n000fffff\nstatus 14802000\n".as_slice()
    );
    Ok(())
}

#[test]
fn lines_of_taps_and_sums(rt: HostRuntime) -> Result<(), Fail> {
    let alloc = rt.alloc();
    let mut out = MemSink::new(alloc, 300)?;
    let mut counts: Box<dyn Tap> = Box::new(alloc, Counts::new())?;
    counts.tell(&ENVIRONMENT);
    counts.tell(&POLYGON);
    assert_eq!(rt; write_tap(&mut out, &counts), Ok(()));
    assert_eq!(rt; write_last(&mut out, &counts), Ok(()));
    let mut trace: Box<dyn Tap> = Box::new(alloc, Trace::new(alloc)?)?;
    assert_eq!(rt; write_last(&mut out, &trace), Ok(()));
    trace.tell(&ENVIRONMENT);
    assert_eq!(rt; write_last(&mut out, &trace), Ok(()));
    trace.tell(&POLYGON);
    assert_eq!(rt; write_tap(&mut out, &trace), Ok(()));
    assert_eq!(rt; write_sum(&mut out, 1_897_303_296), Ok(()));
    assert_eq!(rt;
        out.bytes(),
        b"tap 0 0 1 0 0 0 0 0 1 0 0\npsxgpu: last 1 7 3825729535\n\
            tap 1 1 7 3825729535 5 1 553648127\nsum 1897303296\n"
            .as_slice()
    );
    Ok(())
}
