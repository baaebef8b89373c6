// Captures without dead drawing.
use crate::tests::LINES;
use crate::tests::capture::{bytewise, capture};
use crate::tests::runs::{is_refused_at, ran};
use dev_io::{MemSource, Source};
use std::alloc::Global;
use std::test::Fail;

/// A capture and the expected result: the records that remain, the number of their bytes that are written, and the
/// lines of `err`.
#[derive(Clone, Copy)]
struct Case {
    head: &'static [u8],
    records: &'static str,
    slim: &'static str,
    len: usize,
    status: u8,
    err: &'static str,
}

/// A rectangle that a fill covers after a read of the status word.
const COVERED: Case = Case {
    head: b"PSXGPUC2",
    records: "gp0 e407ffff, gp0 600000ff 4 20002, stat, gp0 2000000 0 80010",
    slim: "gp0 e407ffff, stat, gp0 2000000, gp0 0, gp0 80010",
    len: 48,
    status: 0,
    err: "",
};

/// The same after a read of the data port.
const SEEN: Case = Case {
    records: "gp0 e407ffff, gp0 600000ff 4 20002, read 1, gp0 2000000 0 80010",
    slim: "gp0 e407ffff, gp0 600000ff, gp0 4, gp0 20002, read 1, gp0 2000000, gp0 0, gp0 80010",
    len: 72,
    ..COVERED
};

/// A write to main memory, which no flat capture has.
const NOT_FLAT: Case = Case {
    head: b"PSXGPUC1",
    records: "gp0 0, ram 0 0",
    slim: "gp0 0",
    len: 16,
    status: 2,
    err: "psxgpu: not-flat at event 2\n",
};

/// A snapshot, which this command refuses.
const SNAPSHOT: Case = Case {
    head: b"PSXGPUS1",
    records: "",
    slim: "",
    len: 0,
    err: "psxgpu: not-capture at event 1 byte 6\n",
    ..NOT_FLAT
};

// Whether `slim` over the source gives the expected result.
fn is_met<S: Source>(alloc: Global, case: &Case, source: &mut S) -> Result<bool, Fail> {
    let want = capture(alloc, case.head, case.slim)?;
    let outcome = ran(alloc, "slim", source, LINES)?;
    let out = want.get(..case.len).ok_or("too short")?;
    Ok(outcome.is(case.status, out, case.err.as_bytes()))
}

#[test]
fn captures_without_dead_drawing(rt: HostRuntime) -> Result<(), Fail> {
    let alloc = rt.alloc();
    for case in [COVERED, SEEN, NOT_FLAT, SNAPSHOT] {
        let bytes = capture(alloc, case.head, case.records)?;
        let mut pieces = bytewise(alloc, &bytes, &[])?;
        assert!(rt; is_met(alloc, &case, &mut pieces)?, "{}", case.records);
        let mut whole = MemSource::new(bytes);
        assert!(rt; is_met(alloc, &case, &mut whole)?, "{}", case.records);
    }
    Ok(())
}

// Returns the event to which this byte of the covered rectangle's output belongs.
fn event_of(offset: usize) -> u64 {
    if offset < 16 {
        1
    } else if offset < 20 {
        5
    } else if offset < 44 {
        6 + (offset as u64 - 20) / 8
    } else {
        9
    }
}

#[test]
fn each_write_fails_in_turn_after_a_window(rt: HostRuntime) -> Result<(), Fail> {
    let alloc = rt.alloc();
    let want = capture(alloc, COVERED.head, COVERED.slim)?;
    for offset in 0..48usize {
        let bytes = capture(alloc, COVERED.head, COVERED.records)?;
        let event = event_of(offset);
        assert!(rt;
            is_refused_at(alloc, "slim", bytes, &want, offset, event)?,
            "{offset}"
        );
    }
    Ok(())
}
