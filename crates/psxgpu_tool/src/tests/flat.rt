// Flat captures.
use crate::tests::LINES;
use crate::tests::capture::{bytewise, capture};
use crate::tests::runs::{is_refused_at, ran};
use dev_io::{MemSource, Source};
use std::alloc::Global;
use std::test::Fail;

/// A capture and the expected result: the records of its flat capture, the number of bytes of that which are written,
/// and the lines of `err`. If the flat capture is complete, both show the same words.
#[derive(Clone, Copy)]
struct Case {
    head: &'static [u8],
    records: &'static str,
    flat_head: &'static [u8],
    flat: &'static str,
    len: usize,
    status: u8,
    err: &'static str,
    shown: &'static str,
}

/// A triangle in the nodes of a list, after the clear of an ordering table.
const LIST: Case = Case {
    head: b"PSXGPUC1",
    records: "gp0 e407ffff, dma 6 10c 4 11000002, ram 200 4000104 20ffffff 0 8 80000, ram 108 200, dma 2 10c 0 1000401",
    flat_head: b"PSXGPUC2",
    flat: "gp0 e407ffff, gp0 20ffffff, gp0 0, gp0 8, gp0 80000",
    len: 52,
    status: 0,
    err: "",
    shown: "status 14802000\n",
};

/// A word that is read to main memory, and written from there.
const READ_BACK: Case = Case {
    records: "gp0 a0000000 0 10001 1234, gp0 c0000000 0 10001, dma 2 100 10001 1000200, dma 2 100 10001 1000201, stat",
    flat: "gp0 a0000000, gp0 0, gp0 10001, gp0 1234, gp0 c0000000, gp0 0, gp0 10001, skip 1, gp0 1234, stat",
    len: 84,
    shown: "14802000\nstatus 14802000\n",
    ..LIST
};

/// A list that never ends, after one event.
const LIST_LOOP: Case = Case {
    records: "stat, ram 100 100, dma 2 100 0 1000401",
    flat: "stat",
    len: 12,
    status: 2,
    err: "psxgpu: list-loop at event 3 node 000100\n",
    ..LIST
};

/// A fault of the first event: nothing is written before it.
const FIRST_FAULT: Case = Case {
    records: "dma 2 0 0 1000601",
    flat: "",
    len: 0,
    err: "psxgpu: bad-dma at event 1\n",
    ..LIST_LOOP
};

/// A capture with 1024 rows.
const TALL: Case = Case {
    head: b"PSXGPUC3",
    records: "gp0 20000ff 2000000 10001",
    flat_head: b"PSXGPUC3",
    flat: "gp0 20000ff, gp0 2000000, gp0 10001",
    len: 36,
    ..LIST
};

/// One turn of a transfer: its own word, and not those of the whole transfer.
const TURN: Case = Case {
    records: "ram 100 e1000000 e2000000, begin 100 20001 1000201, turn 1, stat",
    flat: "gp0 e1000000, stat",
    len: 24,
    shown: "14802000\nstatus 14802000\n",
    ..TALL
};

/// A capture without an event.
const EMPTY: Case = Case {
    records: "",
    flat: "",
    len: 12,
    ..LIST
};

/// A snapshot, which this command refuses.
const SNAPSHOT: Case = Case {
    head: b"PSXGPUS1",
    err: "psxgpu: not-capture at event 1 byte 6\n",
    ..FIRST_FAULT
};

// Whether `flat` over the source gives the expected result.
fn is_met<S: Source>(alloc: Global, case: &Case, source: &mut S) -> Result<bool, Fail> {
    let want = capture(alloc, case.flat_head, case.flat)?;
    let outcome = ran(alloc, "flat", source, LINES)?;
    let out = want.get(..case.len).ok_or("too short")?;
    Ok(outcome.is(case.status, out, case.err.as_bytes()))
}

// Whether these bytes show the words of the case.
fn shows(alloc: Global, case: &Case, bytes: Vec<u8>) -> Result<bool, Fail> {
    let mut source = MemSource::new(bytes);
    Ok(ran(alloc, "play", &mut source, LINES)?.is(0, case.shown.as_bytes(), b""))
}

#[test]
fn flat_captures(rt: HostRuntime) -> Result<(), Fail> {
    let alloc = rt.alloc();
    for case in [
        LIST,
        READ_BACK,
        LIST_LOOP,
        FIRST_FAULT,
        TALL,
        TURN,
        EMPTY,
        SNAPSHOT,
    ] {
        let bytes = capture(alloc, case.head, case.records)?;
        let mut pieces = bytewise(alloc, &bytes, &[])?;
        assert!(rt; is_met(alloc, &case, &mut pieces)?, "{}", case.records);
        let mut whole = MemSource::new(bytes);
        assert!(rt; is_met(alloc, &case, &mut whole)?, "{}", case.records);
        if case.status == 0 {
            assert!(rt;
                shows(alloc, &case, capture(alloc, case.head, case.records)?)?,
                "{}",
                case.records
            );
            assert!(rt;
                shows(alloc, &case, capture(alloc, case.flat_head, case.flat)?)?,
                "{}",
                case.flat
            );
        }
    }
    Ok(())
}

// Returns the event to which a byte of the flat capture of the list belongs.
fn event_of(offset: usize) -> u64 {
    if offset < 16 {
        1
    } else if offset < 48 {
        9
    } else {
        10
    }
}

#[test]
fn each_write_of_a_flat_capture_fails_in_turn(rt: HostRuntime) -> Result<(), Fail> {
    let alloc = rt.alloc();
    let want = capture(alloc, LIST.flat_head, LIST.flat)?;
    for offset in 0..52usize {
        let bytes = capture(alloc, LIST.head, LIST.records)?;
        let event = event_of(offset);
        assert!(rt;
            is_refused_at(alloc, "flat", bytes, &want, offset, event)?,
            "{offset}"
        );
    }
    Ok(())
}
