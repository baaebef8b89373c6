// Captures that break off, and devices that fail.
use crate::tests::LINES;
use crate::tests::capture::{bytewise, capture};
use crate::tests::runs::{is_refused_at, ran};
use dev_io::MemSource;
use std::alloc::Global;
use std::test::Fail;

/// A list that splits a triangle in two, with reads of the status around it.
const RECORDS: &str = "gp0 e407ffff 20ffffff, stat, ram 100 1000200 0, ram 200 1ffffff 8, \
    dma 2 100 0 1000401, stat, gp0 80000, stat";

/// The output of these records.
const LINES_OF_RECORDS: &[u8] = b"10802000\n10802000\n14802000\nstatus 14802000\n";

/// The byte offset at which each event is complete.
const EVENT_ENDS: [usize; 11] = [16, 20, 24, 36, 40, 52, 56, 72, 76, 84, 88];

// Returns how many of these ends are at or before `offset`.
fn ends_before(ends: &[usize], offset: usize) -> u64 {
    let mut count = 0u64;
    for end in ends {
        if *end <= offset {
            count = count.saturating_add(1);
        }
    }
    count
}

// Returns the lines of the events that are complete at this offset.
fn lines_before(offset: usize) -> &'static [u8] {
    if offset < 24 {
        b""
    } else if offset < 76 {
        b"10802000\n"
    } else if offset < 88 {
        b"10802000\n10802000\n"
    } else {
        b"10802000\n10802000\n14802000\n"
    }
}

// Returns the event to which a byte of the lines belongs.
fn event_of(offset: usize) -> u64 {
    if offset < 9 {
        3
    } else if offset < 18 {
        9
    } else if offset < 27 {
        11
    } else {
        12
    }
}

// Whether a capture that ends at this offset is refused as expected.
fn breaks_off(alloc: Global, bytes: &[u8], offset: usize) -> Result<bool, Fail> {
    let mut source = MemSource::new(bytes.iter().take(offset).copied().collect(alloc)?);
    let n = ends_before(&EVENT_ENDS, offset).saturating_add(1);
    let line = format!(in alloc; "psxgpu: truncated at event {n} byte {offset}\n")?;
    Ok(ran(alloc, "play", &mut source, LINES)?.is(2, lines_before(offset), line.as_bytes()))
}

// Whether a failed read of the byte at this offset is reported as expected.
fn starves(alloc: Global, bytes: &[u8], offset: usize) -> Result<bool, Fail> {
    let mut source = bytewise(alloc, bytes, &[offset as u64])?;
    let n = ends_before(&EVENT_ENDS, offset).saturating_add(1);
    let line = format!(in alloc; "psxgpu: read-fault at event {n} byte {offset}\n")?;
    Ok(ran(alloc, "play", &mut source, LINES)?.is(3, lines_before(offset), line.as_bytes()))
}

#[test]
fn a_capture_breaks_off_at_each_byte(rt: HostRuntime) -> Result<(), Fail> {
    let bytes = capture(rt.alloc(), b"PSXGPUC1", RECORDS)?;
    assert_eq!(rt; bytes.len(), 92);
    for offset in 0..92 {
        assert!(rt; breaks_off(rt.alloc(), &bytes, offset)?, "{offset}");
    }
    Ok(())
}

#[test]
fn each_read_fails_in_turn(rt: HostRuntime) -> Result<(), Fail> {
    let bytes = capture(rt.alloc(), b"PSXGPUC1", RECORDS)?;
    for offset in 0..92 {
        assert!(rt; starves(rt.alloc(), &bytes, offset)?, "{offset}");
    }
    Ok(())
}

#[test]
fn each_write_fails_in_turn(rt: HostRuntime) -> Result<(), Fail> {
    let alloc = rt.alloc();
    for offset in 0..LINES_OF_RECORDS.len() {
        let bytes = capture(alloc, b"PSXGPUC1", RECORDS)?;
        let event = event_of(offset);
        assert!(rt;
            is_refused_at(alloc, "play", bytes, LINES_OF_RECORDS, offset, event)?,
            "{offset}"
        );
    }
    Ok(())
}

// Whether these bytes, no complete capture, are refused with `err`.
fn ends_so(alloc: Global, bytes: &[u8], err: &[u8]) -> Result<bool, Fail> {
    let mut source = MemSource::new(bytes.to_vec(alloc)?);
    Ok(ran(alloc, "vram", &mut source, LINES)?.is(2, b"", err))
}

#[test]
fn ends_of_a_capture(rt: HostRuntime) -> Result<(), Fail> {
    let alloc = rt.alloc();
    assert!(rt; ends_so(alloc, b"", b"psxgpu: truncated at event 1 byte 0\n")?);
    assert!(rt;
        ends_so(
            alloc,
            b"PSXGPUC9",
            b"psxgpu: not-capture at event 1 byte 7\n"
        )?
    );
    let broken = b"PSXGPUC1\x01\x00\x00";
    assert!(rt; ends_so(alloc, broken, b"psxgpu: truncated at event 1 byte 11\n")?);
    Ok(())
}

// The first read of an empty capture fails, and the first write of its dump.
#[test]
fn the_first_call_fails(rt: HostRuntime) -> Result<(), Fail> {
    let alloc = rt.alloc();
    let bytes = capture(alloc, b"PSXGPUC1", "")?;
    let mut starved = bytewise(alloc, &bytes, &[0])?;
    let dump = ran(alloc, "vram", &mut starved, LINES)?;
    assert!(rt; dump.is(3, b"", b"psxgpu: read-fault at event 1 byte 0\n"));
    assert!(rt; is_refused_at(alloc, "vram", bytes, b"", 0, 1)?);
    Ok(())
}
