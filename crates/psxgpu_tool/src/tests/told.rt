// What the program writes with its taps.
use crate::tests::capture::{capture, push_word};
use crate::tests::rows::{lines_of, row_of};
use crate::tests::runs::{Outcome, ran};
use crate::tests::{LINES, status_with};
use dev_io::{MemSink, MemSource};
use gpu_taps::{Counts, Cover, Tap, Trace};
use std::alloc::Global;
use std::io;
use std::test::Fail;

// Returns the taps of the program.
fn taps_of(alloc: Global) -> Result<Vec<Box<dyn Tap>>, Fail> {
    let trace = Trace::new(alloc)?;
    let mut taps: Vec<Box<dyn Tap>> = Vec::new(alloc);
    taps.push(Box::new(alloc, Counts::new())?)?;
    taps.push(Box::new(alloc, trace)?)?;
    taps.push(Box::new(alloc, Cover::new())?)?;
    Ok(taps)
}

// Whether a row holds with the taps of the program. A demo reads nothing of its source.
fn holds_with_taps(alloc: Global, row: &str) -> Result<bool, Fail> {
    let row = row_of(row).ok_or("no row")?;
    let bytes = capture(alloc, b"PSXGPUC1", row.records)?;
    let len = bytes.len();
    let mut source = MemSource::new(bytes);
    let mut out = MemSink::new(alloc, LINES)?;
    let mut err = MemSink::new(alloc, LINES)?;
    let taps = taps_of(alloc)?;
    let status = status_with(alloc, row.words, &mut source, &mut out, &mut err, taps)?;
    let outcome = Outcome { status, out, err };
    let is_read = source.left().len() < len;
    Ok(
        outcome.is(
            row.status,
            &lines_of(alloc, row.out)?,
            &lines_of(alloc, row.err)?,
        ) && is_read != row.words.contains("demo"),
    )
}

/// The output of the taps after a capture, after a demo, and after a fault.
const TOLD: &str = "
report < gp0 e407ffff 20ffffff 0 8 80000
    | tap 0 0 1 0 0 0 0 0 1 0 0 / tap 1 1 7 3825729535 5 1 553648127 / tap 2 1 81 81;
demo 1 < stat
    | tap 0 1 0 0 0 0 0 0 3 0 0 / tap 1 1 7 3774874112 2 7 3808428032 3 7 3825729535 6 0 42490220 /
    tap 2 1 106752 106752 / status 14802200 / sum 1897303296;
play < gp0 e407ffff, ram 100 100, dma 2 100 0 1000401
    | | 2 psxgpu: list-loop at event 3 node 000100 / psxgpu: last 1 7 3825729535;
";

#[test]
fn taps_are_told_of_notes(rt: HostRuntime) -> Result<(), Fail> {
    for row in TOLD.trim_end().split_terminator(';') {
        assert!(rt; holds_with_taps(rt.alloc(), row)?, "{row}");
    }
    Ok(())
}

// Returns a capture with a list of 1,000 empty nodes, each linked to the next word, the last to this address.
fn long_list(alloc: Global, last: u32) -> io::Result<Vec<u8>> {
    let mut bytes = b"PSXGPUC1".to_vec(alloc)?;
    push_word(&mut bytes, 0x0100_03e8)?;
    push_word(&mut bytes, 0x1000)?;
    for k in 1..1000u32 {
        push_word(&mut bytes, 0x1000 + 4 * k)?;
    }
    for word in [last, 0x0600_0002, 0x1000, 0, 0x0100_0401, 0] {
        push_word(&mut bytes, word)?;
    }
    Ok(bytes)
}

// Whether a list whose last node has this link ends with this status and these lines.
fn walks(alloc: Global, last: u32, status: u8, err: &[u8]) -> Result<bool, Fail> {
    let mut source = MemSource::new(long_list(alloc, last)?);
    let walk = ran(alloc, "play", &mut source, LINES)?;
    Ok(walk.status == status && walk.err.bytes() == err)
}

#[test]
fn a_long_list_is_walked(rt: HostRuntime) -> Result<(), Fail> {
    let alloc = rt.alloc();
    let err = b"psxgpu: list-loop at event 1001 node 0017d0\n";
    assert!(rt; walks(alloc, 0x17d0, 2, err)?);
    assert!(rt; walks(alloc, 0x00ff_ffff, 0, b"")?);
    Ok(())
}
