// Captures that are cut.
use crate::tests::capture::capture;
use crate::tests::rows::holds;
use crate::tests::runs::ran;
use dev_io::MemSource;
use std::alloc::Global;
use std::test::Fail;

/// A triangle, with a read of the status after its first word.
const TRIANGLE: &str = "gp0 e407ffff 20ffffff, stat, gp0 0 8 80000, stat";

/// The size in bytes of the snapshot after three of its events: a magic number of 8 bytes, 21 words, both memories, and
/// the rest of the capture.
const LEN: usize = 3_145_852;

/// The byte offset of the rest of the capture.
const REST: usize = 3_145_820;

// Whether `want` is at byte offset `offset`.
fn stands_at(bytes: &[u8], offset: usize, want: &[u8]) -> bool {
    if offset <= bytes.len() {
        bytes[offset..].starts_with(want)
    } else {
        false
    }
}

// Returns the snapshot after three events of the triangle.
fn snapshot(alloc: Global) -> Result<Vec<u8>, Fail> {
    let mut source = MemSource::new(capture(alloc, b"PSXGPUC1", TRIANGLE)?);
    let cut = ran(alloc, "cut 3", &mut source, LEN)?;
    Ok(cut.out.bytes().to_vec(alloc)?)
}

#[test]
fn a_snapshot_is_the_state_and_the_rest(rt: HostRuntime) -> Result<(), Fail> {
    let alloc = rt.alloc();
    let bytes = snapshot(alloc)?;
    assert_eq!(rt; bytes.len(), LEN);
    assert!(rt; stands_at(&bytes, 0, b"PSXGPUS1\0\x02\0\0\x03\0\0\0\0\0\0\0"));
    // One word of a packet is pending. No store is open, and no transfer runs.
    assert!(rt;
        stands_at(
            &bytes,
            72,
            b"\x01\0\0\0\x01\0\0\0\xff\xff\xff\x20\0\0\0\0\0\0\0\0"
        )
    );
    let rest = capture(alloc, b"", "gp0 0, gp0 8, gp0 80000, stat")?;
    assert!(rt; stands_at(&bytes, REST, &rest));
    Ok(())
}

// Whether a command over the snapshot writes `want`.
fn goes_on(alloc: Global, words: &str, want: &[u8]) -> Result<bool, Fail> {
    let mut source = MemSource::new(snapshot(alloc)?);
    Ok(ran(alloc, words, &mut source, LEN)?.is(0, want, b""))
}

#[test]
fn a_snapshot_is_played_on(rt: HostRuntime) -> Result<(), Fail> {
    let alloc = rt.alloc();
    assert!(rt; goes_on(alloc, "play", b"14802000\nstatus 14802000\n")?);
    assert!(rt; goes_on(alloc, "list", b"6 polygon 20ffffff 0 0 8 8\n")?);
    let mut source = MemSource::new(capture(alloc, b"PSXGPUC1", TRIANGLE)?);
    let whole = ran(alloc, "vram", &mut source, LEN)?;
    assert_eq!(rt; whole.status, 0);
    assert!(rt; goes_on(alloc, "vram", whole.out.bytes())?);
    Ok(())
}

/// Snapshots with an invalid height, and snapshots that end within their state.
const BROKEN: &str = "
vram < word 201 | | 2 psxgpu: bad-snapshot at event 1 byte 8 word 00000201;
play < word 200 | | 2 psxgpu: truncated at event 1 byte 16;
cut 1 < stat | | 2 psxgpu: not-capture at event 1 byte 6;
";

#[test]
fn what_is_no_snapshot(rt: HostRuntime) -> Result<(), Fail> {
    let alloc = rt.alloc();
    for row in BROKEN.trim_end().split_terminator(';') {
        assert!(rt; holds(alloc, b"PSXGPUS1", row)?, "{row}");
    }
    let unknown = "report < stat | | 2 psxgpu: not-capture at event 1 byte 7";
    assert!(rt; holds(alloc, b"PSXGPUS9", unknown)?);
    Ok(())
}

/// A cut after the last of seven events, and arguments that name no cut.
const UNCUT: &str = "
cut 8 < gp0 e407ffff 20ffffff, stat, gp0 0 8 80000, stat | | 2 psxgpu: cut-past-end at event 8;
cut < stat | | 1 psxgpu: usage;
cut 0 < stat | | 1 psxgpu: usage;
cut 007 < stat | | 1 psxgpu: usage;
cut 4294967296 < stat | | 1 psxgpu: usage;
cut 1 2 < stat | | 1 psxgpu: usage;
";

#[test]
fn what_is_not_cut(rt: HostRuntime) -> Result<(), Fail> {
    for row in UNCUT.trim_end().split_terminator(';') {
        assert!(rt; holds(rt.alloc(), b"PSXGPUC1", row)?, "{row}");
    }
    // The fault is one of the first events.
    let fault = "cut 3 < stat, ram 100 100, dma 2 100 0 1000401, stat
        | | 2 psxgpu: list-loop at event 3 node 000100";
    assert!(rt; holds(rt.alloc(), b"PSXGPUC2", fault)?);
    Ok(())
}
