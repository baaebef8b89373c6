// Dumps of video memory.
use crate::tests::capture::capture;
use crate::tests::runs::ran;
use dev_io::MemSource;
use std::alloc::Global;
use std::io;
use std::test::Fail;

/// The size in bytes of video memory with 512 rows, and with 1024.
const SHORT: usize = 1_048_576;

const TALL: usize = 2_097_152;

/// The rows of the triangle (0, 0), (8, 0), (0, 8) in white.
const TRIANGLE: &str =
    "0-7=7fff 1024-1030=7fff 2048-2053=7fff 3072-3076=7fff 4096-4099=7fff 5120-5122=7fff
    6144-6145=7fff 7168-7168=7fff";

/// What packets leave in video memory. Each case: records, a bar, the runs of cells that are not 0, a semicolon.
const DUMPS: &str = "
|;
gp0 20000ff 11 10001 | 16-31=1f;
gp0 e6000001 20000ff 1ff03f0 20020 | 0-15=1f 1008-1023=1f 523264-523279=1f 524272-524287=1f;
gp0 a0000000 0 10001 1234, gp0 80000000 0 1 10010 | 0-16=1234;
gp0 a0000000 0 10001 1234, gp0 80000000 0 1 0 | 0-1023=1234;
gp0 a0000000 0 10001 8000 e6000002 a0000000 0 10001 1234 | 0-0=8000;
gp0 e407ffff e1000100, gp0 a0000000 0 10001 1234, gp0 65000000 1 0 10004 | 0-4=1234;
gp0 e407ffff e1000001, gp0 a0000000 0 10002 220011, gp0 a0000000 40 10001 1, gp0 65000000 0 0 10003
    | 0-2=22 64-64=1;
gp0 e407ffff 20ffffff 0 8 80000
    | 0-7=7fff 1024-1030=7fff 2048-2053=7fff 3072-3076=7fff 4096-4099=7fff 5120-5122=7fff 6144-6145=7fff
    7168-7168=7fff;
gp0 e407ffff 2affffff 0 8 80000 80008
    | 0-7=3def 1024-1031=3def 2048-2055=3def 3072-3079=3def 4096-4103=3def 5120-5127=3def 6144-6151=3def
    7168-7175=3def;
gp0 20ffffff 0 8 80000 | 0-0=7fff;
gp0 e407ffff 480000ff 0 50005002, stat, gp0 55555555, stat | 0-2=1f;
gp0 e407ffff, dma 6 10c 4 11000002, ram 200 4000104 20ffffff 0 8 80000, ram 108 200, dma 2 10c 0 1000401
    | 0-7=7fff 1024-1030=7fff 2048-2053=7fff 3072-3076=7fff 4096-4099=7fff 5120-5122=7fff 6144-6145=7fff
    7168-7168=7fff;
gp0 e407ffff 20ffffff, stat, ram 100 1000200 0, ram 200 1ffffff 8, dma 2 100 0 1000401, stat, gp0 80000,
stat
    | 0-7=7fff 1024-1030=7fff 2048-2053=7fff 3072-3076=7fff 4096-4099=7fff 5120-5122=7fff 6144-6145=7fff
    7168-7168=7fff;
gp0 e407ffff e1000081, gp0 a0000000 3 10002 550033, gp0 a0000000 40 10001 1413, gp0 65000000 4 3f0000 10002
    | 3-5=33 64-64=1413;
gp0 e407ffff 600000ff 0 10004 e1000020 62080808 1 10002 | 0-0=1f 1-2=43f 3-3=1f;
gp0 e407ffff 600000ff 0 10004 e1000000 62080808 1 10002 | 0-0=1f 1-2=10 3-3=1f;
gp0 e407ffff 600000ff 0 10004 e1000040 62080808 1 10002 | 0-0=1f 1-2=1e 3-3=1f;
gp0 e407ffff 600000ff 0 10004 e1000060 62080808 1 10002 | 0-0=1f 1-2=1f 3-3=1f;
gp0 e3000401 e4000803 e50007ff 700000ff 0 | 1025-1027=1f 2049-2051=1f;
gp0 e3000401 e4000400 e50007ff 700000ff 0 |;
gp0 a0000000 0 10003 22221111 3333 e407ffff e1001100 65000000 10 2 10003
    | 0-0=1111 1-1=2222 2-2=3333 16-16=3333 17-17=2222 18-18=1111;
gp0 a0000000 0 10003 22221111 3333 e407ffff e1000100 e2000001 65000000 20 8 10003
    | 0-0=1111 1-1=2222 2-2=3333 32-32=1111 33-33=2222 34-34=3333;
gp0 e407ffff 400000ff 0 10003 | 0-1=1f 1026-1027=1f;
gp0 e407ffff 400000ff 10003 0 | 0-1=1f 1026-1027=1f;
gp0 e407ffff 20ffffff 0 3ff 80000
    | 0-1022=7fff 1024-1919=7fff 2048-2815=7fff 3072-3711=7fff 4096-4607=7fff 5120-5503=7fff 6144-6399=7fff
    7168-7295=7fff;
";

/// Cells from `first` to `last`, all with one value.
#[derive(Clone, Copy)]
struct Run {
    first: usize,
    last: usize,
    value: u16,
}

// Parses a run: its first and last cell in decimal, its value in hexadecimal.
fn run_of(word: &str) -> Option<Run> {
    let (cells, value) = word.split_once('=')?;
    let (first, last) = cells.split_once('-')?;
    Some(Run {
        first: first.parse().ok()?,
        last: last.parse().ok()?,
        value: u16::from_str_radix(value, 16).ok()?,
    })
}

// Parses the runs of a text. Returns `None` if a word is not a run.
fn runs_of(alloc: Global, text: &str) -> io::Result<Option<Vec<Run>>> {
    let mut runs = Vec::new(alloc);
    for word in text.split_whitespace() {
        match run_of(word) {
            Some(run) => runs.push(run)?,
            None => return Ok(None),
        }
    }
    Ok(Some(runs))
}

// Returns the value of a cell: that of the run that contains it, or 0.
fn cell(runs: &[Run], index: usize) -> u16 {
    for run in runs {
        if run.first <= index && index <= run.last {
            return run.value;
        }
    }
    0
}

fn is_dump(bytes: &[u8], len: usize, runs: &[Run]) -> bool {
    for (at, byte) in bytes.iter().enumerate() {
        let [low, high] = cell(runs, at / 2).to_le_bytes();
        if *byte != (if at % 2 == 0 { low } else { high }) {
            return false;
        }
    }
    bytes.len() == len
}

// Whether the dump after these records has these runs of cells, and zeros elsewhere.
fn is_met(alloc: Global, head: &[u8], records: &str, len: usize, runs: &str) -> Result<bool, Fail> {
    let runs = runs_of(alloc, runs)?.ok_or("no runs")?;
    let mut source = MemSource::new(capture(alloc, head, records)?);
    let dump = ran(alloc, "vram", &mut source, len)?;
    Ok(dump.status == 0 && is_dump(dump.out.bytes(), len, &runs) && dump.err.bytes().is_empty())
}

#[test]
fn cells_of_packets(rt: HostRuntime) -> Result<(), Fail> {
    for case in DUMPS.trim_end().split_terminator(';') {
        let (records, runs) = case.split_once('|').ok_or("no bar")?;
        let met = is_met(rt.alloc(), b"PSXGPUC1", records, SHORT, runs)?;
        assert!(rt; met, "{records}");
    }
    Ok(())
}

#[test]
fn heights_and_turns(rt: HostRuntime) -> Result<(), Fail> {
    let alloc = rt.alloc();
    let fill = "gp0 20000ff 2000000 10001";
    assert!(rt; is_met(alloc, b"PSXGPUC3", fill, TALL, "524288-524303=1f")?);
    assert!(rt; is_met(alloc, b"PSXGPUC1", fill, SHORT, "0-15=1f")?);
    let list = "gp0 e407ffff, ram 100 2000200 20ffffff 0, ram 200 2ffffff 8 80000, \
        begin 100 0 1000401, turn 1, stat, turn 1, stat";
    assert!(rt; is_met(alloc, b"PSXGPUC2", list, SHORT, TRIANGLE)?);
    Ok(())
}

// Whether the dump after these records begins with these bytes.
fn begins_with(alloc: Global, records: &str, cells: &[u8]) -> Result<bool, Fail> {
    let mut source = MemSource::new(capture(alloc, b"PSXGPUC1", records)?);
    let dump = ran(alloc, "vram", &mut source, SHORT)?;
    Ok(dump.status == 0 && dump.out.bytes().starts_with(cells))
}

// The cells of rounding by the dither table: a shaded triangle, and a flat one.
#[test]
fn dithered_cells(rt: HostRuntime) -> Result<(), Fail> {
    let alloc = rt.alloc();
    let shaded = "gp0 e407ffff e1000200 30080808 0 80808 8 80808 80000";
    assert!(rt; begins_with(alloc, shaded, b"\0\0\x21\x04\0\0\x21\x04")?);
    let flat = "gp0 e407ffff e1000200 20080808 0 8 80000";
    assert!(rt; begins_with(alloc, flat, b"\x21\x04\x21\x04\x21\x04\x21\x04")?);
    Ok(())
}
