// Commands that write lines, and their output for captures that are refused.
use crate::tests::rows::holds;
use std::test::Fail;

/// Commands over captures of version 1.
const EVENTS: &str = "
play < stat | 14802000 / status 14802000;
play < gp0 a0000000 0 10003 22221111 99993333, gp0 c0000000 0 10003, stat, read 3
    | 0c802000 / 22221111 / 00003333 / 00003333 / status 14802000;
list < gp0 a0000000 0 10003 22221111 99993333, gp0 c0000000 0 10003, stat, read 3
    | 3 load a0000000 0 0 2 0 / 8 store c0000000 0 0 2 0;
pixel 1 0 < gp0 a0000000 0 10003 22221111 99993333, gp0 20000ff 0 10001, gp0 20000ff 0 10001
    | 4 pixels 22221111 0000 2222 / 8 fill 020000ff 2222 001f;
list < gp0 0 20000ff 11 10001 | 1 nop 00000000 - / 4 fill 020000ff 16 0 31 0;
play < gp0 2000000, stat, gp1 1000000, stat | 10802000 / 14802000 / status 14802000;
play < gp0 1f000000, stat, gp1 2000000 | 15802000 / status 14802000;
play < gp0 c0000000 0 10004, stat, gp1 1000000, stat, read 1 | 0c802000 / 14802000 / 00000000 / status 14802000;
play < gp0 e20fffff, gp1 10000002, read 1, gp1 10000007, read 1, gp1 10000000, read 1
    | 000fffff / 00000002 / 00000002 / status 14802000;
play < gp1 3000000, gp1 4000002, gp1 8000001, stat | 56022000 / status 56022000;
play < gp0 e407ffff 24808080 7ff 0 3ff 1050000 80000 0 | status 14802105;
play < gp0 e407ffff 480000ff 0 50005002, stat, gp0 55555555, stat | 10802000 / 14802000 / status 14802000;
play < gp0 e407ffff 20ffffff, stat, ram 100 1000200 0, ram 200 1ffffff 8, dma 2 100 0 1000401, stat, gp0 80000,
    stat
    | 10802000 / 10802000 / 14802000 / status 14802000;
list < gp0 e407ffff 20ffffff 0 8 80000 | 1 environment e407ffff - / 5 polygon 20ffffff 0 0 8 8;
list < gp0 e3000401 e4000803 e50007ff 700000ff 0
    | 1 environment e3000401 - / 2 environment e4000803 - / 3 environment e50007ff - /
    5 rectangle 700000ff 1 1 3 2;
list < gp0 e3000401 e4000400 e50007ff 700000ff 0
    | 1 environment e3000401 - / 2 environment e4000400 - / 3 environment e50007ff - / 5 rectangle 700000ff -;
list < gp0 e407ffff 20ffffff 0 4 8 | 1 environment e407ffff - / 5 polygon 20ffffff -;
list < gp0 e407ffff 480000ff 0 2 20002 50005000
    | 1 environment e407ffff - / 4 line 480000ff 0 0 2 0 / 5 line 480000ff 2 0 2 2 / 6 finish 50005000 -;
play < dma 2 ffffff 0 1000401 | status 14802000;
play < gp0 a0000000 0 10001 1f000000, gp0 a0000000 10000 10001 1f00, gp0 c0000000 10000 10001, dma 2 100 10001
    1000200, dma 2 100 10001 1000201, stat
    | 14802000 / status 14802000;
report < gp0 e407ffff 20ffffff 0 8 80000 |;
--version < stat
    | psxgpu_tool 1.0.0 / plays captures of versions 1, 2 and 3, and snapshots of version 1 /
    proved with the logic dac8208d650f15bf of Rattle;
";

/// Captures that are refused, and arguments that name no command, with valid neighbours.
const REFUSALS: &str = "
play < stat, ram 100 100, dma 2 100 0 1000401 | 14802000 | 2 psxgpu: list-loop at event 3 node 000100;
list < ram 100 1000100 1f000000, dma 2 100 0 1000401 | | 2 psxgpu: list-loop at event 3 node 000100;
play < raw 7000001 | | 2 psxgpu: bad-record at event 1 byte 8 word 07000001;
play < raw 7000002 | | 2 psxgpu: bad-record at event 1 byte 8 word 07000002;
play < ram 1ffffc 0 0 | | 2 psxgpu: bad-record at event 1 byte 12 word 001ffffc;
play < ram 1ffffc 0 | status 14802000;
play < dma 2 0 0 1000601 | | 2 psxgpu: bad-dma at event 1;
play < dma 2 0 0 1000400 | | 2 psxgpu: bad-dma at event 1;
play < dma 2 0 0 601 | status 14802000;
play < dma 2 0 2010400 1000201 | | 2 psxgpu: dma-too-long at event 1 words 525312;
play < dma 2 0 2000400 1000201 | status 14802000;
play < dma 2 0 0 1000201 | | 2 psxgpu: dma-too-long at event 1 words 4294967296;
shot < gp1 6200200 | | 2 psxgpu: no-picture at event 2;
vram extra < stat | | 1 psxgpu: usage;
< stat | | 1 psxgpu: usage;
demo 0 < stat | | 1 psxgpu: usage;
demo 007 < stat | | 1 psxgpu: usage;
demo 100001 < stat | | 1 psxgpu: usage;
";

/// Turns of a list, in captures of version 2.
const TURNS: &str = "
play < gp0 e407ffff, ram 100 2000200 20ffffff 0, ram 200 2ffffff 8 80000, begin 100 0 1000401, turn 1, stat,
    turn 1, stat
    | 10802000 / 14802000 / status 14802000;
list < ram 100 1000100 0, begin 100 0 1000401, turn 3 | 4 nop 00000000 - / 5 nop 00000000 - / 6 nop 00000000 -;
play < ram 100 200, begin 100 0 1000401, turn 1, ram 200 1ffffff 1f000000, turn 1, stat
    | 15802000 / status 15802000;
play < ram 300 0 1f000000, begin 300 20001 1000201, turn 1, stat, turn 1, stat
    | 14802000 / 15802000 / status 15802000;
";

#[test]
fn lines_of_events(rt: HostRuntime) -> Result<(), Fail> {
    for row in EVENTS.trim_end().split_terminator(';') {
        assert!(rt; holds(rt.alloc(), b"PSXGPUC1", row)?, "{row}");
    }
    Ok(())
}

#[test]
fn refusals(rt: HostRuntime) -> Result<(), Fail> {
    for row in REFUSALS.trim_end().split_terminator(';') {
        assert!(rt; holds(rt.alloc(), b"PSXGPUC1", row)?, "{row}");
    }
    Ok(())
}

#[test]
fn turns_between_events(rt: HostRuntime) -> Result<(), Fail> {
    for row in TURNS.trim_end().split_terminator(';') {
        assert!(rt; holds(rt.alloc(), b"PSXGPUC2", row)?, "{row}");
    }
    Ok(())
}
