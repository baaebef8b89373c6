// Dumps and pictures.
ghost use Rattle.std.specs.Prelude.{◌≡◌, ◌<◌};

use dev_io::MemSink;
use gp1_status::Regs;
use picture_out::{shape, write_ppm, write_vram};
use std::alloc::Global;
use std::marker::Brand;
use std::sync::ledger::{Blank, Ledger};
use std::test::Fail;
use vram_store::{Steps, Vram};

// Writes a dump of video memory with one nonzero cell to a sink of `room` bytes. Returns the sink, and whether all was
// written.
fn dumped<L: Ledger>(alloc: Global, blank: Blank, room: usize) -> Result<(MemSink, bool), Fail>
    requires name { blank.name ≡ L.name }
    requires parts { blank.parts ≡ L.parts }
    requires some { 0 < blank.parts }
{
    let mut steps = Steps::<L>::new(blank);
    let mut vram = Vram::new(alloc)?;
    let mut out = MemSink::new(alloc, room)?;
    vram.put(1, 1, 0x1234, &mut steps);
    let written = write_vram(&vram, &mut out, &mut steps).is_ok();
    Ok((out, written))
}

#[test]
fn a_dump_has_each_low_byte_first(rt: HostRuntime) -> Result<(), Fail> {
    let (out, written) = dumped::<Brand>(rt.alloc(), Blank::new(1), 1_048_576)?;
    assert_eq!(rt; (written, out.bytes().len()), (true, 1_048_576));
    assert_eq!(rt;
        (out.bytes().get(2050), out.bytes().get(2051)),
        (Some(&0x34), Some(&0x12))
    );
    let (out, written) = dumped::<Brand>(rt.alloc(), Blank::new(1), 100)?;
    assert_eq!(rt; (written, out.bytes().len()), (false, 100));
    Ok(())
}

// Returns the shown picture after these words of GP1 and with these cells, or nothing if none is shown.
fn shot<L: Ledger>(
    alloc: Global,
    blank: Blank,
    words: &[u32],
    cells: &[(u16, u16, u16)],
) -> Result<MemSink, Fail>
    requires name { blank.name ≡ L.name }
    requires parts { blank.parts ≡ L.parts }
    requires some { 0 < blank.parts }
{
    let mut steps = Steps::<L>::new(blank);
    let mut vram = Vram::new(alloc)?;
    let mut regs = Regs::new();
    let mut out = MemSink::new(alloc, 100)?;
    for word in words {
        regs.gp1(*word);
    }
    for (x, y, h) in cells {
        if *x < 1024 && *y < vram.height() {
            vram.put(*x, *y, *h, &mut steps);
        }
    }
    if let Some(_) = shape(&regs) {
        let _ = write_ppm(&vram, &regs, &mut out, &mut steps);
    }
    Ok(out)
}

#[test]
fn pictures_of_15_and_of_24_bits(rt: HostRuntime) -> Result<(), Fail> {
    let cells = [
        (0, 0, 0x0201),
        (1, 0, 0x0403),
        (2, 0, 0x0605),
        (3, 0, 0x0807),
        (4, 0, 0x0a09),
        (5, 0, 0x0c0b),
        (1023, 511, 0x7fff),
    ];
    for (mode, start, lines, want) in [
        (
            0x0800_0010,
            0x0500_0000,
            0x0700_4410,
            b"P6\n4 1\n255\n\x01\x02\x03\x04\x05\x06\x07\x08\x09\x0a\x0b\x0c".as_slice(),
        ),
        (
            0x0800_0000,
            0x0500_0000,
            0x0700_4410,
            b"P6\n4 1\n255\n\x08\x84\x00\x18\x00\x08\x29\x84\x08\x39\x00\x10",
        ),
        (
            0x0800_0000,
            0x0507_fffe,
            0x0700_4810,
            b"P6\n4 2\n255\n\0\0\0\xff\xff\xff\0\0\0\0\0\0\0\0\0\0\0\0\x08\x84\0\x18\0\x08",
        ),
        (
            0x0800_0010,
            0x0507_ffff,
            0x0700_4810,
            b"P6\n4 2\n255\n\xff\x7f\0\0\0\0\0\0\0\0\0\0\0\0\x01\x02\x03\x04\x05\x06\x07\x08\x09\x0a",
        ),
        (0x0800_0000, 0x0500_0000, 0x0700_4010, b""),
    ] {
        let words = [mode, start, 0x0621_4200, lines];
        let out = shot::<Brand>(rt.alloc(), Blank::new(1), &words, &cells)?;
        assert_eq!(rt; out.bytes(), want, "at {mode}, {start}");
    }
    Ok(())
}
