// Shown pictures.
use crate::tests::LINES;
use crate::tests::capture::{capture, push_word};
use crate::tests::runs::ran;
use dev_io::MemSource;
use std::alloc::Global;
use std::io;
use std::test::Fail;

/// The header of a picture of 320 by 240, and the size in bytes of the picture.
const HEAD: &[u8] = b"P6\n320 240\n255\n";

const FRAME: usize = 230_415;

// A frame as programs make it: the registers, a clear of the screen, an ordering table, 40 red squares of 8 by 8 that
// are linked into it and sent as a list, and a white square that is loaded from main memory.
fn frame(alloc: Global) -> io::Result<Vec<u8>> {
    let mut bytes = capture(
        alloc,
        b"PSXGPUC1",
        "gp1 0, gp1 8000001, gp1 6c00200, gp1 7040010, gp1 5000000, gp1 3000000, \
         gp0 e3000000 e403bd3f e5000000 2800000 0 f00140, dma 6 ffc 400 11000002",
    )?;
    bytes.truncate(bytes.len().saturating_sub(4));
    for k in 0..40u32 {
        for word in [
            0x0100_0003,
            0x2000 + 0x10 * k,
            0x0200_0000 + 4 * k,
            0x7000_00ff,
            8 * k,
        ] {
            push_word(&mut bytes, word)?;
        }
        for word in [0x0100_0001, 4 * k + 4, 0x2000 + 0x10 * k] {
            push_word(&mut bytes, word)?;
        }
    }
    for word in [0x0600_0002, 0xffc, 0, 0x0100_0401, 0x0100_0020, 0x3000] {
        push_word(&mut bytes, word)?;
    }
    for _ in 0..32 {
        push_word(&mut bytes, 0x7fff_7fff)?;
    }
    for word in [
        0x0200_0003,
        0xa000_0000,
        0x0008_0000,
        0x0008_0008,
        0x0600_0002,
        0x3000,
        0x0002_0010,
        0x0100_0201,
        0,
    ] {
        push_word(&mut bytes, word)?;
    }
    Ok(bytes)
}

// Returns the pixel of the frame at a column and a row: red squares above, a white one below them, and blue elsewhere.
fn pixel(x: usize, y: usize) -> [u8; 3] {
    if y < 8 {
        [0xff, 0, 0]
    } else if y < 16 && x < 8 {
        [0xff, 0xff, 0xff]
    } else {
        [0, 0, 0x84]
    }
}

fn is_frame(bytes: &[u8]) -> bool {
    for (i, byte) in bytes.iter().enumerate() {
        let index = i.saturating_sub(HEAD.len());
        let expected = if i < HEAD.len() {
            HEAD[i]
        } else {
            pixel(index / 3 % 320, index / 960)[index % 3]
        };
        if *byte != expected {
            return false;
        }
    }
    bytes.len() == FRAME
}

#[test]
fn a_frame_is_shown(rt: HostRuntime) -> Result<(), Fail> {
    let alloc = rt.alloc();
    let mut source = MemSource::new(frame(alloc)?);
    let shot = ran(alloc, "shot", &mut source, FRAME)?;
    assert_eq!(rt; shot.status, 0);
    assert!(rt; is_frame(shot.out.bytes()));
    Ok(())
}

// Whether the picture of 4 by 1 after these records begins with these bytes.
fn begins_with(alloc: Global, records: &str, start: &[u8]) -> Result<bool, Fail> {
    let mut source = MemSource::new(capture(alloc, b"PSXGPUC1", records)?);
    let shot = ran(alloc, "shot", &mut source, LINES)?;
    let bytes = shot.out.bytes();
    Ok(shot.status == 0 && bytes.len() == 23 && bytes.starts_with(start))
}

#[test]
fn bytes_of_small_pictures(rt: HostRuntime) -> Result<(), Fail> {
    let alloc = rt.alloc();
    let of_24_bits = "gp1 8000010, gp1 6214200, gp1 7004410, \
        gp0 a0000000 0 10006 4030201 8070605 c0b0a09";
    let start = b"P6\n4 1\n255\n\x01\x02\x03\x04\x05\x06\x07\x08\x09\x0a\x0b\x0c";
    assert!(rt; begins_with(alloc, of_24_bits, start)?);
    let of_15_bits = "gp1 8000000, gp1 6214200, gp1 7004410, \
        gp0 a0000000 0 10006 4030201 8070605 c0b0a09";
    assert!(rt; begins_with(alloc, of_15_bits, b"P6\n4 1\n255\n\x08\x84\x00")?);
    Ok(())
}
