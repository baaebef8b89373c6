// Series of pictures, and their sums.
use crate::tests::LINES;
use crate::tests::capture::capture;
use crate::tests::runs::{is_refused_at, ran};
use dev_io::MemSource;
use std::alloc::Global;
use std::test::Fail;

/// A screen of 4 by 1, whose picture has a header of 11 bytes and 12 bytes of pixels. A mark follows a red cell, a flip
/// follows a green one, and at the end a third cell is blue.
const RECORDS: &str =
    "gp1 8000000, gp1 6214200, gp1 7004410, gp0 e407ffff, gp0 600000ff 0 10001, gp1 3f000000, \
    gp0 6000ff00 1 10001, gp1 5000000, gp0 60ff0000 2 10001";

/// The pictures at flips: the one after the flip, and the one at the end.
const FLIPS: &[u8] =
    b"P6\n4 1\n255\n\xff\0\0\0\xff\0\0\0\0\0\0\0P6\n4 1\n255\n\xff\0\0\0\xff\0\0\0\xff\0\0\0";

/// The picture at the mark.
const MARK: &[u8] = b"P6\n4 1\n255\n\xff\0\0\0\0\0\0\0\0\0\0\0";

/// The size in bytes of a picture.
const PICTURE: usize = 23;

/// The number of the event that flips, and the number of events plus 1.
const FLIP: u64 = 12;

const END: u64 = 16;

// Whether a command writes these bytes.
fn writes(alloc: Global, words: &str, want: &[u8]) -> Result<bool, Fail> {
    let mut source = MemSource::new(capture(alloc, b"PSXGPUC1", RECORDS)?);
    Ok(ran(alloc, words, &mut source, LINES)?.is(0, want, b""))
}

#[test]
fn pictures_at_flips_and_at_marks(rt: HostRuntime) -> Result<(), Fail> {
    let alloc = rt.alloc();
    assert!(rt; writes(alloc, "frames", FLIPS)?);
    assert!(rt; writes(alloc, "frames marks", MARK)?);
    Ok(())
}

#[test]
fn each_byte_of_two_pictures_is_refused(rt: HostRuntime) -> Result<(), Fail> {
    let alloc = rt.alloc();
    for offset in 0..2 * PICTURE {
        let bytes = capture(alloc, b"PSXGPUC1", RECORDS)?;
        let event = if offset < PICTURE { FLIP } else { END };
        assert!(rt;
            is_refused_at(alloc, "frames", bytes, FLIPS, offset, event)?,
            "{offset}"
        );
    }
    Ok(())
}
