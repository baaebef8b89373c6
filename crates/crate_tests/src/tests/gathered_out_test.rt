// Output chunks that are buffered before a sink that fails.
use dev_io::FailSink;
use gathered_out::OutputBuffer;
use std::alloc::Global;
use std::test::Fail;

// Writes chunks of events 3, 5 and 9 to a sink of `room` bytes. Returns the event of the first incomplete one, and the
// bytes written.
fn pieces_into(alloc: Global, room: usize) -> Result<(Result<(), u64>, Vec<u8>), Fail> {
    let mut out = FailSink::new(alloc, room, 2, Vec::new(alloc))?;
    let mut buffered = OutputBuffer::new();
    let mut answer = buffered.put(3, b"abc", &mut out);
    if answer.is_ok() {
        answer = buffered.put(5, b"de", &mut out);
    }
    if answer.is_ok() {
        answer = buffered.put(9, b"f", &mut out);
    }
    if answer.is_ok() {
        answer = buffered.write(&mut out);
    }
    Ok((answer, out.bytes().to_vec(alloc)?))
}

#[test]
fn the_first_piece_that_lacks_a_byte_is_named(rt: HostRuntime) -> Result<(), Fail> {
    let alloc = rt.alloc();
    for (room, answer, bytes) in [
        (6, Ok(()), b"abcdef".as_slice()),
        (5, Err(9), b"abcde".as_slice()),
        (4, Err(5), b"abcd".as_slice()),
        (3, Err(5), b"abc".as_slice()),
        (2, Err(3), b"ab".as_slice()),
        (0, Err(3), b"".as_slice()),
    ] {
        let (answered, written) = pieces_into(alloc, room)?;
        assert_eq!(rt; answered, answer);
        assert_eq!(rt; written.as_slice(), bytes);
    }
    Ok(())
}
