// The loop over events, with a command that copies records.
use super::record_copy::copy_records;
use dev_io::{CutSource, FailSink};
use event_loop::Ended;
use std::alloc::Global;
use std::test::Fail;

// The records of a write to main memory, a write to GP0 and a read of GPUSTAT, and an End record: 12, 8, 4 and 4 bytes.
const RECORDS: &[u8] =
    b"\x01\0\0\x01\0\x01\0\0\0\0\0\xe1\x01\0\0\x02\0\0\0\xe1\x01\0\0\x05\0\0\0\0";

// Copies `RECORDS` to a sink of `room` bytes. Returns the ending, the number of events, and the bytes written.
fn copy_of(alloc: Global, limit: u32, room: usize) -> Result<(Ended<u64>, u32, Vec<u8>), Fail> {
    let mut bytes = b"PSXGPUC1".to_vec(alloc)?;
    bytes.extend_from_slice(RECORDS)?;
    let mut source = CutSource::new(bytes, [3, 1].to_vec(alloc)?, Vec::new(alloc));
    let mut out = FailSink::new(alloc, room, 2, Vec::new(alloc))?;
    let mut count = 0;
    let ending = copy_records(&mut source, &mut out, limit, &mut count);
    Ok((ending, count, out.bytes().to_vec(alloc)?))
}

#[test]
fn copied_records_are_the_same_bytes(rt: HostRuntime) -> Result<(), Fail> {
    let (ending, count, bytes) = copy_of(rt.alloc(), 3, 28)?;
    assert_eq!(rt; ending, Ended::Done);
    assert_eq!(rt; count, 3);
    assert_eq!(rt; bytes.as_slice(), RECORDS);
    Ok(())
}

#[test]
fn the_first_incomplete_event_is_named(rt: HostRuntime) -> Result<(), Fail> {
    for (room, event) in [(0, 1), (11, 1), (12, 2), (19, 2), (20, 3), (24, 4), (27, 4)] {
        let (ending, _, bytes) = copy_of(rt.alloc(), 3, room)?;
        assert_eq!(rt; ending, Ended::WriteFailed { event });
        assert_eq!(rt; bytes.len(), room);
    }
    Ok(())
}

#[test]
fn an_event_over_the_limit_is_refused(rt: HostRuntime) -> Result<(), Fail> {
    let (ending, count, bytes) = copy_of(rt.alloc(), 2, 28)?;
    assert_eq!(rt; ending, Ended::Refused { why: 3 });
    assert_eq!(rt; count, 2);
    assert_eq!(rt; bytes.len(), 20);
    Ok(())
}
