// Stops of a reader, and written records.
use dev_io::{CutSource, MemSink, MemSource};
use gpu_capture::{Event, EventReader, Stop, write_end, write_event, write_start};
use std::test::Fail;

// Returns the number of events before the stop, at most ten, and the stop.
fn read(source: &mut CutSource) -> (u32, Option<Stop>) {
    let mut reader = EventReader::new();
    for n in 0..10 {
        if let Err(stop) = reader.next(source) {
            return (n, Some(stop));
        }
    }
    (10, None)
}

#[test]
fn stops_and_their_places(rt: HostRuntime) -> Result<(), Fail> {
    let alloc = rt.alloc();
    for (bytes, events, stop) in [
        (b"".as_slice(), 0, Stop::Truncated { byte: 0 }),
        (b"PSXGPUC9", 0, Stop::NotCapture { byte: 7 }),
        (b"PSXGPUD1", 0, Stop::NotCapture { byte: 6 }),
        (b"PSXGPUS1", 0, Stop::NotCapture { byte: 6 }),
        (b"QSXGPU", 0, Stop::Truncated { byte: 6 }),
        (
            b"PSXGPUC2\x02\x00\x00\x08\x01\x00\x00\x09\x00\x00\x00\x00",
            3,
            Stop::End,
        ),
        (b"PSXGPUC1\x01\x00\x00", 0, Stop::Truncated { byte: 11 }),
        (
            b"PSXGPUC1\x01\x00\x00\x05\x00\x00\x00\x00\x09",
            1,
            Stop::End,
        ),
        (
            b"PSXGPUC1\x01\x00\x00\x07",
            0,
            Stop::BadRecord {
                byte: 8,
                word: 0x0700_0001,
            },
        ),
        (
            b"PSXGPUC1\x02\x00\x00\x07",
            0,
            Stop::BadRecord {
                byte: 8,
                word: 0x0700_0002,
            },
        ),
        (
            b"PSXGPUC2\x02\x00\x00\x07\0\0\0\0\0\0\0\0\0\0\0\0\x03\x00\x00\x07",
            1,
            Stop::BadRecord {
                byte: 24,
                word: 0x0700_0003,
            },
        ),
        (
            b"PSXGPUC1\x02\x00\x00\x01\xfc\xff\x1f\x00",
            0,
            Stop::BadRecord {
                byte: 12,
                word: 0x001f_fffc,
            },
        ),
        (
            b"PSXGPUC1\x01\x00\x00\x01\xfc\xff\x1f\x00\x00\x00\x00\x00\x03\x00\x00\x04\x00\x00\x00\x00",
            4,
            Stop::End,
        ),
    ] {
        let mut source = CutSource::new(
            bytes.to_vec(alloc)?,
            [1, 2].to_vec(alloc)?,
            Vec::new(alloc),
        );
        assert_eq!(rt; read(&mut source), (events, Some(stop)), "{bytes:?}");
    }
    Ok(())
}

#[test]
fn a_reader_after_the_head_stops_at_the_limit(rt: HostRuntime) -> Result<(), Fail> {
    let alloc = rt.alloc();
    let mut source = MemSource::new(b"\x01\x00\x00\x05\x00\x00\x00\x00".to_vec(alloc)?);
    let mut reader = EventReader::at(1, 1_073_741_820);
    assert_eq!(rt; reader.next(&mut source), Ok(Event::Stat));
    let too_long = Stop::TooLong {
        byte: 1_073_741_824,
    };
    assert_eq!(rt; reader.next(&mut source), Err(too_long));
    assert_eq!(rt; reader.next(&mut source), Err(too_long));
    assert_eq!(rt; source.left().len(), 4);
    Ok(())
}

#[test]
fn a_failed_source_stops_a_reader(rt: HostRuntime) -> Result<(), Fail> {
    let alloc = rt.alloc();
    let bytes = b"PSXGPUC3\x00\x00\x00\x00".to_vec(alloc)?;
    let mut source = CutSource::new(bytes, [5].to_vec(alloc)?, [1].to_vec(alloc)?);
    let mut reader = EventReader::new();
    assert_eq!(rt; reader.version(), 0);
    assert_eq!(rt; reader.next(&mut source), Err(Stop::ReadFault { byte: 5 }));
    let mut reader = EventReader::at(3, 8);
    assert_eq!(rt; reader.version(), 3);
    Ok(())
}

#[test]
fn what_is_written(rt: HostRuntime) -> Result<(), Fail> {
    let mut sink = MemSink::new(rt.alloc(), 100)?;
    let word = Event::Ram {
        address: 0x1f_fffc,
        word: 0x1234_5678,
    };
    let start = Event::Dma {
        channel: 6,
        madr: 0x10c,
        bcr: 4,
        chcr: 0x1100_0002,
    };
    assert_eq!(rt; write_start(&mut sink, 2), Ok(()));
    assert_eq!(rt; write_event(&mut sink, &Event::Stat), Ok(()));
    assert_eq!(rt; write_event(&mut sink, &word), Ok(()));
    assert_eq!(rt; write_event(&mut sink, &start), Ok(()));
    assert_eq!(rt; write_end(&mut sink), Ok(()));
    assert_eq!(rt;
        sink.bytes(),
        b"PSXGPUC2\x01\0\0\x05\x01\0\0\x01\xfc\xff\x1f\0xV4\x12\
            \x06\0\0\x06\x0c\x01\0\0\x04\0\0\0\x02\0\0\x11\0\0\0\0"
            .as_slice()
    );
    Ok(())
}
