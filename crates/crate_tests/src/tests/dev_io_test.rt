// Sources and sinks in memory, and the adapters for readers and writers.
use dev_io::{
    CutSource, FailSink, Failed, MemSink, MemSource, ReadEdge, Source, WriteEdge, fill, write_all,
    write_pieces,
};
use std::io::{self, ErrorKind, Read, Write};
use std::test::Fail;

#[test]
fn a_source_breaks_off_and_goes_on(rt: HostRuntime) -> Result<(), Fail> {
    let alloc = rt.alloc();
    let mut source = CutSource::new(
        b"abcd".to_vec(alloc)?,
        [1, 0].to_vec(alloc)?,
        [1].to_vec(alloc)?,
    );
    let mut buf = [0u8; 3];
    assert_eq!(rt; fill(&mut source, &mut buf), Err(1));
    assert_eq!(rt; source.left(), b"bcd".as_slice());
    assert_eq!(rt; fill(&mut source, &mut buf), Ok(3));
    assert_eq!(rt; buf, [b'b', b'c', b'd']);
    Ok(())
}

#[test]
fn a_sink_fails_at_its_places(rt: HostRuntime) -> Result<(), Fail> {
    let alloc = rt.alloc();
    let mut sink = FailSink::new(alloc, 3, 2, [1].to_vec(alloc)?)?;
    assert_eq!(rt; write_all(&mut sink, b"abcd"), Err(Failed));
    assert_eq!(rt; sink.bytes(), b"ab".as_slice());
    assert_eq!(rt; write_all(&mut sink, b"cd"), Err(Failed));
    assert_eq!(rt; sink.bytes(), b"abc".as_slice());
    Ok(())
}

#[test]
fn memory_takes_pieces_and_gives_bytes(rt: HostRuntime) -> Result<(), Fail> {
    let alloc = rt.alloc();
    let mut memory = MemSink::new(alloc, 4)?;
    assert_eq!(rt; write_pieces(&mut memory, &[b"ab", b"", b"cd"]), Ok(()));
    assert_eq!(rt; memory.bytes(), b"abcd".as_slice());
    let mut whole = MemSource::new(b"ab".to_vec(alloc)?);
    let mut buf = [0u8; 3];
    assert_eq!(rt; whole.read(&mut buf), Ok(2));
    assert_eq!(rt; whole.left().len(), 0);
    Ok(())
}

#[test]
fn new_sinks_hold_nothing(rt: HostRuntime) -> Result<(), Fail> {
    let alloc = rt.alloc();
    assert_eq!(rt; MemSink::new(alloc, 16)?.bytes().len(), 0);
    let failing = FailSink::new(alloc, 16, 1, Vec::new(alloc))?;
    assert_eq!(rt; failing.bytes().len(), 0);
    Ok(())
}

#[test]
fn the_edges_pass_bytes_on(rt: HostRuntime) -> Result<(), Fail> {
    let mut source = ReadEdge::new(b"hello".as_slice());
    let mut buf = [0u8; 8];
    assert_eq!(rt; fill(&mut source, &mut buf), Ok(5));
    assert_eq!(rt; buf, *b"hello\0\0\0");
    let mut out = WriteEdge::new(Vec::new(rt.alloc()));
    assert_eq!(rt; write_all(&mut out, b"hello"), Ok(()));
    Ok(())
}

/// A reader of `left` bytes and a writer that counts bytes. A signal interrupts every other call, from the first on.
#[derive(Drop)]
struct Interrupted {
    left: u8,
    written: usize,
    interrupts: bool,
}

impl Interrupted {
    fn turn(&mut self) -> io::Result<()> {
        self.interrupts = !self.interrupts;
        if self.interrupts {
            return Err(ErrorKind::Interrupted.into());
        }
        Ok(())
    }
}

impl Read for Interrupted {
    fn read(&mut self, buf: &mut [u8]) -> io::Result<usize> {
        self.turn()?;
        if self.left == 0 || buf.is_empty() {
            return Ok(0);
        }
        buf[0] = self.left;
        self.left -= 1;
        Ok(1)
    }
}

impl Write for Interrupted {
    fn write(&mut self, buf: &[u8]) -> io::Result<usize> {
        self.turn()?;
        self.written = self.written.saturating_add(buf.len());
        Ok(buf.len())
    }

    fn flush(&mut self) -> io::Result<()> {
        Ok(())
    }
}

#[test]
fn an_interrupted_call_is_made_again(rt: HostRuntime) -> Result<(), Fail> {
    let mut device = Interrupted {
        left: 3,
        written: 0,
        interrupts: false,
    };
    let mut source = ReadEdge::new(&mut device);
    let mut buf = [0u8; 8];
    assert_eq!(rt; fill(&mut source, &mut buf), Ok(3));
    assert_eq!(rt; buf, [3, 2, 1, 0, 0, 0, 0, 0]);
    let mut out = WriteEdge::new(&mut device);
    assert_eq!(rt; write_all(&mut out, b"hello"), Ok(()));
    assert_eq!(rt; device.written, 5);
    Ok(())
}
