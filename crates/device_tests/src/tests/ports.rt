// Each call once, and what no clause shows: what interrupts a reader or a writer of std.
ghost use Rattle.std.specs.Prelude.{◌≡◌, IfOk};

use byte_ports::{MemSink, MemSource, Sink, Source, StdSink, StdSource, put_all};
use page_device::Failed;
use std::io;
use std::io::{Error, ErrorKind, Read, Write};
use std::test::Fail;

// A reader and a writer that signals interrupt twice, that moves one byte then, and is broken after that.
#[derive(Drop)]
struct Shaky {
    calls: u8,
}

impl Shaky {
    fn next(&mut self) -> io::Result<usize>
        ensures { IfOk result (λ n. n ≡ 1) }
    {
        self.calls = self.calls.saturating_add(1);
        match self.calls {
            1 | 2 => Err(Error::new(ErrorKind::Interrupted, "a signal came")),
            3 => Ok(1),
            _ => Err(Error::other("it is broken")),
        }
    }
}

impl Read for Shaky {
    fn read(&mut self, into: &mut [u8]) -> io::Result<usize> {
        if into.is_empty() {
            return Ok(0);
        }
        let count = self.next()?;
        into[0] = 7;
        Ok(count)
    }
}

impl Write for Shaky {
    fn write(&mut self, from: &[u8]) -> io::Result<usize> {
        if from.is_empty() {
            return Ok(0);
        }
        self.next()
    }

    fn flush(&mut self) -> io::Result<()> {
        Ok(())
    }
}

#[test]
fn gives_pieces(rt: HostRuntime) -> Result<(), Fail> {
    for (piece, first, second) in [(0, 1, 1), (1, 1, 1), (3, 3, 2)] {
        let bytes = b"abcde".to_vec(rt.alloc())?;
        let mut source = MemSource::new(bytes, piece, Vec::new(rt.alloc()));
        let mut into = [0; 4];
        assert_eq!(rt; source.take(&mut into), Ok(first), "in pieces of {piece}");
        assert_eq!(rt; source.take(&mut into), Ok(second), "in pieces of {piece}");
    }
    Ok(())
}

#[test]
fn fails_where_planned(rt: HostRuntime) -> Result<(), Fail> {
    let bytes = b"ab".to_vec(rt.alloc())?;
    let mut source = MemSource::new(bytes, 2, [1].to_vec(rt.alloc())?);
    let mut into = [0; 4];
    assert_eq!(rt; source.take(&mut into), Err(Failed));
    assert_eq!(rt; source.take(&mut into), Ok(2));
    assert_eq!(rt; into, [97, 98, 0, 0]);
    Ok(())
}

// Puts a whole text.
fn put_whole(sink: &mut MemSink, text: &[u8]) -> Result<(), Failed> {
    put_all(sink, text)
}

#[test]
fn collects(rt: HostRuntime) -> Result<(), Fail> {
    let mut sink = MemSink::new(rt.alloc(), [2].to_vec(rt.alloc())?);
    assert_eq!(rt; sink.reserve(5), Ok(()));
    assert_eq!(rt; put_whole(&mut sink, b"page"), Ok(()));
    assert_eq!(rt; put_whole(&mut sink, b"lost"), Err(Failed));
    assert_eq!(rt; sink.put(b"s"), Ok(1));
    assert_eq!(rt; sink.bytes(), b"pages".as_slice());
    Ok(())
}

#[test]
fn reads_a_slice(rt: HostRuntime) {
    let mut source = StdSource::telling(b"abc".as_slice());
    let mut into = [0; 2];
    assert_eq!(rt; source.take(&mut into), Ok(2));
    assert_eq!(rt; into, [97, 98]);
    assert_eq!(rt; source.take(&mut into), Ok(1));
    assert_eq!(rt; source.take(&mut into), Ok(0));
}

#[test]
fn writes_a_vector(rt: HostRuntime) {
    let mut held = Vec::new(rt.alloc());
    assert_eq!(rt; put_all(&mut StdSink::telling(&mut held), b"xyz"), Ok(()));
    assert_eq!(rt; held.as_slice(), b"xyz".as_slice());
}

#[test]
fn reads_again_after_signals(rt: HostRuntime) {
    let mut source = StdSource::new(Shaky { calls: 0 });
    let mut into = [0; 2];
    assert_eq!(rt; source.take(&mut into), Ok(1));
    assert_eq!(rt; into, [7, 0]);
    assert_eq!(rt; source.take(&mut into), Err(Failed));
}

#[test]
fn writes_again_after_signals(rt: HostRuntime) {
    let mut sink = StdSink::new(Shaky { calls: 0 });
    assert_eq!(rt; sink.put(b"ab"), Ok(1));
    assert_eq!(rt; sink.put(b"b"), Err(Failed));
}
