//! Whole inputs and texts, over objects that fail and objects that take one byte at a time.

use crate::fault::{ReadEnd, SinkFault};
use crate::memory::{MemSink, MemSource};
use crate::sink::{WAITING_LIMIT, put_all, put_waiting};
use crate::source::read_all;
use crate::standard::{StdSink, StdSource};
use crate::sure::{SureSink, SureSource, put_surely, read_surely};
use std::alloc::{AllocError, Global};
use std::io;
use std::io::{Read, Write};
use std::test::Fail;

#[test]
fn reads_all(rt: HostRuntime) -> Result<(), Fail> {
    for most in [1, 7, 100] {
        let bytes = b"emit S;".to_vec(rt.alloc())?;
        let mut source = MemSource::in_steps(bytes, Vec::new(rt.alloc()), most);
        let read = read_all(rt.alloc(), &mut source, 7)?;
        assert_eq!(rt; read.as_slice(), b"emit S;".as_slice());
        assert_eq!(rt; source.faults(), 0);
        assert_eq!(rt; source.ends(), 1);
    }
    let mut source = MemSource::new(b"emit S;".to_vec(rt.alloc())?, Vec::new(rt.alloc()));
    assert!(rt; matches!(read_all(rt.alloc(), &mut source, 6), Err(ReadEnd::TooLong)));
    assert_eq!(rt; source.ends(), 0);
    Ok(())
}

#[test]
fn tells_a_failed_read(rt: HostRuntime) -> Result<(), Fail> {
    for call in 0..4 {
        let bytes = b"emit".to_vec(rt.alloc())?;
        let mut source = MemSource::in_steps(bytes, vec![in rt.alloc(); call]?, 1);
        assert!(rt; matches!(read_all(rt.alloc(), &mut source, 100), Err(ReadEnd::Fault)));
        assert_eq!(rt; source.faults(), 1);
    }
    Ok(())
}

#[test]
fn puts_all(rt: HostRuntime) -> Result<(), Fail> {
    let mut sink = MemSink::in_steps(rt.alloc(), Vec::new(rt.alloc()), 1);
    put_all(&mut sink, b"ready\n")?;
    assert_eq!(rt; sink.as_bytes(), b"ready\n".as_slice());
    let mut sink = MemSink::in_steps(rt.alloc(), vec![in rt.alloc(); 2]?, 1);
    assert!(rt; matches!(put_all(&mut sink, b"ready\n"), Err(SinkFault::Failed)));
    assert_eq!(rt; sink.faults(), 1);
    assert_eq!(rt; sink.into_bytes().as_slice(), b"re".as_slice());
    Ok(())
}

fn text(alloc: Global, len: usize) -> Result<Vec<u8>, AllocError> {
    vec![in alloc; b'x'; len]
}

#[test]
fn puts_what_waits(rt: HostRuntime) -> Result<(), Fail> {
    for (more, written) in [(0, WAITING_LIMIT), (1, WAITING_LIMIT + 1)] {
        let mut sink = MemSink::new(rt.alloc(), Vec::new(rt.alloc()));
        let mut waiting = text(rt.alloc(), WAITING_LIMIT - 1)?;
        put_waiting(&mut sink, &mut waiting)?;
        assert_eq!(rt; sink.as_bytes().len(), 0);
        for _ in 0..more + 1 {
            waiting.push(b'y')?;
        }
        put_waiting(&mut sink, &mut waiting)?;
        assert_eq!(rt; sink.as_bytes().len(), written);
        assert_eq!(rt; waiting.len(), 0);
    }
    Ok(())
}

#[test]
fn never_fails(rt: HostRuntime) -> Result<(), Fail> {
    let mut source = SureSource::new(b"tick".to_vec(rt.alloc())?);
    let read = read_surely(rt.alloc(), &mut source, 10)?;
    let mut sink = SureSink::new(rt.alloc());
    put_surely(&mut sink, &read)?;
    assert_eq!(rt; sink.into_bytes().as_slice(), b"tick".as_slice());
    Ok(())
}

/// A reader that gives two bytes and then fails.
#[derive(Drop)]
struct Breaks {
    given: bool,
}

impl Read for Breaks {
    fn read(&mut self, buf: &mut [u8]) -> io::Result<usize> {
        if self.given || buf.len() < 2 {
            return Err(io::Error::from(io::ErrorKind::BrokenPipe));
        }
        self.given = true;
        buf[0] = b'h';
        buf[1] = b'i';
        Ok(2)
    }
}

/// A writer that takes nothing.
#[derive(Drop)]
struct Full;

impl Write for Full {
    fn write(&mut self, _buf: &[u8]) -> io::Result<usize> {
        Ok(0)
    }

    fn flush(&mut self) -> io::Result<()> {
        Ok(())
    }
}

#[test]
fn adapts_std(rt: HostRuntime) -> Result<(), Fail> {
    let mut source = StdSource::new(b"tick".as_slice());
    let read = read_all(rt.alloc(), &mut source, 10)?;
    let mut sink = StdSink::new(Vec::new(rt.alloc()));
    put_all(&mut sink, &read)?;
    assert_eq!(rt; sink.into_writer().as_slice(), b"tick".as_slice());
    let mut source = StdSource::new(Breaks { given: false });
    assert!(rt; matches!(read_all(rt.alloc(), &mut source, 10), Err(ReadEnd::Fault)));
    assert_eq!(rt; source.faults(), 1);
    let mut sink = StdSink::new(Full);
    assert!(rt; matches!(put_all(&mut sink, b"x"), Err(SinkFault::Failed)));
    assert_eq!(rt; sink.faults(), 1);
    put_all(&mut sink, b"")?;
    assert_eq!(rt; sink.faults(), 1);
    Ok(())
}
