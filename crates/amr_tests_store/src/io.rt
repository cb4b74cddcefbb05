//! What no clause says: that the calls succeed, and what stands at each call that fails.

use amr_io::{
    MemSink, MemSource, ReadAll, Sink, StdSink, StdSource, WriteFault, read_all, write_whole,
};
use std::alloc::Global;
use std::io::{self, Read, Write};
use std::test::Fail;

const BYTES: &[u8] = b"block-structured";

/// Sixteen reads give a byte each, and the next one is the end. A fault at one of them takes no byte.
#[test]
fn reads_of_one_byte_and_a_fault_at_each(rt: HostRuntime) {
    for call in 1..=18u64 {
        let mut src = MemSource::make(rt.alloc(), BYTES, 1, &[call]).expect(&rt, "memory");
        if call <= 17 {
            let fault = read_all(rt.alloc(), &mut src, BYTES.len()).err();
            assert_eq!(rt; fault, Some(ReadAll::ReadFault), "at call {call}");
        }
        let left = if call <= 17 { call as usize - 1 } else { 0 };
        let rest = read_all(rt.alloc(), &mut src, BYTES.len()).expect(&rt, "the rest");
        assert_eq!(rt; rest.as_slice(), &BYTES[left..], "left at call {call}");
    }
}

/// Sixteen writes take a byte each. A fault at one of them leaves what is held.
#[test]
fn writes_of_one_byte_and_a_fault_at_each(rt: HostRuntime) {
    for call in 1..=17u64 {
        let mut sink = MemSink::make(rt.alloc(), 16, 1, &[call]).expect(&rt, "memory");
        let done = write_whole(&mut sink, BYTES);
        assert_eq!(rt; done.is_err(), call <= 16, "at call {call}");
        assert_eq!(rt;
            sink.bytes(),
            &BYTES[..call as usize - 1],
            "held at call {call}"
        );
    }
}

/// A reader and a writer that pass a byte a call. The second call fails, and from the fourth on none is passed.
#[derive(Drop)]
struct Flaky {
    calls: u32,
}

impl Flaky {
    fn next(&mut self) -> io::Result<usize> {
        self.calls = self.calls.saturating_add(1);
        match self.calls {
            1 | 3 => Ok(1),
            2 => Err(io::ErrorKind::BrokenPipe.into()),
            _ => Ok(0),
        }
    }
}

impl Read for Flaky {
    fn read(&mut self, into: &mut [u8]) -> io::Result<usize> {
        Ok(self.next()?.min(into.len()))
    }
}

impl Write for Flaky {
    fn write(&mut self, chunk: &[u8]) -> io::Result<usize> {
        Ok(self.next()?.min(chunk.len()))
    }

    fn flush(&mut self) -> io::Result<()> {
        Ok(())
    }
}

#[test]
fn source_over_a_reader(rt: HostRuntime) -> Result<(), Fail> {
    let alloc = rt.alloc();
    let mut src = StdSource::make(BYTES);
    let all = read_all(alloc, &mut src, 16).expect(&rt, "the bytes");
    assert_eq!(rt; all.as_slice(), BYTES);
    let mut src = StdSource::make(Flaky { calls: 0 });
    assert_eq!(rt;
        read_all(alloc, &mut src, 16).err(),
        Some(ReadAll::ReadFault)
    );
    assert_eq!(rt; read_all(alloc, &mut src, 16).map(|all| all.len()), Ok(1));
    Ok(())
}

#[test]
fn sink_over_a_writer(rt: HostRuntime) -> Result<(), Fail> {
    let mut held = Vec::new(rt.alloc());
    let mut sink = StdSink::make(&mut held);
    assert_eq!(rt; write_whole(&mut sink, BYTES), Ok(()));
    drop(sink);
    assert_eq!(rt; held.as_slice(), BYTES);
    let mut sink = StdSink::make(Flaky { calls: 0 });
    for told in [Ok(1), Err(WriteFault), Ok(1), Err(WriteFault)] {
        assert_eq!(rt; sink.write(BYTES), told);
    }
    Ok(())
}

/// A reader and a writer that pass `size` bytes, and one more each call.
#[derive(Drop)]
struct OneMore<'a> {
    rest: &'a [u8],
    size: usize,
}

impl Read for OneMore<'_> {
    fn read(&mut self, into: &mut [u8]) -> io::Result<usize> {
        let n = self.size.min(into.len()).min(self.rest.len());
        into[..n].copy_from_slice(&self.rest[..n]);
        self.rest = &self.rest[n..];
        self.size = self.size.saturating_add(1);
        Ok(n)
    }
}

#[derive(Drop)]
struct TakesMore {
    held: Vec<u8>,
    size: usize,
}

impl Write for TakesMore {
    fn write(&mut self, chunk: &[u8]) -> io::Result<usize> {
        let n = self.size.min(chunk.len());
        match self.held.extend_from_slice(&chunk[..n]) {
            Ok(()) => {}
            Err(_) => return Err(io::ErrorKind::OutOfMemory.into()),
        }
        self.size = self.size.saturating_add(1);
        Ok(n)
    }

    fn flush(&mut self) -> io::Result<()> {
        Ok(())
    }
}

/// So many bytes, no two neighbours the same.
fn counting_bytes(alloc: Global, n: usize) -> Result<Vec<u8>, Fail> {
    let mut bytes = Vec::with_capacity(alloc, n)?;
    for i in 0..n {
        bytes.push((i % 251) as u8)?;
    }
    Ok(bytes)
}

#[test]
fn chunks_of_every_size(rt: HostRuntime) -> Result<(), Fail> {
    let alloc = rt.alloc();
    let bytes = counting_bytes(alloc, 62_000)?;
    for size in [1, 4_090] {
        let mut src = StdSource::make(OneMore { rest: &bytes, size });
        let all = read_all(alloc, &mut src, 62_000).expect(&rt, "the bytes");
        assert!(rt; all == bytes, "read from {size} on");

        let mut writer = TakesMore {
            held: Vec::new(alloc),
            size,
        };
        let mut sink = StdSink::make(&mut writer);
        assert_eq!(rt; write_whole(&mut sink, &bytes), Ok(()));
        drop(sink);
        assert!(rt; writer.held == bytes, "written from {size} on");
    }
    Ok(())
}
