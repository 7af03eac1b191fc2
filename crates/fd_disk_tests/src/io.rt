//! Sources and sinks.
use fd_io::*;
use std::alloc::Global;
use std::io::{Error, ErrorKind, Read};

/// Reads once into a buffer of three octets: how many octets came, if the read didn't fail.
fn read<X: Drop, I: Source<X>>(input: &mut I) -> Option<usize> {
    let mut buffer = [0u8; 3];
    input.read(&mut buffer).ok()
}

/// Writes all the octets.
fn write<X: Drop, K: Sink<X>>(sink: &mut K, octets: &[u8]) -> bool {
    write_all(sink, octets).is_ok()
}

/// How many octets six reads of a source give that gives two at a time and fails at the second.
fn reads(alloc: Global) -> Option<[Option<usize>; 6]> {
    let mut source = MemSource::new(alloc, b"GRIB2", 2, &[2]).ok()?;
    let mut counts = [None; 6];
    for count in &mut counts {
        *count = read(&mut source);
    }
    Some(counts)
}

/// Whether a sink with room for six octets took these, the second write failing, and the last having no room.
fn takes(alloc: Global) -> Option<[bool; 3]> {
    let mut sink = MemSink::new(alloc, 6, &[2]).ok()?;
    let took = [
        write(&mut sink, b"GRIB"),
        write(&mut sink, b"7"),
        write(&mut sink, b"7777"),
    ];
    (sink.taken() == b"GRIB77".as_slice()).then_some(took)
}

/// Whether a sink that grows keeps what it took.
fn keeps(alloc: Global) -> bool {
    let mut kept = Kept::new(alloc);
    write(&mut kept, b"GRIB") && kept.bytes() == b"GRIB".as_slice()
}

#[test]
fn memory(rt: HostRuntime) {
    let want = [Some(2), None, Some(2), Some(1), Some(0), Some(0)];
    assert!(rt; reads(rt.alloc()) == Some(want));
    assert!(rt; takes(rt.alloc()) == Some([true, false, false]) && keeps(rt.alloc()));
}

/// Whether a writer of std takes the octets.
fn streams_out(alloc: Global) -> bool {
    let mut sink = StdStream::new(Vec::new(alloc));
    write(&mut sink, b"GRIB") && sink.stream.as_slice() == b"GRIB".as_slice()
}

#[test]
fn standard_streams(rt: HostRuntime) {
    let mut source = StdStream::new(b"GRIB".as_slice());
    let counts = [read(&mut source), read(&mut source)];
    assert!(rt; counts == [Some(3), Some(1)] && streams_out(rt.alloc()));
}

/// A reader whose first call a signal interrupts, and whose second one fails.
#[derive(Drop)]
struct Interrupted {
    calls: u8,
}

impl Read for Interrupted {
    fn read(&mut self, into: &mut [u8]) -> std::io::Result<usize> {
        self.calls = self.calls.saturating_add(1);
        match self.calls {
            1 => Err(Error::from(ErrorKind::Interrupted)),
            2 => Err(Error::from(ErrorKind::TimedOut)),
            _ => Ok(into.len().min(1)),
        }
    }
}

#[test]
fn interrupted_reads_are_made_again(rt: HostRuntime) {
    let mut source = StdStream::new(Interrupted { calls: 0 });
    let mut buffer = [0u8; 3];
    let is_late = match source.read(&mut buffer) {
        Err(error) => error.kind() == ErrorKind::TimedOut,
        Ok(_) => false,
    };
    assert!(rt; is_late && read(&mut source) == Some(1));
}
