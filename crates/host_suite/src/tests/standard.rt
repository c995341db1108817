//! The ends over a reader and a writer.
use super::*;
use napi_types::{Sink, Source};
use script_host::{StdSink, StdSource};
use std::io;
use std::io::{ErrorKind, Read, Write};

/// An end that fails at each call.
#[derive(Drop)]
struct Broken;

impl Read for Broken {
    fn read(&mut self, _buf: &mut [u8]) -> io::Result<usize> {
        Err(io::Error::from(ErrorKind::BrokenPipe))
    }
}

impl Write for Broken {
    fn write(&mut self, _buf: &[u8]) -> io::Result<usize> {
        Err(io::Error::from(ErrorKind::BrokenPipe))
    }

    fn flush(&mut self) -> io::Result<()> {
        Ok(())
    }
}

/// A writer that takes no byte and reports no error.
#[derive(Drop)]
struct Idle;

impl Write for Idle {
    fn write(&mut self, _buf: &[u8]) -> io::Result<usize> {
        Ok(0)
    }

    fn flush(&mut self) -> io::Result<()> {
        Ok(())
    }
}

/// What a read of four bytes answers: how many it gave, and the bytes.
fn read_four<S: Source>(source: &mut S) -> (Option<usize>, [u8; 4]) {
    let mut piece = [0; 4];
    (source.read(&mut piece).ok(), piece)
}

#[test]
fn a_source_fails_where_its_reader_does(rt: HostRuntime) {
    let mut whole = StdSource::new(b"abcdef".as_slice());
    let found = [
        read_four(&mut whole),
        read_four(&mut whole),
        read_four(&mut whole),
        read_four(&mut StdSource::new(Broken)),
    ];
    let expected = [
        (Some(4), *b"abcd"),
        (Some(2), *b"ef\0\0"),
        (Some(0), [0; 4]),
        (None, [0; 4]),
    ];
    assert_eq!(rt; found, expected);
}

/// How many of the first bytes, and then of the second ones, a sink takes, where it does not fail.
fn write_both<K: Sink>(
    sink: &mut K,
    first: &[u8],
    second: &[u8],
) -> (Option<usize>, Option<usize>) {
    (sink.write(first).ok(), sink.write(second).ok())
}

#[test]
fn a_sink_fails_where_its_writer_does_or_takes_nothing(rt: HostRuntime) {
    let mut taken = Vec::new(rt.alloc());
    let counts = [
        write_both(&mut StdSink::new(&mut taken), b"abc", b"de"),
        write_both(&mut StdSink::new(Broken), b"abc", b""),
        write_both(&mut StdSink::new(Idle), b"abc", b""),
    ];
    let expected = [(Some(3), Some(2)), (None, None), (None, Some(0))];
    assert_eq!(rt; (counts, taken.as_slice()), (expected, b"abcde".as_slice()));
}
