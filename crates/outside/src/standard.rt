//! The ends of the outside over a reader and a writer, as over standard input and output.
//! They tell nothing of the bytes: what the system gives and takes, no contract can say.
ghost use Rattle.std.specs.Prelude.{◌≡◌, ◌+◌, ◌<◌, ◌≤◌, None, min, length, is_ok, IfOk, OnErr, if◌then◌else◌};
ghost use Rattle.std.specs.Io.KnownBytes.{ReadConsumes, WriteAppends};
ghost use Rattle.napi_types.specs.plain.Edge.{HasRisen, last_count};

use napi_types::{Failed, Sink, Source};
use std::io::{Read, Write};
use std::marker::Model;

/// A source over a reader, as over standard input. It counts the reads that failed.
#[derive(Drop)]
pub struct StdSource<I> {
    input: I,
    faults: u64,
}

impl<I> Model for StdSource<I> {
    ghost use Rattle.outside.specs.Standard.{Counted};

    ghost Value = { Counted I };

    ghost view = { λ source. record { end = source.input; faults = source.faults } };
}

impl<I: Read> StdSource<I> {
    /// A source that gives what this reader gives.
    pub fn new(input: I) -> StdSource<I>
        ensures { result ≡ record { end = input; faults = 0 } }
    {
        StdSource { input, faults: 0 }
    }
}

impl<I: Read> Source for StdSource<I> {
    ghost left = { λ _. None };

    ghost faults = { λ source. source.faults };

    /// It fails where the reader fails. A read that fails raises the count, and no other does.
    fn read(&mut self, into: &mut [u8]) -> Result<usize, Failed>
        ensures within { IfOk result (λ n. n ≤ length into.new) }
        ensures bytes { ReadConsumes (I.remaining self.old.end) (I.remaining self.new.end) result into.new }
        ensures counted { self.new.faults ≡ (if is_ok result then self.old.faults else min (self.old.faults + 1) last_count) }
        ensures failed { OnErr result (HasRisen self.old.faults self.new.faults) }
        ensures faults { self.old.faults ≤ self.new.faults }
    {
        match self.input.read(into) {
            Ok(count) => Ok(count),
            Err(_) => {
                self.faults = self.faults.saturating_add(1);
                Err(Failed)
            }
        }
    }
}

/// A sink over a writer that keeps nothing back, as over standard output. It counts the writes that failed.
#[derive(Drop)]
pub struct StdSink<O> {
    output: O,
    faults: u64,
}

impl<O> Model for StdSink<O> {
    ghost use Rattle.outside.specs.Standard.{Counted};

    ghost Value = { Counted O };

    ghost view = { λ sink. record { end = sink.output; faults = sink.faults } };
}

impl<O: Write> StdSink<O> {
    /// A sink that gives what it takes to this writer.
    pub fn new(output: O) -> StdSink<O>
        ensures { result ≡ record { end = output; faults = 0 } }
    {
        StdSink { output, faults: 0 }
    }
}

impl<O: Write> Sink for StdSink<O> {
    ghost taken = { λ _. None };

    ghost faults = { λ sink. sink.faults };

    /// It fails where the writer fails, and where the writer takes none of the bytes. A write that fails raises the
    /// count, and no other does.
    fn write(&mut self, from: &[u8]) -> Result<usize, Failed>
        ensures within { IfOk result (λ n. n ≤ length from.now) }
        ensures some { IfOk result (λ n. 0 < length from.now → 0 < n) }
        ensures bytes { WriteAppends (O.contents self.old.end) (O.contents self.new.end) result from.now }
        ensures counted { self.new.faults ≡ (if is_ok result then self.old.faults else min (self.old.faults + 1) last_count) }
        ensures failed { OnErr result (HasRisen self.old.faults self.new.faults) }
        ensures faults { self.old.faults ≤ self.new.faults }
    {
        match self.output.write(from) {
            Ok(count) if count > 0 || from.is_empty() => Ok(count),
            _ => {
                self.faults = self.faults.saturating_add(1);
                Err(Failed)
            }
        }
    }
}
