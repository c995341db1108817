//! The ends of the outside: where bytes come from and where they go, and the places where a schedule may hold a thread.
ghost use Rattle.std.specs.Prelude.{◌≡◌, ℕ, ◌+◌, ◌<◌, ◌≤◌, ◌↔◌, List, [], ◌++◌, None, Some, length, min, drop, IfOk, IfSome, OnOk, OnErr, IsErr, IsTrue, is_ok, if◌then◌else◌};
ghost use Rattle.std.specs.declared.option.Option.{Option};
ghost use Rattle.std.specs.Io.KnownBytes.{prepend_known, append_known};
ghost use Rattle.napi_types.specs.plain.Edge.{HasRisen, bytes_moved, CallPlan, opening_plan, fails_next, counted, count_call, count_fault};

use crate::Failed;
use std::alloc::Global;
use std::io::{Cursor, Read};
use std::marker::Model;
use std::sync::Wait;

/// Where the program's input comes from.
///
/// `left` are the bytes that are left to read, which an implementation may leave untold. `faults` is a count that never falls.
pub trait Source {
    ghost left: { Self → Option (List ℕ) };

    ghost faults: { Self → ℕ };

    /// Reads bytes into the front of `into` and answers how many. For a piece that is not empty 0 is the end of the input.
    ///
    /// It fails where the count of faults rose and nowhere else, and then nothing was read.
    fn read(&mut self, into: &mut [u8]) -> Result<usize, Failed>
        ensures within { IfOk result (λ n. n ≤ length into.new) }
        ensures gives { left self.old ≡ prepend_known (bytes_moved result into.new) (left self.new) }
        ensures end { IfOk result (λ n. 0 < length into.new →
            IfSome (left self.old) (λ bytes. (n ≡ 0) ↔ (bytes ≡ []))) }
        ensures failed { OnErr result (HasRisen (faults self.old) (faults self.new)) }
        ensures counted { OnOk result (faults self.new ≡ faults self.old) }
        ensures faults { faults self.old ≤ faults self.new };
}

/// Where the program's output goes.
///
/// `taken` are the bytes that it took, which an implementation may leave untold. `faults` is a count that never falls.
pub trait Sink {
    ghost taken: { Self → Option (List ℕ) };

    ghost faults: { Self → ℕ };

    /// Takes bytes from the front of `from` and answers how many: at least one, where there is one.
    ///
    /// It fails where the count of faults rose and nowhere else, and then nothing was taken.
    fn write(&mut self, from: &[u8]) -> Result<usize, Failed>
        ensures within { IfOk result (λ n. n ≤ length from.now) }
        ensures some { IfOk result (λ n. 0 < length from.now → 0 < n) }
        ensures takes { taken self.new ≡ append_known (taken self.old) (bytes_moved result from.now) }
        ensures failed { OnErr result (HasRisen (faults self.old) (faults self.new)) }
        ensures counted { OnOk result (faults self.new ≡ faults self.old) }
        ensures faults { faults self.old ≤ faults self.new };
}

/// Places at which a test may hold a thread until the test lets it go. No contract depends on them.
pub trait Gate: Sync {
    /// Called by the actor with this pass number. Point 1 is between a worker's start of a job and its execution,
    /// point 2 before each operation of a script's thread.
    fn at<R: Wait>(&self, rt: &R, actor: u32, point: u32);

    /// Whether it holds nobody at point 2. Then no thread need come there, and a thread may make several operations while it holds the turn of
    /// the hub's lock.
    fn is_open(&self) -> bool {
        false
    }
}

/// A gate that holds nobody.
#[derive(Clone, Copy)]
pub struct OpenGate;

impl Gate for OpenGate {
    fn at<R: Wait>(&self, _rt: &R, _actor: u32, _point: u32) {}

    fn is_open(&self) -> bool {
        true
    }
}

/// Which calls are to fail, how many were made, and how many failed. Both counts stop at their greatest number.
#[derive(Drop)]
struct PlannedCalls {
    failing: Vec<u64>,
    made: u64,
    faults: u64,
}

impl Model for PlannedCalls {
    ghost use Rattle.napi_types.specs.plain.Edge.{CallPlan};

    ghost Value = { CallPlan };

    ghost view = { λ calls. record { failing = calls.failing.items; made = calls.made; faults = calls.faults } };
}

impl PlannedCalls {
    fn new(failing: Vec<u64>) -> PlannedCalls
        ensures { result ≡ opening_plan failing.items }
    {
        PlannedCalls {
            failing,
            made: 0,
            faults: 0,
        }
    }

    /// Counts a call, and a fault where this call is to fail.
    fn next(&mut self) -> Result<(), Failed>
        ensures fails { IsTrue (fails_next self.old) ↔ IsErr result }
        ensures counted { self.new ≡ counted self.old }
        ensures failed { OnErr result (HasRisen self.old.faults self.new.faults) }
        ensures faults { self.old.faults ≤ self.new.faults }
    {
        let fails = self.failing.contains(&self.made);
        self.made = self.made.saturating_add(1);
        if fails { Err(self.fault()) } else { Ok(()) }
    }

    fn fault(&mut self) -> Failed
        ensures counted { self.new ≡ count_fault self.old }
        ensures faults { self.old.faults ≤ self.new.faults }
    {
        self.faults = self.faults.saturating_add(1);
        Failed
    }
}

/// A source in memory, of which the calls with these numbers fail.
#[derive(Drop)]
pub struct MemSource {
    bytes: Cursor<Vec<u8>>,
    calls: PlannedCalls,
}

impl Model for MemSource {
    ghost use Rattle.std.specs.Prelude.{drop};
    ghost use Rattle.std.specs.Io.Cursor.{cursor_inner, cursor_position};
    ghost use Rattle.napi_types.specs.plain.Edge.{SourceInMemory};

    ghost Value = { SourceInMemory };

    ghost view = { λ source. record {
      left = drop (cursor_position source.bytes) (cursor_inner source.bytes).items;
      calls = source.calls;
    } };
}

impl MemSource {
    /// A source of these bytes. `failing` are the numbers of the calls that are to fail, counted from 0.
    pub fn of(bytes: Vec<u8>, failing: Vec<u64>) -> MemSource
        ensures { result ≡ record { left = bytes.items; calls = opening_plan failing.items } }
    {
        MemSource {
            bytes: Cursor::new(bytes),
            calls: PlannedCalls::new(failing),
        }
    }
}

impl Source for MemSource {
    ghost left = { λ source. Some source.left };

    ghost faults = { λ source. source.calls.faults };

    fn read(&mut self, into: &mut [u8]) -> Result<usize, Failed>
        ensures within { IfOk result (λ n. n ≤ length into.new) }
        ensures gives { self.old.left ≡ bytes_moved result into.new ++ self.new.left }
        ensures end { IfOk result (λ n. 0 < length into.new → (n ≡ 0) ↔ (self.old.left ≡ [])) }
        ensures fails { IsTrue (fails_next self.old.calls) ↔ IsErr result }
        ensures counted { self.new.calls ≡ counted self.old.calls }
        ensures failed { OnErr result (HasRisen self.old.calls.faults self.new.calls.faults) }
        ensures faults { self.old.calls.faults ≤ self.new.calls.faults }
    {
        self.calls.next()?;
        match self.bytes.read(into) {
            Ok(n) => Ok(n),
            Err(_) => unreachable!(),
        }
    }
}

/// A source in memory that never fails.
#[derive(Drop)]
pub struct SafeSource {
    bytes: Cursor<Vec<u8>>,
}

impl Model for SafeSource {
    ghost use Rattle.std.specs.Prelude.{List, ℕ, drop};
    ghost use Rattle.std.specs.Io.Cursor.{cursor_inner, cursor_position};

    ghost Value = { List ℕ };

    ghost view = { λ source. drop (cursor_position source.bytes) (cursor_inner source.bytes).items };
}

impl SafeSource {
    /// A source of these bytes.
    pub fn of(bytes: Vec<u8>) -> SafeSource
        ensures { result ≡ bytes.items }
    {
        SafeSource {
            bytes: Cursor::new(bytes),
        }
    }
}

impl Source for SafeSource {
    ghost left = { λ source. Some source };

    ghost faults = { λ _. 0 };

    fn read(&mut self, into: &mut [u8]) -> Result<usize, Failed> {
        match self.bytes.read(into) {
            Ok(n) => Ok(n),
            Err(_) => unreachable!(),
        }
    }
}

/// A sink in memory, which takes at most so many bytes in one call, and of which the calls with these numbers fail.
#[derive(Drop)]
pub struct MemSink {
    bytes: Vec<u8>,
    greatest: usize,
    calls: PlannedCalls,
}

impl Model for MemSink {
    ghost use Rattle.std.specs.Prelude.{◌<◌};
    ghost use Rattle.napi_types.specs.plain.Edge.{SinkInMemory};

    ghost Value = { SinkInMemory };

    ghost view = { λ sink. record { taken = sink.bytes.items; greatest = sink.greatest; calls = sink.calls } };

    ghost invariant = { λ sink. 0 < sink.greatest };
}

impl MemSink {
    /// An empty sink that takes at most `greatest` bytes in one call. `failing` are the numbers of the calls that are
    /// to fail, counted from 0.
    pub fn new(alloc: Global, greatest: usize, failing: Vec<u64>) -> MemSink
        requires { 0 < greatest }
        ensures { result ≡ record { taken = []; greatest = greatest; calls = opening_plan failing.items } }
    {
        MemSink {
            bytes: Vec::new(alloc),
            greatest,
            calls: PlannedCalls::new(failing),
        }
    }

    /// The bytes that it took.
    pub fn bytes(&self) -> &[u8]
        ensures { result.now ≡ self.now.taken }
    {
        &self.bytes
    }
}

impl Sink for MemSink {
    ghost taken = { λ sink. Some sink.taken };

    ghost faults = { λ sink. sink.calls.faults };

    /// It fails where this call is to fail, and where it finds no memory for the bytes.
    fn write(&mut self, from: &[u8]) -> Result<usize, Failed>
        ensures within { IfOk result (λ n. n ≡ min (length from.now) self.old.greatest) }
        ensures some { IfOk result (λ n. 0 < length from.now → 0 < n) }
        ensures takes { self.new.taken ≡ self.old.taken ++ bytes_moved result from.now }
        ensures fails { IsTrue (fails_next self.old.calls) → IsErr result }
        ensures counted { self.new.calls ≡ (if is_ok result then count_call self.old.calls else count_fault (count_call self.old.calls)) }
        ensures greatest { self.new.greatest ≡ self.old.greatest }
        ensures failed { OnErr result (HasRisen self.old.calls.faults self.new.calls.faults) }
        ensures faults { self.old.calls.faults ≤ self.new.calls.faults }
    {
        self.calls.next()?;
        let count = from.len().min(self.greatest);
        match self.bytes.extend_from_slice(&from[..count]) {
            Ok(()) => Ok(count),
            Err(_) => Err(self.calls.fault()),
        }
    }
}

/// A sink that takes all that it is given, keeps nothing and never fails. It tells nothing of what it took.
#[derive(Clone, Copy)]
pub struct SafeSink;

impl Sink for SafeSink {
    ghost taken = { λ _. None };

    ghost faults = { λ _. 0 };

    fn write(&mut self, from: &[u8]) -> Result<usize, Failed>
        ensures { result ≡ Ok (length from.now) }
    {
        Ok(from.len())
    }
}
