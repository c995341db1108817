//! Pieces of a text on their way to a sink, held until there are enough of them for a write.
ghost use Rattle.std.specs.Prelude.{◌≡◌, ◌+◌, ◌≤◌, ◌↔◌, IsTrue, true, false, [], ◌++◌, length, take, decimal};
ghost use Rattle.trace_text.specs.Writing.{Adds, stand};

use crate::number::{DIGITS, LineNumber};
use crate::put::put_all;
use napi_types::{Failed, Sink};
use std::marker::Model;

/// How many bytes may wait.
const ROOM: usize = 32_768;

/// The bytes that wait to be written, and the mark that the writing failed. Those that wait after a fault are never written.
#[derive(Drop)]
pub struct Pending {
    bytes: [u8; ROOM],
    filled: usize,
    failed: bool,
}

impl Model for Pending {
    ghost use Rattle.std.specs.Prelude.{◌≤◌, take};
    ghost use Rattle.trace_text.specs.Writing.{Waiting};

    ghost Value = { Waiting };

    ghost view = { λ pending. record { bytes = take pending.filled pending.bytes; failed = pending.failed } };

    ghost invariant = { λ pending. pending.filled ≤ 32768 };
}

impl Pending {
    /// No bytes wait, and nothing failed.
    pub fn new() -> Pending
        ensures { result ≡ record { bytes = []; failed = false } }
    {
        Pending {
            bytes: [0; ROOM],
            filled: 0,
            failed: false,
        }
    }

    /// Whether the writing failed.
    pub fn has_failed(&self) -> bool
        ensures { result ≡ self.now.failed }
    {
        self.failed
    }

    /// Whether so many bytes more may wait.
    fn has_room(&self, count: usize) -> bool
        ensures { IsTrue result ↔ (length self.now.bytes + count ≤ 32768) }
    {
        count <= ROOM && self.filled <= ROOM - count
    }

    /// The bytes that wait.
    fn waiting(&self) -> &[u8]
        ensures { result.now ≡ self.now.bytes }
    {
        &self.bytes[..self.filled]
    }

    /// Lets bytes wait behind those that wait.
    fn hold(&mut self, bytes: &[u8])
        requires { length self.old.bytes + length bytes.now ≤ 32768 }
        ensures { self.new ≡ record self.old { bytes = self.old.bytes ++ bytes.now } }
    {
        let end = self.filled + bytes.len();
        self.bytes[self.filled..end].copy_from_slice(bytes);
        self.filled = end;
    }

    /// Lets a word wait behind those that wait. The copy of its own cannot overlap them, which spares a test of that.
    #[inline(always)]
    fn hold_word<const N: usize>(&mut self, word: &[u8; N])
        requires { length self.old.bytes + N ≤ 32768 }
        ensures { self.new ≡ record self.old { bytes = self.old.bytes ++ word.now } }
    {
        let word = *word;
        self.bytes[self.filled..self.filled + N].copy_from_slice(&word);
        self.filled += N;
    }

    /// Lets the digits of a number wait behind those that wait.
    #[inline(always)]
    fn hold_digits(&mut self, number: &LineNumber)
        requires { length self.old.bytes + 20 ≤ 32768 }
        ensures { self.new ≡ record self.old { bytes = self.old.bytes ++ decimal number.now } }
    {
        let end = self.waiting().len() + number.count();
        self.hold_word(number.digits());
        self.keep(end);
    }

    /// Lets only the first of the bytes that wait wait on.
    fn keep(&mut self, count: usize)
        requires { count ≤ length self.old.bytes }
        ensures { self.new ≡ record self.old { bytes = take count self.old.bytes } }
    {
        self.filled = count;
    }

    /// Lets no bytes wait any more, and notes whether the writing failed.
    fn clear(&mut self, failed: bool)
        ensures { self.new ≡ record { bytes = []; failed = failed } }
    {
        self.filled = 0;
        self.failed = failed;
    }
}

/// Writes the bytes that wait.
pub fn write_out<K: Sink>(sink: &mut K, pending: &mut Pending)
    ensures added { Adds (stand (K.taken sink.old) (K.faults sink.old) pending.old) []
        (stand (K.taken sink.new) (K.faults sink.new) pending.new) }
    ensures none { pending.new.bytes ≡ [] }
{
    if pending.has_failed() {
        pending.clear(true);
        return;
    }
    match put_all(sink, pending.waiting()) {
        Ok(()) => pending.clear(false),
        Err(Failed) => pending.clear(true),
    }
}

/// Adds a piece to a text, unless the writing failed before. It waits for a write, which may mark a fault.
#[inline(always)]
pub fn add<K: Sink>(sink: &mut K, pending: &mut Pending, bytes: &[u8])
    ensures { Adds (stand (K.taken sink.old) (K.faults sink.old) pending.old) bytes.now
        (stand (K.taken sink.new) (K.faults sink.new) pending.new) }
{
    if pending.has_room(bytes.len()) {
        pending.hold(bytes);
        return;
    }
    add_behind_a_write(sink, pending, bytes);
}

/// Adds a word: a piece whose length is known beforehand.
#[inline(always)]
pub fn add_word<K: Sink, const N: usize>(sink: &mut K, pending: &mut Pending, word: &[u8; N])
    ensures { Adds (stand (K.taken sink.old) (K.faults sink.old) pending.old) word.now
        (stand (K.taken sink.new) (K.faults sink.new) pending.new) }
{
    if pending.has_room(N) {
        pending.hold_word(word);
        return;
    }
    add_behind_a_write(sink, pending, word);
}

/// Adds the number of a line.
#[inline(always)]
pub fn add_line_number<K: Sink>(sink: &mut K, pending: &mut Pending, number: &LineNumber)
    ensures { Adds (stand (K.taken sink.old) (K.faults sink.old) pending.old) (decimal number.now)
        (stand (K.taken sink.new) (K.faults sink.new) pending.new) }
{
    if pending.has_room(DIGITS) {
        pending.hold_digits(number);
        return;
    }
    add_behind_a_write(sink, pending, number.text());
}

/// Adds a piece once those that wait are written.
#[cold]
#[inline(never)]
fn add_behind_a_write<K: Sink>(sink: &mut K, pending: &mut Pending, bytes: &[u8])
    ensures { Adds (stand (K.taken sink.old) (K.faults sink.old) pending.old) bytes.now
        (stand (K.taken sink.new) (K.faults sink.new) pending.new) }
{
    write_out(sink, pending);
    add_first(sink, pending, bytes);
}

/// Adds a piece where none waits. One that is longer than may wait is written at once.
fn add_first<K: Sink>(sink: &mut K, pending: &mut Pending, bytes: &[u8])
    requires { pending.old.bytes ≡ [] }
    ensures { Adds (stand (K.taken sink.old) (K.faults sink.old) pending.old) bytes.now
        (stand (K.taken sink.new) (K.faults sink.new) pending.new) }
{
    if pending.has_room(bytes.len()) {
        pending.hold(bytes);
        return;
    }
    if pending.has_failed() {
        return;
    }
    match put_all(sink, bytes) {
        Ok(()) => pending.clear(false),
        Err(Failed) => pending.clear(true),
    }
}
