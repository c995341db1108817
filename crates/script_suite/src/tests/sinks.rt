//! Bytes and traces through short writes, and what a sink has where a write failed: a prefix.
ghost use Rattle.std.specs.Prelude.{◌<◌, ◌≤◌, length};
ghost use Rattle.napi_types.specs.plain.Room.{most_entries};

use super::traces::{collect, write};
use napi_types::{Entry, Failed, MemSink, NoMemory, Out};
use std::alloc::Global;
use std::process::Abort;
use trace_text::put_all;

/// A sink that takes so many bytes a call, and fails at the call of this number, counted from 0.
fn failing_sink(rt: &impl Abort, alloc: Global, greatest: usize, failing: u64) -> MemSink
    requires { 0 < greatest }
{
    MemSink::new(
        alloc,
        greatest,
        vec![in alloc; failing].expect(rt, "memory for a number"),
    )
}

/// Of `hello world` a sink that takes four bytes a call and fails at the call of this number has these bytes.
fn check_put(rt: &impl Abort, alloc: Global, failing: u64, is_put: bool, bytes: &[u8]) {
    let mut sink = failing_sink(rt, alloc, 4, failing);
    let found = put_all(&mut sink, b"hello world").is_ok();
    assert_eq!(rt; (found, sink.bytes()), (is_put, bytes));
}

#[test]
fn bytes_pass_through_short_writes_until_a_fault(rt: HostRuntime) {
    check_put(&rt, rt.alloc(), 3, true, b"hello world");
    check_put(&rt, rt.alloc(), 1, false, b"hell");
}

/// How much such a sink has of the trace of calls, where that is not written in full, and what the sink has is a prefix of a text.
fn prefix_length(
    rt: &impl Abort,
    alloc: Global,
    greatest: usize,
    failing: u64,
    history: &[Entry],
    text: &[u8],
) -> Option<usize>
    requires greatest { 0 < greatest }
    requires history { length history.now ≤ most_entries }
{
    let mut sink = failing_sink(rt, alloc, greatest, failing);
    let is_written = write(rt, alloc, &mut sink, &[], history);
    let bytes = sink.bytes();
    (!is_written && text.starts_with(bytes)).then_some(bytes.len())
}

#[test]
fn a_fault_at_the_second_call_leaves_a_prefix_of_the_trace(rt: HostRuntime) {
    let history = [collect(Out::Nothing); 2];
    let found = prefix_length(&rt, rt.alloc(), 16, 1, &history, b"1 env collect 0 -\n");
    assert_eq!(rt; found, Some(16));
}

// The trace of four thousand calls has 82,893 bytes, which take three calls.
#[test]
fn a_fault_leaves_a_prefix_of_a_long_trace(rt: HostRuntime) {
    let history = [collect(Out::Nothing); 4000];
    let mut whole = MemSink::new(rt.alloc(), 100_000, Vec::new(rt.alloc()));
    let is_written = write(&rt, rt.alloc(), &mut whole, &[], &history);
    let mut are_prefixes = true;
    for failing in 0..3 {
        let found = prefix_length(&rt, rt.alloc(), 100_000, failing, &history, whole.bytes());
        are_prefixes &= found.is_some();
    }
    let found = (is_written, whole.bytes().len(), are_prefixes);
    assert_eq!(rt; found, (true, 82_893, true));
}

#[test]
fn errors_have_a_text(rt: HostRuntime) {
    let texts = format!(in rt.alloc(); "{Failed}, {NoMemory}").expect(&rt, "memory for texts");
    assert_eq!(rt;
        texts.as_str(),
        "the outside failed, a part found no memory"
    );
}
