//! What the tests share: what a step gives that does not fail, and a run of a script with addons of theirs.
use addon_trait::Addon;
use napi_types::{Gate, MemSink, OpenGate, Record, SafeSource, Text};
use script_addon::ScriptAddon;
use script_host::host;
use std::alloc::Global;
use std::process::Abort;
use std::sync::Wait;
use std::thread::Threads;

mod example;
mod seen;
mod standard;
mod told;
mod two_jobs;
mod unplanned;

/// The most bytes that a sink takes in one call.
const GREATEST: usize = 65_536;

/// What a step gives. The test ends where a step fails, as for want of memory.
fn given<T, E: Drop>(rt: &impl Abort, step: Result<T, E>) -> T {
    match step {
        Ok(value) => value,
        Err(_) => panic!(rt; "a step failed"),
    }
}

/// The status of a run of a script with these addons, and what it writes.
fn run_of<R: Abort + Threads + Wait + Sync>(
    rt: &R,
    alloc: Global,
    script: &[u8],
    addons: &mut Vec<Box<dyn Addon>>,
) -> (u8, String) {
    run_at(rt, alloc, &OpenGate, script, addons)
}

/// The same with this gate.
fn run_at<R: Abort + Threads + Wait + Sync, G: Gate>(
    rt: &R,
    alloc: Global,
    gate: &G,
    script: &[u8],
    addons: &mut Vec<Box<dyn Addon>>,
) -> (u8, String) {
    let words = [given(rt, Text::of(alloc, "run"))];
    let mut source = SafeSource::of(given(rt, Vec::from_slice(alloc, script)));
    let mut sink = MemSink::new(alloc, GREATEST, Vec::new(alloc));
    let mut left = Record::blank(alloc);
    let status = host(
        rt,
        alloc,
        &words,
        &mut source,
        &mut sink,
        gate,
        addons,
        &mut left,
    );
    let written = given(rt, str::from_utf8(sink.bytes()));
    (status, given(rt, String::from_str(alloc, written)))
}
