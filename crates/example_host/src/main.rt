//! A program with addons of its own: it runs the smallest addon and the example addon beside one that follows a script, and writes the
//! trace to standard output. It is where to begin with addons of one's own; docs/EMBEDDING.md goes through it.
#![tactic(auto)]

mod smallest;

use crate::smallest::SmallestAddon;
use addon_trait::Addon;
use example_addon::ExampleAddon;
use napi_types::{MemSource, NoMemory, OpenGate, Record, Text};
use script_addon::ScriptAddon;
use script_host::{StdSink, host};
use std::io;
use std::process::ExitCode;
use std::sync::Wait;
use std::thread::Threads;

/// The script: its first addon has one entry. The other two heed no script, and have their names alone.
const SCRIPT: &[u8] =
    br#"{"version":9,"workers":0,"addons":[{"name":"scripted","entries":[[["create_array",0],["get_array_length",0,1]]]},{"name":"smallest","entries":[]},{"name":"example","entries":[]}],"threads":[]}"#;

/// Runs the script with the three addons, and answers the status with which the program ends.
fn run<R: AllocGlobal + Print + Threads + Wait + Sync>(rt: &R) -> Result<u8, NoMemory> {
    let alloc = rt.alloc();
    let mut addons: Vec<Box<dyn Addon>> = Vec::new(alloc);
    addons.push(Box::new(alloc, ScriptAddon::blank(alloc))?)?;
    addons.push(Box::new(alloc, SmallestAddon::new())?)?;
    addons.push(Box::new(alloc, ExampleAddon::new())?)?;
    let mut words = Vec::new(alloc);
    words.push(Text::of(alloc, "run")?)?;
    let mut source = MemSource::of(Vec::from_slice(alloc, SCRIPT)?, Vec::new(alloc));
    let mut sink = StdSink::new(io::writer(rt));
    let mut left = Record::blank(alloc);
    Ok(host(
        rt,
        alloc,
        &words,
        &mut source,
        &mut sink,
        &OpenGate,
        &mut addons,
        &mut left,
    ))
}

fn main(rt: HostRuntime) -> ExitCode {
    ExitCode::from(run(&rt).unwrap_or(6))
}
