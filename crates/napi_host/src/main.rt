//! The program: runs the script that its words ask for with addons that follow it, and writes the trace or the summary to
//! standard output. A script without a schedule runs on threads of the machine, and its gate holds none of them. It stands on `script_host`, and nothing
//! stands on it.
#![tactic(auto)]

ghost use Rattle.std.specs.Prelude.{◌≡◌, ◌≢◌, IfOk, map, drop, string_bytes};
ghost use Rattle.std.specs.IoError.{error_kind};
ghost use Rattle.std.specs.Vec.Iter.{into_iter_items};

use addon_trait::Addon;
use napi_types::{NoMemory, OpenGate, Record, Text};
use script_addon::ScriptAddon;
use script_host::{StdSink, StdSource, host};
use std::alloc::Global;
use std::env::{Args, Env};
use std::io::ErrorKind;
use std::process::ExitCode;
use std::sync::Wait;
use std::thread::Threads;
use std::{env, io};

/// How many addons the program hands in.
const ADDONS: usize = 8;

/// Why nothing was run.
#[derive(Clone, Copy)]
enum Unable {
    /// There was no memory for a word, an addon or a list of them.
    NoMemory,
    /// The system cannot give the words.
    NoWords,
}

impl Unable {
    /// What it means that the system did not give the words.
    fn by(error: io::Error) -> Unable
        ensures no_memory { error_kind error ≡ ErrorKind.OutOfMemory → result ≡ Unable.NoMemory }
        ensures no_words { error_kind error ≢ ErrorKind.OutOfMemory → result ≡ Unable.NoWords }
    {
        match error.kind() {
            ErrorKind::OutOfMemory => Unable::NoMemory,
            _ => Unable::NoWords,
        }
    }

    /// The status with which the program ends.
    fn status(self) -> u8
        ensures no_memory { self ≡ Unable.NoMemory → result ≡ 6 }
        ensures no_words { self ≡ Unable.NoWords → result ≡ 1 }
    {
        match self {
            Unable::NoMemory => 6,
            Unable::NoWords => 1,
        }
    }
}

/// The words after the program's name, of all that the system gave.
fn texts(alloc: Global, given: Args) -> Result<Vec<Text>, NoMemory>
    ensures { IfOk result (λ words. words.items ≡ map string_bytes (drop 1 (into_iter_items given))) }
{
    let mut words = Vec::new(alloc);
    for word in given.skip(1) {
        let text = Text::of(alloc, word.as_str())?;
        words.push(text).map_err(|_| NoMemory)?;
    }
    Ok(words)
}

/// Runs what the words ask for with addons that follow their script, and answers the status with which the program ends.
fn run<R: Env + AllocGlobal + Input + Print + Threads + Wait + Sync>(rt: &R) -> Result<u8, Unable> {
    let alloc = rt.alloc();
    let given = env::args(rt).map_err(Unable::by)?;
    let words = texts(alloc, given).map_err(|_| Unable::NoMemory)?;
    let mut addons: Vec<Box<dyn Addon>> = Vec::new(alloc);
    for _ in 0..ADDONS {
        let addon = Box::new(alloc, ScriptAddon::blank(alloc)).map_err(|_| Unable::NoMemory)?;
        addons.push(addon).map_err(|_| Unable::NoMemory)?;
    }
    let handed = addons.len();
    prove!(handed == ADDONS);
    let mut source = StdSource::new(rt.reader());
    let mut sink = StdSink::new(io::writer(rt));
    let mut left = Record::blank(alloc);
    Ok(host(
        rt,
        alloc,
        &words,
        &mut source,
        &mut sink,
        &OpenGate,
        &mut addons,
        &mut left,
    ))
}

fn main(rt: HostRuntime) -> ExitCode {
    ExitCode::from(match run(&rt) {
        Ok(status) => status,
        Err(reason) => reason.status(),
    })
}
