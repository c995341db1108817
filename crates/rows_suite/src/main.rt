//! Rows: what `host` and `host_scheduled` write of scripts. Standard input has a row a line: a name, a space and a script. A line that begins with `@`
//! gives options of the next row. Empty lines and lines that begin with `#` are no rows. Without options a script is run with the word
//! `run` and eight addons that follow it. Standard output has for each row a line of its name and the status, where there are options
//! also how many reads were made, and then what was written. The gate compares it with `stdout`.
//! No clause says so: the rows are tests. Nothing stands above this crate.
#![tactic(auto)]

mod counting;
mod options;

use addon_trait::Addon;
use counting::Counting;
use napi_types::{MemSink, MemSource, NoMemory, OpenGate, Record, Text};
use options::Options;
use script_addon::ScriptAddon;
use script_host::{host, host_scheduled};
use std::alloc::{AllocError, AllocFailed, Global};
use std::io;
use std::io::{Read, Write};
use std::num::{ParseIntError, TryFromIntError};
use std::process::ExitCode;
use std::str::Utf8Error;
use std::sync::Wait;
use std::thread::Threads;

/// Why rows are left out.
enum Unable {
    /// There was no memory.
    NoMemory,
    /// Standard input or standard output failed.
    Fault,
    /// An option is unknown or has a wrong number, or no row follows it.
    WrongOption,
}

impl Unable {
    /// The status with which the program ends.
    fn status(self) -> u8 {
        match self {
            Unable::Fault => 1,
            Unable::WrongOption => 2,
            Unable::NoMemory => 6,
        }
    }
}

impl From<NoMemory> for Unable {
    fn from(_: NoMemory) -> Unable {
        Unable::NoMemory
    }
}

impl From<AllocError> for Unable {
    fn from(_: AllocError) -> Unable {
        Unable::NoMemory
    }
}

impl<T: Drop> From<AllocFailed<T>> for Unable {
    fn from(_: AllocFailed<T>) -> Unable {
        Unable::NoMemory
    }
}

impl From<io::Error> for Unable {
    fn from(_: io::Error) -> Unable {
        Unable::Fault
    }
}

impl From<ParseIntError> for Unable {
    fn from(_: ParseIntError) -> Unable {
        Unable::WrongOption
    }
}

impl From<TryFromIntError> for Unable {
    fn from(_: TryFromIntError) -> Unable {
        Unable::WrongOption
    }
}

impl From<Utf8Error> for Unable {
    fn from(_: Utf8Error) -> Unable {
        Unable::WrongOption
    }
}

/// A script with its name, and the options of its row where it has any.
#[derive(Clone, Copy)]
struct Row<'a> {
    name: &'a [u8],
    script: &'a [u8],
    options: Option<&'a [u8]>,
}

impl<'a> Row<'a> {
    /// The row of a line, and these options.
    fn of(line: &'a [u8], options: Option<&'a [u8]>) -> Row<'a> {
        let (name, script) = match line.iter().position(|byte| *byte == b' ') {
            Some(at) => (&line[..at], &line[at + 1..]),
            None => (line, b"".as_slice()),
        };
        Row {
            name,
            script,
            options,
        }
    }
}

/// What a run answers, and how many calls of the source it made.
struct Outcome {
    status: u8,
    reads: u64,
}

/// The bytes of a script, and then spaces, so many in all where the script has fewer.
fn padded(alloc: Global, script: &[u8], length: usize) -> Result<Vec<u8>, AllocError> {
    let mut bytes = vec![in alloc; b' '; length.max(script.len())]?;
    bytes[..script.len()].copy_from_slice(script);
    Ok(bytes)
}

/// Runs a script with the word `run`, where no other words are given. The sink takes what is written.
fn ended<R: Threads + Wait + Sync>(
    rt: &R,
    alloc: Global,
    options: &Options,
    script: &[u8],
    sink: &mut MemSink,
) -> Result<Outcome, Unable> {
    let run = [Text::of(alloc, "run")?];
    let words = if options.words.is_empty() && !options.no_words {
        run.as_slice()
    } else {
        options.words.as_slice()
    };
    let bytes = padded(alloc, script, options.length)?;
    let faults = options.read_faults.clone()?;
    let mut source = Counting::of(MemSource::of(bytes, faults), options.piece);
    let mut addons: Vec<Box<dyn Addon>> = Vec::new(alloc);
    for _ in 0..options.addons {
        addons.push(Box::new(alloc, ScriptAddon::blank(alloc))?)?;
    }
    let mut left = Record::blank(alloc);
    let status = if options.scheduled {
        host_scheduled(alloc, words, &mut source, sink, &mut addons, &mut left)
    } else {
        host(
            rt,
            alloc,
            words,
            &mut source,
            sink,
            &OpenGate,
            &mut addons,
            &mut left,
        )
    };
    Ok(Outcome {
        status,
        reads: source.calls(),
    })
}

/// Prints a row. A text that ends in the middle of a line is followed by `\` and the end of the line.
fn print_row<R: Print>(rt: &R, row: Row<'_>, outcome: Outcome, written: &[u8]) -> io::Result<()> {
    let Outcome { status, reads } = outcome;
    let mut output = io::writer(rt);
    output.write_all(row.name)?;
    write!(output, " status {status}")?;
    if row.options.is_some() {
        write!(output, " reads {reads}")?;
    }
    output.write_all(b"\n")?;
    output.write_all(written)?;
    if !written.ends_with(b"\n") {
        output.write_all(b"\\\n")?;
    }
    Ok(())
}

/// Runs and prints a row.
fn run_row<R: AllocGlobal + Print + Threads + Wait + Sync>(
    rt: &R,
    row: Row<'_>,
) -> Result<(), Unable> {
    let alloc = rt.alloc();
    let mut options = Options::new(alloc);
    if let Some(line) = row.options {
        options.read(alloc, line)?;
    }
    let mut sink = MemSink::new(alloc, options.greatest.get(), options.write_faults.clone()?);
    let outcome = ended(rt, alloc, &options, row.script, &mut sink)?;
    print_row(rt, row, outcome, sink.bytes())?;
    Ok(())
}

/// Runs and prints the row of each line.
fn print_rows<R: AllocGlobal + Print + Threads + Wait + Sync>(
    rt: &R,
    lines: &[u8],
) -> Result<(), Unable> {
    let mut options = None;
    for line in lines.split(|byte| *byte == b'\n') {
        match line {
            [] | [b'#', ..] => {}
            [b'@', given @ ..] if options.is_none() => options = Some(given),
            [b'@', ..] => return Err(Unable::WrongOption),
            _ => run_row(rt, Row::of(line, options.take()))?,
        }
    }
    match options {
        Some(_) => Err(Unable::WrongOption),
        None => Ok(()),
    }
}

/// Runs and prints the rows of standard input.
fn rows<R: AllocGlobal + Input + Print + Threads + Wait + Sync>(rt: &R) -> Result<(), Unable> {
    let mut lines = Vec::new(rt.alloc());
    rt.reader().read_to_end(&mut lines)?;
    print_rows(rt, &lines)
}

fn main(rt: HostRuntime) -> ExitCode {
    ExitCode::from(match rows(&rt) {
        Ok(()) => 0,
        Err(reason) => reason.status(),
    })
}
