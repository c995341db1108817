//! What is written of a run, and the status that tells it.
ghost use Rattle.std.specs.Prelude.{◌≡◌, ◌≤◌, OnOk, OnErr};
ghost use Rattle.std.specs.Io.KnownBytes.{append_known};
ghost use Rattle.napi_types.specs.plain.Edge.{HasRisen, TookPrefix};
ghost use Rattle.outside.specs.Ends.{output_of};
ghost use Rattle.outside.specs.Words.{line_text};
ghost use Rattle.outside.specs.Written.{text_written, IsCounted, WroteOutcome, WroteRun, WroteRefusal};

use crate::commands::Command;
use crate::message::Message;
use napi_types::{Failed, Record, Sink, Texts};
use trace_text::{write_rising_trace, write_summary};

/// Writes what a command writes of a run, whose journal stands in the order of its places: its trace with these texts, or the summary of that.
fn write_text<K: Sink>(
    command: Command,
    sink: &mut K,
    texts: &Texts,
    left: &Record,
) -> Result<(), Failed>
    requires { IsCounted left.now }
    ensures ok { OnOk result (K.taken sink.new ≡ append_known (K.taken sink.old) (text_written command texts.now left.now)) }
    ensures err { OnErr result (TookPrefix (K.taken sink.old) (text_written command texts.now left.now) (K.taken sink.new)) }
    ensures failed { OnErr result (HasRisen (K.faults sink.old) (K.faults sink.new)) }
    ensures counted { OnOk result (K.faults sink.new ≡ K.faults sink.old) }
    ensures faults { K.faults sink.old ≤ K.faults sink.new }
{
    let journal = left.journal.items();
    let history = left.history.items();
    match command {
        Command::Run => write_rising_trace(sink, texts, journal, history),
        Command::Summary => write_summary(sink, journal, history),
        Command::Load(_) => write_summary(sink, journal, history),
    }
}

/// Writes the text of a run, and answers the status.
fn write_run<K: Sink>(command: Command, sink: &mut K, texts: &Texts, left: &Record) -> u8
    requires { IsCounted left.now }
    ensures wrote { let output = output_of K.taken K.faults sink.old sink.new in
        WroteRun (text_written command texts.now left.now) output result }
    ensures faults { K.faults sink.old ≤ K.faults sink.new }
{
    match write_text(command, sink, texts, left) {
        Ok(()) => 0,
        Err(Failed) => 5,
    }
}

/// Writes a line in place of a text, and answers its status.
fn write_refusal<K: Sink>(sink: &mut K, line: Message) -> u8
    ensures wrote { let output = output_of K.taken K.faults sink.old sink.new in
        WroteRefusal line output result }
    ensures faults { K.faults sink.old ≤ K.faults sink.new }
{
    let _ = line.write(sink);
    line.status()
}

/// Writes what came of the words, and answers the exit status: of a run of a script with these texts what its command writes, the trace or the
/// summary of it, and else the line that stands in place of a text.
///
/// The status of a run is 0 where the whole text was written, and 5 where the sink failed within it. A line has its own status, whether it was
/// written whole or not.
pub fn write_outcome<K: Sink>(
    outcome: Result<(Command, Texts), Message>,
    sink: &mut K,
    left: &Record,
) -> u8
    requires { OnOk outcome (IsCounted left.now) }
    ensures wrote { let output = output_of K.taken K.faults sink.old sink.new in
        WroteOutcome outcome left.now output result }
    ensures faults { K.faults sink.old ≤ K.faults sink.new }
{
    match outcome {
        Ok((command, texts)) => write_run(command, sink, &texts, left),
        Err(line) => write_refusal(sink, line),
    }
}
