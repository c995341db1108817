//! The summary of a trace.
ghost use Rattle.std.specs.Prelude.{◌≡◌, ◌≤◌, length, OnOk, OnErr};
ghost use Rattle.std.specs.Io.KnownBytes.{append_known};
ghost use Rattle.napi_types.specs.plain.Edge.{HasRisen, TookPrefix};
ghost use Rattle.napi_types.specs.plain.Room.{most_entries};
ghost use Rattle.napi_types.specs.plain.Weave.{weave};
ghost use Rattle.napi_types.specs.scripts.Summary.{number_line, summary};
ghost use Rattle.trace_text.specs.SummaryCounts.{counts_of, counts_text};
ghost use Rattle.trace_text.specs.Writing.{Adds, stand};

use crate::counts::{Counts, counts_of_history, counts_of_journal};
use crate::line::add_number;
use crate::pending::{Pending, add, write_out};
use napi_types::{Entry, Failed, Local, Sink};

/// Writes the summary of a trace: twelve lines on the entries of the weave of a journal and a history, each of at most
/// 4,194,304 entries. It takes no memory, and counts each list by itself, since no number depends on the order.
///
/// A fault of the sink ends it, after a prefix of the summary.
pub fn write_summary<K: Sink>(
    sink: &mut K,
    journal: &[Local],
    history: &[Entry],
) -> Result<(), Failed>
    requires journal { length journal.now ≤ most_entries }
    requires history { length history.now ≤ most_entries }
    ensures ok { OnOk result (K.taken sink.new ≡
        append_known (K.taken sink.old) (summary (weave journal.now history.now))) }
    ensures err { OnErr result
        (TookPrefix (K.taken sink.old) (summary (weave journal.now history.now)) (K.taken sink.new)) }
    ensures failed { OnErr result (HasRisen (K.faults sink.old) (K.faults sink.new)) }
    ensures counted { OnOk result (K.faults sink.new ≡ K.faults sink.old) }
    ensures faults { K.faults sink.old ≤ K.faults sink.new }
{
    let counts = counts_of_run(journal, history);
    let mut pending = Pending::new();
    add_counts(sink, &mut pending, counts);
    write_out(sink, &mut pending);
    if pending.has_failed() {
        Err(Failed)
    } else {
        Ok(())
    }
}

/// The numbers of the weave of a journal and a history.
fn counts_of_run(journal: &[Local], history: &[Entry]) -> Counts
    requires journal { length journal.now ≤ most_entries }
    requires history { length history.now ≤ most_entries }
    ensures { result ≡ counts_of (weave journal.now history.now) }
{
    let local = counts_of_journal(journal, history.len() as u64);
    let shared = counts_of_history(history);
    local.plus(shared)
}

/// Adds a line with a name and a number.
fn add_number_line<K: Sink>(sink: &mut K, pending: &mut Pending, name: &str, number: u64)
    ensures { Adds (stand (K.taken sink.old) (K.faults sink.old) pending.old) (number_line name.now number)
        (stand (K.taken sink.new) (K.faults sink.new) pending.new) }
{
    add(sink, pending, name.as_bytes());
    add(sink, pending, b" ");
    add_number(sink, pending, number);
    add(sink, pending, b"\n");
}

/// Adds the summary that tells these numbers.
fn add_counts<K: Sink>(sink: &mut K, pending: &mut Pending, counts: Counts)
    ensures { Adds (stand (K.taken sink.old) (K.faults sink.old) pending.old) (counts_text counts)
        (stand (K.taken sink.new) (K.faults sink.new) pending.new) }
{
    add_number_line(sink, pending, "entries", counts.entries);
    add_number_line(sink, pending, "calls", counts.calls);
    add_number_line(sink, pending, "accepted", counts.accepted);
    add_number_line(sink, pending, "items", counts.items);
    add_number_line(sink, pending, "works", counts.works);
    add_number_line(sink, pending, "started", counts.started);
    add_number_line(sink, pending, "completions", counts.completions);
    add_number_line(sink, pending, "finalizers", counts.finalizers);
    add_number_line(sink, pending, "hooks", counts.hooks);
    add_number_line(sink, pending, "withdrawn", counts.withdrawn);
    add_number_line(sink, pending, "refused", counts.refused);
    add_number_line(sink, pending, "payload", counts.payload);
}
