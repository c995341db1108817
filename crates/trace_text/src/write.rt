//! The text of a whole trace.
ghost use Rattle.std.specs.Prelude.{◌≡◌, ◌≤◌, IsTrue, length, OnOk, OnErr};
ghost use Rattle.std.specs.Io.KnownBytes.{append_known};
ghost use Rattle.napi_types.specs.plain.Edge.{HasRisen, TookPrefix};
ghost use Rattle.napi_types.specs.plain.Room.{most_entries};
ghost use Rattle.napi_types.specs.plain.Weave.{weave, RisesBetween};
ghost use Rattle.napi_types.specs.scripts.Text.{text};
ghost use Rattle.trace_text.specs.Writing.{Adds, stand};

use crate::merge::{add_merged, rises_within};
use crate::pending::{Pending, write_out};
use crate::scan::add_scanned;
use napi_types::{Entry, Failed, Local, Sink, Texts};

/// Writes the text of a trace, a line for each entry of the weave of a journal and a history, each of at most
/// 4,194,304 entries. It takes no memory, and holds up to 32,768 bytes back until it writes them.
///
/// It first looks whether the journal stands in the order of its places. Where it does, it takes time in the length of the text.
/// A fault of the sink ends it, after a prefix of the text.
pub fn write_trace<K: Sink>(
    sink: &mut K,
    texts: &Texts,
    journal: &[Local],
    history: &[Entry],
) -> Result<(), Failed>
    requires journal { length journal.now ≤ most_entries }
    requires history { length history.now ≤ most_entries }
    ensures ok { OnOk result (K.taken sink.new ≡
        append_known (K.taken sink.old) (text texts.now (weave journal.now history.now))) }
    ensures err { OnErr result
        (TookPrefix (K.taken sink.old) (text texts.now (weave journal.now history.now)) (K.taken sink.new)) }
    ensures failed { OnErr result (HasRisen (K.faults sink.old) (K.faults sink.new)) }
    ensures counted { OnOk result (K.faults sink.new ≡ K.faults sink.old) }
    ensures faults { K.faults sink.old ≤ K.faults sink.new }
{
    let rises = rises_within(journal, history.len() as u64);
    write_woven(sink, texts, journal, history, rises)
}

/// Does what [`write_trace`] does, for a journal of which the caller knows that it stands in the order of its places, as that of a run does. So it goes
/// over the journal once, and not twice.
pub fn write_rising_trace<K: Sink>(
    sink: &mut K,
    texts: &Texts,
    journal: &[Local],
    history: &[Entry],
) -> Result<(), Failed>
    requires rises { RisesBetween 0 (length history.now) journal.now }
    requires journal { length journal.now ≤ most_entries }
    requires history { length history.now ≤ most_entries }
    ensures ok { OnOk result (K.taken sink.new ≡
        append_known (K.taken sink.old) (text texts.now (weave journal.now history.now))) }
    ensures err { OnErr result
        (TookPrefix (K.taken sink.old) (text texts.now (weave journal.now history.now)) (K.taken sink.new)) }
    ensures failed { OnErr result (HasRisen (K.faults sink.old) (K.faults sink.new)) }
    ensures counted { OnOk result (K.faults sink.new ≡ K.faults sink.old) }
    ensures faults { K.faults sink.old ≤ K.faults sink.new }
{
    write_woven(sink, texts, journal, history, true)
}

/// Writes the text of a trace, by a merge where the journal rises.
fn write_woven<K: Sink>(
    sink: &mut K,
    texts: &Texts,
    journal: &[Local],
    history: &[Entry],
    rises: bool,
) -> Result<(), Failed>
    requires rises { IsTrue rises → RisesBetween 0 (length history.now) journal.now }
    requires journal { length journal.now ≤ most_entries }
    requires history { length history.now ≤ most_entries }
    ensures ok { OnOk result (K.taken sink.new ≡
        append_known (K.taken sink.old) (text texts.now (weave journal.now history.now))) }
    ensures err { OnErr result
        (TookPrefix (K.taken sink.old) (text texts.now (weave journal.now history.now)) (K.taken sink.new)) }
    ensures failed { OnErr result (HasRisen (K.faults sink.old) (K.faults sink.new)) }
    ensures counted { OnOk result (K.faults sink.new ≡ K.faults sink.old) }
    ensures faults { K.faults sink.old ≤ K.faults sink.new }
{
    let mut pending = Pending::new();
    add_trace(sink, &mut pending, texts, journal, history, rises);
    write_out(sink, &mut pending);
    if pending.has_failed() {
        Err(Failed)
    } else {
        Ok(())
    }
}

/// Adds the text of a trace, by a merge where the journal rises.
fn add_trace<K: Sink>(
    sink: &mut K,
    pending: &mut Pending,
    texts: &Texts,
    journal: &[Local],
    history: &[Entry],
    rises: bool,
)
    requires rises { IsTrue rises → RisesBetween 0 (length history.now) journal.now }
    requires journal { length journal.now ≤ most_entries }
    requires history { length history.now ≤ most_entries }
    ensures { Adds (stand (K.taken sink.old) (K.faults sink.old) pending.old)
        (text texts.now (weave journal.now history.now))
        (stand (K.taken sink.new) (K.faults sink.new) pending.new) }
{
    if rises {
        add_merged(sink, pending, texts, journal, history);
    } else {
        add_scanned(sink, pending, texts, journal, history);
    }
}
