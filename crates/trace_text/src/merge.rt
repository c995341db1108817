//! The text of a trace whose journal stands in the order of its places: journal and history are merged in one pass.
ghost use Rattle.std.specs.Prelude.{◌≡◌, ◌+◌, ◌<◌, ◌≤◌, ◌↔◌, ◌∷◌, IsTrue, length, drop};
ghost use Rattle.napi_types.specs.plain.Room.{most_entries};
ghost use Rattle.napi_types.specs.plain.Weave.{RisesBetween, weave};
ghost use Rattle.napi_types.specs.scripts.Text.{text};
ghost use Rattle.trace_text.specs.Merging.{BeginsAt, unwoven};
ghost use Rattle.trace_text.specs.Writing.{Adds, stand};

use crate::line::add_line;
use crate::number::LineNumber;
use crate::pending::Pending;
use napi_types::{Entry, Local, Sink, Texts};

/// How many entries of the journal and of the history a merge has passed.
#[derive(Clone, Copy)]
struct Passed {
    locals: usize,
    shared: usize,
}

/// Whether the places of a journal never fall, and none is above a last one.
pub fn rises_within(journal: &[Local], last: u64) -> bool
    ensures { IsTrue result ↔ RisesBetween 0 last journal.now }
{
    let mut least = 0;
    for local in journal {
        if local.at < least || last < local.at {
            return false;
        }
        least = local.at;
    }
    true
}

/// Whether the journal's next entry stands before the history's next entry.
fn is_local_next(journal: &[Local], passed: Passed) -> bool
    ensures { IsTrue result ↔ BeginsAt passed.shared (drop passed.locals journal.now) }
{
    match journal.get(passed.locals) {
        Some(local) => local.at == passed.shared as u64,
        None => false,
    }
}

/// The next entry of the weave, and how many are passed with it.
fn next_of<'a>(journal: &'a [Local], history: &'a [Entry], passed: Passed) -> (&'a Entry, Passed)
    requires rises { RisesBetween passed.shared (length history.now) (drop passed.locals journal.now) }
    requires within { passed.locals ≤ length journal.now }
    requires more { passed.locals + passed.shared < length journal.now + length history.now }
    ensures woven { unwoven journal.now history.now passed.locals passed.shared
        ≡ result.0.now ∷ unwoven journal.now history.now result.1.locals result.1.shared }
    ensures rises { RisesBetween result.1.shared (length history.now) (drop result.1.locals journal.now) }
    ensures within { result.1.locals ≤ length journal.now }
    ensures one { result.1.locals + result.1.shared ≡ passed.locals + passed.shared + 1 }
{
    if is_local_next(journal, passed) {
        let locals = passed.locals + 1;
        (&journal[passed.locals].entry, Passed { locals, ..passed })
    } else {
        let shared = passed.shared + 1;
        (&history[passed.shared], Passed { shared, ..passed })
    }
}

/// Adds the text of a trace, by one pass over the journal and the history.
pub fn add_merged<K: Sink>(
    sink: &mut K,
    pending: &mut Pending,
    texts: &Texts,
    journal: &[Local],
    history: &[Entry],
)
    requires rises { RisesBetween 0 (length history.now) journal.now }
    requires journal { length journal.now ≤ most_entries }
    requires history { length history.now ≤ most_entries }
    ensures { Adds (stand (K.taken sink.old) (K.faults sink.old) pending.old)
        (text texts.now (weave journal.now history.now))
        (stand (K.taken sink.new) (K.faults sink.new) pending.new) }
{
    let mut passed = Passed {
        locals: 0,
        shared: 0,
    };
    let mut number = LineNumber::of(1);
    for _ in 0..journal.len() + history.len() {
        let (entry, next) = next_of(journal, history, passed);
        add_line(sink, pending, texts, &number, entry);
        number.advance();
        passed = next;
    }
}
