//! The text of a trace of any journal: at each place the whole journal is looked through.
ghost use Rattle.std.specs.Prelude.{◌≡◌, ◌+◌, ◌^◌, ◌<◌, ◌≤◌, [], ◌∷◌, ◌++◌, length};
ghost use Rattle.napi_types.specs.plain.Room.{most_entries};
ghost use Rattle.napi_types.specs.plain.Weave.{local_at, weave};
ghost use Rattle.napi_types.specs.scripts.Text.{lines_from, text};
ghost use Rattle.trace_text.specs.Writing.{Adds, stand};

use crate::line::add_line;
use crate::number::LineNumber;
use crate::pending::Pending;
use napi_types::{Entry, Local, Sink, Texts};

/// Adds the text of a trace, by looking through the whole journal at each place.
pub fn add_scanned<K: Sink>(
    sink: &mut K,
    pending: &mut Pending,
    texts: &Texts,
    journal: &[Local],
    history: &[Entry],
)
    requires journal { length journal.now ≤ most_entries }
    requires history { length history.now ≤ most_entries }
    ensures { Adds (stand (K.taken sink.old) (K.faults sink.old) pending.old)
        (text texts.now (weave journal.now history.now))
        (stand (K.taken sink.new) (K.faults sink.new) pending.new) }
{
    let mut number = 1;
    for (at, shared) in history.iter().enumerate() {
        number = add_place(sink, pending, texts, number, journal, at as u64, shared);
    }
    add_locals(sink, pending, texts, number, journal, history.len() as u64);
}

/// Adds the lines of a place, those of the journal and then that of the history, and answers the number of the next line.
fn add_place<K: Sink>(
    sink: &mut K,
    pending: &mut Pending,
    texts: &Texts,
    first: u64,
    journal: &[Local],
    at: u64,
    shared: &Entry,
) -> u64
    requires { first + length journal.now + 1 < 2 ^ 64 }
    ensures next { result ≡ first + length (local_at at journal.now ++ shared.now ∷ []) }
    ensures few { result ≤ first + length journal.now + 1 }
    ensures added { Adds (stand (K.taken sink.old) (K.faults sink.old) pending.old)
        (lines_from texts.now first (local_at at journal.now ++ shared.now ∷ []))
        (stand (K.taken sink.new) (K.faults sink.new) pending.new) }
{
    let number = add_locals(sink, pending, texts, first, journal, at);
    add_line(sink, pending, texts, &LineNumber::of(number), shared);
    number + 1
}

/// Adds the lines of the journal's entries that stand at a place, and answers the number of the next line.
fn add_locals<K: Sink>(
    sink: &mut K,
    pending: &mut Pending,
    texts: &Texts,
    first: u64,
    journal: &[Local],
    at: u64,
) -> u64
    requires { first + length journal.now < 2 ^ 64 }
    ensures next { result ≡ first + length (local_at at journal.now) }
    ensures few { result ≤ first + length journal.now }
    ensures added { Adds (stand (K.taken sink.old) (K.faults sink.old) pending.old)
        (lines_from texts.now first (local_at at journal.now))
        (stand (K.taken sink.new) (K.faults sink.new) pending.new) }
{
    let mut number = first;
    for local in journal {
        number = add_local(sink, pending, texts, number, local, at);
    }
    number
}

/// Adds the line of an entry of the journal if it stands at this place, and answers the number of the next line.
fn add_local<K: Sink>(
    sink: &mut K,
    pending: &mut Pending,
    texts: &Texts,
    number: u64,
    local: &Local,
    at: u64,
) -> u64
    requires { number + 1 < 2 ^ 64 }
    ensures next { result ≡ number + length (local_at at (local.now ∷ [])) }
    ensures few { result ≤ number + 1 }
    ensures added { Adds (stand (K.taken sink.old) (K.faults sink.old) pending.old)
        (lines_from texts.now number (local_at at (local.now ∷ [])))
        (stand (K.taken sink.new) (K.faults sink.new) pending.new) }
{
    if local.at != at {
        return number;
    }
    add_line(sink, pending, texts, &LineNumber::of(number), &local.entry);
    number + 1
}
