//! The twelve numbers of a summary, counted over entries in any order.
ghost use Rattle.std.specs.Prelude.{◌≡◌, ◌&&◌, ◌==◌, ◌≤◌, [], ◌∷◌, not, cond, length};
ghost use Rattle.napi_types.specs.plain.Numbers.{status_number};
ghost use Rattle.napi_types.specs.plain.Room.{most_entries};
ghost use Rattle.napi_types.specs.scripts.Summary.{is_call, is_start, is_begin_with, is_of_item, is_of_completion, is_of_finalizer, is_of_hook, is_item, is_work, accepted_payload};
ghost use Rattle.trace_text.specs.SummaryCounts.{AreCountable, counts_of, placed, plus};

use napi_types::{Call, Cause, Duty, Entry, HostStep, Local, Out, What};

/// The numbers of a summary, in the order of its lines.
#[derive(Clone, Copy)]
pub struct Counts {
    pub entries: u64,
    pub calls: u64,
    pub accepted: u64,
    pub items: u64,
    pub works: u64,
    pub started: u64,
    pub completions: u64,
    pub finalizers: u64,
    pub hooks: u64,
    pub withdrawn: u64,
    pub refused: u64,
    pub payload: u64,
}

impl Counts {
    /// Those of no entry.
    pub fn none() -> Counts
        ensures { result ≡ counts_of [] }
    {
        Counts {
            entries: 0,
            calls: 0,
            accepted: 0,
            items: 0,
            works: 0,
            started: 0,
            completions: 0,
            finalizers: 0,
            hooks: 0,
            withdrawn: 0,
            refused: 0,
            payload: 0,
        }
    }

    /// Those of one entry.
    pub fn of(entry: &Entry) -> Counts
        ensures { result ≡ counts_of (entry.now ∷ []) }
    {
        Counts {
            entries: 1,
            calls: one_if(is_call(entry.what)),
            accepted: one_if(is_item(entry.reply.made)),
            items: one_if(begins_item(entry)),
            works: one_if(is_work(entry.reply.made)),
            started: one_if(is_start(entry.what)),
            completions: one_if(begins_completion(entry)),
            finalizers: one_if(begins_finalizer(entry)),
            hooks: one_if(begins_hook(entry)),
            withdrawn: one_if(entry.reply.dropped.is_some()),
            refused: one_if(is_refused(entry)),
            payload: accepted_payload(entry),
        }
    }

    /// The sums of these and of others. Payloads add up in 64 bits.
    pub fn plus(self, other: Counts) -> Counts
        requires few { AreCountable self }
        requires others { AreCountable other }
        ensures { result ≡ plus self other }
    {
        Counts {
            entries: self.entries + other.entries,
            calls: self.calls + other.calls,
            accepted: self.accepted + other.accepted,
            items: self.items + other.items,
            works: self.works + other.works,
            started: self.started + other.started,
            completions: self.completions + other.completions,
            finalizers: self.finalizers + other.finalizers,
            hooks: self.hooks + other.hooks,
            withdrawn: self.withdrawn + other.withdrawn,
            refused: self.refused + other.refused,
            payload: self.payload.wrapping_add(other.payload),
        }
    }
}

fn one_if(test: bool) -> u64
    ensures { result ≡ cond test 1 0 }
{
    if test { 1 } else { 0 }
}

fn is_call(what: What) -> bool
    ensures { result ≡ is_call what }
{
    match what {
        What::Call(_) => true,
        What::Host(_) => false,
    }
}

fn is_start(what: What) -> bool
    ensures { result ≡ is_start what }
{
    match what {
        What::Host(HostStep::Start) => true,
        _ => false,
    }
}

fn is_item(made: Option<Duty>) -> bool
    ensures { result ≡ is_item made }
{
    match made {
        Some(Duty::Item(..)) => true,
        _ => false,
    }
}

fn is_work(made: Option<Duty>) -> bool
    ensures { result ≡ is_work made }
{
    match made {
        Some(Duty::Work(_)) => true,
        _ => false,
    }
}

fn begins_item(entry: &Entry) -> bool
    ensures { result ≡ is_begin_with is_of_item entry.now.what entry.now.reply.out }
{
    match (entry.what, entry.reply.out) {
        (What::Host(HostStep::Begin), Out::Begin(Cause::Item, ..)) => true,
        (What::Host(HostStep::Begin), Out::Begin(Cause::Torn, ..)) => true,
        _ => false,
    }
}

fn begins_completion(entry: &Entry) -> bool
    ensures { result ≡ is_begin_with is_of_completion entry.now.what entry.now.reply.out }
{
    match (entry.what, entry.reply.out) {
        (What::Host(HostStep::Begin), Out::Begin(Cause::Complete, ..)) => true,
        _ => false,
    }
}

fn begins_finalizer(entry: &Entry) -> bool
    ensures { result ≡ is_begin_with is_of_finalizer entry.now.what entry.now.reply.out }
{
    match (entry.what, entry.reply.out) {
        (What::Host(HostStep::Begin), Out::Begin(Cause::Finalize, ..)) => true,
        _ => false,
    }
}

fn begins_hook(entry: &Entry) -> bool
    ensures { result ≡ is_begin_with is_of_hook entry.now.what entry.now.reply.out }
{
    match (entry.what, entry.reply.out) {
        (What::Host(HostStep::Begin), Out::Begin(Cause::Hook, ..)) => true,
        _ => false,
    }
}

/// Whether an entry is a call with a status other than 0.
fn is_refused(entry: &Entry) -> bool
    ensures { result ≡ (is_call entry.now.what && not (status_number entry.now.reply.status == 0)) }
{
    is_call(entry.what) && entry.reply.status.number() != 0
}

/// The payload of the item that an entry accepts, and 0 where it accepts none.
fn accepted_payload(entry: &Entry) -> u64
    ensures { result ≡ accepted_payload entry.now }
{
    if !is_item(entry.reply.made) {
        return 0;
    }
    match entry.what {
        What::Call(Call::CallThreadsafeFunction(_, payload, _)) => payload,
        _ => 0,
    }
}

/// Those of an entry of the journal, where it stands in the weave with a history of this length, and else none.
fn counts_of_local(local: &Local, last: u64) -> Counts
    ensures { result ≡ counts_of (placed last (local.now ∷ [])) }
{
    if local.at <= last {
        Counts::of(&local.entry)
    } else {
        Counts::none()
    }
}

/// Those of a history.
pub fn counts_of_history(history: &[Entry]) -> Counts
    requires { length history.now ≤ most_entries }
    ensures { result ≡ counts_of history.now }
{
    let mut counts = Counts::none();
    for shared in history {
        counts = counts.plus(Counts::of(shared));
    }
    counts
}

/// Those of the entries of a journal that stand in the weave with a history of this length.
pub fn counts_of_journal(journal: &[Local], last: u64) -> Counts
    requires { length journal.now ≤ most_entries }
    ensures { result ≡ counts_of (placed last journal.now) }
{
    let mut counts = Counts::none();
    for local in journal {
        counts = counts.plus(counts_of_local(local, last));
    }
    counts
}
