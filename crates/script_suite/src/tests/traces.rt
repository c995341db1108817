//! Traces over a sink in memory that takes 64 bytes a call: what each test here shares, and the order of journal and history.
ghost use Rattle.std.specs.Prelude.{◌≡◌, ◌≤◌, length};
ghost use Rattle.napi_types.specs.plain.Room.{most_entries};

use napi_types::{
    Actor, Call, Duty, Entry, HostStep, Local, MemSink, Out, Reply, Status, Text, Texts, What,
};
use std::alloc::Global;
use std::process::Abort;
use trace_text::write_trace;

/// What an actor made where so many frames stood.
fn entry(actor: Actor, depth: u32, what: What, reply: Reply) -> Entry {
    Entry {
        actor,
        depth,
        step: 0,
        what,
        reply,
        given: None,
    }
}

/// An entry of the environment's call of `collect` with this result.
pub fn collect(out: Out) -> Entry {
    let reply = Reply::plain(Status::Ok, out);
    entry(Actor::Env, 1, What::Call(Call::Collect), reply)
}

/// An event of an actor that is no call, with this status and with the duties that it withdrew and made.
pub fn event(
    actor: Actor,
    step: HostStep,
    status: Status,
    dropped: Option<Duty>,
    made: Option<Duty>,
) -> Entry {
    let reply = Reply {
        status,
        out: Out::Nothing,
        dropped,
        made,
    };
    entry(actor, 0, What::Host(step), reply)
}

/// A copy of a text.
fn copy(rt: &impl Abort, alloc: Global, text: &str) -> Text
    ensures { result ≡ text.now }
{
    Text::of(alloc, text).expect(rt, "memory for a text")
}

/// The fixed texts, and one with a quote, a backslash, a newline, the byte 31, an `a` and an `é`.
fn odd_texts(rt: &impl Abort, alloc: Global) -> Texts {
    let message = copy(rt, alloc, "message");
    let code = copy(rt, alloc, "code");
    let stack_depth = copy(rt, alloc, "stack depth");
    let odd = copy(rt, alloc, "\"\\\n\u{1f}aé");
    Texts::of(vec![in alloc; message, code, stack_depth, odd].expect(rt, "memory for texts"))
}

/// Writes the trace of a journal and a history with these texts. Whether it is written in full.
pub fn write(
    rt: &impl Abort,
    alloc: Global,
    sink: &mut MemSink,
    journal: &[Local],
    history: &[Entry],
) -> bool
    requires journal { length journal.now ≤ most_entries }
    requires history { length history.now ≤ most_entries }
{
    write_trace(sink, &odd_texts(rt, alloc), journal, history).is_ok()
}

/// A sink takes this text of the trace of a journal and a history.
pub fn check(rt: &impl Abort, alloc: Global, journal: &[Local], history: &[Entry], text: &str)
    requires journal { length journal.now ≤ most_entries }
    requires history { length history.now ≤ most_entries }
{
    let mut sink = MemSink::new(alloc, 64, Vec::new(alloc));
    let is_written = write(rt, alloc, &mut sink, journal, history);
    assert_eq!(rt; (is_written, sink.bytes()), (true, text.as_bytes()));
}

/// An entry of the journal at a place, told apart from the others by its result.
fn local(at: u64, told: u64) -> Local {
    Local {
        at,
        entry: collect(Out::Unsigned(told)),
    }
}

/// The trace of a history of two events, and of the entries of the journal at its places.
const WOVEN: &str = "1 env collect 0 1
2 env go 0 -
3 env collect 0 2
4 env collect 0 3
5 env drain 0 -
6 env collect 0 4
";

// A journal that stands in order is merged. In one that does not, each place has its entries in their order too, and
// entries past the end of the history are in no trace.
#[test]
fn weaves_what_is_within_the_history(rt: HostRuntime) {
    let history = [
        event(Actor::Env, HostStep::Go, Status::Ok, None, None),
        event(Actor::Env, HostStep::Drain, Status::Ok, None, None),
    ];
    let [first, second, third, fourth, past] = [
        local(0, 1),
        local(1, 2),
        local(1, 3),
        local(2, 4),
        local(3, 5),
    ];
    let in_order = [first, second, third, fourth];
    let out_of_order = [fourth, second, first, third];
    let past_the_end = [first, second, third, fourth, past];
    check(&rt, rt.alloc(), &in_order, &history, WOVEN);
    check(&rt, rt.alloc(), &out_of_order, &history, WOVEN);
    check(&rt, rt.alloc(), &past_the_end, &history, WOVEN);
}
