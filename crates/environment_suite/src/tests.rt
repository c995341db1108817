//! What the tests share. A test that cannot go on ends in a helper, so a function that owns something has no way out beside its end.
ghost use Rattle.std.specs.Prelude.{◌≡◌, Ok};

use napi_types::{Duty, NoMemory, Out, Reply, Why};
use std::process::Abort;

mod actors;
mod bursts;
mod calls;
mod driving;
mod hub_turns;
mod journals;
mod shared;
mod steps;
mod strays;
mod turns;

/// What something comes to: the word and the number of a result, and eight numbers more. A reply that tells nothing, or a cut, has the number of its status.
/// The other numbers of a reply are the ticket that it made and the one that it withdrew, 0 where there is none; of a frame that was entered they are
/// its gifts.
type Found = (&'static str, u64, [u64; 8]);

/// No numbers more.
const NONE: [u64; 8] = [0; 8];

/// What is accepted and tells nothing.
const DONE: Found = ("status", 0, NONE);

/// What was made where there was memory.
fn ample<T>(rt: &impl Abort, outcome: Result<T, NoMemory>) -> T
    ensures { outcome ≡ Ok result }
{
    match outcome {
        Ok(value) => value,
        Err(NoMemory) => panic!(rt; "there is no memory"),
    }
}

/// The number of a ticket, 0 where there is none.
fn ticket_of(duty: Option<Duty>) -> u64 {
    match duty {
        Some(Duty::Ticket(ticket)) => ticket.0,
        _ => 0,
    }
}

/// The word and the number of a result: of the begin of a frame the ticket that began it, 0 where none did.
fn word_of(status: u64, out: Out) -> (&'static str, u64) {
    match out {
        Out::Nothing => ("status", status),
        Out::Cut(Why::Memory) => ("cut for memory", status),
        Out::Cut(Why::Full) => ("cut for room", status),
        _ if status > 0 => ("other", status),
        Out::Handle(handle) => ("handle", handle.0),
        Out::Scope(scope) => ("scope", scope.0),
        Out::Ref(reference) => ("reference", reference.0),
        Out::AsyncHook(hook) => ("hook", hook.0),
        Out::Promise(deferred, _) => ("promise", deferred.0),
        Out::Signed(number) => ("signed", number.unsigned_abs()),
        Out::Unsigned(number) => ("number", number),
        Out::Flag(flag) => ("flag", flag as u64),
        Out::Text(text) => ("text", text.0 as u64),
        Out::Kind(kind) => ("kind", kind.number() as u64),
        Out::Begin(_, _, _, duty) => ("begin", ticket_of(duty)),
        Out::Uncaught => ("uncaught", status),
        _ => ("other", 0),
    }
}

/// What a reply tells.
fn told(reply: &Reply) -> Found {
    let (word, number) = word_of(reply.status.number() as u64, reply.out);
    let (made, dropped) = (ticket_of(reply.made), ticket_of(reply.dropped));
    (word, number, [made, dropped, 0, 0, 0, 0, 0, 0])
}
