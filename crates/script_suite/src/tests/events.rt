//! The text of each event that is no call: its status, its actor, its name and its duties.
use super::traces::{check, event};
use napi_types::Actor::{Env, Thread, Worker};
use napi_types::HostStep::{
    Abandon, ActorEnd, Begin, CloseTsfn, Drain, End, Finals, Finish, FinishTsfn, Go, Gone, LoopEnd,
    Opened, Start,
};
use napi_types::Status::{
    ArrayExpected, ArraybufferExpected, BigintExpected, BooleanExpected, CallbackScopeMismatch,
    Cancelled, CannotRunJs, Closing, DateExpected, DetachableArraybufferExpected,
    EscapeCalledTwice, FunctionExpected, GenericFailure, HandleScopeMismatch, InvalidArg,
    NameExpected, NoExternalBuffersAllowed, NoMemory, NumberExpected, ObjectExpected,
    PendingException, QueueFull, StringExpected, TraceFull, WouldDeadlock,
};
use napi_types::{Actor, Duty, Entry, HostStep, Status, Ticket, TsfnId};
use std::alloc::Global;
use std::process::Abort;

const TICKET: Option<Duty> = Some(Duty::Ticket(Ticket(4)));

const WORK: Option<Duty> = Some(Duty::Work(4));

const ITEM: Option<Duty> = Some(Duty::Item(TsfnId(2), 7));

const FUNCTION: Option<Duty> = Some(Duty::Function(TsfnId(2)));

const OTHER_WORK: Option<Duty> = Some(Duty::Work(1));

/// An event: its actor, its name, its status, and the duties that it withdraws and makes.
type Event = (Actor, HostStep, Status, Option<Duty>, Option<Duty>);

/// Each event of the environment, each status, each actor, and each duty: withdrawn, made, and made where another is withdrawn.
const EVENTS: [Event; 52] = [
    (Env, Opened, Status::Ok, None, None),
    (Env, Begin, Status::Ok, None, None),
    (Env, End, Status::Ok, None, None),
    (Env, Go, Status::Ok, None, None),
    (Env, LoopEnd, Status::Ok, None, None),
    (Env, Abandon, Status::Ok, None, None),
    (Env, CloseTsfn, Status::Ok, None, None),
    (Env, FinishTsfn, Status::Ok, None, None),
    (Env, Drain, Status::Ok, None, None),
    (Env, Finals, Status::Ok, None, None),
    (Env, Gone, Status::Ok, None, None),
    (Env, Drain, Status::Ok, None, None),
    (Env, Drain, InvalidArg, None, None),
    (Env, Drain, ObjectExpected, None, None),
    (Env, Drain, StringExpected, None, None),
    (Env, Drain, NameExpected, None, None),
    (Env, Drain, FunctionExpected, None, None),
    (Env, Drain, NumberExpected, None, None),
    (Env, Drain, BooleanExpected, None, None),
    (Env, Drain, ArrayExpected, None, None),
    (Env, Drain, GenericFailure, None, None),
    (Env, Drain, PendingException, None, None),
    (Env, Drain, Cancelled, None, None),
    (Env, Drain, EscapeCalledTwice, None, None),
    (Env, Drain, HandleScopeMismatch, None, None),
    (Env, Drain, CallbackScopeMismatch, None, None),
    (Env, Drain, QueueFull, None, None),
    (Env, Drain, Closing, None, None),
    (Env, Drain, BigintExpected, None, None),
    (Env, Drain, DateExpected, None, None),
    (Env, Drain, ArraybufferExpected, None, None),
    (Env, Drain, DetachableArraybufferExpected, None, None),
    (Env, Drain, WouldDeadlock, None, None),
    (Env, Drain, NoExternalBuffersAllowed, None, None),
    (Env, Drain, CannotRunJs, None, None),
    (Env, Drain, NoMemory, None, None),
    (Env, Drain, TraceFull, None, None),
    (Worker(0), Start, Status::Ok, None, None),
    (Worker(15), Finish, Status::Ok, None, None),
    (Thread(2), ActorEnd, Status::Ok, None, None),
    (Env, Gone, Status::Ok, TICKET, None),
    (Env, Go, Status::Ok, None, TICKET),
    (Env, Go, Status::Ok, OTHER_WORK, TICKET),
    (Env, Gone, Status::Ok, WORK, None),
    (Env, Go, Status::Ok, None, WORK),
    (Env, Go, Status::Ok, OTHER_WORK, WORK),
    (Env, Gone, Status::Ok, ITEM, None),
    (Env, Go, Status::Ok, None, ITEM),
    (Env, Go, Status::Ok, OTHER_WORK, ITEM),
    (Env, Gone, Status::Ok, FUNCTION, None),
    (Env, Go, Status::Ok, None, FUNCTION),
    (Env, Go, Status::Ok, OTHER_WORK, FUNCTION),
];

/// The trace of these events.
const LINES: &str = "1 env opened 0 -
2 env begin 0 -
3 env end 0 -
4 env go 0 -
5 env loop_end 0 -
6 env abandon 0 -
7 env close_tsfn 0 -
8 env finish_tsfn 0 -
9 env drain 0 -
10 env finals 0 -
11 env gone 0 -
12 env drain 0 -
13 env drain 1 -
14 env drain 2 -
15 env drain 3 -
16 env drain 4 -
17 env drain 5 -
18 env drain 6 -
19 env drain 7 -
20 env drain 8 -
21 env drain 9 -
22 env drain 10 -
23 env drain 11 -
24 env drain 12 -
25 env drain 13 -
26 env drain 14 -
27 env drain 15 -
28 env drain 16 -
29 env drain 17 -
30 env drain 18 -
31 env drain 19 -
32 env drain 20 -
33 env drain 21 -
34 env drain 22 -
35 env drain 23 -
36 env drain 1000 -
37 env drain 1001 -
38 w0 start 0 -
39 w15 finish 0 -
40 t2 actor_end 0 -
41 env gone 0 - -#4
42 env go 0 - +#4
43 env go 0 - -j1 +#4
44 env gone 0 - -j4
45 env go 0 - +j4
46 env go 0 - -j1 +j4
47 env gone 0 - -f2.7
48 env go 0 - +f2.7
49 env go 0 - -j1 +f2.7
50 env gone 0 - -f2
51 env go 0 - +f2
52 env go 0 - -j1 +f2
";

/// The entries of events.
fn history(rt: &impl Abort, alloc: Global, events: &[Event]) -> Vec<Entry> {
    let mut history = Vec::new(alloc);
    for (actor, step, status, dropped, made) in events {
        history
            .push(event(*actor, *step, *status, *dropped, *made))
            .expect(rt, "memory for a history");
    }
    history
}

#[test]
fn each_event_has_its_text(rt: HostRuntime) {
    let history = history(&rt, rt.alloc(), &EVENTS);
    assert!(rt; history.len() == EVENTS.len());
    check(&rt, rt.alloc(), &[], &history, LINES);
}
