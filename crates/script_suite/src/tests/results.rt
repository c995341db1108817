//! The text of each result of a call, in lines of one trace.
use super::traces::{check, collect};
use napi_types::{
    AsyncHookId, Cause, DeferredId, Duty, Entry, HandleId, Kind, LoopEnd, Out, RefId, ScopeId,
    TextNo, Ticket, TsfnId, Why, WorkId,
};
use std::alloc::Global;
use std::process::Abort;

/// What is issued, numbers and flags, texts, ends and cuts, kinds, duties, and begins of frames, without duties and with.
const RESULTS: [Out; 52] = [
    Out::Nothing,
    Out::Handle(HandleId(7)),
    Out::NoHandle,
    Out::Scope(ScopeId(7)),
    Out::Ref(RefId(7)),
    Out::AsyncHook(AsyncHookId(7)),
    Out::Promise(DeferredId(7), HandleId(7)),
    Out::Work(WorkId(7)),
    Out::Function(TsfnId(3)),
    Out::Signed(0),
    Out::Signed(-5),
    Out::Signed(i64::MIN),
    Out::Unsigned(10),
    Out::Unsigned(u64::MAX),
    Out::Flag(true),
    Out::Flag(false),
    Out::Text(TextNo(2)),
    Out::Text(TextNo(3)),
    Out::Text(TextNo(4)),
    Out::Uncaught,
    Out::Ended(LoopEnd::Exit),
    Out::Ended(LoopEnd::Idle),
    Out::Ended(LoopEnd::Quiet),
    Out::Cut(Why::Memory),
    Out::Cut(Why::Full),
    Out::Cut(Why::Asks),
    Out::Kind(Kind::Undefined),
    Out::Kind(Kind::Null),
    Out::Kind(Kind::Boolean),
    Out::Kind(Kind::Number),
    Out::Kind(Kind::String),
    Out::Kind(Kind::Symbol),
    Out::Kind(Kind::Object),
    Out::Kind(Kind::Function),
    Out::Kind(Kind::External),
    Out::Kind(Kind::Bigint),
    Out::Duty(Duty::Ticket(Ticket(4))),
    Out::Duty(Duty::Work(4)),
    Out::Duty(Duty::Item(TsfnId(2), 7)),
    Out::Duty(Duty::Function(TsfnId(2))),
    Out::Begin(Cause::Init, 1, 20, None),
    Out::Begin(Cause::Call, 1, 20, None),
    Out::Begin(Cause::Finalize, 1, 20, None),
    Out::Begin(Cause::Complete, 1, 20, None),
    Out::Begin(Cause::Item, 1, 20, None),
    Out::Begin(Cause::Torn, 1, 20, None),
    Out::Begin(Cause::Hook, 1, 20, None),
    Out::Begin(Cause::Reaction, 1, 20, None),
    Out::Begin(Cause::Hook, 3, 12, Some(Duty::Ticket(Ticket(4)))),
    Out::Begin(Cause::Hook, 3, 12, Some(Duty::Work(4))),
    Out::Begin(Cause::Hook, 3, 12, Some(Duty::Item(TsfnId(2), 7))),
    Out::Begin(Cause::Hook, 3, 12, Some(Duty::Function(TsfnId(2)))),
];

/// The trace of calls of `collect` with these results.
const LINES: &str = r#"1 env collect 0 -
2 env collect 0 handle
3 env collect 0 none
4 env collect 0 scope
5 env collect 0 ref
6 env collect 0 hook
7 env collect 0 promise
8 env collect 0 work
9 env collect 0 f3
10 env collect 0 0
11 env collect 0 -5
12 env collect 0 -9223372036854775808
13 env collect 0 10
14 env collect 0 18446744073709551615
15 env collect 0 true
16 env collect 0 false
17 env collect 0 "stack depth"
18 env collect 0 "\"\\\u000a\u001faé"
19 env collect 0 ""
20 env collect 0 uncaught
21 env collect 0 exit
22 env collect 0 idle
23 env collect 0 quiet
24 env collect 0 cut:memory
25 env collect 0 cut:full
26 env collect 0 cut:asks
27 env collect 0 undefined
28 env collect 0 null
29 env collect 0 boolean
30 env collect 0 number
31 env collect 0 string
32 env collect 0 symbol
33 env collect 0 object
34 env collect 0 function
35 env collect 0 external
36 env collect 0 bigint
37 env collect 0 #4
38 env collect 0 j4
39 env collect 0 f2.7
40 env collect 0 f2
41 env collect 0 init:1.20
42 env collect 0 call:1.20
43 env collect 0 finalize:1.20
44 env collect 0 complete:1.20
45 env collect 0 item:1.20
46 env collect 0 torn:1.20
47 env collect 0 hook:1.20
48 env collect 0 reaction:1.20
49 env collect 0 hook:3.12:#4
50 env collect 0 hook:3.12:j4
51 env collect 0 hook:3.12:f2.7
52 env collect 0 hook:3.12:f2
"#;

/// Calls of `collect` with these results.
fn history(rt: &impl Abort, alloc: Global, results: &[Out]) -> Vec<Entry> {
    let mut history = Vec::new(alloc);
    for result in results {
        history
            .push(collect(*result))
            .expect(rt, "memory for a history");
    }
    history
}

#[test]
fn each_result_has_its_text(rt: HostRuntime) {
    let history = history(&rt, rt.alloc(), &RESULTS);
    assert!(rt; history.len() == RESULTS.len());
    check(&rt, rt.alloc(), &[], &history, LINES);
}
