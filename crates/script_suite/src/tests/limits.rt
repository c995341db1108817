//! Scripts of many kilobytes: lists at their greatest lengths and one above, and what is refused before and behind them.
use napi_types::LimitName;
use script_read::{Refusal, read_script};
use std::alloc::Global;
use std::process::Abort;

/// What is answered to a script.
#[derive(Clone, Copy)]
enum Answer {
    Ok,
    /// The part of this path has the wrong form.
    Shape(&'static str),
    Limit(LimitName),
}

const FIRST_OPERATION: Answer = Answer::Shape("addons/0/entries/0/0");

const LAST_OPERATION: Answer = Answer::Shape("addons/0/entries/0/4095");

const FIRST_OF_THREAD: Answer = Answer::Shape("threads/0/0");

const LAST_OF_THREAD: Answer = Answer::Shape("threads/0/16383");

const FIRST_THREAD: Answer = Answer::Shape("threads/0");

const LAST_WORD: Answer = Answer::Shape("schedule/65535");

const OPERATIONS: Answer = Answer::Limit(LimitName::Operations);

const ENTRY_COUNT: Answer = Answer::Limit(LimitName::Entries);

const THREAD_COUNT: Answer = Answer::Limit(LimitName::Threads);

const WORD_COUNT: Answer = Answer::Limit(LimitName::Schedule);

/// A piece of a script that stands so many times in it, with a comma between each two.
type Piece = (usize, &'static str);

/// Up to the first operation of an addon's first entry, behind the last operation, and behind the last entry.
const ENTRY: Piece = (
    1,
    r#"{"version":9,"workers":0,"addons":[{"name":"a","entries":[["#,
);

const ENTRY_END: Piece = (1, r#"]]}],"threads":[]}"#);

const ENTRIES_END: Piece = (1, r#"]}],"threads":[]}"#);

/// Up to the first operation of the first thread, behind the last operation, and up to the first thread.
const THREAD: Piece = (1, r#"{"version":9,"workers":0,"addons":[],"threads":[["#);

const THREAD_END: Piece = (1, "]]}");

const THREADS: Piece = (1, r#"{"version":9,"workers":0,"addons":[],"threads":["#);

/// Up to the schedule's first word: from the beginning, and behind the last thread.
const WORDS: Piece = (
    1,
    r#"{"version":9,"workers":0,"addons":[],"threads":[],"schedule":["#,
);

const SCHEDULE: Piece = (1, r#"],"schedule":["#);

/// From one list to the next, and behind the last word or the last thread.
const NEXT: Piece = (1, "],[");

const LIST_END: Piece = (1, "]}");

const NULL: &str = r#"["get_null",0]"#;

const ACQUIRE: &str = r#"["acquire_threadsafe_function",1]"#;

const ENV: &str = r#""env""#;

/// What is answered, and the pieces of the script.
static ROWS: [(Answer, &[Piece]); 29] = [
    // Entries of an addon.
    (LAST_OPERATION, &[ENTRY, (4095, NULL), (1, ",0"), ENTRY_END]),
    (Answer::Ok, &[ENTRY, (4096, NULL), ENTRY_END]),
    (
        Answer::Ok,
        &[ENTRY, (4096, NULL), NEXT, (4096, NULL), ENTRY_END],
    ),
    (OPERATIONS, &[ENTRY, (4097, NULL), ENTRY_END]),
    (OPERATIONS, &[ENTRY, (4097, "0"), ENTRY_END]),
    (OPERATIONS, &[ENTRY, (1, "1,"), (4096, NULL), ENTRY_END]),
    (OPERATIONS, &[ENTRY, (4096, NULL), (1, ",1"), ENTRY_END]),
    (OPERATIONS, &[ENTRY, NEXT, (4097, NULL), ENTRY_END]),
    (OPERATIONS, &[ENTRY, (4097, "0"), (1, "],0"), ENTRIES_END]),
    (
        FIRST_OPERATION,
        &[ENTRY, (1, "0"), NEXT, (4097, "0"), ENTRY_END],
    ),
    (
        ENTRY_COUNT,
        &[ENTRY, (4097, NULL), (1, "],"), (64, "[]"), ENTRIES_END],
    ),
    // Threads.
    (
        LAST_OF_THREAD,
        &[THREAD, (16_383, ACQUIRE), (1, ",0"), THREAD_END],
    ),
    (
        Answer::Ok,
        &[THREAD, (16_384, ACQUIRE), (1, "]"), SCHEDULE, LIST_END],
    ),
    (
        OPERATIONS,
        &[THREAD, (16_385, ACQUIRE), (1, "]"), SCHEDULE, LIST_END],
    ),
    (OPERATIONS, &[THREAD, (16_385, "0"), THREAD_END]),
    (
        OPERATIONS,
        &[THREAD, (1, "1,"), (16_384, ACQUIRE), THREAD_END],
    ),
    (
        OPERATIONS,
        &[THREAD, (16_384, ACQUIRE), (1, ",1"), THREAD_END],
    ),
    (OPERATIONS, &[THREAD, NEXT, (16_385, ACQUIRE), THREAD_END]),
    (OPERATIONS, &[THREAD, (16_385, "0"), (1, "],0"), LIST_END]),
    (
        FIRST_OF_THREAD,
        &[THREAD, (1, "0"), NEXT, (16_385, "0"), THREAD_END],
    ),
    (
        THREAD_COUNT,
        &[THREAD, (16_385, ACQUIRE), (1, "],"), (16, "[]"), LIST_END],
    ),
    // Schedules.
    (Answer::Ok, &[WORDS, (65_536, ENV), LIST_END]),
    (WORD_COUNT, &[WORDS, (65_537, ENV), LIST_END]),
    (WORD_COUNT, &[WORDS, (65_537, "0"), LIST_END]),
    (WORD_COUNT, &[WORDS, (1, "1,"), (65_536, ENV), LIST_END]),
    (WORD_COUNT, &[WORDS, (65_536, ENV), (1, ",1"), LIST_END]),
    (
        LAST_WORD,
        &[WORDS, (65_535, ENV), (1, r#","t0""#), LIST_END],
    ),
    (
        THREAD_COUNT,
        &[THREADS, (17, "0"), SCHEDULE, (65_537, "0"), LIST_END],
    ),
    (
        FIRST_THREAD,
        &[THREADS, (1, "0"), SCHEDULE, (65_537, "0"), LIST_END],
    ),
];

/// Adds pieces to a text.
fn add(rt: &impl Abort, whole: &mut String, pieces: &[Piece]) {
    for (times, piece) in pieces {
        for at in 0..*times {
            if at > 0 {
                whole.push_str(",").expect(rt, "memory for a script");
            }
            whole.push_str(piece).expect(rt, "memory for a script");
        }
    }
}

/// Whether this is the answer that the part of a path has the wrong form.
fn is_shape(want: Answer, path: &[u8]) -> bool {
    match want {
        Answer::Shape(told) => told.as_bytes() == path,
        _ => false,
    }
}

/// Whether reading bytes answers this.
fn is_answered(alloc: Global, bytes: &[u8], want: Answer) -> bool {
    match read_script(alloc, bytes) {
        Ok(_) => matches!(want, Answer::Ok),
        Err(Refusal::Shape { path }) => is_shape(want, path.bytes()),
        Err(Refusal::Limit { which }) => matches!(want, Answer::Limit(told) if told == which),
        Err(Refusal::NotJson | Refusal::NoMemory) => false,
    }
}

/// The script of these pieces is answered so.
fn check(rt: &impl Abort, alloc: Global, want: Answer, pieces: &[Piece]) {
    let mut script = String::new(alloc);
    add(rt, &mut script, pieces);
    let holds = is_answered(alloc, script.as_bytes(), want);
    assert!(rt; holds, "{pieces:?}");
}

#[test]
fn lists_at_their_limits(rt: HostRuntime) {
    for (want, pieces) in &ROWS {
        check(&rt, rt.alloc(), *want, pieces);
    }
}
