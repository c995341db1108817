//! Shared calls of an environment, and the frames of the hub's duties. The tests are the hub: they say what it answers, and how long its history is.
use super::steps::{
    advance, answers, begin_next, does, end_delivery, end_ticket, finish_and_close, gives, hands,
    leave, look, opened, refuses, registers, start_delivery, start_next, stops, tells,
    tells_tickets, wants_memory,
};
use super::{DONE, NONE};
use env_core::EnvCore;
use napi_types::{
    Call, Cause, DueInfo, Duty, HandleId, JobSpec, Mode, Out, RefId, Release, ScopeId, Status,
    TextNo, TsfnId, WorkId,
};
use std::process::Abort;

const FUNCTION: HandleId = HandleId(1);

const OBJECT: HandleId = HandleId(2);

const UNKNOWN: HandleId = HandleId(99);

/// A completion of a work, which begins a frame of the first addon.
const COMPLETION: DueInfo = DueInfo {
    duty: Duty::Work(1),
    cause: Cause::Complete,
    addon: 0,
    entry: 3,
    status: Status::Ok,
    gifts: [0; 8],
    runs: true,
};

/// A torn item of a thread-safe function that has no call-js entry, whose frame makes no asks.
const SILENT: DueInfo = DueInfo {
    duty: Duty::Item(TsfnId(1), 1),
    cause: Cause::Torn,
    addon: 1,
    entry: 4,
    status: Status::Ok,
    gifts: [0; 8],
    runs: false,
};

/// The creation of a thread-safe function of this one, with this call-js entry, for so many threads.
fn creation(function: Option<HandleId>, entry: Option<u32>, count: u32) -> Call {
    Call::CreateThreadsafeFunction(function, entry, 4, count, None, 7)
}

/// A shared call that names no target, the ask of this number of the first addon's frame, is refused so, and answered. The status is then the last one.
fn shared(rt: &impl Abort, core: &mut EnvCore, position: u64, step: u64, call: Call, refused: u64) {
    hands(rt, core, call, refused, [1, step, 0, 0, 0, 0, 0, 0]);
    answers(rt, core, Out::Nothing, position);
    tells(rt, core, Call::GetLastErrorInfo, "number", refused);
}

/// Each shared call, from the first ask of the first addon's frame on, where the history has this length: those that register are refused so.
fn each(rt: &impl Abort, core: &mut EnvCore, at: u64, late: u64) {
    let work = WorkId(1);
    let function = TsfnId(1);
    shared(
        rt,
        core,
        at,
        0,
        Call::CreateAsyncWork(JobSpec::Sum(3), 1, 2),
        late,
    );
    shared(rt, core, at, 2, Call::DeleteAsyncWork(work), 0);
    shared(rt, core, at, 4, Call::CancelAsyncWork(work), 0);
    shared(rt, core, at, 6, Call::QueueAsyncWork(work), late);
    // A creation that names neither a function nor an entry is refused at any time: in the teardown for the time, which is asked first.
    shared(rt, core, at, 8, creation(None, None, 1), late.max(1));
    shared(
        rt,
        core,
        at,
        10,
        Call::CallThreadsafeFunction(function, 5, Mode::Nonblocking),
        late,
    );
    shared(
        rt,
        core,
        at,
        12,
        Call::AcquireThreadsafeFunction(function),
        0,
    );
    shared(
        rt,
        core,
        at,
        14,
        Call::ReleaseThreadsafeFunction(function, Release::Abort),
        0,
    );
    shared(rt, core, at, 16, Call::RefThreadsafeFunction(function), 0);
    shared(rt, core, at, 18, Call::UnrefThreadsafeFunction(function), 0);
    shared(
        rt,
        core,
        at,
        20,
        Call::GetThreadsafeFunctionContext(function),
        0,
    );
}

/// The loop begins, at this position, with no frame that stands.
fn go(rt: &impl Abort, core: &mut EnvCore, position: u64) {
    leave(rt, core, None, DONE);
    begin_next(rt, core);
    leave(rt, core, None, DONE);
    advance(rt, core, position);
}

/// Each shared call in a frame of each phase in which one may stand. Of the frames of the hub's duties the journal has the calls alone, and it keeps no
/// place for their ends.
#[test]
fn shared_calls_that_register_are_refused_from_the_teardown_on(rt: HostRuntime) {
    let mut core = opened(&rt, rt.alloc());
    each(&rt, &mut core, 11, 0);
    registers(&rt, &mut core, Call::AddEnvCleanupHook(6, 1), 1);
    let external = Call::CreateExternal(9, Some(5), 0);
    tells_tickets(&rt, &mut core, external, ("handle", 1), [2, 0]);
    go(&rt, &mut core, 12);
    start_delivery(&rt, &mut core, &COMPLETION, 13);
    look(&rt, &core, ("depth", 1, [18, 11, 1001, 0, 0, 9, 0, 1]));
    each(&rt, &mut core, 24, 0);
    end_delivery(&rt, &mut core, &COMPLETION, 25, ("status", 0));
    look(&rt, &core, ("depth", 0, [29, 24, 990, 0, 0, 9, 0, 1]));
    advance(&rt, &mut core, 26);
    let hook = start_next(&rt, &mut core);
    each(&rt, &mut core, 37, 9);
    end_ticket(&rt, &mut core, hook, None);
    advance(&rt, &mut core, 38);
    start_delivery(&rt, &mut core, &COMPLETION, 39);
    each(&rt, &mut core, 50, 9);
    end_delivery(&rt, &mut core, &COMPLETION, 51, ("status", 0));
    look(&rt, &core, ("depth", 0, [53, 50, 968, 0, 0, 9, 0, 3]));
    advance(&rt, &mut core, 52);
    let finalizer = start_next(&rt, &mut core);
    each(&rt, &mut core, 63, 9);
    end_ticket(&rt, &mut core, finalizer, None);
    advance(&rt, &mut core, 0);
    look(&rt, &core, ("depth", 0, [67, 63, 957, 0, 0, 9, 0, 5]));
    let _journal = core.into_journal();
}

/// A creation is handed over so, and the hub stops at it. The frame has made no ask more.
fn creates(rt: &impl Abort, core: &mut EnvCore, call: Call, refused: u64, numbers: [u64; 8]) {
    hands(rt, core, call, refused, numbers);
    stops(rt, core, 1);
}

/// What a creation is refused for, and where items are delivered.
#[test]
fn a_creation_names_a_target_where_nothing_refuses_it(rt: HostRuntime) {
    let mut core = opened(&rt, rt.alloc());
    let env = &mut core;
    gives(&rt, env, Call::CreateFunction(5, 70), 1);
    gives(&rt, env, Call::CreateObject, 2);
    tells(&rt, env, Call::CreateReference(FUNCTION, 1), "reference", 1);
    let none = [1, 3, 0, 0, 0, 0, 0, 0];
    creates(&rt, env, creation(Some(UNKNOWN), Some(1), 1), 1, none);
    // Beside an entry too, what is named has to be a function.
    creates(&rt, env, creation(Some(OBJECT), Some(1), 1), 1, none);
    creates(&rt, env, creation(Some(OBJECT), None, 1), 1, none);
    creates(&rt, env, creation(None, None, 1), 1, none);
    creates(&rt, env, creation(Some(FUNCTION), None, 0), 1, none);
    creates(&rt, env, creation(None, Some(1), 0), 1, none);
    creates(
        &rt,
        env,
        creation(None, Some(6), 1),
        0,
        [1, 3, 0, 1, 0, 6, 1, 0],
    );
    creates(
        &rt,
        env,
        creation(Some(FUNCTION), Some(6), 1),
        0,
        [1, 3, 0, 1, 0, 6, 1, 0],
    );
    creates(
        &rt,
        env,
        creation(Some(FUNCTION), None, 1),
        0,
        [1, 3, 0, 1, 0, 5, 0, 0],
    );
    // A pending exception refuses none of them.
    does(&rt, env, Call::Throw(OBJECT));
    creates(
        &rt,
        env,
        creation(None, Some(6), 1),
        0,
        [1, 4, 0, 1, 0, 6, 1, 0],
    );
    leave(&rt, env, None, ("uncaught", 0, NONE));
    // The second addon's frame, with the first addon's function.
    begin_next(&rt, env);
    gives(&rt, env, Call::GetReferenceValue(RefId(1)), 3);
    let function = Some(HandleId(3));
    creates(
        &rt,
        env,
        creation(function, Some(6), 1),
        0,
        [1, 1, 1, 1, 1, 6, 1, 0],
    );
    creates(
        &rt,
        env,
        creation(function, None, 1),
        0,
        [1, 1, 1, 1, 0, 5, 0, 0],
    );
    leave(&rt, env, None, DONE);
    let _journal = core.into_journal();
}

/// A scope of this number opens, and in it a function and an object with these handles; the object is a property of the function.
fn makes_function(rt: &impl Abort, core: &mut EnvCore, scope: u64, handles: [u64; 2]) {
    tells(rt, core, Call::OpenHandleScope, "scope", scope);
    gives(rt, core, Call::CreateFunction(5, 70), handles[0]);
    gives(rt, core, Call::CreateObject, handles[1]);
    let (function, object) = (HandleId(handles[0]), HandleId(handles[1]));
    does(
        rt,
        core,
        Call::SetNamedProperty(function, TextNo(1), object),
    );
}

/// The scope closes, and a collection frees so many values.
fn closes(rt: &impl Abort, core: &mut EnvCore, scope: u64, freed: u64) {
    does(rt, core, Call::CloseHandleScope(ScopeId(scope)));
    tells(rt, core, Call::Collect, "number", freed);
}

/// Thread-safe functions of functions to which no handle is left.
#[test]
fn a_function_is_kept_until_its_thread_safe_function_has_finished(rt: HostRuntime) {
    let mut core = opened(&rt, rt.alloc());
    let env = &mut core;
    // The hub stops at the creation, and nothing keeps the function.
    makes_function(&rt, env, 1, [1, 2]);
    let first = creation(Some(HandleId(1)), None, 1);
    hands(&rt, env, first, 0, [1, 4, 0, 1, 0, 5, 0, 0]);
    stops(&rt, env, 1);
    closes(&rt, env, 1, 2);
    // It is answered, twice.
    makes_function(&rt, env, 2, [3, 4]);
    let second = creation(Some(HandleId(3)), None, 1);
    hands(&rt, env, second, 0, [1, 10, 0, 1, 0, 5, 0, 0]);
    answers(&rt, env, Out::Function(TsfnId(1)), 2);
    closes(&rt, env, 2, 0);
    makes_function(&rt, env, 3, [5, 6]);
    let third = creation(Some(HandleId(5)), None, 1);
    hands(&rt, env, third, 0, [1, 17, 0, 1, 0, 5, 0, 0]);
    answers(&rt, env, Out::Function(TsfnId(2)), 3);
    closes(&rt, env, 3, 0);
    // The first has finished, and its function goes with the object. The other one stays.
    finish_and_close(env, 4, 5);
    tells(&rt, env, Call::Collect, "number", 2);
    tells(&rt, env, Call::Collect, "number", 0);
    look(&rt, env, ("depth", 1, [22, 5, 998, 0, 0, 1, 22, 0]));
    let _journal = core.into_journal();
}

/// Frames that a duty of the hub began: one that makes no asks, and one that throws.
#[test]
fn a_silent_frame_makes_no_asks_and_an_exception_ends_with_its_frame(rt: HostRuntime) {
    let mut core = opened(&rt, rt.alloc());
    let env = &mut core;
    gives(&rt, env, Call::CreateObject, 1);
    tells(
        &rt,
        env,
        Call::CreateReference(HandleId(1), 1),
        "reference",
        1,
    );
    refuses(&rt, env, Call::Typeof(UNKNOWN), 1);
    go(&rt, env, 1);
    start_delivery(&rt, env, &SILENT, 2);
    assert_eq!(rt; asks(env), Some(false));
    look(&rt, env, ("depth", 1, [8, 0, 1015, 0, 0, 9, 0, 1]));
    end_delivery(&rt, env, &SILENT, 3, ("status", 0));
    start_delivery(&rt, env, &COMPLETION, 4);
    assert_eq!(rt; asks(env), Some(true));
    // The begins and the end left the last status.
    tells(&rt, env, Call::GetLastErrorInfo, "number", 1);
    gives(&rt, env, Call::GetReferenceValue(RefId(1)), 2);
    does(&rt, env, Call::Throw(HandleId(2)));
    end_delivery(&rt, env, &COMPLETION, 5, ("uncaught", 0));
    look(&rt, env, ("depth", 0, [11, 4, 1012, 0, 0, 9, 0, 1]));
    let _journal = core.into_journal();
}

/// Whether the innermost frame makes asks, where one stands.
fn asks(core: &EnvCore) -> Option<bool> {
    Some(core.frame()?.makes_asks)
}

/// Where there is no memory for the root, a creation changes nothing, and is made anew.
#[test]
fn a_creation_that_finds_no_memory_changes_nothing(rt: HostRuntime) {
    let mut core = opened(&rt, rt.alloc());
    let env = &mut core;
    gives(&rt, env, Call::CreateFunction(5, 70), 1);
    let call = creation(Some(FUNCTION), None, 1);
    if wants_memory(&rt, env, call) {
        look(&rt, env, ("depth", 1, [3, 0, 1017, 0, 0, 1, 1, 0]));
        hands(&rt, env, call, 0, [1, 1, 0, 1, 0, 5, 0, 0]);
    }
    answers(&rt, env, Out::Function(TsfnId(1)), 1);
    tells(&rt, env, Call::GetLastErrorInfo, "number", 0);
    look(&rt, env, ("depth", 1, [4, 1, 1016, 0, 0, 1, 3, 0]));
    let _journal = core.into_journal();
}
