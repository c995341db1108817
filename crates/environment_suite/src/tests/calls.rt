//! One table of calls of an environment: each call of `EnvCore` and each kind of call that is built succeeds once. Each function has a part of the table, and
//! goes on where the one before it ended.
//! Handles, scopes, references and tickets count from 1 in the order in which they are given, over all frames, and none comes twice. A refused call gives
//! none.
use super::steps::{
    abandon, advance, begin_next, cut, does, end_ticket, enters, finish_and_close, gives, leave,
    look, opened, refuses, registers, run_next, start_next, tells, tells_tickets,
};
use super::{DONE, NONE};
use env_core::EnvCore;
use napi_types::{Args, AsyncHookId, Call, DeferredId, HandleId, RefId, ScopeId, TextNo, Why};
use std::process::Abort;

const TRUE: HandleId = HandleId(4);

const NUMBER: HandleId = HandleId(6);

const BIGINT: HandleId = HandleId(7);

const STRING: HandleId = HandleId(8);

const SYMBOL: HandleId = HandleId(9);

const OBJECT: HandleId = HandleId(10);

const ARRAY: HandleId = HandleId(11);

const ERROR: HandleId = HandleId(12);

const FUNCTION: HandleId = HandleId(13);

const EXTERNAL: HandleId = HandleId(14);

/// The object as the second addon has it.
const VALUE: HandleId = HandleId(28);

const PROMISE: HandleId = HandleId(30);

const BUFFER: HandleId = HandleId(31);

const VIEW: HandleId = HandleId(33);

const UNKNOWN: HandleId = HandleId(99);

/// The object as each of so many arguments.
const NINE: Args = Args {
    count: 9,
    handles: [OBJECT; 4],
};

const NO_ARGUMENT: Args = Args {
    count: 0,
    handles: [OBJECT; 4],
};

/// Calls on values.
fn values(rt: &impl Abort, core: &mut EnvCore) {
    // The first addon's frame. Its begin is the second entry; the journal owes its end, two places for the next frame, and `gone`.
    look(rt, core, ("depth", 1, [2, 0, 1018, 0, 0, 1, 0, 0]));
    // Values.
    gives(rt, core, Call::GetUndefined, 1);
    gives(rt, core, Call::GetNull, 2);
    gives(rt, core, Call::GetGlobal, 3);
    gives(rt, core, Call::GetBoolean(true), 4);
    gives(rt, core, Call::GetBoolean(false), 5);
    refuses(rt, core, Call::CreateInt64(9_007_199_254_740_992), 1);
    gives(rt, core, Call::CreateInt64(7), 6);
    gives(rt, core, Call::CreateBigintInt64(8), 7);
    // A text past the table, which no script has.
    refuses(rt, core, Call::CreateStringUtf8(TextNo(3)), 1);
    gives(rt, core, Call::CreateStringUtf8(TextNo(2)), 8);
    gives(rt, core, Call::CreateSymbol(Some(STRING)), 9);
    gives(rt, core, Call::CreateObject, 10);
    gives(rt, core, Call::CreateArray, 11);
    gives(rt, core, Call::CreateError(None, STRING), 12);
    gives(rt, core, Call::CreateFunction(5, 70), 13);
    tells_tickets(
        rt,
        core,
        Call::CreateExternal(9, Some(1), 0),
        ("handle", 14),
        [1, 0],
    );
    tells(rt, core, Call::Typeof(SYMBOL), "kind", 5);
    tells(rt, core, Call::IsArray(ARRAY), "flag", 1);
    tells(rt, core, Call::IsError(ERROR), "flag", 1);
    tells(rt, core, Call::GetValueInt64(NUMBER), "signed", 7);
    tells(rt, core, Call::GetValueBigintInt64(BIGINT), "signed", 8);
    tells(rt, core, Call::GetValueBool(TRUE), "flag", 1);
    tells(rt, core, Call::GetValueStringUtf8(STRING), "text", 2);
    tells(rt, core, Call::GetValueExternal(EXTERNAL), "number", 9);
}

/// Calls on properties, elements and scopes.
fn properties_and_scopes(rt: &impl Abort, core: &mut EnvCore) {
    // Properties and elements.
    does(rt, core, Call::SetNamedProperty(OBJECT, TextNo(1), NUMBER));
    gives(rt, core, Call::GetNamedProperty(OBJECT, TextNo(1)), 15);
    tells(
        rt,
        core,
        Call::HasNamedProperty(OBJECT, TextNo(1)),
        "flag",
        1,
    );
    gives(rt, core, Call::GetPropertyNames(OBJECT), 16);
    tells(rt, core, Call::DeleteProperty(OBJECT, TextNo(1)), "flag", 1);
    does(rt, core, Call::SetElement(ARRAY, 2, OBJECT));
    refuses(rt, core, Call::GetElement(STRING, 0), 2);
    gives(rt, core, Call::GetElement(ARRAY, 2), 17);
    tells(rt, core, Call::HasElement(ARRAY, 1), "flag", 0);
    tells(rt, core, Call::GetArrayLength(ARRAY), "number", 3);
    tells(
        rt,
        core,
        Call::StrictEquals(OBJECT, HandleId(17)),
        "flag",
        1,
    );
    // Scopes.
    tells(rt, core, Call::OpenHandleScope, "scope", 1);
    tells(rt, core, Call::OpenEscapableHandleScope, "scope", 2);
    gives(rt, core, Call::CreateObject, 18);
    gives(rt, core, Call::EscapeHandle(ScopeId(2), HandleId(18)), 19);
    refuses(rt, core, Call::EscapeHandle(ScopeId(2), HandleId(18)), 12);
    refuses(rt, core, Call::CloseHandleScope(ScopeId(3)), 1);
    does(rt, core, Call::CloseEscapableHandleScope(ScopeId(2)));
    tells(rt, core, Call::OpenHandleScope, "scope", 3);
    does(rt, core, Call::CloseHandleScope(ScopeId(3)));
    does(rt, core, Call::CloseHandleScope(ScopeId(1)));
}

/// Calls on references, and calls that attach and register.
fn references_and_duties(rt: &impl Abort, core: &mut EnvCore) {
    // References.
    refuses(rt, core, Call::CreateReference(UNKNOWN, 1), 1);
    tells(rt, core, Call::CreateReference(OBJECT, 1), "reference", 1);
    tells(rt, core, Call::CreateReference(OBJECT, 1), "reference", 2);
    tells(rt, core, Call::ReferenceRef(RefId(1)), "number", 2);
    tells(rt, core, Call::ReferenceUnref(RefId(1)), "number", 1);
    gives(rt, core, Call::GetReferenceValue(RefId(1)), 20);
    does(rt, core, Call::DeleteReference(RefId(2)));
    // Wraps, tags and finalizers. A ticket that was withdrawn is not given again. The place of the deleted reference is used again, in its next generation.
    refuses(rt, core, Call::Wrap(STRING, 5, Some(1), 0, true), 2);
    tells_tickets(
        rt,
        core,
        Call::Wrap(OBJECT, 5, Some(1), 0, true),
        ("reference", 0x1_0000_0000_0002),
        [2, 0],
    );
    tells(rt, core, Call::Unwrap(OBJECT), "number", 5);
    tells_tickets(
        rt,
        core,
        Call::AddFinalizer(OBJECT, 7, 3, 8, true),
        ("reference", 3),
        [3, 0],
    );
    tells_tickets(rt, core, Call::RemoveWrap(OBJECT), ("number", 5), [0, 2]);
    registers(rt, core, Call::Wrap(OBJECT, 6, Some(1), 0, false), 4);
    tells_tickets(rt, core, Call::RemoveWrap(OBJECT), ("number", 6), [0, 4]);
    does(rt, core, Call::Wrap(OBJECT, 7, None, 0, false));
    tells(rt, core, Call::RemoveWrap(OBJECT), "number", 7);
    does(rt, core, Call::TypeTagObject(OBJECT, 10, 20));
    tells(
        rt,
        core,
        Call::CheckObjectTypeTag(OBJECT, 10, 20),
        "flag",
        1,
    );
    // Instance data and hooks.
    registers(rt, core, Call::SetInstanceData(7, Some(1), 8), 5);
    tells_tickets(
        rt,
        core,
        Call::SetInstanceData(9, Some(1), 10),
        ("status", 0),
        [6, 5],
    );
    tells(rt, core, Call::GetInstanceData, "number", 9);
    registers(rt, core, Call::AddEnvCleanupHook(2, 50), 7);
    refuses(rt, core, Call::AddEnvCleanupHook(2, 50), 1);
    registers(rt, core, Call::AddEnvCleanupHook(2, 51), 8);
    tells_tickets(
        rt,
        core,
        Call::RemoveEnvCleanupHook(2, 51),
        ("status", 0),
        [0, 8],
    );
}

/// Calls of functions, and exceptions.
fn functions(rt: &impl Abort, core: &mut EnvCore) {
    // More arguments than four are taken for four, and a missing receiver has a handle of its own. Four tickets are owed two places each.
    enters(
        rt,
        core,
        Call::CallFunction(None, FUNCTION, NINE),
        5,
        [4, 10, 10, 10, 10, 21, 70, 0],
    );
    look(rt, core, ("depth", 2, [73, 0, 938, 0, 0, 1, 0, 0]));
    gives(rt, core, Call::CreateArray, 22);
    leave(rt, core, Some(HandleId(22)), ("handle", 23, NONE));
    enters(
        rt,
        core,
        Call::CallFunction(Some(OBJECT), FUNCTION, NO_ARGUMENT),
        5,
        [0, 0, 0, 0, 0, 10, 70, 0],
    );
    does(rt, core, Call::Throw(OBJECT));
    tells(rt, core, Call::IsExceptionPending, "flag", 1);
    refuses(rt, core, Call::GetElement(ARRAY, 2), 10);
    leave(rt, core, Some(OBJECT), ("status", 10, NONE));
    tells(rt, core, Call::GetLastErrorInfo, "number", 10);
    gives(rt, core, Call::GetAndClearLastException, 24);
    does(rt, core, Call::ThrowError(None, TextNo(1)));
    gives(rt, core, Call::GetAndClearLastException, 25);
    // The frame of a call that throws and is cut: its caller is told the cut, and the exception stays.
    enters(
        rt,
        core,
        Call::CallFunction(Some(OBJECT), FUNCTION, NO_ARGUMENT),
        5,
        [0, 0, 0, 0, 0, 10, 70, 0],
    );
    does(rt, core, Call::Throw(OBJECT));
    cut(rt, core, 9);
    tells(rt, core, Call::GetLastErrorInfo, "number", 9);
    tells(rt, core, Call::IsExceptionPending, "flag", 1);
    gives(rt, core, Call::GetAndClearLastException, 26);
}

/// Three asynchronous hooks, of which the last is removed at once, and once alone.
fn asynchronous_hooks(rt: &impl Abort, core: &mut EnvCore) {
    tells_tickets(
        rt,
        core,
        Call::AddAsyncCleanupHook(7, 60),
        ("hook", 1),
        [11, 0],
    );
    tells_tickets(
        rt,
        core,
        Call::AddAsyncCleanupHook(7, 61),
        ("hook", 2),
        [12, 0],
    );
    tells_tickets(
        rt,
        core,
        Call::AddAsyncCleanupHook(7, 62),
        ("hook", 3),
        [13, 0],
    );
    tells_tickets(
        rt,
        core,
        Call::RemoveAsyncCleanupHook(AsyncHookId(3)),
        ("status", 0),
        [0, 13],
    );
    refuses(rt, core, Call::RemoveAsyncCleanupHook(AsyncHookId(3)), 1);
}

/// A promise with a reaction that is added before it is settled, and one that is added behind.
fn promises(rt: &impl Abort, core: &mut EnvCore) {
    tells(rt, core, Call::CreatePromise, "promise", 1);
    tells(rt, core, Call::IsPromise(PROMISE), "flag", 1);
    registers(rt, core, Call::AddReaction(PROMISE, 8, 71), 14);
    refuses(rt, core, Call::AddReaction(VALUE, 8, 71), 1);
    refuses(rt, core, Call::GetReactionValue, 1);
    does(rt, core, Call::ResolveDeferred(DeferredId(1), VALUE));
    refuses(rt, core, Call::RejectDeferred(DeferredId(1), VALUE), 1);
    registers(rt, core, Call::AddReaction(PROMISE, 9, 72), 15);
}

/// A buffer with a view of three numbers of 16 bits, which is detached, and an external buffer.
fn buffers(rt: &impl Abort, core: &mut EnvCore) {
    gives(rt, core, Call::CreateArraybuffer(8), 31);
    tells(rt, core, Call::IsArraybuffer(BUFFER), "flag", 1);
    tells_tickets(
        rt,
        core,
        Call::CreateExternalArraybuffer(4, 81, 10, 82),
        ("handle", 32),
        [16, 0],
    );
    gives(rt, core, Call::CreateTypedarray(4, BUFFER, 2, 3), 33);
    does(rt, core, Call::SetView(VIEW, 2, 65_794));
    tells(rt, core, Call::GetView(VIEW, 2), "number", 258);
    refuses(rt, core, Call::GetView(VIEW, 3), 1);
    tells(rt, core, Call::GetArraybufferInfo(BUFFER), "number", 8);
    refuses(rt, core, Call::GetArraybufferInfo(VIEW), 19);
    does(rt, core, Call::DetachArraybuffer(BUFFER));
    refuses(rt, core, Call::DetachArraybuffer(BUFFER), 20);
    tells(rt, core, Call::IsDetachedArraybuffer(BUFFER), "flag", 1);
}

/// The other calls, and the second addon's frame.
fn others(rt: &impl Abort, core: &mut EnvCore) {
    tells(rt, core, Call::GetVersion, "number", 10);
    // The collection frees this external, and the object that was made in scope 2.
    tells(rt, core, Call::OpenHandleScope, "scope", 4);
    tells_tickets(
        rt,
        core,
        Call::CreateExternal(31, Some(4), 32),
        ("handle", 27),
        [9, 0],
    );
    does(rt, core, Call::CloseHandleScope(ScopeId(4)));
    tells(rt, core, Call::Collect, "number", 2);
    does(rt, core, Call::Exit);
    // A frame that throws and is cut tells the cut, and leaves no exception to the second addon's frame.
    does(rt, core, Call::Throw(OBJECT));
    cut(rt, core, 0);
    look(rt, core, ("depth", 0, [98, 0, 913, 1, 0, 1, 0, 0]));
    begin_next(rt, core);
    tells(rt, core, Call::IsExceptionPending, "flag", 0);
    tells(rt, core, Call::OpenHandleScope, "scope", 5);
    gives(rt, core, Call::GetReferenceValue(RefId(1)), 28);
    tells(
        rt,
        core,
        Call::CreateReference(HandleId(28), 0),
        "reference",
        4,
    );
    tells_tickets(
        rt,
        core,
        Call::CreateExternal(41, Some(6), 42),
        ("handle", 29),
        [10, 0],
    );
    asynchronous_hooks(rt, core);
    promises(rt, core);
    buffers(rt, core);
    tells(rt, core, Call::GetInstanceData, "number", 0);
    leave(rt, core, None, DONE);
}

/// In the frame of the hook that was added first another one, which waits, is removed, and none is added.
fn first_asynchronous_hook(rt: &impl Abort, core: &mut EnvCore) {
    let hook = start_next(rt, core);
    does(rt, core, Call::RemoveAsyncCleanupHook(AsyncHookId(2)));
    refuses(rt, core, Call::RemoveAsyncCleanupHook(AsyncHookId(2)), 1);
    refuses(rt, core, Call::AddAsyncCleanupHook(7, 63), 9);
    end_ticket(rt, core, hook, None);
}

/// The reactions, of which the first tells its payload and the state, and the second is told the value.
fn reactions(rt: &impl Abort, core: &mut EnvCore) {
    run_next(rt, core, None, ("ticket", 14, [1, 8, 71, 1, 0, 0, 0, 0]));
    let reaction = start_next(rt, core);
    gives(rt, core, Call::GetReactionValue, 34);
    end_ticket(rt, core, reaction, None);
}

/// The loop and the teardown.
fn teardown(rt: &impl Abort, core: &mut EnvCore) {
    // In the loop a ticket is due, though exit was asked. In `Hooks` that of the hook that was added last is next, and none after all have begun. One
    // waits and is abandoned. None is next in `Drain`.
    advance(rt, core, 1);
    look(rt, core, ("depth", 0, [131, 0, 870, 1, 1, 9, 0, 1]));
    advance(rt, core, 2);
    finish_and_close(core, 2, 3);
    run_next(rt, core, None, ("ticket", 12, [1, 7, 61, 2, 0, 0, 0, 0]));
    first_asynchronous_hook(rt, core);
    run_next(rt, core, None, ("ticket", 7, [0, 2, 50, 0, 0, 0, 0, 0]));
    run_next(rt, core, None, ("no ticket", 0, NONE));
    look(rt, core, ("depth", 0, [140, 3, 867, 1, 0, 9, 0, 2]));
    abandon(rt, core, 4);
    advance(rt, core, 5);
    run_next(rt, core, None, ("no ticket", 0, NONE));
    // After `finals` all that is left is due, the lowest ticket first.
    advance(rt, core, 6);
    run_next(rt, core, None, ("ticket", 1, [0, 1, 9, 0, 0, 0, 0, 0]));
    run_next(
        rt,
        core,
        Some(Why::Memory),
        ("ticket", 3, [0, 3, 7, 8, 0, 0, 0, 0]),
    );
    run_next(rt, core, None, ("ticket", 6, [0, 1, 9, 10, 0, 0, 0, 0]));
    run_next(rt, core, None, ("ticket", 9, [0, 4, 31, 32, 0, 0, 0, 0]));
    run_next(rt, core, None, ("ticket", 10, [1, 6, 41, 42, 0, 0, 0, 0]));
    reactions(rt, core);
    run_next(rt, core, None, ("ticket", 16, [1, 10, 81, 82, 0, 0, 0, 0]));
    run_next(rt, core, None, ("no ticket", 0, NONE));
    advance(rt, core, 0);
    look(rt, core, ("depth", 0, [158, 6, 866, 1, 0, 9, 0, 5]));
}

#[test]
fn each_call_succeeds(rt: HostRuntime) {
    let mut core = opened(&rt, rt.alloc());
    values(&rt, &mut core);
    properties_and_scopes(&rt, &mut core);
    references_and_duties(&rt, &mut core);
    functions(&rt, &mut core);
    others(&rt, &mut core);
    teardown(&rt, &mut core);
    assert_eq!(rt; core.into_journal().items().len(), 158);
}
