//! The table of operations: what the arguments of each are read as, a line an operation.
ghost use Rattle.std.specs.Prelude.{◌≡◌};
ghost use Rattle.serde_json.specs.View.{view, items_view};
ghost use Rattle.napi_types.specs.scripts.ScriptOperations.{with_register, with_two_registers, with_one_argument, with_two_arguments, with_three_arguments, with_four_arguments, with_five_arguments, with_seven_arguments, with_more_arguments, plain_operation, without_arguments};

use crate::arguments::{
    entry_number, entry_or_none, flag, job, mode, register, register_or_none, registers, release,
    short, signed, whole,
};
use napi_types::Op;
use serde_json::Value;

/// An operation of these arguments, where each has its form.
macro_rules! from {
    ($operation:path, $a:expr) => {
        match $a {
            Some(x) => Some($operation(x)),
            None => None,
        }
    };
    ($operation:path, $a:expr, $b:expr) => {
        match ($a, $b) {
            (Some(x), Some(y)) => Some($operation(x, y)),
            _ => None,
        }
    };
    ($operation:path, $a:expr, $b:expr, $c:expr) => {
        match ($a, $b, $c) {
            (Some(x), Some(y), Some(z)) => Some($operation(x, y, z)),
            _ => None,
        }
    };
    ($operation:path, $a:expr, $b:expr, $c:expr, $d:expr) => {
        match ($a, $b, $c, $d) {
            (Some(x), Some(y), Some(z), Some(v)) => Some($operation(x, y, z, v)),
            _ => None,
        }
    };
    ($operation:path, $a:expr, $b:expr, $c:expr, $d:expr, $e:expr) => {
        match ($a, $b, $c, $d, $e) {
            (Some(x), Some(y), Some(z), Some(v), Some(w)) => Some($operation(x, y, z, v, w)),
            _ => None,
        }
    };
    ($operation:path, $a:expr, $b:expr, $c:expr, $d:expr, $e:expr, $f:expr, $g:expr) => {
        match ($a, $b, $c, $d, $e, $f, $g) {
            (Some(x), Some(y), Some(z), Some(v), Some(w), Some(s), Some(t)) => Some($operation(x, y, z, v, w, s, t)),
            _ => None,
        }
    };
}

/// The operation of a register.
#[tactic(auto, unfolding(napi_types::specs::scripts::ScriptOperations::with_register))]
fn with_register(kind: Op, x: u8) -> Option<Op>
    ensures { result ≡ with_register kind x }
{
    match kind {
        Op::GetUndefined(..) => Some(Op::GetUndefined(x)),
        Op::GetNull(..) => Some(Op::GetNull(x)),
        Op::GetGlobal(..) => Some(Op::GetGlobal(x)),
        Op::CreateObject(..) => Some(Op::CreateObject(x)),
        Op::CreateArray(..) => Some(Op::CreateArray(x)),
        Op::OpenHandleScope(..) => Some(Op::OpenHandleScope(x)),
        Op::OpenEscapableHandleScope(..) => Some(Op::OpenEscapableHandleScope(x)),
        Op::IsExceptionPending(..) => Some(Op::IsExceptionPending(x)),
        Op::GetAndClearLastException(..) => Some(Op::GetAndClearLastException(x)),
        Op::GetLastErrorInfo(..) => Some(Op::GetLastErrorInfo(x)),
        Op::GetInstanceData(..) => Some(Op::GetInstanceData(x)),
        Op::GetVersion(..) => Some(Op::GetVersion(x)),
        Op::Collect(..) => Some(Op::Collect(x)),
        Op::CloseHandleScope(..) => Some(Op::CloseHandleScope(x)),
        Op::CloseEscapableHandleScope(..) => Some(Op::CloseEscapableHandleScope(x)),
        Op::DeleteReference(..) => Some(Op::DeleteReference(x)),
        Op::Throw(..) => Some(Op::Throw(x)),
        Op::RemoveAsyncCleanupHook(..) => Some(Op::RemoveAsyncCleanupHook(x)),
        Op::GetReactionValue(..) => Some(Op::GetReactionValue(x)),
        Op::DetachArraybuffer(..) => Some(Op::DetachArraybuffer(x)),
        Op::DeleteAsyncWork(..) => Some(Op::DeleteAsyncWork(x)),
        Op::CancelAsyncWork(..) => Some(Op::CancelAsyncWork(x)),
        Op::QueueAsyncWork(..) => Some(Op::QueueAsyncWork(x)),
        Op::AcquireThreadsafeFunction(..) => Some(Op::AcquireThreadsafeFunction(x)),
        Op::RefThreadsafeFunction(..) => Some(Op::RefThreadsafeFunction(x)),
        Op::UnrefThreadsafeFunction(..) => Some(Op::UnrefThreadsafeFunction(x)),
        _ => None,
    }
}

/// The operation of one argument.
#[tactic(auto, unfolding(napi_types::specs::scripts::ScriptOperations::with_one_argument))]
fn with_one_argument(kind: Op, a: &Value) -> Option<Op>
    ensures { result ≡ with_one_argument kind (view a.now) }
{
    match kind {
        Op::Return(..) => from!(Op::Return, register_or_none(a)),
        _ => match register(a) {
            Some(x) => with_register(kind, x),
            None => None,
        },
    }
}

/// The operation of two registers.
#[tactic(auto, unfolding(napi_types::specs::scripts::ScriptOperations::with_two_registers))]
fn with_two_registers(kind: Op, x: u8, y: u8) -> Option<Op>
    ensures { result ≡ with_two_registers kind x y }
{
    match kind {
        Op::Typeof(..) => Some(Op::Typeof(x, y)),
        Op::IsArray(..) => Some(Op::IsArray(x, y)),
        Op::IsError(..) => Some(Op::IsError(x, y)),
        Op::CreatePromise(..) => Some(Op::CreatePromise(x, y)),
        Op::ResolveDeferred(..) => Some(Op::ResolveDeferred(x, y)),
        Op::RejectDeferred(..) => Some(Op::RejectDeferred(x, y)),
        Op::IsPromise(..) => Some(Op::IsPromise(x, y)),
        Op::IsArraybuffer(..) => Some(Op::IsArraybuffer(x, y)),
        Op::IsDetachedArraybuffer(..) => Some(Op::IsDetachedArraybuffer(x, y)),
        Op::GetArraybufferInfo(..) => Some(Op::GetArraybufferInfo(x, y)),
        Op::GetValueInt64(..) => Some(Op::GetValueInt64(x, y)),
        Op::GetValueBigintInt64(..) => Some(Op::GetValueBigintInt64(x, y)),
        Op::GetValueBool(..) => Some(Op::GetValueBool(x, y)),
        Op::GetValueStringUtf8(..) => Some(Op::GetValueStringUtf8(x, y)),
        Op::GetValueExternal(..) => Some(Op::GetValueExternal(x, y)),
        Op::GetArrayLength(..) => Some(Op::GetArrayLength(x, y)),
        Op::GetPropertyNames(..) => Some(Op::GetPropertyNames(x, y)),
        Op::ReferenceRef(..) => Some(Op::ReferenceRef(x, y)),
        Op::ReferenceUnref(..) => Some(Op::ReferenceUnref(x, y)),
        Op::GetReferenceValue(..) => Some(Op::GetReferenceValue(x, y)),
        Op::Unwrap(..) => Some(Op::Unwrap(x, y)),
        Op::RemoveWrap(..) => Some(Op::RemoveWrap(x, y)),
        Op::GetThreadsafeFunctionContext(..) => Some(Op::GetThreadsafeFunctionContext(x, y)),
        _ => None,
    }
}

/// The operation of two arguments of which none is a text.
#[tactic(auto, unfolding(napi_types::specs::scripts::ScriptOperations::with_two_arguments))]
fn with_two_arguments(entries: u32, kind: Op, a: &Value, b: &Value) -> Option<Op>
    ensures { result ≡ with_two_arguments entries kind (view a.now) (view b.now) }
{
    match kind {
        Op::GetBoolean(..) => from!(Op::GetBoolean, flag(a), register(b)),
        Op::CreateInt64(..) => from!(Op::CreateInt64, signed(a), register(b)),
        Op::CreateBigintInt64(..) => from!(Op::CreateBigintInt64, signed(a), register(b)),
        Op::CreateSymbol(..) => from!(Op::CreateSymbol, register_or_none(a), register(b)),
        Op::AddEnvCleanupHook(..) => from!(
            Op::AddEnvCleanupHook,
            entry_number(entries, a),
            whole(b)
        ),
        Op::RemoveEnvCleanupHook(..) => from!(
            Op::RemoveEnvCleanupHook,
            entry_number(entries, a),
            whole(b)
        ),
        Op::CreateArraybuffer(..) => from!(Op::CreateArraybuffer, whole(a), register(b)),
        Op::ReleaseThreadsafeFunction(..) => from!(
            Op::ReleaseThreadsafeFunction,
            register(a),
            release(b)
        ),
        _ => match (register(a), register(b)) {
            (Some(x), Some(y)) => with_two_registers(kind, x, y),
            _ => None,
        },
    }
}

/// The operation of three arguments of which none is a text.
#[tactic(auto, unfolding(napi_types::specs::scripts::ScriptOperations::with_three_arguments))]
fn with_three_arguments(entries: u32, kind: Op, a: &Value, b: &Value, c: &Value) -> Option<Op>
    ensures { result ≡ with_three_arguments entries kind (view a.now) (view b.now) (view c.now) }
{
    match kind {
        Op::StrictEquals(..) => from!(Op::StrictEquals, register(a), register(b), register(c)),
        Op::EscapeHandle(..) => from!(Op::EscapeHandle, register(a), register(b), register(c)),
        Op::CreateFunction(..) => from!(
            Op::CreateFunction,
            entry_number(entries, a),
            whole(b),
            register(c)
        ),
        Op::CreateError(..) => from!(
            Op::CreateError,
            register_or_none(a),
            register(b),
            register(c)
        ),
        Op::SetElement(..) => from!(Op::SetElement, register(a), whole(b), register(c)),
        Op::GetElement(..) => from!(Op::GetElement, register(a), whole(b), register(c)),
        Op::HasElement(..) => from!(Op::HasElement, register(a), whole(b), register(c)),
        Op::CreateReference(..) => from!(Op::CreateReference, register(a), short(b), register(c)),
        Op::TypeTagObject(..) => from!(Op::TypeTagObject, register(a), whole(b), whole(c)),
        Op::SetInstanceData(..) => from!(
            Op::SetInstanceData,
            whole(a),
            entry_or_none(entries, b),
            whole(c)
        ),
        Op::AddAsyncCleanupHook(..) => from!(
            Op::AddAsyncCleanupHook,
            entry_number(entries, a),
            whole(b),
            register(c)
        ),
        Op::AddReaction(..) => from!(
            Op::AddReaction,
            register(a),
            entry_number(entries, b),
            whole(c)
        ),
        Op::GetView(..) => from!(Op::GetView, register(a), whole(b), register(c)),
        Op::SetView(..) => from!(Op::SetView, register(a), whole(b), whole(c)),
        Op::CallThreadsafeFunction(..) => from!(
            Op::CallThreadsafeFunction,
            register(a),
            whole(b),
            mode(c)
        ),
        _ => None,
    }
}

/// The operation of four arguments.
#[tactic(auto, unfolding(napi_types::specs::scripts::ScriptOperations::with_four_arguments))]
fn with_four_arguments(
    entries: u32,
    kind: Op,
    a: &Value,
    b: &Value,
    c: &Value,
    d: &Value,
) -> Option<Op>
    ensures { result ≡ with_four_arguments entries kind (view a.now) (view b.now) (view c.now) (view d.now) }
{
    match kind {
        Op::CreateExternal(..) => from!(
            Op::CreateExternal,
            whole(a),
            entry_or_none(entries, b),
            whole(c),
            register(d)
        ),
        Op::CheckObjectTypeTag(..) => from!(
            Op::CheckObjectTypeTag,
            register(a),
            whole(b),
            whole(c),
            register(d)
        ),
        Op::CallFunction(..) => from!(
            Op::CallFunction,
            register_or_none(a),
            register(b),
            registers(c),
            register(d)
        ),
        Op::CreateAsyncWork(..) => from!(
            Op::CreateAsyncWork,
            job(a),
            entry_number(entries, b),
            whole(c),
            register(d)
        ),
        _ => None,
    }
}

/// The operation of five arguments.
#[tactic(auto, unfolding(napi_types::specs::scripts::ScriptOperations::with_five_arguments))]
fn with_five_arguments(
    entries: u32,
    kind: Op,
    a: &Value,
    b: &Value,
    c: &Value,
    d: &Value,
    e: &Value,
) -> Option<Op>
    ensures { result ≡ with_five_arguments entries kind (view a.now) (view b.now) (view c.now) (view d.now) (view e.now) }
{
    match kind {
        Op::Wrap(..) => from!(
            Op::Wrap,
            register(a),
            whole(b),
            entry_or_none(entries, c),
            whole(d),
            register_or_none(e)
        ),
        Op::AddFinalizer(..) => from!(
            Op::AddFinalizer,
            register(a),
            whole(b),
            entry_number(entries, c),
            whole(d),
            register_or_none(e)
        ),
        Op::CreateExternalArraybuffer(..) => from!(
            Op::CreateExternalArraybuffer,
            whole(a),
            whole(b),
            entry_number(entries, c),
            whole(d),
            register(e)
        ),
        Op::CreateTypedarray(..) => from!(
            Op::CreateTypedarray,
            whole(a),
            register(b),
            whole(c),
            whole(d),
            register(e)
        ),
        _ => None,
    }
}

/// The operation of seven arguments.
#[tactic(auto, unfolding(napi_types::specs::scripts::ScriptOperations::with_seven_arguments))]
fn with_seven_arguments(
    entries: u32,
    kind: Op,
    a: &Value,
    b: &Value,
    c: &Value,
    d: &Value,
    e: &Value,
    f: &Value,
    g: &Value,
) -> Option<Op>
    ensures { result ≡ with_seven_arguments entries kind (view a.now) (view b.now) (view c.now) (view d.now) (view e.now) (view f.now) (view g.now) }
{
    match kind {
        Op::CreateThreadsafeFunction(..) => from!(
            Op::CreateThreadsafeFunction,
            register_or_none(a),
            entry_or_none(entries, b),
            short(c),
            short(d),
            entry_or_none(entries, e),
            whole(f),
            register(g)
        ),
        _ => None,
    }
}

/// The operation of no argument.
#[tactic(auto, unfolding(napi_types::specs::scripts::ScriptOperations::without_arguments))]
fn without_arguments(kind: Op) -> Option<Op>
    ensures { result ≡ without_arguments kind }
{
    match kind {
        Op::Exit => Some(Op::Exit),
        _ => None,
    }
}

/// The operation of five arguments or more.
#[tactic(auto, unfolding(napi_types::specs::scripts::ScriptOperations::with_more_arguments))]
fn with_more_arguments(
    entries: u32,
    kind: Op,
    a: &Value,
    b: &Value,
    c: &Value,
    d: &Value,
    e: &Value,
    rest: &[Value],
) -> Option<Op>
    ensures { result ≡ with_more_arguments entries kind (view a.now) (view b.now) (view c.now) (view d.now) (view e.now) (items_view rest.now) }
{
    match rest {
        [] => with_five_arguments(entries, kind, a, b, c, d, e),
        [f, g] => with_seven_arguments(entries, kind, a, b, c, d, e, f, g),
        _ => None,
    }
}

/// The operation of a kind with these arguments, where none of them is a text.
#[tactic(auto, unfolding(napi_types::specs::scripts::ScriptOperations::plain_operation))]
pub(crate) fn plain_operation(entries: u32, kind: Op, args: &[Value]) -> Option<Op>
    ensures { result ≡ plain_operation entries kind (items_view args.now) }
{
    match args {
        [] => without_arguments(kind),
        [a] => with_one_argument(kind, a),
        [a, b] => with_two_arguments(entries, kind, a, b),
        [a, b, c] => with_three_arguments(entries, kind, a, b, c),
        [a, b, c, d] => with_four_arguments(entries, kind, a, b, c, d),
        [a, b, c, d, e, rest @ ..] => with_more_arguments(entries, kind, a, b, c, d, e, rest),
    }
}
