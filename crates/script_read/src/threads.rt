//! The threads of a script and their operations.
ghost use Rattle.std.specs.Prelude.{◌≡◌};
ghost use Rattle.serde_json.specs.View.{view, items_view};
ghost use Rattle.napi_types.specs.scripts.ScriptOperations.{thread_acquire, thread_release, thread_call, thread_operation_named, thread_operation};
ghost use Rattle.napi_types.specs.scripts.ScriptReading.{every};
ghost use Rattle.napi_types.specs.scripts.ScriptThreads.{thread_operation_at, thread_at};
ghost use Rattle.script_read.specs.Reads.{Reads};

use crate::arguments::{mode, release, whole};
use crate::json::{ReadingStop, list_at};
use crate::named::if_named;
use napi_types::{LimitName, Listed, Mistake, Op, OpList, OpLists, ScriptPart};
use serde_json::Value;
use std::alloc::Global;

/// How many operations a thread may have.
const MOST_OPERATIONS: usize = 16_384;

/// A thread's acquiring of a function, by the function's own number.
#[tactic(auto, unfolding(napi_types::specs::scripts::ScriptOperations::thread_acquire, napi_types::specs::scripts::ScriptOperations::named))]
fn thread_acquire(name: &str, a: &Value) -> Option<Op>
    ensures { result ≡ thread_acquire name.now (view a.now) }
{
    let x = whole(a)?;
    if_named(name, "acquire_threadsafe_function", Op::ThreadAcquire(x))
}

/// A thread's release of a function.
#[tactic(auto, unfolding(napi_types::specs::scripts::ScriptOperations::thread_release, napi_types::specs::scripts::ScriptOperations::named))]
fn thread_release(name: &str, a: &Value, b: &Value) -> Option<Op>
    ensures { result ≡ thread_release name.now (view a.now) (view b.now) }
{
    let x = whole(a)?;
    let y = release(b)?;
    if_named(name, "release_threadsafe_function", Op::ThreadRelease(x, y))
}

/// A thread's call of a function.
#[tactic(auto, unfolding(napi_types::specs::scripts::ScriptOperations::thread_call, napi_types::specs::scripts::ScriptOperations::named))]
fn thread_call(name: &str, a: &Value, b: &Value, c: &Value) -> Option<Op>
    ensures { result ≡ thread_call name.now (view a.now) (view b.now) (view c.now) }
{
    let x = whole(a)?;
    let y = whole(b)?;
    let z = mode(c)?;
    if_named(name, "call_threadsafe_function", Op::ThreadCall(x, y, z))
}

/// The operation of a thread of this name with these arguments.
#[tactic(auto, unfolding(napi_types::specs::scripts::ScriptOperations::thread_operation_named))]
fn thread_operation_named(name: &str, args: &[Value]) -> Option<Op>
    ensures { result ≡ thread_operation_named name.now (items_view args.now) }
{
    match args {
        [a] => thread_acquire(name, a),
        [a, b] => thread_release(name, a, b),
        [a, b, c] => thread_call(name, a, b, c),
        _ => None,
    }
}

/// The operation of a thread that a value is.
#[tactic(auto, unfolding(napi_types::specs::scripts::ScriptOperations::thread_operation))]
fn thread_operation(value: &Value) -> Option<Op>
    ensures { result ≡ thread_operation (view value.now) }
{
    match value {
        Value::Array(items) => match items.as_slice() {
            [Value::String(name), args @ ..] => thread_operation_named(name.as_str(), args),
            _ => None,
        },
        _ => None,
    }
}

/// An operation of a thread.
#[tactic(auto, unfolding(napi_types::specs::scripts::ScriptThreads::thread_operation_at))]
fn thread_operation_at(t: usize, o: usize, value: &Value) -> Result<Op, ReadingStop>
    ensures { Reads result (thread_operation_at t o (view value.now)) }
{
    match thread_operation(value) {
        Some(operation) => Ok(operation),
        None => Err(ReadingStop::Mistake(Mistake::Shape(ScriptPart::ThreadOperation(t, o)))),
    }
}

/// The operations that items are.
fn each_operation(alloc: Global, t: usize, items: &[Value]) -> Result<OpList, ReadingStop>
    ensures { Reads result (every (thread_operation_at t) 0 (items_view items.now)) }
{
    let mut list = Vec::new(alloc);
    for (o, item) in items.iter().enumerate() {
        let operation = thread_operation_at(t, o, item)?;
        let Ok(()) = list.push(operation) else {
            return Err(ReadingStop::NoMemory);
        };
    }
    Ok(Listed::of(list))
}

/// A thread.
#[tactic(auto, unfolding(napi_types::specs::scripts::ScriptThreads::thread_at))]
fn thread_at(alloc: Global, t: usize, value: &Value) -> Result<OpList, ReadingStop>
    ensures { Reads result (thread_at t (view value.now)) }
{
    let place = ScriptPart::Thread(t);
    let items = list_at(place, LimitName::Operations, MOST_OPERATIONS, Some(value))?;
    each_operation(alloc, t, items)
}

/// The threads that items are.
pub(crate) fn each_thread(alloc: Global, items: &[Value]) -> Result<OpLists, ReadingStop>
    ensures { Reads result (every thread_at 0 (items_view items.now)) }
{
    let mut list = Vec::new(alloc);
    for (t, item) in items.iter().enumerate() {
        let thread = thread_at(alloc, t, item)?;
        let Ok(()) = list.push(thread) else {
            return Err(ReadingStop::NoMemory);
        };
    }
    Ok(Listed::of(list))
}
