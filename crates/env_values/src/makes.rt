//! The calls that give handles: of starting values, and of values that they make.
ghost use Rattle.std.specs.Prelude.{◌≡◌, ◌≢◌, ◌+◌, ◌<◌, ◌≤◌, ◌^◌, [], length, IfOk, OnOk, OnErr};
ghost use Rattle.napi_types.specs.plain.Replies.{accepts};
ghost use Rattle.napi_types.specs.parts.Bodies.{NamesNoChild};
ghost use Rattle.napi_types.specs.parts.Graph.{IsLive, number_in};
ghost use Rattle.napi_types.specs.parts.HeapChanges.{handle_of, new_value, new_list};
ghost use Rattle.env_values.specs.KeepingHeaps.{CanGive, CanMake, KeepsScopes, KeepsHeap};
ghost use Rattle.env_values.specs.SeenValues.{heap_of};
ghost use Rattle.env_values.specs.ValueSteps.{GivesHandle};

use crate::known::invariant;
use handle_scope::Scopes;
use napi_types::{Body, HandleId, NoMemory, Out, ValueId};
use value_store::Store;

/// A new handle of a value.
pub(crate) fn give(store: &Store, scopes: &mut Scopes, value: ValueId) -> Result<Out, NoMemory>
    requires give { CanGive store.now scopes.old }
    requires value { IsLive store.now value.0 }
    ensures gives { let before = heap_of store.now scopes.old in
        GivesHandle (handle_of (number_in store.now value.0) before) before result (heap_of store.now scopes.new) }
    ensures keeps { KeepsScopes scopes.old store.now scopes.new }
{
    let _ = store;
    Ok(Out::Handle(scopes.issue(value)?))
}

/// Makes a value of a body that names no child, and gives its handle.
pub(crate) fn give_new(store: &mut Store, scopes: &mut Scopes, body: Body) -> Result<Out, NoMemory>
    requires able { CanMake 1 store.old scopes.old }
    requires alone { NamesNoChild body }
    ensures gives { let before = heap_of store.old scopes.old in
        GivesHandle (new_value body before) before result (heap_of store.new scopes.new) }
    ensures keeps { KeepsHeap store.old scopes.old store.new scopes.new }
{
    let (_, handle) = make_handle(store, scopes, body)?;
    Ok(Out::Handle(handle))
}

/// The same, with the number under which the store has the value. The place of the handle is taken first, so that a value is made
/// only where its handle can be.
pub fn make_held(
    store: &mut Store,
    scopes: &mut Scopes,
    body: Body,
) -> Result<(ValueId, Out), NoMemory>
    requires able { CanMake 1 store.old scopes.old }
    requires alone { NamesNoChild body }
    ensures live { IfOk result (λ held. IsLive store.new held.0.0) }
    ensures number { IfOk result (λ held. number_in store.new held.0.0 ≡ store.old.made + 1) }
    ensures gives { let before = heap_of store.old scopes.old in
        IfOk result (λ held. new_value body before ≡ accepts held.1 (heap_of store.new scopes.new)) }
    ensures err { OnErr result (heap_of store.new scopes.new ≡ heap_of store.old scopes.old) }
    ensures keeps { KeepsHeap store.old scopes.old store.new scopes.new }
{
    let (value, handle) = make_handle(store, scopes, body)?;
    Ok((value, Out::Handle(handle)))
}

/// Makes a value, and its handle.
fn make_handle(
    store: &mut Store,
    scopes: &mut Scopes,
    body: Body,
) -> Result<(ValueId, HandleId), NoMemory>
    requires able { CanMake 1 store.old scopes.old }
    requires alone { NamesNoChild body }
    ensures live { IfOk result (λ made. IsLive store.new made.0.0) }
    ensures number { IfOk result (λ made. number_in store.new made.0.0 ≡ store.old.made + 1) }
    ensures gives { let before = heap_of store.old scopes.old in
        IfOk result (λ made. new_value body before ≡ accepts (Out.Handle made.1) (heap_of store.new scopes.new)) }
    ensures err { OnErr result (heap_of store.new scopes.new ≡ heap_of store.old scopes.old) }
    ensures keeps { KeepsHeap store.old scopes.old store.new scopes.new }
{
    scopes.reserve()?;
    // A value that a scope holds has another number than a new one.
    invariant(store);
    let value = store.make(body)?;
    Ok((value, scopes.issue_reserved(value)))
}

/// A new handle of a starting value, by its place in their order: undefined, null, true, false, the global object.
pub(crate) fn give_starting(store: &Store, scopes: &mut Scopes, which: u32) -> Result<Out, NoMemory>
    requires which { which < 5 }
    requires give { CanGive store.now scopes.old }
    ensures gives { let before = heap_of store.now scopes.old in
        GivesHandle (handle_of (which + 1) before) before result (heap_of store.now scopes.new) }
    ensures keeps { KeepsScopes scopes.old store.now scopes.new }
{
    let value = store.starting(which);
    give(store, scopes, value)
}

/// `create_function`: a function that runs an entry of the addon that calls, and carries a payload.
pub(crate) fn create_function(
    store: &mut Store,
    scopes: &mut Scopes,
    addon: u32,
    entry: u32,
    payload: u64,
) -> Result<Out, NoMemory>
    requires able { CanMake 1 store.old scopes.old }
    ensures gives { let before = heap_of store.old scopes.old in
        GivesHandle (new_value (Body.Function addon entry payload) before) before result (heap_of store.new scopes.new) }
    ensures keeps { KeepsHeap store.old scopes.old store.new scopes.new }
{
    let function = Body::Function {
        addon,
        entry,
        payload,
    };
    give_new(store, scopes, function)
}
