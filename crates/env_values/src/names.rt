//! The names of an object's properties.
ghost use Rattle.std.specs.Prelude.{◌≡◌, ℕ, ◌≢◌, ◌+◌, ◌<◌, ◌≤◌, ◌^◌, [], true, false, length, nat_lt, None, IfOk, IfErr, OnOk};
ghost use Rattle.std.specs.List.{All};
ghost use Rattle.std.specs.declared.result.Result.TheVariants.{Err};
ghost use Rattle.napi_types.specs.parts.Bodies.{NamesNoChild};
ghost use Rattle.napi_types.specs.parts.Heap.{handle_properties};
ghost use Rattle.napi_types.specs.parts.HeapChanges.{new_list};
ghost use Rattle.napi_types.specs.parts.Properties.{most_names};
ghost use Rattle.napi_types.specs.parts.PropertyCalls.{names_of};
ghost use Rattle.napi_types.specs.parts.HeapRefusals.{refusal_in};
ghost use Rattle.env_values.specs.Numbering.{HasNumbersLeft};
ghost use Rattle.env_values.specs.KeepingHeaps.{CanGive, CanMake, KeepsHeap};
ghost use Rattle.env_values.specs.SeenValues.{heap_of, HoldsLive};
ghost use Rattle.env_values.specs.ValueSteps.{Comes, GivesHandle};

use crate::known::{invariant, lent_value, object_like};
use crate::stop::Stop;
use handle_scope::Scopes;
use napi_types::{Body, Call, HandleId, NoMemory, Out, Status};
use std::alloc::Global;
use value_store::{Store, ValueInfo};

/// How many names are listed at most.
const MOST_NAMES: usize = 65536;

/// The names of a value, as strings, in the order in which they were first set.
fn names(alloc: Global, object: &ValueInfo<'_>) -> Result<Vec<Body>, NoMemory>
    ensures { IfOk result (λ names. names.items ≡ names_of object.now.properties) }
{
    let mut names = Vec::new(alloc);
    let mut properties = object.properties();
    while let Some((name, _)) = properties.next() {
        names.push(Body::Str(name))?;
    }
    Ok(names)
}

/// An object is listed that has not too many names; another one is refused as an invalid argument.
fn listable(object: &ValueInfo<'_>) -> Result<(), Status>
    ensures ok { OnOk result (nat_lt most_names (length object.now.properties) ≡ false) }
    ensures many { IfErr result (λ status. nat_lt most_names (length object.now.properties) ≡ true) }
    ensures refused { IfErr result (λ status. status ≡ Status.InvalidArg) }
{
    if object.name_count() <= MOST_NAMES {
        Ok(())
    } else {
        Err(Status::InvalidArg)
    }
}

/// The names that `get_property_names` lists, unless the call stops before.
fn listed_names(
    alloc: Global,
    store: &Store,
    scopes: &Scopes,
    object: HandleId,
) -> Result<Vec<Body>, Stop>
    requires live { HoldsLive store.now scopes.now }
    requires values { HasNumbersLeft store.now }
    ensures names { let heap = heap_of store.now scopes.now in IfOk result (λ names. names.items ≡ names_of (handle_properties heap object.0)) }
    ensures few { IfOk result (λ names. length names.items ≤ most_names) }
    ensures numbers { IfOk result (λ names. store.now.made + length names.items + 8 < 2 ^ 48) }
    ensures unrefused { let heap = heap_of store.now scopes.now in (texts : ℕ) → OnOk result (refusal_in texts heap (Call.GetPropertyNames object) ≡ None) }
    ensures stops { let heap = heap_of store.now scopes.now in
        IfErr result (λ stop. (texts : ℕ) → Comes texts heap (Call.GetPropertyNames object) (Err stop) heap) }
{
    let object = lent_value(store, scopes, object)?;
    object_like(object.body())?;
    listable(&object)?;
    Ok(names(alloc, &object)?)
}

/// A new array of new values, and its handle. The place of the handle is taken first.
fn give_list(store: &mut Store, scopes: &mut Scopes, bodies: &[Body]) -> Result<Out, NoMemory>
    requires count { length bodies.now ≤ most_names }
    requires able { CanMake (length bodies.now + 1) store.old scopes.old }
    requires alone { All NamesNoChild bodies.now }
    ensures gives { let before = heap_of store.old scopes.old in
        GivesHandle (new_list bodies.now before) before result (heap_of store.new scopes.new) }
    ensures keeps { KeepsHeap store.old scopes.old store.new scopes.new }
{
    scopes.reserve()?;
    invariant(store);
    let value = store.make_list(bodies)?;
    Ok(Out::Handle(scopes.issue_reserved(value)))
}

/// `get_property_names`: a new array of the names, refused as an invalid argument for an object with more than 65,536 names.
pub(crate) fn get_property_names(
    alloc: Global,
    store: &mut Store,
    scopes: &mut Scopes,
    object: HandleId,
) -> Result<Out, Stop>
    requires give { CanGive store.old scopes.old }
    requires values { HasNumbersLeft store.old }
    ensures comes { (texts : ℕ) → Comes texts (heap_of store.old scopes.old) (Call.GetPropertyNames object) result (heap_of store.new scopes.new) }
    ensures keeps { KeepsHeap store.old scopes.old store.new scopes.new }
{
    let names = listed_names(alloc, store, scopes, object)?;
    Ok(give_list(store, scopes, &names)?)
}
