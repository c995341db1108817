//! The calls that set and remove properties and elements.
ghost use Rattle.std.specs.Prelude.{◌≡◌, ℕ, ◌≤◌, true, false, nat_lt, IfOk, IfErr, OnOk};
ghost use Rattle.napi_types.specs.parts.Properties.{most_index};
ghost use Rattle.env_values.specs.KeepingHeaps.{KeepsHeap};
ghost use Rattle.env_values.specs.SeenValues.{heap_of, HoldsLive};
ghost use Rattle.env_values.specs.ValueSteps.{Comes};

use crate::known::{known_text, object_like, value_of_handle};
use crate::stop::Stop;
use handle_scope::Scopes;
use napi_types::{Call, HandleId, Out, Status, TextNo};
use value_store::Store;

/// `set_named_property`: a name that is there keeps its place, and a new one goes last.
pub(crate) fn set_named_property(
    store: &mut Store,
    scopes: &Scopes,
    texts: u32,
    object: HandleId,
    name: TextNo,
    value: HandleId,
) -> Result<Out, Stop>
    requires { HoldsLive store.old scopes.now }
    ensures comes { let before = heap_of store.old scopes.now in
        Comes texts before (Call.SetNamedProperty object name value) result (heap_of store.new scopes.now) }
    ensures keeps { KeepsHeap store.old scopes.now store.new scopes.now }
{
    let object = value_of_handle(store, scopes, object)?;
    let value = value_of_handle(store, scopes, value)?;
    known_text(name, texts)?;
    object_like(object.body)?;
    store.set_prop(object.id, name, value.id)?;
    Ok(Out::Nothing)
}

/// `delete_property`: the name is absent afterwards, whether or not it was there.
pub(crate) fn delete_property(
    store: &mut Store,
    scopes: &Scopes,
    texts: u32,
    object: HandleId,
    name: TextNo,
) -> Result<Out, Stop>
    requires { HoldsLive store.old scopes.now }
    ensures comes { let before = heap_of store.old scopes.now in
        Comes texts before (Call.DeleteProperty object name) result (heap_of store.new scopes.now) }
    ensures keeps { KeepsHeap store.old scopes.now store.new scopes.now }
{
    let object = value_of_handle(store, scopes, object)?;
    known_text(name, texts)?;
    object_like(object.body)?;
    let _ = store.remove_prop(object.id, name);
    Ok(Out::Flag(true))
}

/// The greatest index of an element.
const MOST_INDEX: u64 = 65535;

/// The index of an element that is set, refused as an invalid argument above the greatest.
fn settable_index(index: u64) -> Result<u32, Status>
    ensures ok { IfOk result (λ settable. settable ≡ index) }
    ensures within { OnOk result (nat_lt most_index index ≡ false) }
    ensures above { IfErr result (λ status. nat_lt most_index index ≡ true) }
    ensures refused { IfErr result (λ status. status ≡ Status.InvalidArg) }
{
    if index <= MOST_INDEX {
        Ok(index as u32)
    } else {
        Err(Status::InvalidArg)
    }
}

/// `set_element`: holes fill what lies between the end and a later index.
pub(crate) fn set_element(
    store: &mut Store,
    scopes: &Scopes,
    object: HandleId,
    index: u64,
    value: HandleId,
) -> Result<Out, Stop>
    requires { HoldsLive store.old scopes.now }
    ensures comes { (texts : ℕ) → Comes texts (heap_of store.old scopes.now) (Call.SetElement object index value) result (heap_of store.new scopes.now) }
    ensures keeps { KeepsHeap store.old scopes.now store.new scopes.now }
{
    let object = value_of_handle(store, scopes, object)?;
    let value = value_of_handle(store, scopes, value)?;
    object_like(object.body)?;
    let index = settable_index(index)?;
    store.set_element(object.id, index, value.id)?;
    Ok(Out::Nothing)
}
