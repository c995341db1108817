//! The calls that make values, and those that give the value of a property or an element.
ghost use Rattle.std.specs.Prelude.{◌≡◌, ℕ, ◌≢◌, ◌+◌, ◌<◌, ◌^◌, []};
ghost use Rattle.napi_types.specs.parts.Graph.{IsLive};
ghost use Rattle.env_values.specs.KeepingHeaps.{CanGive, CanMake, KeepsScopes, KeepsHeap};
ghost use Rattle.env_values.specs.SeenValues.{heap_of};
ghost use Rattle.env_values.specs.ValueSteps.{Comes};

use crate::known::{
    element, known_text, lent_value, object_like, or_undefined, text, value_of_handle,
};
use crate::makes::{give, give_new};
use crate::stop::Stop;
use handle_scope::Scopes;
use napi_types::{Body, Call, HandleId, Out, Status, TextNo};
use value_store::Store;

/// The greatest whole number of a number, 2^53 - 1. The least is its negative.
const MOST_NUMBER: i64 = 9_007_199_254_740_991;

/// `create_int64`: a number, refused as an invalid argument outside -(2^53-1) to 2^53-1.
pub(crate) fn create_int64(store: &mut Store, scopes: &mut Scopes, number: i64) -> Result<Out, Stop>
    requires able { CanMake 1 store.old scopes.old }
    ensures comes { (texts : ℕ) → Comes texts (heap_of store.old scopes.old) (Call.CreateInt64 number) result (heap_of store.new scopes.new) }
    ensures keeps { KeepsHeap store.old scopes.old store.new scopes.new }
{
    if number < -MOST_NUMBER || number > MOST_NUMBER {
        return Err(Stop::Refused(Status::InvalidArg));
    }
    Ok(give_new(store, scopes, Body::Number(number))?)
}

/// `create_string_utf8`: a string of a text.
pub(crate) fn create_string_utf8(
    store: &mut Store,
    scopes: &mut Scopes,
    texts: u32,
    text: TextNo,
) -> Result<Out, Stop>
    requires able { CanMake 1 store.old scopes.old }
    ensures comes { let before = heap_of store.old scopes.old in
        Comes texts before (Call.CreateStringUtf8 text) result (heap_of store.new scopes.new) }
    ensures keeps { KeepsHeap store.old scopes.old store.new scopes.new }
{
    known_text(text, texts)?;
    Ok(give_new(store, scopes, Body::Str(text))?)
}

/// `create_symbol`: a symbol, whose description is a string where there is one.
pub(crate) fn create_symbol(
    store: &mut Store,
    scopes: &mut Scopes,
    description: Option<HandleId>,
) -> Result<Out, Stop>
    requires able { CanMake 1 store.old scopes.old }
    ensures comes { (texts : ℕ) → Comes texts (heap_of store.old scopes.old) (Call.CreateSymbol description) result (heap_of store.new scopes.new) }
    ensures keeps { KeepsHeap store.old scopes.old store.new scopes.new }
{
    match description {
        None => Ok(give_new(store, scopes, Body::Symbol(None))?),
        Some(handle) => {
            let value = value_of_handle(store, scopes, handle)?;
            let description = text(value.body)?;
            Ok(give_new(store, scopes, Body::Symbol(Some(description)))?)
        }
    }
}

/// `get_named_property`: the value of a property, undefined where the name is absent.
pub(crate) fn get_named_property(
    store: &Store,
    scopes: &mut Scopes,
    texts: u32,
    object: HandleId,
    name: TextNo,
) -> Result<Out, Stop>
    requires give { CanGive store.now scopes.old }
    ensures comes { let before = heap_of store.now scopes.old in
        Comes texts before (Call.GetNamedProperty object name) result (heap_of store.now scopes.new) }
    ensures keeps { KeepsScopes scopes.old store.now scopes.new }
{
    let object = lent_value(store, scopes, object)?;
    known_text(name, texts)?;
    object_like(object.body())?;
    let value = or_undefined(store, object.get_prop(name));
    Ok(give(store, scopes, value)?)
}

/// `get_element`: the value of an element, undefined at a hole and past the end.
pub(crate) fn get_element(
    store: &Store,
    scopes: &mut Scopes,
    object: HandleId,
    index: u64,
) -> Result<Out, Stop>
    requires give { CanGive store.now scopes.old }
    ensures comes { (texts : ℕ) → Comes texts (heap_of store.now scopes.old) (Call.GetElement object index) result (heap_of store.now scopes.new) }
    ensures keeps { KeepsScopes scopes.old store.now scopes.new }
{
    let object = lent_value(store, scopes, object)?;
    object_like(object.body())?;
    let value = or_undefined(store, element(&object, index));
    Ok(give(store, scopes, value)?)
}
