//! The calls that tell what a value is.
ghost use Rattle.std.specs.Prelude.{◌≡◌, ℕ, [], ◌∷◌, true};
ghost use Rattle.napi_types.specs.plain.CallKinds.{is_telling};
ghost use Rattle.napi_types.specs.parts.NamedNumbers.{handles_of};
ghost use Rattle.env_values.specs.SeenValues.{heap_of, HoldsLive};
ghost use Rattle.env_values.specs.ValueSteps.{Comes, ComesOf};

use crate::known::{
    array, bigint, boolean, element, equals_strictly, external, is_array_value, is_error_value,
    is_promise_value, known_text, lent_value, number, object_like, text, value_of_handle,
};
use crate::stop::Stop;
use handle_scope::Scopes;
use napi_types::{Call, HandleId, Out, TextNo};
use value_store::Store;

/// The calls that tell what one value is: `typeof`, `is_array`, `is_error`, `is_promise` and `get_value_*`. `value` is the one handle that the call names.
pub(crate) fn answer_about(
    store: &Store,
    scopes: &Scopes,
    call: &Call,
    value: HandleId,
) -> Result<Out, Stop>
    requires telling { is_telling call.now ≡ true }
    requires named { handles_of call.now ≡ value.0 ∷ [] }
    requires live { HoldsLive store.now scopes.now }
    ensures comes { let heap = heap_of store.now scopes.now in (texts addon : ℕ) → ComesOf texts addon heap call.now result heap }
{
    let value = value_of_handle(store, scopes, value)?;
    match *call {
        Call::Typeof(_) => Ok(Out::Kind(value.body.kind())),
        Call::IsArray(_) => Ok(Out::Flag(is_array_value(value.body))),
        Call::IsError(_) => Ok(Out::Flag(is_error_value(value.body))),
        Call::IsPromise(_) => Ok(Out::Flag(is_promise_value(value.body))),
        Call::GetValueInt64(_) => Ok(Out::Signed(number(value.body)?)),
        Call::GetValueBigintInt64(_) => Ok(Out::Signed(bigint(value.body)?)),
        Call::GetValueBool(_) => Ok(Out::Flag(boolean(value.body)?)),
        Call::GetValueStringUtf8(_) => Ok(Out::Text(text(value.body)?)),
        Call::GetValueExternal(_) => Ok(Out::Unsigned(external(value.body)?)),
        _ => unreachable!(),
    }
}

/// `get_array_length`: how many elements an array has, holes counted.
pub(crate) fn get_array_length(store: &Store, scopes: &Scopes, value: HandleId) -> Result<Out, Stop>
    requires { HoldsLive store.now scopes.now }
    ensures comes { let heap = heap_of store.now scopes.now in (texts : ℕ) → Comes texts heap (Call.GetArrayLength value) result heap }
{
    let value = lent_value(store, scopes, value)?;
    array(value.body())?;
    Ok(Out::Unsigned(u64::from(value.element_count())))
}

/// `strict_equals`: numbers, bigints, booleans and strings are equal by content, and all else by identity.
pub(crate) fn strict_equals(
    store: &Store,
    scopes: &Scopes,
    left: HandleId,
    right: HandleId,
) -> Result<Out, Stop>
    requires { HoldsLive store.now scopes.now }
    ensures comes { let heap = heap_of store.now scopes.now in (texts : ℕ) → Comes texts heap (Call.StrictEquals left right) result heap }
{
    let left = value_of_handle(store, scopes, left)?;
    let right = value_of_handle(store, scopes, right)?;
    Ok(Out::Flag(equals_strictly(store, left, right)))
}

/// `has_named_property`: whether an object has a property of the name.
pub(crate) fn has_named_property(
    store: &Store,
    scopes: &Scopes,
    texts: u32,
    object: HandleId,
    name: TextNo,
) -> Result<Out, Stop>
    requires { HoldsLive store.now scopes.now }
    ensures comes { let heap = heap_of store.now scopes.now in Comes texts heap (Call.HasNamedProperty object name) result heap }
{
    let object = lent_value(store, scopes, object)?;
    known_text(name, texts)?;
    object_like(object.body())?;
    Ok(Out::Flag(object.get_prop(name).is_some()))
}

/// `has_element`: whether an object has an element of the index. It has none past the greatest index.
pub(crate) fn has_element(
    store: &Store,
    scopes: &Scopes,
    object: HandleId,
    index: u64,
) -> Result<Out, Stop>
    requires { HoldsLive store.now scopes.now }
    ensures comes { let heap = heap_of store.now scopes.now in (texts : ℕ) → Comes texts heap (Call.HasElement object index) result heap }
{
    let object = lent_value(store, scopes, object)?;
    object_like(object.body())?;
    Ok(Out::Flag(element(&object, index).is_some()))
}
