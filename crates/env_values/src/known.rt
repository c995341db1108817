//! The values of handles, and what a call may expect of a value.
ghost use Rattle.std.specs.Prelude.{◌==◌, ◌≡◌, true, false, is_some, nat_lt, option_map, IfSome, IfOk, IfErr, OnOk};
ghost use Rattle.napi_types.specs.parts.Bodies.{is_object_like, is_string, is_number, is_bigint, is_boolean, is_array, is_external, is_error_body, is_promise_body, signed_of, flag_of, text_of, external_payload, strictly_equal};
ghost use Rattle.napi_types.specs.parts.Graph.{number_in, IsLive, IsSoundStore};
ghost use Rattle.napi_types.specs.parts.Properties.{element_at};
ghost use Rattle.napi_types.specs.parts.Scopes.{gives};
ghost use Rattle.napi_types.specs.parts.Values.{undefined_value};
ghost use Rattle.std.specs.Option.{unwrap_or};
ghost use Rattle.env_values.specs.SeenValues.{heap_of, HoldsLive};
ghost use Rattle.env_values.specs.ValueSteps.{IsValueOf, IsLentBy, IsStored};

use crate::linked::PROMISE_TAG;
use handle_scope::Scopes;
use napi_types::{Body, HandleId, Status, TextNo, ValueId};
use value_store::{Store, ValueInfo};

/// The value that a handle gives: its number in the store, and what it is.
#[derive(Clone, Copy)]
pub struct HandleValue {
    pub id: ValueId,
    pub body: Body,
}

/// The value of a handle, refused as an invalid argument where no open scope holds the handle.
pub fn value_of_handle(
    store: &Store,
    scopes: &Scopes,
    handle: HandleId,
) -> Result<HandleValue, Status>
    requires { HoldsLive store.now scopes.now }
    ensures ok { IfOk result (λ value. IsValueOf store.now scopes.now handle.0 value) }
    ensures unknown { IfErr result (λ status. is_some (gives (heap_of store.now scopes.now).scopes handle.0) ≡ false) }
    ensures refused { IfErr result (λ status. status ≡ Status.InvalidArg) }
    ensures sound { OnOk result (IsSoundStore store.now) }
{
    let Some(id) = scopes.look(handle) else {
        return Err(Status::InvalidArg);
    };
    match store.get(id) {
        Some(value) => Ok(HandleValue {
            id,
            body: value.body(),
        }),
        None => unreachable!(),
    }
}

/// The value of a handle, as the store lends it, refused as an invalid argument where no open scope holds the handle. A call that
/// reads a property or an element takes it from here, and so looks the value up once.
pub(crate) fn lent_value<'a>(
    store: &'a Store,
    scopes: &Scopes,
    handle: HandleId,
) -> Result<ValueInfo<'a>, Status>
    requires { HoldsLive store.now scopes.now }
    ensures ok { IfOk result (λ value. IsLentBy store.now scopes.now handle.0 value) }
    ensures unknown { IfErr result (λ status. is_some (gives (heap_of store.now scopes.now).scopes handle.0) ≡ false) }
    ensures refused { IfErr result (λ status. status ≡ Status.InvalidArg) }
{
    let Some(id) = scopes.look(handle) else {
        return Err(Status::InvalidArg);
    };
    match store.get(id) {
        Some(value) => Ok(value),
        None => unreachable!(),
    }
}

/// A text is known where it stands in the table, of so many texts.
pub(crate) fn known_text(text: TextNo, texts: u32) -> Result<(), Status>
    ensures ok { OnOk result (nat_lt text.0 texts ≡ true) }
    ensures unknown { IfErr result (λ status. nat_lt text.0 texts ≡ false) }
    ensures refused { IfErr result (λ status. status ≡ Status.InvalidArg) }
{
    if text.0 < texts {
        Ok(())
    } else {
        Err(Status::InvalidArg)
    }
}

/// Expects an object or a function.
pub(crate) fn object_like(body: Body) -> Result<(), Status>
    ensures ok { OnOk result (is_object_like body ≡ true) }
    ensures other { IfErr result (λ status. is_object_like body ≡ false) }
    ensures refused { IfErr result (λ status. status ≡ Status.ObjectExpected) }
{
    match body {
        Body::Object { .. } | Body::Linked { .. } | Body::Function { .. } => Ok(()),
        _ => Err(Status::ObjectExpected),
    }
}

/// The text of a string.
pub(crate) fn text(body: Body) -> Result<TextNo, Status>
    ensures ok { IfOk result (λ text. text ≡ text_of body) }
    ensures string { OnOk result (is_string body ≡ true) }
    ensures other { IfErr result (λ status. is_string body ≡ false) }
    ensures refused { IfErr result (λ status. status ≡ Status.StringExpected) }
{
    match body {
        Body::Str(text) => Ok(text),
        _ => Err(Status::StringExpected),
    }
}

/// The whole number that a number is.
pub(crate) fn number(body: Body) -> Result<i64, Status>
    ensures ok { IfOk result (λ number. number ≡ signed_of body) }
    ensures number { OnOk result (is_number body ≡ true) }
    ensures other { IfErr result (λ status. is_number body ≡ false) }
    ensures refused { IfErr result (λ status. status ≡ Status.NumberExpected) }
{
    match body {
        Body::Number(number) => Ok(number),
        _ => Err(Status::NumberExpected),
    }
}

/// The whole number that a bigint is.
pub(crate) fn bigint(body: Body) -> Result<i64, Status>
    ensures ok { IfOk result (λ number. number ≡ signed_of body) }
    ensures bigint { OnOk result (is_bigint body ≡ true) }
    ensures other { IfErr result (λ status. is_bigint body ≡ false) }
    ensures refused { IfErr result (λ status. status ≡ Status.BigintExpected) }
{
    match body {
        Body::Bigint(number) => Ok(number),
        _ => Err(Status::BigintExpected),
    }
}

/// The flag that a boolean is.
pub(crate) fn boolean(body: Body) -> Result<bool, Status>
    ensures ok { IfOk result (λ flag. flag ≡ flag_of body) }
    ensures boolean { OnOk result (is_boolean body ≡ true) }
    ensures other { IfErr result (λ status. is_boolean body ≡ false) }
    ensures refused { IfErr result (λ status. status ≡ Status.BooleanExpected) }
{
    match body {
        Body::Boolean(flag) => Ok(flag),
        _ => Err(Status::BooleanExpected),
    }
}

/// The payload of an external.
pub(crate) fn external(body: Body) -> Result<u64, Status>
    ensures ok { IfOk result (λ payload. payload ≡ external_payload body) }
    ensures external { OnOk result (is_external body ≡ true) }
    ensures other { IfErr result (λ status. is_external body ≡ false) }
    ensures refused { IfErr result (λ status. status ≡ Status.InvalidArg) }
{
    match body {
        Body::External(payload) => Ok(payload),
        _ => Err(Status::InvalidArg),
    }
}

/// Expects an array.
pub(crate) fn array(body: Body) -> Result<(), Status>
    ensures ok { OnOk result (is_array body ≡ true) }
    ensures other { IfErr result (λ status. is_array body ≡ false) }
    ensures refused { IfErr result (λ status. status ≡ Status.ArrayExpected) }
{
    match body {
        Body::Object { array: true, .. } => Ok(()),
        _ => Err(Status::ArrayExpected),
    }
}

/// Whether a value is an array.
pub(crate) fn is_array_value(body: Body) -> bool
    ensures { result ≡ is_array body }
{
    matches!(body, Body::Object { array: true, .. })
}

/// Whether a value was created as an error.
pub(crate) fn is_error_value(body: Body) -> bool
    ensures { result ≡ is_error_body body }
{
    matches!(body, Body::Object { error: true, .. })
}

/// Whether a value is a promise.
pub(crate) fn is_promise_value(body: Body) -> bool
    ensures { result ≡ is_promise_body body }
{
    matches!(
        body,
        Body::Linked {
            tag: PROMISE_TAG,
            ..
        }
    )
}

/// No effect. Its clause is the store's invariant, which `Store::get` proves.
pub fn invariant(store: &Store)
    ensures { IsSoundStore store.now }
{
    let _ = store.get(store.starting(0));
}

/// Whether two values are one.
fn is_same(store: &Store, left: HandleValue, right: HandleValue) -> bool
    requires left { IsStored store.now left }
    requires right { IsStored store.now right }
    ensures { result ≡ (number_in store.now left.id.0 == number_in store.now right.id.0) }
{
    // No two live values have one creation number.
    invariant(store);
    left.id.0 == right.id.0
}

/// Whether two values are strictly equal (`===`).
pub(crate) fn equals_strictly(store: &Store, left: HandleValue, right: HandleValue) -> bool
    requires left { IsStored store.now left }
    requires right { IsStored store.now right }
    ensures { result ≡ strictly_equal left.body (number_in store.now left.id.0) right.body (number_in store.now right.id.0) }
{
    let same = is_same(store, left, right);
    match left.body {
        Body::Number(left) => match right.body {
            Body::Number(right) => left == right,
            _ => same,
        },
        Body::Bigint(left) => match right.body {
            Body::Bigint(right) => left == right,
            _ => same,
        },
        Body::Boolean(left) => match right.body {
            Body::Boolean(right) => left == right,
            _ => same,
        },
        Body::Str(left) => match right.body {
            Body::Str(right) => left.0 == right.0,
            _ => same,
        },
        _ => same,
    }
}

/// The element of an index, `None` exactly at a hole or past the end.
pub(crate) fn element(object: &ValueInfo<'_>, index: u64) -> Option<ValueId>
    ensures { option_map (λ v. v.0) result ≡ element_at index object.now.elements }
{
    match u32::try_from(index) {
        Ok(index) => object.get_element(index),
        Err(_) => {
            // No value has so many elements, as their count tells.
            let _ = object.element_count();
            None
        }
    }
}

/// A live value, or else undefined.
pub fn or_undefined(store: &Store, value: Option<ValueId>) -> ValueId
    requires { IfSome value (λ v. IsLive store.now v.0) }
    ensures live { IsLive store.now result.0 }
    ensures number { number_in store.now result.0 ≡ unwrap_or (option_map (λ v. number_in store.now v.0) value) undefined_value }
{
    value.unwrap_or(store.starting(0))
}
