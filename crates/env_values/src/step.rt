//! One call on values, properties or elements.
ghost use Rattle.std.specs.Prelude.{◌≡◌, ◌≢◌, ◌+◌, ◌<◌, ◌^◌, true, cond, [], None, IsTrue, IfOk, OnOk, OnErr};
ghost use Rattle.napi_types.specs.plain.CallKinds.{is_creating, is_value_call};
ghost use Rattle.napi_types.specs.plain.Guards.{is_growing};
ghost use Rattle.napi_types.specs.plain.Replies.{plain as plain_reply};
ghost use Rattle.napi_types.specs.parts.HeapCalls.{heap_answer};
ghost use Rattle.napi_types.specs.parts.HeapRefusals.{refusal_in};
ghost use Rattle.napi_types.specs.parts.Values.{true_value, false_value};
ghost use Rattle.env_values.specs.Numbering.{HasNumbersLeft};
ghost use Rattle.env_values.specs.KeepingHeaps.{CanGive, KeepsHeap};
ghost use Rattle.env_values.specs.SeenValues.{heap_of, HoldsLive, KeepsValues};
ghost use Rattle.env_values.specs.ValueSteps.{ComesOf};

use crate::errors::create_error;
use crate::makes::{create_function, give_new, give_starting};
use crate::names::get_property_names;
use crate::properties::{delete_property, set_element, set_named_property};
use crate::reads::{
    answer_about, get_array_length, has_element, has_named_property, strict_equals,
};
use crate::stop::Stop;
use crate::values::{
    create_int64, create_string_utf8, create_symbol, get_element, get_named_property,
};
use handle_scope::Scopes;
use napi_types::{Body, Call, NoMemory, Out, Status};
use std::alloc::Global;
use value_store::Store;

/// An object as it is created.
const OBJECT: Body = Body::Object {
    array: false,
    error: false,
};

/// An array as it is created.
const ARRAY: Body = Body::Object {
    array: true,
    error: false,
};

/// The place of a boolean among the starting values.
fn place_of(flag: bool) -> u32
    ensures { result + 1 ≡ cond flag true_value false_value }
{
    if flag { 2 } else { 3 }
}

/// What a call comes to that creates a value, or gives a handle of a starting value.
#[tactic(auto, using(crate::proofs::Numbering::number_left))]
fn creation(
    store: &mut Store,
    scopes: &mut Scopes,
    texts: u32,
    addon: u32,
    call: &Call,
) -> Result<Out, Stop>
    requires creating { is_creating call.now ≡ true }
    requires give { CanGive store.old scopes.old }
    requires values { HasNumbersLeft store.old }
    ensures comes { let before = heap_of store.old scopes.old in
        ComesOf texts addon before call.now result (heap_of store.new scopes.new) }
    ensures keeps { KeepsHeap store.old scopes.old store.new scopes.new }
{
    match *call {
        Call::GetUndefined => Ok(give_starting(store, scopes, 0)?),
        Call::GetNull => Ok(give_starting(store, scopes, 1)?),
        Call::GetBoolean(flag) => Ok(give_starting(store, scopes, place_of(flag))?),
        Call::GetGlobal => Ok(give_starting(store, scopes, 4)?),
        Call::CreateInt64(number) => create_int64(store, scopes, number),
        Call::CreateBigintInt64(number) => Ok(give_new(store, scopes, Body::Bigint(number))?),
        Call::CreateStringUtf8(text) => create_string_utf8(store, scopes, texts, text),
        Call::CreateSymbol(description) => create_symbol(store, scopes, description),
        Call::CreateObject => Ok(give_new(store, scopes, OBJECT)?),
        Call::CreateArray => Ok(give_new(store, scopes, ARRAY)?),
        Call::CreateFunction(entry, payload) => {
            Ok(create_function(store, scopes, addon, entry, payload)?)
        }
        Call::CreateError(code, message) => create_error(store, scopes, code, message),
        _ => unreachable!(),
    }
}

/// What a call comes to.
#[tactic(auto, using(crate::proofs::Numbering::number_left))]
fn outcome(
    alloc: Global,
    store: &mut Store,
    scopes: &mut Scopes,
    texts: u32,
    addon: u32,
    call: &Call,
) -> Result<Out, Stop>
    requires value_call { is_value_call call.now ≡ true }
    requires give { CanGive store.old scopes.old }
    requires values { HasNumbersLeft store.old }
    ensures comes { let before = heap_of store.old scopes.old in
        ComesOf texts addon before call.now result (heap_of store.new scopes.new) }
    ensures keeps { KeepsHeap store.old scopes.old store.new scopes.new }
{
    match *call {
        Call::Typeof(value)
        | Call::IsArray(value)
        | Call::IsError(value)
        | Call::IsPromise(value)
        | Call::GetValueInt64(value)
        | Call::GetValueBigintInt64(value)
        | Call::GetValueBool(value)
        | Call::GetValueStringUtf8(value)
        | Call::GetValueExternal(value) => answer_about(store, scopes, call, value),
        Call::GetArrayLength(value) => get_array_length(store, scopes, value),
        Call::StrictEquals(left, right) => strict_equals(store, scopes, left, right),
        Call::SetNamedProperty(object, name, value) => {
            set_named_property(store, scopes, texts, object, name, value)
        }
        Call::GetNamedProperty(object, name) => {
            get_named_property(store, scopes, texts, object, name)
        }
        Call::HasNamedProperty(object, name) => {
            has_named_property(store, scopes, texts, object, name)
        }
        Call::DeleteProperty(object, name) => delete_property(store, scopes, texts, object, name),
        Call::GetPropertyNames(object) => get_property_names(alloc, store, scopes, object),
        Call::SetElement(object, index, value) => {
            set_element(store, scopes, object, index, value)
        }
        Call::GetElement(object, index) => get_element(store, scopes, object, index),
        Call::HasElement(object, index) => has_element(store, scopes, object, index),
        _ => creation(store, scopes, texts, addon, call),
    }
}

/// Makes a call on values, properties or elements in the innermost frame: the machine's step, without guard and phase.
///
/// `texts` says how many texts there are, and `addon` which addon calls: a function that it creates belongs to it. A frame stands,
/// what the scopes hold is live, fewer than 2^62 handles were given, and numbers for new values are left: the values made so far
/// and the names of any one object, of which 65,536 count at most, are together below 2^48 - 8.
///
/// Which frames a call entered stays as it was. After `NoMemory` the scopes and the value graph are as they were too: all memory
/// is taken after the last test and before the first change. So no call that is refused stops for want of memory.
///
/// Near constant time and logarithmic in the open handles, and in an object's properties where one of many was deleted; beside
/// `get_property_names`, and the first `delete_property` in the midst of many, whose time grows with the number of the properties.
pub fn value_step(
    alloc: Global,
    store: &mut Store,
    scopes: &mut Scopes,
    texts: u32,
    addon: u32,
    call: &Call,
) -> Result<(Status, Out), NoMemory>
    requires value_call { is_value_call call.now ≡ true }
    requires standing { scopes.old.frames ≢ [] }
    requires live { HoldsLive store.old scopes.old }
    requires values { HasNumbersLeft store.old }
    requires handles { scopes.old.handles < 2 ^ 62 }
    ensures reply { IfOk result (λ told. plain_reply told.0 told.1 ≡ (heap_answer texts addon (heap_of store.old scopes.old) call.now 0).reply) }
    ensures after { OnOk result (heap_of store.new scopes.new ≡ (heap_answer texts addon (heap_of store.old scopes.old) call.now 0).after) }
    ensures live { HoldsLive store.new scopes.new }
    ensures calls { scopes.new.by_call ≡ scopes.old.by_call }
    ensures kept { KeepsValues store.old store.new }

    // A call that finds no memory is one that grows and that nothing refuses. It leaves the scopes and the value graph as they were.
    ensures err { OnErr result (heap_of store.new scopes.new ≡ heap_of store.old scopes.old) }
    ensures growing { OnErr result (IsTrue (is_growing call.now)) }
    ensures unrefused { OnErr result (refusal_in texts (heap_of store.old scopes.old) call.now ≡ None) }
{
    match outcome(alloc, store, scopes, texts, addon, call) {
        Ok(out) => Ok((Status::Ok, out)),
        Err(Stop::Refused(status)) => Ok((status, Out::Nothing)),
        Err(Stop::NoMemory) => Err(NoMemory),
    }
}
