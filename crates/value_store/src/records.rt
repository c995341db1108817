//! The records of a store: what is made is held under a new number, and what is freed is let go.
ghost use Rattle.std.specs.Prelude.{◌≡◌, ℕ, ◌+◌, ◌<◌, ◌≤◌, ◌^◌, ◌++◌, ◌∷◌, [], true, nat_eq, length, map, cond, option_map, slice_index_or, IsSome, OnOk, OnErr, IfOk, Some, None};
ghost use Rattle.std.specs.List.{All, IsDistinct};
ghost use Rattle.generation_slab.specs.HeldPlaces.{value_of, EachStandsOnce};
ghost use Rattle.napi_types.specs.plain.Lists.{has_number};
ghost use Rattle.napi_types.specs.parts.Bodies.{NamesNoChild};
ghost use Rattle.napi_types.specs.parts.Graph.{graph_of};
ghost use Rattle.napi_types.specs.parts.NewValues.{list_of, thrown_of};
ghost use Rattle.napi_types.specs.parts.Properties.{most_index, element_at, property_at};
ghost use Rattle.napi_types.specs.parts.Values.{starting_values, with_element, with_property};
ghost use Rattle.value_store.specs.StoreChanges.{numbers_of};
ghost use Rattle.value_store.specs.Contents.{state_of, properties_here, elements_here, ChangesPlace, AddsRecord, IsGood, GrowsTo, IsKeptStore};

use crate::contents::{CODE, Contents, MESSAGE};
use crate::record::ValueRecord;
use generation_slab::GenerationSlab;
use napi_types::{Body, NoMemory, TextNo, ValueId};
use std::alloc::Global;

/// Holds a value with this creation number. The memory for it is taken.
fn put(values: &mut GenerationSlab<ValueRecord>, number: u64, value: Contents) -> ValueId
    requires { 0 < values.old.room }
    ensures added { AddsRecord values.old values.new result.0 (record { number = number; value = value }) }
    ensures room { values.new.room + 1 ≡ values.old.room }
{
    ValueId(values.make_reserved(ValueRecord { number, value }))
}

/// The starting values, in slots that hold nothing.
pub(crate) fn starting(values: &mut GenerationSlab<ValueRecord>) -> Result<[ValueId; 5], NoMemory>
    requires empty { values.old.places ≡ [] }
    requires none { values.old.issued ≡ [] }
    ensures kept { IfOk result (λ ids. IsKeptStore values.new 5 ids) }
    ensures graph { OnOk result (graph_of (state_of values.new 5) ≡ starting_values) }
{
    values.reserve(5)?;
    Ok([
        put(values, 1, Contents::Plain(Body::Undefined)),
        put(values, 2, Contents::Plain(Body::Null)),
        put(values, 3, Contents::Plain(Body::Boolean(true))),
        put(values, 4, Contents::Plain(Body::Boolean(false))),
        put(values, 5, Contents::Plain(GLOBAL)),
    ])
}

/// The global object as it is created.
const GLOBAL: Body = Body::Object {
    array: false,
    error: false,
};

/// Makes a value of each of these bodies, in their order, and then an array of them. All memory is taken before the first.
pub(crate) fn make_list(
    alloc: Global,
    values: &mut GenerationSlab<ValueRecord>,
    made: u64,
    bodies: &[Body],
) -> Result<ValueId, NoMemory>
    requires count { length bodies.now ≤ most_index + 1 }
    requires room { made + length bodies.now + 2 < 2 ^ 48 }
    requires alone { All NamesNoChild bodies.now }
    requires once { EachStandsOnce values.old }
    requires good { IsGood (state_of values.old made) }
    ensures listed { IfOk result (λ id. GrowsTo (state_of values.old made) (state_of values.new (made + (length bodies.now + 1))) (list_of made bodies.now) id.0) }
    ensures once { EachStandsOnce values.new }
    ensures err { OnErr result (state_of values.new made ≡ state_of values.old made) }
{
    // Its elements are set as the values are made: until then they are no numbers.
    let mut array = Contents::array(alloc, 0, bodies.len() as u32)?;
    values.reserve(bodies.len() + 1)?;
    for at in 0..bodies.len() {
        let id = put(values, made + at as u64 + 1, Contents::Plain(bodies[at]));
        set_again(alloc, &mut array, at as u32, id);
    }
    Ok(put(values, made + bodies.len() as u64 + 1, array))
}

/// Sets an element that is there. It takes no memory.
fn set_again(alloc: Global, array: &mut Contents, at: u32, to: ValueId)
    requires index { at ≤ most_index }
    requires there { IsSome (element_at at (elements_here array.old)) }
    ensures { ChangesPlace array.old array.new (with_element at to.0) }
{
    if array.set_element(alloc, at, to).is_err() {
        unreachable!();
    }
}

/// Sets a property that is there. It takes no memory.
fn name_again(alloc: Global, error: &mut Contents, name: TextNo, to: ValueId)
    requires { IsSome (property_at name.0 (properties_here error.old)) }
    ensures { ChangesPlace error.old error.new (with_property name.0 to.0) }
{
    if error.set_prop(alloc, name, to).is_err() {
        unreachable!();
    }
}

/// Makes a string of each of an error's texts, the message first, and then the error of them. All memory is taken before the first.
pub(crate) fn make_thrown(
    alloc: Global,
    values: &mut GenerationSlab<ValueRecord>,
    made: u64,
    code: Option<TextNo>,
    message: TextNo,
) -> Result<ValueId, NoMemory>
    requires room { made + 4 < 2 ^ 48 }
    requires once { EachStandsOnce values.old }
    requires good { IsGood (state_of values.old made) }
    ensures thrown { IfOk result (λ id. GrowsTo (state_of values.old made) (state_of values.new (made + length (thrown_of made code message))) (thrown_of made code message) id.0) }
    ensures once { EachStandsOnce values.new }
    ensures err { OnErr result (state_of values.new made ≡ state_of values.old made) }
{
    // Its properties are set as the strings are made: until then they are no numbers.
    let none = ValueId(0);
    match code {
        None => {
            let mut error = Contents::error(alloc, None, none)?;
            values.reserve(2)?;
            let said = put(values, made + 1, Contents::Plain(Body::Str(message)));
            name_again(alloc, &mut error, MESSAGE, said);
            Ok(put(values, made + 2, error))
        }
        Some(code) => {
            let mut error = Contents::error(alloc, Some(none), none)?;
            values.reserve(3)?;
            let said = put(values, made + 1, Contents::Plain(Body::Str(message)));
            name_again(alloc, &mut error, MESSAGE, said);
            let coded = put(values, made + 2, Contents::Plain(Body::Str(code)));
            name_again(alloc, &mut error, CODE, coded);
            Ok(put(values, made + 3, error))
        }
    }
}

/// Frees these numbers.
pub(crate) fn clear(values: &mut GenerationSlab<ValueRecord>, list: &[ValueId])
    requires held { All (λ n. IsSome (value_of values.old n)) (numbers_of list.now) }
    requires distinct { IsDistinct nat_eq (numbers_of list.now) }
    requires once { EachStandsOnce values.old }
    ensures values { (n : ℕ) → value_of values.new n ≡ cond (has_number n (numbers_of list.now)) None (value_of values.old n) }
    ensures issued { values.new.issued ≡ values.old.issued }
    ensures once { EachStandsOnce values.new }
{
    for id in list {
        values.free(id.0);
    }
}
