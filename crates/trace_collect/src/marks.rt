//! The places of a store, marked where the roots reach the value that stands there.
ghost use Rattle.std.specs.Prelude.{◌≡◌, ◌+◌, ◌≤◌, ◌++◌, [], ◌∷◌, length, vec_capacity, IfOk, OnOk, option_to_list};
ghost use Rattle.std.specs.List.{All};
ghost use Rattle.napi_types.specs.parts.Graph.{live, IsLive, IsSoundStore};
ghost use Rattle.value_store.specs.StoreChanges.{children_in, numbers_of, EachStandsOnce};
ghost use Rattle.trace_collect.specs.MarkedValues.{unmarked_ids, unmarked_count, NoneIsMarked, AreMarked, Marks, Follows};

use mark_bits::Bits;
use napi_types::{NoMemory, ValueId};
use std::alloc::Global;
use value_store::Store;

/// A mark for each place of the store, set where no value stands: whether the roots reach the value there.
pub(crate) fn reached(alloc: Global, store: &Store, roots: &[ValueId]) -> Result<Bits, NoMemory>
    requires { All (IsLive store.now) (numbers_of roots.now) }
    ensures size { IfOk result (λ marks. length marks ≡ length store.now.places) }
    ensures marked { IfOk result (λ marks. AreMarked store.now (numbers_of roots.now) marks) }
    ensures once { OnOk result (EachStandsOnce store.now) }
    ensures sound { OnOk result (IsSoundStore store.now) }
{
    let mut marks = store.vacant_places(alloc)?;
    let mut left = Vec::with_capacity(alloc, store.live_count())?;
    mark_reached(store, roots, &mut marks, &mut left);
    Ok(marks)
}

/// Marks what the roots reach, where no value is marked and none is left to follow.
fn mark_reached(store: &Store, roots: &[ValueId], marks: &mut Bits, left: &mut Vec<ValueId>)
    requires once { EachStandsOnce store.now }
    requires sound { IsSoundStore store.now }
    requires live { All (IsLive store.now) (numbers_of roots.now) }
    requires size { length marks.old ≡ length store.now.places }
    requires unmarked { NoneIsMarked store.now marks.old }
    requires empty { left.old.items ≡ [] }
    requires room { length (live store.now) ≤ vec_capacity left.old }
    ensures size { length marks.new ≡ length store.now.places }
    ensures marked { AreMarked store.now (numbers_of roots.now) marks.new }
{
    mark_each(store, roots, marks, left);
    follow(store, marks, left);
}

/// The numbers of the values at places that are not marked, in the order of the places.
pub(crate) fn unmarked(alloc: Global, store: &Store, marks: &Bits) -> Result<Vec<ValueId>, NoMemory>
    requires { length marks.now ≡ length store.now.places }
    ensures { IfOk result (λ list. numbers_of list.items ≡ unmarked_ids store.now marks.now (length marks.now)) }
{
    let mut list = Vec::new(alloc);
    let mut place = marks.next_unset(0);
    while place < marks.len() {
        add(&mut list, store.at_place(place))?;
        place = marks.next_unset(place + 1);
    }
    Ok(list)
}

/// Adds a number, where there is one.
fn add(list: &mut Vec<ValueId>, id: Option<ValueId>) -> Result<(), NoMemory>
    ensures { OnOk result (list.new.items ≡ list.old.items ++ option_to_list id) }
{
    if let Some(id) = id {
        list.push(id)?;
    }
    Ok(())
}

/// Marks these values. Those that were not marked are added to the ones that are left to follow.
fn mark_each(store: &Store, ids: &[ValueId], marks: &mut Bits, left: &mut Vec<ValueId>)
    requires live { All (IsLive store.now) (numbers_of ids.now) }
    requires size { length marks.old ≡ length store.now.places }
    requires room { length left.old.items + unmarked_count store.now marks.old ≤ vec_capacity left.old }
    ensures marked { Marks store.now (numbers_of ids.now) marks.old (numbers_of left.old.items) marks.new (numbers_of left.new.items) }
    ensures capacity { vec_capacity left.new ≡ vec_capacity left.old }
{
    for id in ids {
        mark(store, *id, marks, left);
    }
}

/// Follows the values that are left, and all that are marked on the way, until none is left.
fn follow(store: &Store, marks: &mut Bits, left: &mut Vec<ValueId>)
    requires once { EachStandsOnce store.now }
    requires sound { IsSoundStore store.now }
    requires size { length marks.old ≡ length store.now.places }
    requires room { length left.old.items + unmarked_count store.now marks.old ≤ vec_capacity left.old }
    ensures size { length marks.new ≡ length marks.old }
    ensures followed { Follows store.now marks.old (numbers_of left.old.items) marks.new }
{
    while let Some(id) = left.pop() {
        mark_children(store, id, marks, left);
    }
}

/// Marks the children of a value. Those that were not marked are added to the values that are left to follow.
fn mark_children(store: &Store, id: ValueId, marks: &mut Bits, left: &mut Vec<ValueId>)
    requires size { length marks.old ≡ length store.now.places }
    requires room { length left.old.items + unmarked_count store.now marks.old ≤ vec_capacity left.old }
    ensures marked { Marks store.now (children_in store.now id.0) marks.old (numbers_of left.old.items) marks.new (numbers_of left.new.items) }
    ensures capacity { vec_capacity left.new ≡ vec_capacity left.old }
{
    let mut children = store.children(id);
    while let Some(child) = children.next() {
        mark(store, child, marks, left);
    }
}

/// Marks a value. If it was not marked, it is added to the values that are left to follow.
fn mark(store: &Store, id: ValueId, marks: &mut Bits, left: &mut Vec<ValueId>)
    requires live { IsLive store.now id.0 }
    requires size { length marks.old ≡ length store.now.places }
    requires room { length left.old.items + unmarked_count store.now marks.old ≤ vec_capacity left.old }
    ensures marked { Marks store.now (id.0 ∷ []) marks.old (numbers_of left.old.items) marks.new (numbers_of left.new.items) }
    ensures capacity { vec_capacity left.new ≡ vec_capacity left.old }
{
    let place = store.place_of(id);
    if marks.is_set(place) {
        return;
    }
    marks.set(place);
    left.push_reserved(id);
}
