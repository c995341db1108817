//! The properties of a value of which one was removed that was not the last.
ghost use Rattle.std.specs.Prelude.{◌≡◌, ◌<◌, ◌^◌, [], nat_eq, length, ◌∷◌, IfSome, OnOk, OnErr, is_some, None};
ghost use Rattle.std.specs.Option.{MatchOption, IfNone};
ghost use Rattle.std.specs.declared.ops.Bound.TheVariants.{Excluded};
ghost use Rattle.std.specs.List.{All};
ghost use Rattle.std.specs.Map.{keys_of, lookup, remove_entry};
ghost use Rattle.indexmap.specs.IndexMap.{insert_entry};
ghost use Rattle.value_store.specs.OrderedMaps.{properties_from};

use napi_types::{NoMemory, ValueId};
use std::alloc::Global;
use std::collections::BTreeMap;
use std::marker::Model;
use std::ops::Bound;

/// Properties, each as the number of its name's text and its value, in the order in which their names were first set. A name stands
/// once. Where one is removed no other is moved.
#[derive(Drop)]
pub(crate) struct Ordered {
    // Each property under a number. Numbers rise as names are first set, so this is their order.
    by_number: BTreeMap<u64, (u32, ValueId)>,
    // The number of each name.
    by_name: BTreeMap<u32, u64>,
}

impl Model for Ordered {
    ghost use Rattle.std.specs.Prelude.{List, ℕ};
    ghost use Rattle.std.specs.Map.{values_of};
    ghost use Rattle.napi_types.specs.declared.ids.ValueId.{ValueId};
    ghost use Rattle.value_store.specs.OrderedMaps.{AreKeptProperties};

    ghost Value = { List (ℕ × ValueId) };

    ghost view = { λ ordered. values_of ordered.by_number.entries };

    ghost invariant = { λ ordered. AreKeptProperties ordered.by_number ordered.by_name };
}

impl Ordered {
    /// No properties. It takes no memory.
    pub(crate) fn new(alloc: Global) -> Ordered
        ensures { result ≡ [] }
    {
        Ordered {
            by_number: BTreeMap::new(alloc),
            by_name: BTreeMap::new(alloc),
        }
    }

    /// Sets a property. In time logarithmic in how many there are.
    pub(crate) fn set(&mut self, name: u32, to: ValueId) -> Result<(), NoMemory>
        ensures set { OnOk result (self.new ≡ insert_entry nat_eq self.old name to) }
        ensures err { OnErr result (self.new ≡ self.old) }
        ensures absent { OnErr result (lookup (nat_eq name) self.old ≡ None) }
    {
        match self.by_name.get(&name) {
            Some(number) => {
                let number = *number;
                self.by_number.insert(number, (name, to))?;
                Ok(())
            }
            None => self.add(name, to),
        }
    }

    /// Adds a property whose name is not there, as the last.
    fn add(&mut self, name: u32, to: ValueId) -> Result<(), NoMemory>
        requires { lookup (nat_eq name) self.old ≡ None }
        ensures set { OnOk result (self.new ≡ insert_entry nat_eq self.old name to) }
        ensures err { OnErr result (self.new ≡ self.old) }
    {
        let Some(number) = next_number(&self.by_number) else {
            return Err(NoMemory);
        };
        self.by_name.insert(name, number)?;
        match self.by_number.insert(number, (name, to)) {
            Ok(_) => Ok(()),
            Err(_) => {
                self.by_name.remove(&name);
                Err(NoMemory)
            }
        }
    }

    /// The value of a property. In time logarithmic in how many there are.
    pub(crate) fn get(&self, name: u32) -> Option<ValueId>
        ensures { result ≡ lookup (nat_eq name) self.now }
    {
        let number = self.by_name.get(&name)?;
        match self.by_number.get(number) {
            Some(property) => Some(property.1),
            None => None,
        }
    }

    /// Removes a property, and tells whether it was there. In time logarithmic in how many there are.
    pub(crate) fn remove(&mut self, name: u32) -> bool
        ensures removed { self.new ≡ remove_entry (nat_eq name) self.old }
        ensures was { result ≡ is_some (lookup (nat_eq name) self.old) }
    {
        match self.by_name.remove(&name) {
            Some(number) => {
                self.by_number.remove(&number);
                true
            }
            None => false,
        }
    }

    pub(crate) fn len(&self) -> usize
        ensures many { result ≡ length self.now }
        ensures fits { result < 2 ^ 63 }
    {
        self.by_number.len()
    }

    /// The properties in their order, one after another.
    pub(crate) fn walk(&self) -> OrderedWalk<'_>
        ensures { result ≡ self.now }
    {
        OrderedWalk {
            by_number: &self.by_number,
            from: Bound::Unbounded,
        }
    }
}

/// A walk over such properties in their order. Contracts see those that it has left. It is small, since each walk over a value's
/// properties has room for it.
#[derive(Drop)]
pub(crate) struct OrderedWalk<'a> {
    by_number: &'a BTreeMap<u64, (u32, ValueId)>,
    // From which number it goes on.
    from: Bound<u64>,
}

impl<'a> Model for OrderedWalk<'a> {
    ghost use Rattle.std.specs.Prelude.{List, ℕ};
    ghost use Rattle.napi_types.specs.declared.ids.ValueId.{ValueId};
    ghost use Rattle.value_store.specs.OrderedMaps.{properties_from};

    ghost Value = { List (ℕ × ValueId) };

    ghost view = { λ walk. properties_from walk.from walk.by_number.now };
}

impl<'a> OrderedWalk<'a> {
    /// The next property, `None` exactly where none is left. In time logarithmic in how many there are.
    pub(crate) fn next(&mut self) -> Option<(u32, ValueId)>
        ensures next { MatchOption result (self.old ≡ []) (λ p. self.old ≡ p ∷ self.new) }
        ensures none { IfNone result (self.new ≡ self.old) }
    {
        let (number, property) = first_from(self.by_number, self.from)?;
        self.from = Bound::Excluded(number);
        Some(property)
    }
}

/// The first property from a number on, after its own number.
#[inline(never)]
fn first_from(
    by_number: &BTreeMap<u64, (u32, ValueId)>,
    from: Bound<u64>,
) -> Option<(u64, (u32, ValueId))>
    ensures { MatchOption result (properties_from from by_number.now ≡ [])
        (λ p. properties_from from by_number.now ≡ p.1 ∷ properties_from (Excluded p.0) by_number.now) }
{
    let (number, property) = by_number.range((from, Bound::Unbounded)).next()?;
    Some((*number, *property))
}

/// A number above all that are there, `None` where there is none of 64 bits.
fn next_number(by_number: &BTreeMap<u64, (u32, ValueId)>) -> Option<u64>
    ensures { IfSome result (λ n. All (λ m. m < n) (keys_of by_number.now.entries)) }
{
    match by_number.last_key_value() {
        Some((last, _)) => last.checked_add(1),
        None => Some(0),
    }
}
