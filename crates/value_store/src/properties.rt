//! The properties of one value.
ghost use Rattle.std.specs.Prelude.{◌≡◌, ◌^◌, ◌<◌, [], nat_eq, length, map, position, IfOk, OnOk, OnErr, option_map, slice_get, is_some, Some, None};
ghost use Rattle.std.specs.List.{IsDistinct};
ghost use Rattle.std.specs.Map.{keys_of, lookup, remove_entry};
ghost use Rattle.indexmap.specs.IndexMap.{insert_entry};
ghost use Rattle.napi_types.specs.parts.Properties.{property_at, property_set, property_removed};

use crate::PropertyWalk;
use crate::ordered::Ordered;
use crate::walk::EntriesLeft;
use indexmap::IndexMap;
use indexmap::map::Slice;
use napi_types::{NoMemory, TextNo, ValueId};
use std::alloc::Global;
use std::marker::Model;

/// How many properties are looked for along a list. With more of them a map finds each.
const FEW: usize = 8;

/// The properties of a value, in the order in which their names were first set. Memory is taken in proportion to them.
#[derive(Drop)]
pub(crate) struct Properties {
    listing: Listing,
}

/// Properties, each as the number of its name's text and its value. A name stands once.
#[derive(Drop)]
pub(crate) enum Listing {
    Few(Vec<(u32, ValueId)>),
    Many(Box<IndexMap<u32, ValueId>>),
    // Many too, since one of them was removed that was not the last.
    Ordered(Box<Ordered>),
}

impl Model for Properties {
    ghost use Rattle.std.specs.Prelude.{List, nat_eq};
    ghost use Rattle.std.specs.List.{IsDistinct};
    ghost use Rattle.std.specs.Map.{keys_of};
    ghost use Rattle.napi_types.specs.parts.Properties.{Property};
    ghost use Rattle.value_store.specs.PropertyMaps.{listed_properties};
    ghost use Rattle.value_store.specs.Listings.{entries_of};

    ghost Value = { List Property };

    ghost view = { λ properties. listed_properties (entries_of properties.listing) };

    ghost invariant = { λ properties. IsDistinct nat_eq (keys_of (entries_of properties.listing)) };
}

impl Properties {
    /// No properties. It takes no memory.
    pub(crate) fn new(alloc: Global) -> Properties
        ensures { result ≡ [] }
    {
        Properties {
            listing: Listing::Few(Vec::new(alloc)),
        }
    }

    pub(crate) fn set(&mut self, alloc: Global, name: TextNo, to: ValueId) -> Result<(), NoMemory>
        ensures set { OnOk result (self.new ≡ property_set name.0 to.0 self.old) }
        ensures err { OnErr result (self.new ≡ self.old) }
        ensures absent { OnErr result (property_at name.0 self.old ≡ None) }
    {
        match &mut self.listing {
            Listing::Few(entries) => {
                if entries.len() < FEW || place_of(entries, name.0).is_some() {
                    return set_few(entries, name.0, to);
                }
                let map = set_many(alloc, entries, name.0, to)?;
                self.listing = Listing::Many(Box::new(alloc, map)?);
                Ok(())
            }
            Listing::Many(map) => {
                map.insert(name.0, to)?;
                Ok(())
            }
            Listing::Ordered(ordered) => ordered.set(name.0, to),
        }
    }

    pub(crate) fn get(&self, name: TextNo) -> Option<ValueId>
        ensures { option_map (λ v. v.0) result ≡ property_at name.0 self.now }
    {
        match &self.listing {
            Listing::Few(entries) => get_few(entries, name.0),
            Listing::Many(map) => map.get(&name.0).copied(),
            Listing::Ordered(ordered) => ordered.get(name.0),
        }
    }

    pub(crate) fn remove(&mut self, alloc: Global, name: TextNo) -> bool
        ensures removed { self.new ≡ property_removed name.0 self.old }
        ensures was { result ≡ is_some (property_at name.0 self.old) }
    {
        self.prepare_removal(alloc, name.0);
        match &mut self.listing {
            Listing::Few(entries) => remove_few(entries, name.0),
            Listing::Many(map) => map.shift_remove(&name.0).is_some(),
            Listing::Ordered(ordered) => ordered.remove(name.0),
        }
    }

    /// Where a name is one of many and not the last, puts all of them where a removal moves no other. Without memory for that they
    /// stay as they are.
    fn prepare_removal(&mut self, alloc: Global, name: u32)
        ensures { self.new ≡ self.old }
    {
        let Listing::Many(map) = &self.listing else {
            return;
        };
        match map.get_index_of(&name) {
            Some(place) if map.len() - place > 1 => {}
            _ => return,
        }
        if let Ok(ordered) = in_order(alloc, &map.as_slice()) {
            self.listing = Listing::Ordered(ordered);
        }
    }

    pub(crate) fn len(&self) -> usize
        ensures many { result ≡ length self.now }
        ensures fits { result < 2 ^ 63 }
    {
        match &self.listing {
            Listing::Few(entries) => entries.len(),
            Listing::Many(map) => map.len(),
            Listing::Ordered(ordered) => ordered.len(),
        }
    }

    /// The properties, one after another.
    pub(crate) fn walk(&self) -> PropertyWalk<'_>
        ensures { result ≡ self.now }
    {
        match &self.listing {
            Listing::Few(entries) => PropertyWalk::over_few(entries),
            Listing::Many(map) => PropertyWalk::over(EntriesLeft::Many(map.as_slice())),
            Listing::Ordered(ordered) => {
                PropertyWalk::over(EntriesLeft::Ordered(ordered.walk()))
            }
        }
    }
}

/// The place of a name.
fn place_of(entries: &[(u32, ValueId)], name: u32) -> Option<usize>
    ensures { result ≡ position (λ e. nat_eq name e.0) entries.now }
{
    entries.iter().position(|entry| name == entry.0)
}

fn set_few(entries: &mut Vec<(u32, ValueId)>, name: u32, to: ValueId) -> Result<(), NoMemory>
    ensures set { OnOk result (entries.new.items ≡ insert_entry nat_eq entries.old.items name to) }
    ensures err { OnErr result (entries.new.items ≡ entries.old.items) }
    ensures absent { OnErr result (lookup (nat_eq name) entries.old.items ≡ None) }
{
    match place_of(entries, name) {
        Some(place) => {
            entries[place].1 = to;
            Ok(())
        }
        None => {
            entries.push((name, to))?;
            Ok(())
        }
    }
}

fn get_few(entries: &[(u32, ValueId)], name: u32) -> Option<ValueId>
    ensures { result ≡ lookup (nat_eq name) entries.now }
{
    match place_of(entries, name) {
        Some(place) => Some(entries[place].1),
        None => None,
    }
}

fn remove_few(entries: &mut Vec<(u32, ValueId)>, name: u32) -> bool
    ensures removed { entries.new.items ≡ remove_entry (nat_eq name) entries.old.items }
    ensures was { result ≡ is_some (lookup (nat_eq name) entries.old.items) }
{
    match place_of(entries, name) {
        Some(place) => {
            let _ = entries.remove(place);
            true
        }
        None => false,
    }
}

/// A map of these entries, in which a property is set. It has room for more.
fn set_many(
    alloc: Global,
    entries: &[(u32, ValueId)],
    name: u32,
    to: ValueId,
) -> Result<IndexMap<u32, ValueId>, NoMemory>
    requires { IsDistinct nat_eq (keys_of entries.now) }
    ensures set { IfOk result (λ map. map.entries ≡ insert_entry nat_eq entries.now name to) }
    ensures unique { IfOk result (λ map. IsDistinct nat_eq (keys_of map.entries)) }
{
    let mut map = IndexMap::with_capacity(alloc, 2 * FEW)?;
    for (own, value) in entries {
        map.insert(*own, *value)?;
    }
    map.insert(name, to)?;
    Ok(map)
}

/// The same entries, where a removal moves no other.
fn in_order(alloc: Global, entries: &Slice<'_, u32, ValueId>) -> Result<Box<Ordered>, NoMemory>
    requires { IsDistinct nat_eq (keys_of entries.now) }
    ensures { IfOk result (λ ordered. ordered.value ≡ entries.now) }
{
    let mut ordered = Ordered::new(alloc);
    for at in 0..entries.len() {
        match entries.get_index(at) {
            Some((name, to)) => ordered.set(*name, *to)?,
            None => unreachable!(),
        }
    }
    Ok(Box::new(alloc, ordered)?)
}
