//! The store: the values that were made and not freed, each under a number.
ghost use Rattle.std.specs.Prelude.{◌≡◌, ◌+◌, ◌-◌, ◌<◌, ◌≤◌, ◌^◌, ◌++◌, [], ◌∷◌, not, filter, map, length, slice_get, is_some, option_map, IfSome, IfOk, OnOk, OnErr, Some, None};
ghost use Rattle.std.specs.List.{All};
ghost use Rattle.napi_types.specs.plain.Lists.{has_number, HaveSameNumbers};
ghost use Rattle.napi_types.specs.parts.Bodies.{NamesNoChild};
ghost use Rattle.napi_types.specs.parts.Graph.{live, value_of, number_in, renamed, graph_of, IsLive, IsSoundStore};
ghost use Rattle.napi_types.specs.parts.NewValues.{error_of, list_of, thrown_strings, thrown_of};
ghost use Rattle.napi_types.specs.parts.Properties.{most_index, property_at, element_at};
ghost use Rattle.napi_types.specs.parts.Values.{value_at, value_changed, fresh_value, linked_value, with_property, without_property, with_element, with_link};
ghost use Rattle.value_store.specs.StoreChanges.{properties_in, elements_in, children_in, id_at, EachStandsOnce, numbers_of, IsNew, IsStarting, IsObject, IsLinked, StandsAt, ChangesOnly, MakesFresh, MakesValue, MakesList, Frees, CanFree};

use crate::contents::Contents;
use crate::record::ValueRecord;
use crate::{Children, ValueInfo, records};
use generation_slab::GenerationSlab;
use mark_bits::Bits;
use napi_types::{Body, NoMemory, TextNo, ValueId};
use std::alloc::Global;
use std::marker::Model;

/// A store of values: a map from numbers to values. A value stays until it is freed, and its number is never issued again.
///
/// It takes memory for as many values as live at once: where one was freed, another is made.
#[derive(Drop)]
pub struct Store {
    alloc: Global,
    values: GenerationSlab<ValueRecord>,
    // How many values were made: the creation number of the last of them.
    made: u64,
    // The numbers of the starting values, in their order.
    starting: [ValueId; 5],
}

impl Model for Store {
    ghost use Rattle.napi_types.specs.parts.Graph.{StoreState};

    ghost Value = { StoreState };

    ghost use Rattle.value_store.specs.Contents.{state_of, IsKeptStore};

    ghost view = { λ store. state_of store.values store.made };

    ghost invariant = { λ store. IsKeptStore store.values store.made store.starting };
}

impl Store {
    /// A store with the five starting values: undefined, null, true, false and the global object.
    pub fn new(alloc: Global) -> Result<Store, NoMemory>
        ensures { IfOk result IsNew }
    {
        Store::with_generations(alloc, u16::MAX)
    }

    /// The same, where a place is used `last + 1` times: no number has a generation after `last`. Contracts see no generations, so
    /// no clause tells `last`.
    pub fn with_generations(alloc: Global, last: u16) -> Result<Store, NoMemory>
        ensures { IfOk result IsNew }
    {
        let mut values = GenerationSlab::with_generations(alloc, last);
        let starting = records::starting(&mut values)?;
        Ok(Store {
            alloc,
            values,
            made: 5,
            starting,
        })
    }

    /// The number of a starting value, in their order from 0: undefined, null, true, false, the global object. Constant time.
    pub fn starting(&self, which: u32) -> ValueId
        requires { which < 5 }
        ensures { IsStarting self.now which result.0 }
    {
        self.starting[which as usize]
    }

    /// Makes a value with no properties and no elements, of a body that names no child. Its number was never issued before, and is
    /// not 0.
    ///
    /// Near constant time: now and then the list of values grows.
    pub fn make(&mut self, body: Body) -> Result<ValueId, NoMemory>
        requires room { self.old.made + 2 < 2 ^ 48 }
        requires alone { NamesNoChild body }
        ensures made { IfOk result (λ id. MakesFresh self.old self.new id.0 body) }
        ensures graph { OnOk result (graph_of self.new ≡ graph_of self.old ++ fresh_value (self.old.made + 1) body ∷ []) }
        ensures err { OnErr result (self.new ≡ self.old) }
        ensures sound { IsSoundStore self.old }
    {
        let number = self.made + 1;
        let value = Contents::Plain(body);
        let id = self.values.make(ValueRecord { number, value })?;
        self.made = number;
        Ok(ValueId(id))
    }

    /// Makes a linked value with this tag and, where one is given, this hidden child. It has no properties and no elements. Its number
    /// was never issued before, and is not 0.
    ///
    /// Near constant time: now and then the list of values grows.
    pub fn make_linked(&mut self, tag: u8, to: Option<ValueId>) -> Result<ValueId, NoMemory>
        requires room { self.old.made + 2 < 2 ^ 48 }
        requires child { IfSome to (λ c. IsLive self.old c.0) }
        ensures made { let linked = linked_value (self.old.made + 1) tag (option_map (λ c. c.0) to) in
            IfOk result (λ id. MakesValue self.old self.new id.0 linked) }
        ensures graph { let linked = linked_value (self.old.made + 1) tag (option_map (λ c. number_in self.old c.0) to) in
            OnOk result (graph_of self.new ≡ graph_of self.old ++ linked ∷ []) }
        ensures err { OnErr result (self.new ≡ self.old) }
        ensures sound { IsSoundStore self.old }
    {
        let number = self.made + 1;
        let value = Contents::Plain(Body::Linked { tag, to });
        let id = self.values.make(ValueRecord { number, value })?;
        self.made = number;
        Ok(ValueId(id))
    }

    /// Makes an error: an object with the properties `message` and, where a code is given, `code`, in this order. Its number was
    /// never issued before, and is not 0.
    ///
    /// Near constant time: now and then the list of values grows.
    pub fn make_error(
        &mut self,
        code: Option<ValueId>,
        message: ValueId,
    ) -> Result<ValueId, NoMemory>
        requires room { self.old.made + 2 < 2 ^ 48 }
        requires code { IfSome code (λ c. IsLive self.old c.0) }
        requires message { IsLive self.old message.0 }
        ensures made { let error = error_of (self.old.made + 1) (option_map (λ c. c.0) code) message.0 in
            IfOk result (λ id. MakesValue self.old self.new id.0 error) }
        ensures graph { let error = error_of (self.old.made + 1) (option_map (λ c. number_in self.old c.0) code) (number_in self.old message.0) in
            OnOk result (graph_of self.new ≡ graph_of self.old ++ error ∷ []) }
        ensures err { OnErr result (self.new ≡ self.old) }
        ensures sound { IsSoundStore self.old }
    {
        let number = self.made + 1;
        let value = Contents::error(self.alloc, code, message)?;
        let id = self.values.make(ValueRecord { number, value })?;
        self.made = number;
        Ok(ValueId(id))
    }

    /// Makes a value of each of these bodies, in their order, and then an array that has them as its elements: all of them or
    /// none. It answers with the array's number.
    ///
    /// The time grows with the list; now and then the list of values grows.
    pub fn make_list(&mut self, bodies: &[Body]) -> Result<ValueId, NoMemory>
        requires count { length bodies.now ≤ most_index + 1 }
        requires room { self.old.made + length bodies.now + 2 < 2 ^ 48 }
        requires alone { All NamesNoChild bodies.now }
        ensures listed { IfOk result (λ id. MakesList self.old self.new id.0 (length bodies.now)) }
        ensures graph { OnOk result (graph_of self.new ≡ graph_of self.old ++ list_of self.old.made bodies.now) }
        ensures err { OnErr result (self.new ≡ self.old) }
        ensures sound { IsSoundStore self.old }
    {
        let id = records::make_list(self.alloc, &mut self.values, self.made, bodies)?;
        self.made += bodies.len() as u64 + 1;
        Ok(id)
    }

    /// Makes a string of each of these texts, the message first, and then an error of them: all of them or none. It answers with the
    /// error's number.
    ///
    /// Near constant time: now and then the list of values grows.
    pub fn make_thrown(
        &mut self,
        code: Option<TextNo>,
        message: TextNo,
    ) -> Result<ValueId, NoMemory>
        requires { self.old.made + 4 < 2 ^ 48 }
        ensures listed { IfOk result (λ id. MakesList self.old self.new id.0 (length (thrown_strings code message))) }
        ensures graph { OnOk result (graph_of self.new ≡ graph_of self.old ++ thrown_of self.old.made code message) }
        ensures err { OnErr result (self.new ≡ self.old) }
        ensures sound { IsSoundStore self.old }
    {
        let id = records::make_thrown(self.alloc, &mut self.values, self.made, code, message)?;
        self.made += if code.is_some() { 3 } else { 2 };
        Ok(id)
    }

    /// The value of a number, `None` exactly where no live value has it. Constant time.
    pub fn get(&self, id: ValueId) -> Option<ValueInfo<'_>>
        ensures value { result ≡ value_of self.now id.0 }
        ensures graph { value_at (graph_of self.now) (number_in self.now id.0) ≡ option_map (renamed self.now) (value_of self.now id.0) }
        ensures sound { IsSoundStore self.now }
    {
        Some(self.values.get(id.0)?.info())
    }

    /// Sets a property: a name that is there keeps its place, and a new one goes last.
    ///
    /// Near constant time, or logarithmic in how many properties there are, since one went out of the midst of many. Now and then the
    /// value's map of properties grows.
    pub fn set_prop(&mut self, id: ValueId, name: TextNo, to: ValueId) -> Result<(), NoMemory>
        requires object { IsObject self.old id.0 }
        requires value { IsLive self.old to.0 }
        ensures set { OnOk result (ChangesOnly self.old self.new id.0 (with_property name.0 to.0)) }
        ensures graph { OnOk result (graph_of self.new ≡ value_changed (number_in self.old id.0) (with_property name.0 (number_in self.old to.0)) (graph_of self.old)) }
        ensures err { OnErr result (self.new ≡ self.old) }
    {
        let record = self.values.value_mut(id.0);
        record.value.set_prop(self.alloc, name, to)
    }

    /// Removes a property, and tells whether its name was there. The others keep their order.
    ///
    /// In time logarithmic in how many properties there are. For the first that goes out of the midst of many it grows with their
    /// number, and so does the memory that is taken then; where there is none, the time grows with their number each time.
    pub fn remove_prop(&mut self, id: ValueId, name: TextNo) -> bool
        ensures removed { ChangesOnly self.old self.new id.0 (without_property name.0) }
        ensures graph { graph_of self.new ≡ value_changed (number_in self.old id.0) (without_property name.0) (graph_of self.old) }
        ensures was_there { result ≡ is_some (property_at name.0 (properties_in self.old id.0)) }
    {
        if self.get(id).is_none() {
            return false;
        }
        let record = self.values.value_mut(id.0);
        record.value.remove_prop(self.alloc, name)
    }

    /// Sets an element. What lies between the end and a later index is holes.
    ///
    /// Near constant time; now and then the value's map of elements grows. A value takes memory in proportion to the elements that
    /// were set, and none for a hole.
    pub fn set_element(&mut self, id: ValueId, at: u32, to: ValueId) -> Result<(), NoMemory>
        requires named { IsLive self.old id.0 }
        requires value { IsLive self.old to.0 }
        requires index { at ≤ most_index }
        ensures set { OnOk result (ChangesOnly self.old self.new id.0 (with_element at to.0)) }
        ensures graph { OnOk result (graph_of self.new ≡ value_changed (number_in self.old id.0) (with_element at (number_in self.old to.0)) (graph_of self.old)) }
        ensures err { OnErr result (self.new ≡ self.old) }
    {
        let record = self.values.value_mut(id.0);
        record.value.set_element(self.alloc, at, to)
    }

    /// Sets the hidden child of a linked value. Whatever else there is stays. Constant time, and it takes no memory.
    pub fn link(&mut self, id: ValueId, to: ValueId)
        requires linked { IsLinked self.old id.0 }
        requires value { IsLive self.old to.0 }
        ensures set { ChangesOnly self.old self.new id.0 (with_link to.0) }
        ensures graph { graph_of self.new ≡ value_changed (number_in self.old id.0) (with_link (number_in self.old to.0)) (graph_of self.old) }
    {
        let linked = self.values.value_mut(id.0);
        linked.value.link(to)
    }

    /// The children of a value, one after another: first its hidden child, where there is one, then the values of its properties, then
    /// its elements. A hole is no child. Constant time.
    pub fn children(&self, id: ValueId) -> Children<'_>
        ensures same { HaveSameNumbers result (children_in self.now id.0) }
        ensures many { length result ≡ length (children_in self.now id.0) }
        ensures live { All (IsLive self.now) result }
    {
        match self.get(id) {
            Some(value) => value.children(),
            None => Children::linked(None),
        }
    }

    /// Frees values. They are distinct and live, none is a starting value, and no other value names one of them.
    ///
    /// The time grows with the list and with what the freed values hold. It takes no memory.
    pub fn free(&mut self, list: &[ValueId])
        requires { CanFree self.old (numbers_of list.now) }
        ensures freed { Frees self.old self.new (numbers_of list.now) }
        ensures graph { graph_of self.new ≡ filter (λ v. not (has_number v.number (map (number_in self.old) (numbers_of list.now)))) (graph_of self.old) }
    {
        records::clear(&mut self.values, list)
    }

    /// How many places there are. Each live value stands at exactly one, and no number stands at two. Constant time.
    pub fn places(&self) -> usize
        ensures count { result ≡ length self.now.places }
        ensures once { EachStandsOnce self.now }
        ensures sound { IsSoundStore self.now }
    {
        self.values.places()
    }

    /// A mark for each place, set exactly where no live value stands. It takes time and memory in a 64th of the places.
    pub fn vacant_places(&self, alloc: Global) -> Result<Bits, NoMemory>
        ensures vacant { IfOk result (λ marks. marks ≡ map (λ place. not (is_some place)) self.now.places) }
        ensures once { EachStandsOnce self.now }
        ensures sound { IsSoundStore self.now }
    {
        self.values.vacant_places(alloc)
    }

    /// How many live values there are. Constant time.
    pub fn live_count(&self) -> usize
        ensures { result ≡ length (live self.now) }
    {
        self.values.count()
    }

    /// The value at a place, `None` exactly where no live value stands there. Constant time.
    pub fn at_place(&self, place: usize) -> Option<ValueId>
        requires { place < length self.now.places }
        ensures value { option_map (λ v. v.0) result ≡ id_at self.now place }
        ensures live { IfSome result (λ v. IsLive self.now v.0) }
    {
        Some(ValueId(self.values.number_in(place)?))
    }

    /// The place where a value stands. Constant time.
    pub fn place_of(&self, id: ValueId) -> usize
        requires { IsLive self.now id.0 }
        ensures { StandsAt self.now id.0 result }
    {
        self.values.place_of(id.0)
    }
}
