//! The parts of one value: its properties and its elements.
ghost use Rattle.std.specs.Prelude.{◌≡◌, ◌^◌, ◌<◌, ◌≤◌, ◌++◌, [], length, map, filter_map, IfOk, OnOk, OnErr, option_map, slice_get, is_some, option_to_list, Some, None};
ghost use Rattle.napi_types.specs.plain.Lists.{HaveSameNumbers};
ghost use Rattle.napi_types.specs.parts.Properties.{most_index, property_at, property_set, property_removed, element_at, element_set};
ghost use Rattle.value_store.specs.PropertyMaps.{one_property, numbers_in};

use crate::elements::Elements;
use crate::properties::Properties;
use crate::{Children, PropertyWalk};
use indexmap::map::Slice;
use napi_types::{NoMemory, TextNo, ValueId};
use std::alloc::Global;
use std::marker::Model;
use std::mem::size_of;

/// The properties of a value, and its elements. Memory is taken in proportion to the properties and to the elements that were set.
#[derive(Drop)]
pub(crate) struct Parts {
    properties: Properties,
    // Made at the first element, since few values have both.
    elements: Option<Box<Elements>>,
}

// What a value with a second property or an element takes beside these.
const _: () = prove!(size_of::<Parts>() == 48);

impl Model for Parts {
    ghost use Rattle.std.specs.Prelude.{option_map, []};
    ghost use Rattle.std.specs.Option.{unwrap_or};
    ghost use Rattle.value_store.specs.PropertyMaps.{ListedParts};

    ghost Value = { ListedParts };

    ghost view = { λ parts. record {
      properties = parts.properties;
      elements = unwrap_or (option_map (λ e. e.value) parts.elements) [];
    } };
}

impl Parts {
    /// One property, and no elements.
    pub(crate) fn with_one(alloc: Global, name: TextNo, to: ValueId) -> Result<Parts, NoMemory>
        ensures { IfOk result (λ parts. parts ≡ record { properties = one_property name to; elements = [] }) }
    {
        let mut parts = Parts::new(alloc);
        parts.set_prop(alloc, name, to)?;
        Ok(parts)
    }

    /// No properties and no elements. It takes no memory.
    pub(crate) fn new(alloc: Global) -> Parts
        ensures { result ≡ record { properties = []; elements = [] } }
    {
        Parts {
            properties: Properties::new(alloc),
            elements: None,
        }
    }

    pub(crate) fn set_prop(
        &mut self,
        alloc: Global,
        name: TextNo,
        to: ValueId,
    ) -> Result<(), NoMemory>
        ensures set { OnOk result (self.new ≡ record self.old { properties = property_set name.0 to.0 self.old.properties }) }
        ensures err { OnErr result (self.new ≡ self.old) }
        ensures absent { OnErr result (property_at name.0 self.old.properties ≡ None) }
    {
        self.properties.set(alloc, name, to)
    }

    pub(crate) fn get_prop(&self, name: TextNo) -> Option<ValueId>
        ensures { option_map (λ v. v.0) result ≡ property_at name.0 self.now.properties }
    {
        self.properties.get(name)
    }

    pub(crate) fn remove_prop(&mut self, alloc: Global, name: TextNo) -> bool
        ensures removed { self.new ≡ record self.old { properties = property_removed name.0 self.old.properties } }
        ensures was { result ≡ is_some (property_at name.0 self.old.properties) }
    {
        self.properties.remove(alloc, name)
    }

    pub(crate) fn name_count(&self) -> usize
        ensures { result ≡ length self.now.properties }
    {
        self.properties.len()
    }

    /// The properties in the order in which their names were first set.
    pub(crate) fn properties(&self) -> PropertyWalk<'_>
        ensures { result ≡ self.now.properties }
    {
        self.properties.walk()
    }

    pub(crate) fn set_element(
        &mut self,
        alloc: Global,
        at: u32,
        to: ValueId,
    ) -> Result<(), NoMemory>
        requires { at ≤ most_index }
        ensures set { OnOk result (self.new ≡ record self.old { elements = element_set at to.0 self.old.elements }) }
        ensures err { OnErr result (self.new ≡ self.old) }
        ensures absent { OnErr result (element_at at self.old.elements ≡ None) }
    {
        match &mut self.elements {
            Some(elements) => elements.set(at, to),
            None => {
                let mut elements = Elements::new(alloc);
                elements.set(at, to)?;
                self.elements = Some(Box::new(alloc, elements)?);
                Ok(())
            }
        }
    }

    pub(crate) fn get_element(&self, at: u32) -> Option<ValueId>
        ensures { option_map (λ v. v.0) result ≡ element_at at self.now.elements }
    {
        match &self.elements {
            Some(elements) => elements.get(at),
            None => None,
        }
    }

    pub(crate) fn element_count(&self) -> u32
        ensures { result ≡ length self.now.elements }
    {
        match &self.elements {
            Some(elements) => elements.count(),
            None => 0,
        }
    }

    /// A hidden child beside them, where there is one, the values of the properties, and then the elements that were set.
    pub(crate) fn children(&self, link: Option<ValueId>) -> Children<'_>
        ensures same { HaveSameNumbers result (map (λ p. p.value) self.now.properties ++ filter_map (λ e. e) self.now.elements ++ option_to_list (option_map (λ v. v.0) link)) }
        ensures many { length result ≡ length (map (λ p. p.value) self.now.properties ++ filter_map (λ e. e) self.now.elements ++ option_to_list (option_map (λ v. v.0) link)) }
    {
        Children::of(
            link,
            self.properties.walk(),
            self.properties.len(),
            self.elements_set(),
        )
    }

    /// The elements that were set, in the order in which they first were.
    fn elements_set(&self) -> Slice<'_, u32, ValueId>
        ensures same { HaveSameNumbers (numbers_in result) (filter_map (λ e. e) self.now.elements) }
        ensures many { length result ≡ length (filter_map (λ e. e) self.now.elements) }
        ensures fits { length result < 2 ^ 63 }
    {
        match &self.elements {
            Some(elements) => elements.values(),
            None => no_elements(),
        }
    }
}

/// No elements that were set.
fn no_elements<'a>() -> Slice<'a, u32, ValueId>
    ensures { result ≡ [] }
{
    Slice::new()
}
