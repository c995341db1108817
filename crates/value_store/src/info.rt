//! A value, as a store lends it.
ghost use Rattle.std.specs.Prelude.{◌≡◌, length, option_map};
ghost use Rattle.napi_types.specs.plain.Lists.{HaveSameNumbers};
ghost use Rattle.napi_types.specs.parts.Properties.{property_at, element_at};
ghost use Rattle.napi_types.specs.parts.Values.{children};
ghost use Rattle.value_store.specs.Contents.{value_of_record};

use crate::contents::{Contents, child_in};
use crate::record::ValueRecord;
use crate::walk::EntriesLeft;
use crate::{Children, PropertyWalk};
use napi_types::{Body, TextNo, ValueId};
use std::marker::Model;
use std::mem::size_of;

/// A value of the store: what it is, its properties in the order in which their names were first set, its elements, and its
/// creation number. Who has it need not look the value up again.
#[derive(Drop)]
pub struct ValueInfo<'a> {
    record: &'a ValueRecord,
}

// It copies nothing of the value.
const _: () = prove!(size_of::<ValueInfo>() == 8);

impl<'a> Model for ValueInfo<'a> {
    ghost use Rattle.napi_types.specs.parts.Values.{Value as GraphValue};
    ghost use Rattle.value_store.specs.Contents.{value_of_record};

    ghost Value = { GraphValue };

    ghost view = { λ info. value_of_record info.record.now };
}

impl<'a> ValueInfo<'a> {
    /// The value of a record.
    pub(crate) fn of(record: &'a ValueRecord) -> ValueInfo<'a>
        ensures { result ≡ value_of_record record.now }
    {
        ValueInfo { record }
    }

    /// What the value is. It names no child. Constant time.
    pub fn body(&self) -> Body
        ensures { result ≡ self.now.body }
    {
        match &self.record.value {
            Contents::Plain(body) | Contents::One(_, _, body) | Contents::Full(body, _) => {
                body.without_child()
            }
        }
    }

    /// The hidden child, `None` exactly where there is none. Constant time.
    pub fn link(&self) -> Option<ValueId>
        ensures { option_map (λ v. v.0) result ≡ self.now.link }
    {
        match &self.record.value {
            Contents::Plain(body) | Contents::One(_, _, body) | Contents::Full(body, _) => {
                child_in(body)
            }
        }
    }

    /// The creation number. Constant time.
    pub fn number(&self) -> u64
        ensures { result ≡ self.now.number }
    {
        self.record.number
    }

    /// The value of a property, `None` exactly where the name is absent. Near constant time, or logarithmic in how many properties
    /// there are, since one went out of the midst of many.
    pub fn get_prop(&self, name: TextNo) -> Option<ValueId>
        ensures { option_map (λ v. v.0) result ≡ property_at name.0 self.now.properties }
    {
        match &self.record.value {
            Contents::Plain(_) => None,
            Contents::One(own, to, _) => (own.0 == name.0).then_some(*to),
            Contents::Full(_, parts) => parts.get_prop(name),
        }
    }

    /// How many properties there are. Constant time.
    pub fn name_count(&self) -> usize
        ensures { result ≡ length self.now.properties }
    {
        match &self.record.value {
            Contents::Plain(_) => 0,
            Contents::One(_, _, _) => 1,
            Contents::Full(_, parts) => parts.name_count(),
        }
    }

    /// The properties, one after another.
    pub fn properties(&self) -> PropertyWalk<'a>
        ensures { result ≡ self.now.properties }
    {
        match &self.record.value {
            Contents::Plain(_) => PropertyWalk::over(EntriesLeft::Nothing),
            Contents::One(name, to, _) => PropertyWalk::over(EntriesLeft::One(*name, *to)),
            Contents::Full(_, parts) => parts.properties(),
        }
    }

    /// The element of an index, `None` exactly at a hole or past the end. Near constant time.
    pub fn get_element(&self, at: u32) -> Option<ValueId>
        ensures { option_map (λ v. v.0) result ≡ element_at at self.now.elements }
    {
        match &self.record.value {
            Contents::Plain(_) | Contents::One(_, _, _) => None,
            Contents::Full(_, parts) => parts.get_element(at),
        }
    }

    /// How many elements there are, holes counted. Constant time.
    pub fn element_count(&self) -> u32
        ensures { result ≡ length self.now.elements }
    {
        match &self.record.value {
            Contents::Plain(_) | Contents::One(_, _, _) => 0,
            Contents::Full(_, parts) => parts.element_count(),
        }
    }

    /// The hidden child, where there is one, and the values that the properties and elements name, one after another.
    pub(crate) fn children(&self) -> Children<'a>
        ensures same { HaveSameNumbers result (children self.now) }
        ensures many { length result ≡ length (children self.now) }
    {
        match &self.record.value {
            Contents::Plain(body) => Children::linked(child_in(body)),
            Contents::One(name, to, body) => Children::one(*name, *to, child_in(body)),
            Contents::Full(body, parts) => parts.children(child_in(body)),
        }
    }
}
