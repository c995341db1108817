//! The elements of one value.
ghost use Rattle.std.specs.Prelude.{◌≡◌, ◌^◌, ◌<◌, ◌≤◌, [], length, filter_map, None, OnOk, OnErr, option_map};
ghost use Rattle.napi_types.specs.plain.Lists.{HaveSameNumbers};
ghost use Rattle.napi_types.specs.parts.Properties.{most_index, element_at, element_set};
ghost use Rattle.value_store.specs.PropertyMaps.{numbers_in};

use indexmap::IndexMap;
use indexmap::map::Slice;
use napi_types::{NoMemory, ValueId};
use std::alloc::Global;
use std::marker::Model;

/// The elements of a value. Memory is taken in proportion to those that were set, and none for a hole.
#[derive(Drop)]
pub(crate) struct Elements {
    // Those that were set, keyed by their indices.
    values: IndexMap<u32, ValueId>,
    // How many there are, holes counted.
    count: u32,
}

impl Model for Elements {
    ghost use Rattle.std.specs.Prelude.{List, ℕ, Option};
    ghost use Rattle.value_store.specs.PropertyMaps.{listed_elements, AreElements};

    ghost Value = { List (Option ℕ) };

    ghost view = { λ elements. listed_elements elements.values.entries elements.count };

    ghost invariant = { λ elements. AreElements elements.values.entries elements.count };
}

impl Elements {
    /// No elements. It takes no memory.
    pub(crate) fn new(alloc: Global) -> Elements
        ensures { result ≡ [] }
    {
        Elements {
            values: IndexMap::new(alloc),
            count: 0,
        }
    }

    pub(crate) fn set(&mut self, at: u32, to: ValueId) -> Result<(), NoMemory>
        requires { at ≤ most_index }
        ensures set { OnOk result (self.new ≡ element_set at to.0 self.old) }
        ensures err { OnErr result (self.new ≡ self.old) }
        ensures absent { OnErr result (element_at at self.old ≡ None) }
    {
        self.values.insert(at, to)?;
        self.count = self.count.max(at + 1);
        Ok(())
    }

    pub(crate) fn get(&self, at: u32) -> Option<ValueId>
        ensures { option_map (λ v. v.0) result ≡ element_at at self.now }
    {
        self.values.get(&at).copied()
    }

    pub(crate) fn count(&self) -> u32
        ensures { result ≡ length self.now }
    {
        self.count
    }

    /// The elements that were set, in the order in which they first were.
    pub(crate) fn values(&self) -> Slice<'_, u32, ValueId>
        ensures same { HaveSameNumbers (numbers_in result) (filter_map (λ e. e) self.now) }
        ensures many { length result ≡ length (filter_map (λ e. e) self.now) }
        ensures fits { length result < 2 ^ 63 }
    {
        self.values.as_slice()
    }
}
