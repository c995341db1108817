//! The children of one value, which its properties and elements name, and its hidden child.
ghost use Rattle.std.specs.Prelude.{◌≡◌, ◌+◌, ◌<◌, ◌^◌, ◌++◌, [], ◌∷◌, length, map, option_map, option_to_list};
ghost use Rattle.std.specs.Option.{MatchOption};
ghost use Rattle.value_store.specs.PropertyMaps.{numbers_in};

use crate::PropertyWalk;
use crate::walk::EntriesLeft;
use indexmap::map::Slice;
use napi_types::{TextNo, ValueId};
use std::marker::Model;

/// The children of a value: first its hidden child, where there is one, then the values of its properties, in the order in which their
/// names were first set, then its elements, in the order in which they were first set. A hole is no child. Contracts see those that
/// were not yet taken.
#[derive(Drop)]
pub struct Children<'a> {
    // How many are left. Most values have none, or an only one, so that no more is asked then.
    left: usize,
    // A hidden child, or an only one.
    first: Option<ValueId>,
    properties: PropertyWalk<'a>,
    elements: Slice<'a, u32, ValueId>,
}

impl<'a> Model for Children<'a> {
    ghost use Rattle.std.specs.Prelude.{◌≡◌, List, ℕ, length};
    ghost use Rattle.value_store.specs.Walks.{children_left};

    ghost Value = { List ℕ };

    ghost view = { λ children. children_left children.first children.properties children.elements };

    ghost invariant = { λ children. length (children_left children.first children.properties children.elements) ≡ children.left };
}

impl<'a> Children<'a> {
    /// A hidden child alone, where there is one.
    pub(crate) fn linked(link: Option<ValueId>) -> Children<'a>
        ensures { result ≡ option_to_list (option_map (λ v. v.0) link) }
    {
        Children {
            left: if link.is_some() { 1 } else { 0 },
            first: link,
            properties: PropertyWalk::over(EntriesLeft::Nothing),
            elements: Slice::new(),
        }
    }

    /// A hidden child, where there is one, and the value of a property.
    pub(crate) fn one(name: TextNo, value: ValueId, link: Option<ValueId>) -> Children<'a>
        ensures { result ≡ option_to_list (option_map (λ v. v.0) link) ++ value.0 ∷ [] }
    {
        match link {
            None => Children::linked(Some(value)),
            Some(_) => Children {
                left: 2,
                first: link,
                properties: PropertyWalk::over(EntriesLeft::One(name, value)),
                elements: Slice::new(),
            },
        }
    }

    /// A hidden child, where there is one, the values of properties, of which there are so many, and then elements.
    pub(crate) fn of(
        link: Option<ValueId>,
        properties: PropertyWalk<'a>,
        count: usize,
        elements: Slice<'a, u32, ValueId>,
    ) -> Children<'a>
        requires count { length properties ≡ count }
        requires fits { count + length elements + 1 < 2 ^ 64 }
        ensures { result ≡ option_to_list (option_map (λ v. v.0) link) ++ (map (λ p. p.value) properties.entry ++ numbers_in elements.entry) }
    {
        let beside = if link.is_some() { 1 } else { 0 };
        Children {
            left: count + elements.len() + beside,
            first: link,
            properties,
            elements,
        }
    }

    /// The next child, `None` exactly where none is left. Constant time, or logarithmic in how many properties there are, since one
    /// went out of the midst of many.
    #[inline]
    pub fn next(&mut self) -> Option<ValueId>
        ensures { MatchOption result (self.old ≡ []) (λ v. self.old ≡ v.0 ∷ self.new) }
    {
        if self.left == 0 {
            return None;
        }
        self.left -= 1;
        if let Some(value) = self.first {
            self.first = None;
            return Some(value);
        }
        if let Some((_, value)) = self.properties.next() {
            return Some(value);
        }
        let ((_, value), others) = self.elements.split_first()?;
        self.elements = others;
        Some(*value)
    }
}
