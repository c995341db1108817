//! A walk over the properties of one value.
ghost use Rattle.std.specs.Prelude.{◌≡◌, [], ◌∷◌};
ghost use Rattle.std.specs.Option.{MatchOption, IfNone};
ghost use Rattle.value_store.specs.PropertyMaps.{listed_properties};
ghost use Rattle.value_store.specs.Walks.{entries_left};

use crate::ordered::OrderedWalk;
use indexmap::map::Slice;
use napi_types::{TextNo, ValueId};
use std::marker::Model;

/// What a walk has left beside a list of few, each property as the number of its name's text and its value.
#[derive(Drop)]
pub(crate) enum EntriesLeft<'a> {
    Nothing,
    One(TextNo, ValueId),
    Many(Slice<'a, u32, ValueId>),
    Ordered(OrderedWalk<'a>),
}

/// A walk over the properties of a value, in the order in which their names were first set. Contracts see those that it has left.
#[derive(Drop)]
pub struct PropertyWalk<'a> {
    // Asked first, since most values with more than one property have few.
    few: &'a [(u32, ValueId)],
    left: EntriesLeft<'a>,
}

impl<'a> Model for PropertyWalk<'a> {
    ghost use Rattle.std.specs.Prelude.{List, ◌++◌};
    ghost use Rattle.napi_types.specs.parts.Properties.{Property};
    ghost use Rattle.value_store.specs.PropertyMaps.{listed_properties};
    ghost use Rattle.value_store.specs.Walks.{entries_left};

    ghost Value = { List Property };

    ghost view = { λ walk. listed_properties (walk.few.now ++ entries_left walk.left) };
}

impl<'a> PropertyWalk<'a> {
    /// A walk over these properties.
    pub(crate) fn over(left: EntriesLeft<'a>) -> PropertyWalk<'a>
        ensures { result ≡ listed_properties (entries_left left.entry) }
    {
        PropertyWalk { few: &[], left }
    }

    /// A walk over a list of these properties.
    pub(crate) fn over_few(few: &'a [(u32, ValueId)]) -> PropertyWalk<'a>
        ensures { result ≡ listed_properties few.entry.now }
    {
        PropertyWalk {
            few,
            left: EntriesLeft::Nothing,
        }
    }

    /// The name and the value of the next property, `None` exactly where none is left. Constant time, or
    /// logarithmic in how many there are, since one went out of the midst of many.
    #[inline]
    pub fn next(&mut self) -> Option<(TextNo, ValueId)>
        ensures next { MatchOption result (self.old ≡ []) (λ p. self.old ≡ record { name = p.0.0; value = p.1.0 } ∷ self.new) }
        ensures none { IfNone result (self.new ≡ self.old) }
    {
        if let Some((first, others)) = self.few.split_first() {
            self.few = others;
            return Some((TextNo(first.0), first.1));
        }
        match &mut self.left {
            EntriesLeft::Nothing => None,
            EntriesLeft::One(name, to) => {
                let property = (*name, *to);
                self.left = EntriesLeft::Nothing;
                Some(property)
            }
            EntriesLeft::Many(entries) => {
                let ((name, to), others) = entries.split_first()?;
                *entries = others;
                Some((TextNo(*name), *to))
            }
            EntriesLeft::Ordered(entries) => {
                let entry = entries.next()?;
                Some((TextNo(entry.0), entry.1))
            }
        }
    }
}
