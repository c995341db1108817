//! Lists that contracts see as lists, and what a run leaves.
ghost use Rattle.std.specs.Prelude.{◌≡◌, []};

use crate::{Actor, Entry, Local, Op};
use std::alloc::Global;
use std::marker::Model;

/// A list over a `Vec`, which it takes and gives back without memory.
#[derive(Drop)]
pub struct Listed<T> {
    members: Vec<T>,
}

impl<T> Model for Listed<T> {
    ghost use Rattle.std.specs.Prelude.{List};

    ghost Value = { List T };

    ghost view = { λ list. list.members.items };
}

impl<T> Listed<T> {
    /// The list of these members.
    pub fn of(items: Vec<T>) -> Listed<T>
        ensures { result ≡ items.items }
    {
        Listed { members: items }
    }

    /// The members in their order.
    pub fn items(&self) -> &[T]
        ensures { result.now ≡ self.now }
    {
        &self.members
    }

    /// Gives the members back.
    pub fn into_items(self) -> Vec<T>
        ensures { result.items ≡ self }
    {
        let Listed { members } = self;
        members
    }
}

/// A journal: the environment's local events.
pub type LocalList = Listed<Local>;

/// A history: the hub's events.
pub type EntryList = Listed<Entry>;

/// The operations of one entry of an addon, or of one thread.
pub type OpList = Listed<Op>;

/// The entries of an addon, or the threads of a script.
pub type OpLists = Listed<OpList>;

/// The plans of a script's addons.
pub type Plans = Listed<AddonPlan>;

/// A schedule.
pub type Actors = Listed<Actor>;

/// What a script gives to one addon: for each entry its operations.
#[derive(Drop)]
pub struct AddonPlan {
    pub entries: OpLists,
}

/// What a run leaves: the journal and the history.
#[derive(Drop)]
pub struct Record {
    pub journal: LocalList,
    pub history: EntryList,
}

impl Record {
    /// Two empty lists. It takes no memory.
    pub fn blank(alloc: Global) -> Record
        ensures { result ≡ record { journal = []; history = [] } }
    {
        Record {
            journal: Listed::of(Vec::new(alloc)),
            history: Listed::of(Vec::new(alloc)),
        }
    }
}
