//! What a script gives to a run, and what is wrong with a JSON value that is no script.
ghost use Rattle.std.specs.Prelude.{◌≡◌, IfOk, string_bytes};
ghost use Rattle.napi_types.specs.scripts.ScriptPaths.{path};

use crate::{Actors, NoMemory, OpLists, Plans, Text, Texts};
use std::alloc::{AllocError, Global};

/// The lowest version of Node-API that a script may ask for.
pub const LOWEST_VERSION: u32 = 9;

/// The highest one, which `get_version` tells whatever the script asked for.
pub const HIGHEST_VERSION: u32 = 10;

/// A script, as it was read.
#[derive(Drop)]
pub struct Script {
    /// The Node-API version that it asks for, from `LOWEST_VERSION` to `HIGHEST_VERSION`.
    pub version: u32,
    /// How many workers the run has.
    pub workers: u32,
    /// For each addon its entries, and for each entry its operations.
    pub addons: Plans,
    /// For each thread its operations.
    pub threads: OpLists,
    /// The order of the actors' turns, where the script gives one.
    pub schedule: Option<Actors>,
    /// The texts that the script's entries can name.
    pub texts: Texts,
}

/// A part of a script. Addons, entries, operations, threads and words are counted from 0.
#[derive(Clone, Copy, Debug, PartialEq, Eq)]
pub enum ScriptPart {
    Root,
    Version,
    Workers,
    Addons,
    Threads,
    Schedule,
    Addon(usize),
    /// The name of an addon.
    Name(usize),
    /// The entries of an addon.
    Entries(usize),
    /// The addon and the entry.
    Entry(usize, usize),
    /// The addon, the entry and the operation.
    Operation(usize, usize, usize),
    Thread(usize),
    /// The thread and the operation.
    ThreadOperation(usize, usize),
    Word(usize),
}

/// A number in a script that has a limit: of workers, or of the members of a list.
#[derive(Clone, Copy, Debug, PartialEq, Eq)]
pub enum LimitName {
    Workers,
    Addons,
    /// The entries of an addon.
    Entries,
    /// The operations of an entry or of a thread.
    Operations,
    Threads,
    /// The words of the schedule.
    Schedule,
}

/// What is wrong with a JSON value that is no script.
#[derive(Clone, Copy, Debug, PartialEq, Eq)]
pub enum Mistake {
    /// A part has the wrong form, or is missing.
    Shape(ScriptPart),
    /// There are more than there may be.
    Limit(LimitName),
}

impl ScriptPart {
    /// The path of the part in the script, as a refusal names it.
    pub fn path(self, alloc: Global) -> Result<Text, NoMemory>
        ensures { IfOk result (λ text. text ≡ path self) }
    {
        let text = self.written(alloc)?;
        Text::of(alloc, text.as_str())
    }

    fn written(self, alloc: Global) -> Result<String, AllocError>
        ensures { IfOk result (λ text. string_bytes text ≡ path self) }
    {
        match self {
            ScriptPart::Root => format!(in alloc; "-"),
            ScriptPart::Version => format!(in alloc; "version"),
            ScriptPart::Workers => format!(in alloc; "workers"),
            ScriptPart::Addons => format!(in alloc; "addons"),
            ScriptPart::Threads => format!(in alloc; "threads"),
            ScriptPart::Schedule => format!(in alloc; "schedule"),
            ScriptPart::Addon(a) => format!(in alloc; "addons/{a}"),
            ScriptPart::Name(a) => format!(in alloc; "addons/{a}/name"),
            ScriptPart::Entries(a) => format!(in alloc; "addons/{a}/entries"),
            ScriptPart::Entry(a, e) => format!(in alloc; "addons/{a}/entries/{e}"),
            ScriptPart::Operation(a, e, o) => format!(in alloc; "addons/{a}/entries/{e}/{o}"),
            ScriptPart::Thread(t) => format!(in alloc; "threads/{t}"),
            ScriptPart::ThreadOperation(t, o) => format!(in alloc; "threads/{t}/{o}"),
            ScriptPart::Word(s) => format!(in alloc; "schedule/{s}"),
        }
    }
}
