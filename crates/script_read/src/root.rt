//! The script that a JSON value is.
ghost use Rattle.std.specs.Prelude.{◌≡◌, IfOk, option_map};
ghost use Rattle.serde_json.specs.View.{view};
ghost use Rattle.napi_types.specs.plain.Numbers.{is_supported};
ghost use Rattle.napi_types.specs.plain.Texts.{fixed_texts};
ghost use Rattle.napi_types.specs.scripts.Script.{is_root, version_in, workers_in, addons_in, threads_in, script, members_named};
ghost use Rattle.napi_types.specs.scripts.ScriptReading.{read_with};
ghost use Rattle.script_read.specs.Reads.{Reads, ReadsAs};

use crate::addon::each_addon;
use crate::arguments::whole;
use crate::json::{ReadingStop, has_members, list_at};
use crate::schedule::schedule_in;
use crate::texts::TextTable;
use crate::threads::each_thread;
use napi_types::{
    HIGHEST_VERSION, LOWEST_VERSION, LimitName, Mistake, NoMemory, OpLists, Plans, Script,
    ScriptPart,
};
use serde_json::Value;
use std::alloc::Global;

/// How many addons, threads and workers a script may have.
const MOST_ADDONS: usize = 8;

const MOST_THREADS: usize = 16;

const MOST_WORKERS: u64 = 8;

/// One where a value has a member of this name, else none.
fn count_of(value: &Value, name: &str) -> usize
    ensures { result ≡ members_named name.now (view value.now) }
{
    if value.get(name).is_some() { 1 } else { 0 }
}

/// Whether a value is an object that has no member but those of a script.
#[tactic(auto, unfolding(napi_types::specs::scripts::Script::is_root))]
fn is_root(value: &Value) -> bool
    ensures { result ≡ is_root (view value.now) }
{
    let count = count_of(value, "version")
        + count_of(value, "workers")
        + count_of(value, "addons")
        + count_of(value, "threads")
        + count_of(value, "schedule");
    has_members(value, count)
}

/// Whether a script may ask for a version.
fn is_supported(version: u64) -> bool
    ensures { result ≡ is_supported version }
{
    u64::from(LOWEST_VERSION) <= version && version <= u64::from(HIGHEST_VERSION)
}

/// The version of Node-API, 9 or 10.
#[tactic(auto, unfolding(napi_types::specs::scripts::Script::version_in))]
fn version_in(found: Option<&Value>) -> Result<u32, ReadingStop>
    ensures { Reads result (version_in (option_map (λ v. view v.now) found.entry)) }
{
    match found.and_then(whole) {
        Some(version) if is_supported(version) => Ok(version as u32),
        _ => Err(ReadingStop::Mistake(Mistake::Shape(ScriptPart::Version))),
    }
}

/// The number of workers.
#[tactic(auto, unfolding(napi_types::specs::scripts::Script::workers_in))]
fn workers_in(found: Option<&Value>) -> Result<u32, ReadingStop>
    ensures { Reads result (workers_in (option_map (λ v. view v.now) found.entry)) }
{
    let Some(number) = found.and_then(whole) else {
        return Err(ReadingStop::Mistake(Mistake::Shape(ScriptPart::Workers)));
    };
    if number <= MOST_WORKERS {
        Ok(number as u32)
    } else {
        Err(ReadingStop::Mistake(Mistake::Limit(LimitName::Workers)))
    }
}

/// The three texts with which every table begins.
fn first_texts(alloc: Global) -> Result<TextTable, ReadingStop>
    ensures ok { IfOk result (λ table. table ≡ fixed_texts) }
    ensures right { (w : Mistake) → ¬ (result ≡ Err (ReadingStop.Mistake w)) }
    ensures json { ¬ (result ≡ Err ReadingStop.NotJson) }
{
    match TextTable::fixed(alloc) {
        Ok(table) => Ok(table),
        Err(NoMemory) => Err(ReadingStop::NoMemory),
    }
}

/// The addons, with the table of their texts.
#[tactic(auto, unfolding(napi_types::specs::scripts::Script::addons_in))]
fn addons_in(alloc: Global, found: Option<&Value>) -> Result<(Plans, TextTable), ReadingStop>
    ensures { ReadsAs (λ p. read_with p.1 p.0) result (addons_in (option_map (λ v. view v.now) found.entry)) }
{
    let items = list_at(ScriptPart::Addons, LimitName::Addons, MOST_ADDONS, found)?;
    let mut table = first_texts(alloc)?;
    let addons = each_addon(alloc, &mut table, items)?;
    Ok((addons, table))
}

/// The threads.
#[tactic(auto, unfolding(napi_types::specs::scripts::Script::threads_in))]
fn threads_in(alloc: Global, found: Option<&Value>) -> Result<OpLists, ReadingStop>
    ensures { Reads result (threads_in (option_map (λ v. view v.now) found.entry)) }
{
    let items = list_at(ScriptPart::Threads, LimitName::Threads, MOST_THREADS, found)?;
    each_thread(alloc, items)
}

/// The script that a value is.
#[tactic(auto, unfolding(napi_types::specs::scripts::Script::script))]
pub(crate) fn script(alloc: Global, value: &Value) -> Result<Script, ReadingStop>
    ensures { Reads result (script (view value.now)) }
{
    if !is_root(value) {
        return Err(ReadingStop::Mistake(Mistake::Shape(ScriptPart::Root)));
    }
    let version = version_in(value.get("version"))?;
    let workers = workers_in(value.get("workers"))?;
    let (addons, table) = addons_in(alloc, value.get("addons"))?;
    let threads = threads_in(alloc, value.get("threads"))?;
    let count = threads.items().len();
    let schedule = schedule_in(alloc, count, workers as usize, value.get("schedule"))?;
    Ok(Script {
        version,
        workers,
        addons,
        threads,
        schedule,
        texts: table.into_texts(),
    })
}
