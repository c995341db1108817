//! The addons of a script.
ghost use Rattle.std.specs.Prelude.{◌≡◌};
ghost use Rattle.serde_json.specs.View.{view, items_view};
ghost use Rattle.napi_types.specs.scripts.ScriptAddons.{entry_at, is_addon, addon_at};
ghost use Rattle.napi_types.specs.scripts.ScriptReading.{read_with, each};
ghost use Rattle.script_read.specs.Reads.{ReadsAs};

use crate::entry::entry_at;
use crate::json::{ReadingStop, has_members, list_at};
use crate::texts::TextTable;
use napi_types::{AddonPlan, LimitName, Listed, Mistake, OpLists, Plans, ScriptPart};
use serde_json::Value;
use std::alloc::Global;

/// How many entries an addon may have.
const MOST_ENTRIES: usize = 64;

/// The entries that items are, in an addon with so many.
fn each_entry(
    alloc: Global,
    entries: u32,
    a: usize,
    table: &mut TextTable,
    items: &[Value],
) -> Result<OpLists, ReadingStop>
    ensures { ReadsAs (read_with table.new) result (each (entry_at entries a) 0 table.old (items_view items.now)) }
{
    let mut list = Vec::new(alloc);
    for (e, item) in items.iter().enumerate() {
        let entry = entry_at(alloc, entries, a, e, table, item)?;
        let Ok(()) = list.push(entry) else {
            return Err(ReadingStop::NoMemory);
        };
    }
    Ok(Listed::of(list))
}

/// Whether a value is an object with exactly the members `name` and `entries`.
#[tactic(auto, unfolding(napi_types::specs::scripts::ScriptAddons::is_addon))]
fn is_addon(value: &Value) -> bool
    ensures { result ≡ is_addon (view value.now) }
{
    has_members(value, 2) && value.get("name").is_some() && value.get("entries").is_some()
}

/// An addon: its name, which is a text, and its entries.
#[tactic(auto, using(crate::proofs::ReadLists::items_len_of), unfolding(napi_types::specs::scripts::ScriptAddons::addon_at))]
fn addon_at(
    alloc: Global,
    a: usize,
    table: &mut TextTable,
    value: &Value,
) -> Result<AddonPlan, ReadingStop>
    ensures { ReadsAs (read_with table.new) result (addon_at a table.old (view value.now)) }
{
    if !is_addon(value) {
        return Err(ReadingStop::Mistake(Mistake::Shape(ScriptPart::Addon(a))));
    }
    if value.get("name").and_then(Value::as_str).is_none() {
        return Err(ReadingStop::Mistake(Mistake::Shape(ScriptPart::Name(a))));
    }
    let place = ScriptPart::Entries(a);
    let items = list_at(
        place,
        LimitName::Entries,
        MOST_ENTRIES,
        value.get("entries"),
    )?;
    let entries = each_entry(alloc, items.len() as u32, a, table, items)?;
    Ok(AddonPlan { entries })
}

/// The addons that items are.
pub(crate) fn each_addon(
    alloc: Global,
    table: &mut TextTable,
    items: &[Value],
) -> Result<Plans, ReadingStop>
    ensures { ReadsAs (read_with table.new) result (each addon_at 0 table.old (items_view items.now)) }
{
    let mut list = Vec::new(alloc);
    for (a, item) in items.iter().enumerate() {
        let addon = addon_at(alloc, a, table, item)?;
        let Ok(()) = list.push(addon) else {
            return Err(ReadingStop::NoMemory);
        };
    }
    Ok(Listed::of(list))
}
