//! The entries of an addon and their operations.
ghost use Rattle.serde_json.specs.View.{view, items_view};
ghost use Rattle.napi_types.specs.scripts.ScriptAddons.{operation_at, entry_at};
ghost use Rattle.napi_types.specs.scripts.ScriptReading.{read_with, each};
ghost use Rattle.script_read.specs.Reads.{ReadsAs};

use crate::json::{ReadingStop, list_at};
use crate::operation::operation_in;
use crate::texts::TextTable;
use napi_types::{LimitName, Listed, Mistake, NoMemory, Op, OpList, ScriptPart};
use serde_json::Value;
use std::alloc::Global;

/// How many operations an entry may have.
const MOST_OPERATIONS: usize = 4096;

/// An operation of an entry.
#[tactic(auto, unfolding(napi_types::specs::scripts::ScriptAddons::operation_at))]
fn operation_at(
    alloc: Global,
    entries: u32,
    a: usize,
    e: usize,
    o: usize,
    table: &mut TextTable,
    value: &Value,
) -> Result<Op, ReadingStop>
    ensures { ReadsAs (read_with table.new) result (operation_at entries a e o table.old (view value.now)) }
{
    match operation_in(alloc, entries, table, value) {
        Ok(Some(operation)) => Ok(operation),
        Ok(None) => Err(ReadingStop::Mistake(Mistake::Shape(ScriptPart::Operation(a, e, o)))),
        Err(NoMemory) => Err(ReadingStop::NoMemory),
    }
}

/// The operations that items are.
fn each_operation(
    alloc: Global,
    entries: u32,
    a: usize,
    e: usize,
    table: &mut TextTable,
    items: &[Value],
) -> Result<OpList, ReadingStop>
    ensures { ReadsAs (read_with table.new) result (each (operation_at entries a e) 0 table.old (items_view items.now)) }
{
    let mut list = Vec::new(alloc);
    for (o, item) in items.iter().enumerate() {
        let operation = operation_at(alloc, entries, a, e, o, table, item)?;
        let Ok(()) = list.push(operation) else {
            return Err(ReadingStop::NoMemory);
        };
    }
    Ok(Listed::of(list))
}

/// An entry of an addon with so many entries.
#[tactic(auto, unfolding(napi_types::specs::scripts::ScriptAddons::entry_at))]
pub(crate) fn entry_at(
    alloc: Global,
    entries: u32,
    a: usize,
    e: usize,
    table: &mut TextTable,
    value: &Value,
) -> Result<OpList, ReadingStop>
    ensures { ReadsAs (read_with table.new) result (entry_at entries a e table.old (view value.now)) }
{
    let place = ScriptPart::Entry(a, e);
    let items = list_at(place, LimitName::Operations, MOST_OPERATIONS, Some(value))?;
    each_operation(alloc, entries, a, e, table, items)
}
