//! The JSON value of bytes, the lists in one, and how what is wrong with one stops its reading.
ghost use Rattle.std.specs.Prelude.{◌≡◌, ◌≤◌, IfOk, length, option_map};
ghost use Rattle.serde_json.specs.Find.{as_array};
ghost use Rattle.serde_json.specs.View.{view, items_view};
ghost use Rattle.napi_types.specs.scripts.ScriptAddons.{has_members};
ghost use Rattle.napi_types.specs.scripts.ScriptReading.{IsJson, IsNoJson, list_at};
ghost use Rattle.script_read.specs.Reads.{ReadsAs};

use napi_types::{LimitName, Mistake, ScriptPart};
use serde_json::Value;
use std::alloc::Global;

/// Why reading stops before there is a script.
#[derive(Clone, Copy)]
pub(crate) enum ReadingStop {
    /// The bytes are no JSON text.
    NotJson,
    /// This is the first thing that is wrong with the value.
    Mistake(Mistake),
    /// There was no memory to go on.
    NoMemory,
}

/// The value of a JSON text.
pub(crate) fn json_of(alloc: Global, bytes: &[u8]) -> Result<Value, ReadingStop>
    ensures ok { IfOk result (λ value. IsJson bytes.now (view value)) }
    ensures not_json { result ≡ Err ReadingStop.NotJson → IsNoJson bytes.now }
    ensures right { (w : Mistake) → ¬ (result ≡ Err (ReadingStop.Mistake w)) }
{
    match Value::from_slice(alloc, bytes) {
        Ok(value) => Ok(value),
        Err(error) => Err(if error.is_memory() {
            ReadingStop::NoMemory
        } else {
            ReadingStop::NotJson
        }),
    }
}

/// The items of a value that is an array.
fn items(value: &Value) -> Option<&[Value]>
    ensures { option_map (λ items. items_view items.now) result ≡ as_array (view value.now) }
{
    match value {
        Value::Array(items) => Some(items.as_slice()),
        _ => None,
    }
}

/// The items of an array with at most so many.
#[tactic(auto, using(crate::proofs::ReadLists::items_len_of), unfolding(napi_types::specs::scripts::ScriptReading::list_at))]
pub(crate) fn list_at<'v>(
    place: ScriptPart,
    which: LimitName,
    most: usize,
    found: Option<&'v Value>,
) -> Result<&'v [Value], ReadingStop>
    ensures reads { ReadsAs (λ items. items_view items.now) result (list_at place which most (option_map (λ v. view v.now) found.entry)) }
    ensures few { IfOk result (λ items. length items.now ≤ most) }
{
    let Some(items) = found.and_then(items) else {
        return Err(ReadingStop::Mistake(Mistake::Shape(place)));
    };
    if items.len() <= most {
        Ok(items)
    } else {
        Err(ReadingStop::Mistake(Mistake::Limit(which)))
    }
}

/// Whether a value is an object with so many members.
#[tactic(auto, using(crate::proofs::ReadLists::members_len_of), unfolding(napi_types::specs::scripts::ScriptAddons::has_members))]
pub(crate) fn has_members(value: &Value, count: usize) -> bool
    ensures { result ≡ has_members count (view value.now) }
{
    match value.as_object() {
        Some(members) => members.len() == count,
        None => false,
    }
}
