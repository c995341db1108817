//! Reading a script: from the bytes of a JSON text to the script that they are, or the first reason why they are none.
//! What a script is stands in the definitions of `napi_types`; contracts see bytes, JSON values and scripts.
//! `outside` stands above it.
#![tactic(auto)]

ghost use Rattle.std.specs.Prelude.{◌≡◌, IfOk, List, ℕ};
ghost use Rattle.napi_types.specs.declared.script.Mistake.TheVariants as wrong;
ghost use Rattle.napi_types.specs.scripts.Script.{IsScript, IsWrong, HasWrongShape};
ghost use Rattle.napi_types.specs.scripts.ScriptPaths.{path as path_of};
ghost use Rattle.napi_types.specs.scripts.ScriptReading.{IsNoJson};

mod addon;
mod arguments;
mod entry;
mod forms;
mod json;
mod named;
mod operation;
mod root;
mod schedule;
mod texts;
mod threads;

use json::{ReadingStop, json_of};
pub use napi_types::{LimitName, Script};
use napi_types::{Mistake, NoMemory, ScriptPart, Text};
use root::script;
use std::alloc::Global;

/// Why bytes are no script.
#[derive(Drop)]
pub enum Refusal {
    /// The bytes are no JSON text.
    NotJson,
    /// A part of the value has the wrong form, or is missing: the first such part, by its path.
    Shape { path: Text },
    /// There are more of something than there may be, before anything else is wrong.
    Limit { which: LimitName },
    /// There was no memory to read them.
    NoMemory,
}

/// The script that bytes are, or why reading them stopped.
fn read(alloc: Global, bytes: &[u8]) -> Result<Script, ReadingStop>
    ensures ok { IfOk result (λ found. IsScript bytes.now found) }
    ensures json { result ≡ Err ReadingStop.NotJson → IsNoJson bytes.now }
    ensures wrong { (w : Mistake) → result ≡ Err (ReadingStop.Mistake w) → IsWrong bytes.now w }
{
    let value = json_of(alloc, bytes)?;
    script(alloc, &value)
}

/// The refusal that tells why reading stopped.
fn refusal_of(alloc: Global, stop: ReadingStop) -> Refusal
    ensures json { result ≡ Refusal.NotJson → stop ≡ ReadingStop.NotJson }
    ensures shape { (text : List ℕ) → result ≡ Refusal.Shape text → (p : ScriptPart) × (text ≡ path_of p) × (stop ≡ ReadingStop.Mistake (wrong.Shape p)) }
    ensures limit { (which : LimitName) → result ≡ Refusal.Limit which → stop ≡ ReadingStop.Mistake (wrong.Limit which) }
{
    match stop {
        ReadingStop::NotJson => Refusal::NotJson,
        ReadingStop::NoMemory => Refusal::NoMemory,
        ReadingStop::Mistake(Mistake::Limit(which)) => Refusal::Limit { which },
        ReadingStop::Mistake(Mistake::Shape(place)) => match place.path(alloc) {
            Ok(path) => Refusal::Shape { path },
            Err(NoMemory) => Refusal::NoMemory,
        },
    }
}

/// Reads the script that a JSON text is.
///
/// It answers `Ok` exactly where the bytes are a script. Else it answers the first reason why they are none: `NotJson`
/// where they are no JSON text; then `Shape` or `Limit` for the first part that is wrong, in the order of the root, the
/// version, the workers, the addons, the threads and the schedule, each before what follows it, and a list's limit before
/// its members. Want of memory may come in place of any answer.
pub fn read_script(alloc: Global, bytes: &[u8]) -> Result<Script, Refusal>
    ensures ok { IfOk result (λ found. IsScript bytes.now found) }
    ensures not_json { result ≡ Err Refusal.NotJson → IsNoJson bytes.now }
    ensures shape { (text : List ℕ) → result ≡ Err (Refusal.Shape text) → HasWrongShape bytes.now text }
    ensures limit { (which : LimitName) → result ≡ Err (Refusal.Limit which) → IsWrong bytes.now (wrong.Limit which) }
{
    match read(alloc, bytes) {
        Ok(script) => Ok(script),
        Err(stop) => Err(refusal_of(alloc, stop)),
    }
}
