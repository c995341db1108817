//! What the tests use.
ghost use Rattle.std.specs.Prelude.{◌≡◌, Ok};

use crate::rows::{Rows, add};
use napi_types::NoMemory;
use std::process::Abort;
use std::sync::Wait;
use turn_lock::{Pass, Turn};

mod counting;
mod hub;
mod many;
mod waiting;
mod waking;

/// What was made where there was memory.
fn ample<T>(rt: &impl Abort, outcome: Result<T, NoMemory>) -> T
    ensures { outcome ≡ Ok result }
{
    match outcome {
        Ok(value) => value,
        Err(NoMemory) => panic!(rt; "there is no memory"),
    }
}
