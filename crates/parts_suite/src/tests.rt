//! What several tests use. A call that finds no memory ends its test, so what was made needs no way out.
ghost use Rattle.std.specs.Prelude.{◌≡◌, Ok};

use napi_types::NoMemory;
use std::process::Abort;

mod buffers;
mod function_list;
mod functions;
mod hub;
mod jobs;
mod many;
mod promises;
mod registered;
mod values;
mod works;

/// What was made where there was memory.
fn ample<T>(rt: &impl Abort, outcome: Result<T, NoMemory>) -> T
    ensures { outcome ≡ Ok result }
{
    match outcome {
        Ok(value) => value,
        Err(NoMemory) => panic!(rt; "there is no memory"),
    }
}
