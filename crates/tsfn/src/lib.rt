//! Thread-safe functions (the manual's `napi_threadsafe_function`): each has a queue of items, a count of the threads that hold it, and how far
//! it has come. Contracts see one as `FunctionState` (`specs/parts/Functions.antt` in `napi_types`), and those of a hub as the list of them. They
//! know no environment, no thread and no lock: the hub, under whose lock threads call them and the environment takes their items, stands above.
#![tactic(auto)]

mod busy;
mod function;
mod functions;

pub use function::{Moved, Tried, Tsfn, TsfnNew};
pub use functions::Functions;
pub use napi_types::TsfnState;
