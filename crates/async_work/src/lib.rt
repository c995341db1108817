//! The pool of asynchronous works (the manual's `napi_async_work`). Contracts see it as `WorkPool` (`specs/parts/Pool.antt` in `napi_types`):
//! the works that there are, those that wait for a worker, those that run, and those that are finished. It knows no environment, no
//! thread and no lock: the hub, under whose lock workers start and finish works, stands above.
#![tactic(auto)]

mod job;
mod place;
mod pool;
mod queue;
mod room;

pub use job::{Job, Ran, Running};
pub use pool::{Finished, Picked, Pool};
