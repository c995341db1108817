//! Promises and deferreds (the manual's `napi_create_promise`): each deferred settles its promise at most once, and a promise has
//! reactions, which are tickets of the book. Contracts see two finite maps (`specs/parts/Promises.antt` in `napi_types`), and for how
//! many promises more there is memory (`specs/KeptPromises.antt`). The environment, which makes promises of values and runs the
//! reactions, stands above.
#![tactic(auto)]

mod deferreds;
mod row;
mod rows;

pub use deferreds::Deferreds;
