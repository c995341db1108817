//! The cleanup hooks of an environment, plain (the manual's `napi_add_env_cleanup_hook`) and asynchronous (`napi_add_async_cleanup_hook`).
//! Those that have neither begun nor been removed each have a ticket: contracts see them as a list in the order of adding
//! (`specs/parts/Hooks.antt` in `napi_types`). Beside it stands how far each asynchronous one has come (`specs/parts/AsyncHooks.antt` in `napi_types`).
//! The environment, whose calls add and remove hooks and whose teardown runs them from the last to the first, stands above.
#![tactic(auto)]

mod asynchronous;
mod hooks;
mod key;
mod list;

pub use hooks::Hooks;
