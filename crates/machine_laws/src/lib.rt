//! What the machine's definitions come to, as laws: each function does nothing, and each clause of its contract states a law.
//! Worked runs of scripts are such laws, and so is what holds over all calls and all runs. No crate stands on this one,
//! so that a definition's change proves no more than the laws of it. The laws that proofs above cite stand in `napi_types`.
#![tactic(auto)]

pub mod buffer_runs;
pub mod calls;
pub mod choices;
pub mod cuts;
pub mod exits;
pub mod finalizer_runs;
pub mod finalizers;
pub mod function_runs;
pub mod handles;
pub mod hook_runs;
pub mod hub_runs;
pub mod maps;
pub mod promise_runs;
pub mod promises;
pub mod room_runs;
pub mod runs;
pub mod scope_runs;
pub mod value_runs;
