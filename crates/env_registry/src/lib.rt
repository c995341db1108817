//! What is registered with an environment, and what is attached to its values: wraps, type tags, finalizers, cleanup hooks, the
//! instance data of addons, promises and array buffers, over the book of their tickets. Contracts see the machine's record of these parts (`Registry`
//! in `napi_types`), and for how much more there is memory (`specs/KeptRegistry.antt`). A value goes by the store's number here. The
//! environment, which knows handles, frames and phases, stands above.
#![tactic(auto)]

mod finalizer;
mod instances;
mod registering;
mod registry;

pub use finalizer::Finalizer;
pub use registry::{Registry, Replaced};
