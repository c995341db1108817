//! What is attached to the values of an environment: wraps (the manual's `napi_wrap`), type tags, and the tickets of finalizers
//! beside those of wraps. Contracts see three finite maps (`specs/Wraps.antt`, `Attachments` in `napi_types`). The environment,
//! which reads and changes them by its calls and frees values, stands above.
#![tactic(auto)]

mod row;
mod rows;
mod wraps;

pub use wraps::Wraps;
