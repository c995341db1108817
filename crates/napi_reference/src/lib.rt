//! The references of an environment (the manual's `napi_ref`): each has a number, a value until that is collected, and a count.
//! Contracts see the places where they stand, and the map from their numbers that this stands for (`specs/ReferencePlaces.antt`,
//! `References` in `napi_types`). While its count is above 0 a reference is strong, and keeps its value. The environment, which
//! makes references by its calls and collects values, stands above.
#![tactic(auto)]

mod freed;
mod refs;
mod rows;

pub use refs::Refs;
