//! The environment of an addon: its values, scopes and frames, and the journal that its local events fill.
//! Contracts see an `EnvCore` as the machine's environment beside its journal (`specs/Core.antt`).
//! Each call makes the change that the machine's definitions give, or changes nothing. The crate that runs
//! frames stands above it.
#![tactic(auto)]

mod env;
mod frames;
mod handles;
mod journal;
mod roots;
mod state;
mod tsfn_roots;
mod views;
mod weak_references;

pub use env::{EnvCore, Stepped};
pub use frames::StandingFrame;
