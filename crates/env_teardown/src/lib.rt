//! The moves of a hub as an environment's core takes them in, and the steps of the environment's teardown.
//! Contracts see the environment's core through `Phased` alone. So this crate stands on no core; the crate that runs frames stands on both.
#![tactic(auto)]

mod step;

pub use step::{TearStep, poll_into, teardown_step};
