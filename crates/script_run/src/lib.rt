//! Runs a script: makes its environment, its hub, its threads and its workers, gives the addons their plans, and runs all of them to their end, on threads of
//! the machine or by turns. The load script is one of those scripts. The top calls stand above it.
#![tactic(auto)]

mod actors;
mod load;
mod running;

pub use load::load_script;
pub use running::{in_turns, on_threads};
