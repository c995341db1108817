//! Gives turns to all actors of a run, on one thread: first those of a schedule, and then rounds, until the environment is gone.
//! Contracts see a moment between two turns as the environment's run, the hub beside it, the addons, and the threads and workers
//! (`specs/GivenTurns.antt`). They say which turns led from one moment to another, and what each of them came to.
#![tactic(auto)]

mod order;
mod round;
mod stepping;
mod turn;

pub use stepping::step_all;
