//! Runs all actors of a run at once, over the hub's lock: each thread of a script and each worker on a thread of its own, and the environment on
//! the thread of its caller. Who has no thread of its own gets turns from the environment's thread.
//! Contracts see each run beside its pass (`specs/AtPasses.antt`): what the pass has seen of the history, and which rows are its own.
#![tactic(auto)]

mod actor;
mod closing;
mod crew;
mod environment;
mod join;
mod making;
mod running;
mod start;
mod start_room;
mod strays;
mod unstarted;

pub use actor::run_actor;
pub use closing::close;
pub use crew::Crew;
pub use environment::run_env;
pub use strays::Stray;
