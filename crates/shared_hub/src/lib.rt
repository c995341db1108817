//! The hub of a run: its asynchronous works, its thread-safe functions, how far it has come, and the history of all that happened there.
//! Contracts see a [`HubState`] as its history and the hub to which that has led (`specs/HubStates.antt`). Its type names the numbers of
//! threads and workers and the limits, and keeps that the history replays. It knows no environment, no thread and no lock: the lock,
//! under which they take turns over it, stands above.
#![tactic(auto)]

mod hub;
mod naming;
mod parts;
mod progress;
mod room;
pub mod rows;
pub mod sending;
mod sleepers;
mod tries;

pub use hub::HubState;
pub use naming::{Naming, Numbers};
pub use progress::HubStage;
pub use sleepers::WaitsFor;
pub use tries::{Polled, ThreadTried};
