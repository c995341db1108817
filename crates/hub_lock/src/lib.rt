//! The hub that threads share: a turn lock over its state, with a bell for each actor. Contracts see a pass as its number, what it has seen
//! of the history's rows, and which of them are its own (`specs/SeenTurns.antt`). Who may go on sleeps on its bell until it is rung. Whom
//! to ring is noted under the turn, by the state itself.
#![tactic(auto)]

mod bells;
mod hub;
mod locked;
pub mod sending;

pub use hub::Hub;
pub use locked::Locked;
