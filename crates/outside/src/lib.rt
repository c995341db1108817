//! What the program reads and writes: the words of its command line, a script from a source, and to a sink a text or the line that stands in its place.
//! Contracts see bytes, and how often a read and a write failed. The top calls stand above it.
#![tactic(auto)]

mod commands;
mod message;
mod outcome;
mod reading;
mod scripts;
mod standard;

pub use commands::{Command, command_of};
pub use message::Message;
pub use outcome::write_outcome;
pub use scripts::{Demand, script_from_source};
pub use standard::{StdSink, StdSource};
