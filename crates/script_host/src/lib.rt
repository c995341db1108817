//! The top calls: what the program does with its words, its input and its addons.
//! `host` reads a script, runs it with the addons that it is handed, and writes the trace; `host_scheduled` does so where the script has a schedule.
//! Contracts see bytes, the machine's runs and the two lists that a run leaves. The program stands above it.
#![tactic(auto)]

mod choosing;
mod laws;
mod top_call;

pub use laws::commands_are_of_one_kind;
pub use outside::{StdSink, StdSource};
pub use top_call::{host, host_scheduled};
