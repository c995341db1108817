//! Writes the text of a trace, or its summary, to a sink, without memory.
//! Contracts see what the sink took: the whole text or summary, or at a fault a prefix of it. The program's runs stand above.
#![tactic(auto)]

mod counts;
mod laws;
mod line;
mod merge;
mod number;
mod pending;
mod put;
mod scan;
mod summary;
mod write;

pub use laws::{examples, summaries};
pub use put::put_all;
pub use summary::write_summary;
pub use write::{write_rising_trace, write_trace};
