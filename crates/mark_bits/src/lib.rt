//! Marks of one bit each. Contracts see a list of truths, one for each place that has a mark.
#![tactic(auto)]

mod bits;

pub use bits::Bits;
