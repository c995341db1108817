//! Tests of the top call with addons that follow no script, and of the ends over a reader and a writer. What a script, words, lengths,
//! faults and a number of addons can say is a row of `rows_suite`. It has tests alone, uses public items of the crates below, and
//! nothing stands above it.
#![tactic(auto)]

#[cfg(test)]
mod tests;
