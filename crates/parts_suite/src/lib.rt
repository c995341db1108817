//! Tests of the crates of values, works, jobs and thread-safe functions, of what neither a clause nor a row says. They stand here and not
//! there, so that each of these crates is proved once.
#![tactic(auto)]

#[cfg(test)]
mod tests;
