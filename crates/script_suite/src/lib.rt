//! Tests of what reads scripts, writes traces and follows a plan, through what those crates give to others.
//! Whatever a short script can say is a row of `rows_suite`; here stands the rest. No crate stands above this one.
#![tactic(auto)]

#[cfg(test)]
mod tests;
