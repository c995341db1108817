//! Tests of the turn lock: two threads whose turns are counted, and passes that sleep until another adds a row. What they do under
//! the lock stands in `rows` and is proved without them, so that an edit of it is tried. And tests of the hub's lock: threads, workers
//! and the environment sleep there, and are rung. Nothing stands above this crate.
#![tactic(auto)]

pub mod rows;
#[cfg(test)]
mod tests;
