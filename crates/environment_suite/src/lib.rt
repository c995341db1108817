//! Tests of the environment: one table in which each call succeeds once, with the numbers that it tells; turns one by one; and whole journals of addons that
//! tell no plan, with too few places. Scripts are rows of `rows_suite`.
//! The crate has no code of its own and no contracts; nothing stands above it.
#![tactic(auto)]

#[cfg(test)]
mod tests;
