//! The pending exception and the last status of an environment.
//! Contracts see both as one record (`specs/Exceptions.antt`). Which calls make a value pending, and which are refused while one is,
//! the environment says, which stands above.
#![tactic(auto)]

mod exceptions;

pub use exceptions::Exceptions;
