//! The numbers that all values of one lock agree on.

use napi_types::Limits;
use std::marker::Brand;

/// How many threads and workers there are, and the limits.
#[derive(Clone, Copy, Debug, PartialEq, Eq)]
pub struct Numbers {
    pub threads: u32,
    pub workers: u32,
    pub limits: Limits,
}

/// A type that names these numbers. It has no code: who makes a [`HubState`](crate::HubState) says by such a type which numbers it has,
/// so that every value that is taken from one lock has the same.
pub trait Naming {
    ghost use Rattle.shared_hub.specs.declared.naming.Numbers.{Numbers};

    ghost numbers: { Numbers };
}

/// A caller in whose signature no such type stands may name any numbers.
impl Naming for Brand {
    ghost use Rattle.shared_hub.specs.declared.naming.Numbers.{Numbers};

    ghost numbers = { record { threads = 0; workers = 0; limits = record { journal = 0; history = 0 } } };
}
