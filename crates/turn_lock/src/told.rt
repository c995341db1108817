//! What the locked value tells.
ghost use Rattle.std.specs.Prelude.{◌≡◌, length};

use napi_types::Entry;

/// An entry, with the number of the pass that added it and that of its environment, which is 0 where there is one.
#[derive(Clone, Copy)]
pub struct Row {
    pub pass: u32,
    pub environment: u32,
    pub entry: Entry,
}

/// A value that tells a list of rows. The list exists in proofs alone; its length is told at run time.
pub trait Told {
    ghost use Rattle.std.specs.Prelude.{List};
    ghost use Rattle.turn_lock.specs.declared.told.Row.{Row};

    /// The rows, in the order in which they were added.
    ghost told: { Self → List Row };

    /// How many rows there are. It is asked whenever the turn is given back, so it should take constant time.
    fn told_len(&self) -> u64
        ensures { result ≡ length (told self.now) };
}
