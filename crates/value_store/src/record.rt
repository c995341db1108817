//! A value as the store keeps it.
ghost use Rattle.std.specs.Prelude.{◌≡◌};
ghost use Rattle.value_store.specs.Contents.{value_of_record};

use crate::ValueInfo;
use crate::contents::Contents;
use std::mem::size_of;

/// A value, and its creation number.
#[derive(Drop)]
pub(crate) struct ValueRecord {
    pub(crate) number: u64,
    pub(crate) value: Contents,
}

// Beside it a live value takes the 8 bytes of its slot and the 4 of its generation (docs/COST.md).
const _: () = prove!(size_of::<ValueRecord>() == 48);

impl ValueRecord {
    /// The value, as it is lent.
    pub(crate) fn info(&self) -> ValueInfo<'_>
        ensures { result ≡ value_of_record self.now }
    {
        ValueInfo::of(self)
    }
}
