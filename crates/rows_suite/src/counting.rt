//! A source that counts the calls of it.
ghost use Rattle.std.specs.Prelude.{Some};

use napi_types::{Failed, MemSource, Source};
use std::num::NonZeroUsize;

/// A source in memory that counts the calls of it, and gives at most so many bytes in one.
#[derive(Drop)]
pub(crate) struct Counting {
    source: MemSource,
    piece: NonZeroUsize,
    calls: u64,
}

impl Counting {
    /// The same source, of which no call was made.
    pub(crate) fn of(source: MemSource, piece: NonZeroUsize) -> Counting {
        Counting {
            source,
            piece,
            calls: 0,
        }
    }

    /// How many calls were made.
    pub(crate) fn calls(&self) -> u64 {
        self.calls
    }
}

impl Source for Counting {
    ghost left = { λ counting. Some counting.source.left };

    ghost faults = { λ counting. counting.source.calls.faults };

    fn read(&mut self, into: &mut [u8]) -> Result<usize, Failed> {
        self.calls = self.calls.saturating_add(1);
        let count = into.len().min(self.piece.get());
        self.source.read(&mut into[..count])
    }
}
