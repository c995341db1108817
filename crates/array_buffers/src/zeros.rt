//! The bytes of a buffer that is to be made.
ghost use Rattle.std.specs.Prelude.{◌≡◌, Some, length, replicate, IfOk, option_map};

use napi_types::NoMemory;
use std::alloc::Global;
use std::marker::Model;

/// The bytes of a buffer that is to be made, which are 0. Contracts see how many they are.
#[derive(Drop)]
pub struct Zeros {
    bytes: Vec<u8>,
}

impl Model for Zeros {
    ghost use Rattle.std.specs.Prelude.{ℕ};

    ghost Value = { ℕ };

    ghost use Rattle.std.specs.Prelude.{◌≡◌, length, replicate};

    ghost view = { λ z. length z.bytes.items };

    ghost invariant = { λ z. z.bytes.items ≡ replicate (length z.bytes.items) 0 };
}

impl Zeros {
    /// So many bytes, which are taken at once.
    ///
    /// Linear in how many they are.
    pub(crate) fn new(alloc: Global, length: u32) -> Result<Zeros, NoMemory>
        ensures { IfOk result (λ zeros. zeros ≡ length) }
    {
        let bytes = vec![in alloc; 0; length as usize]?;
        Ok(Zeros { bytes })
    }

    /// How many they are.
    pub(crate) fn length(&self) -> usize
        ensures { result ≡ self.now }
    {
        self.bytes.len()
    }

    /// The bytes themselves.
    pub(crate) fn into_bytes(self) -> Vec<u8>
        ensures { result.items ≡ replicate self 0 }
    {
        self.bytes
    }
}
