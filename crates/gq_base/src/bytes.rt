//! Bytes on the heap whose contract is the list of them.
ghost use Rattle.std.specs.Prelude.{◌≡◌, length, IfOk};

use crate::memory::Memory;
use std::alloc::Global;
use std::marker::Model;

/// A `Vec<u8>` that contracts see as the list of its bytes.
#[derive(Debug, Drop)]
pub struct Bytes {
    vec: Vec<u8>,
}

impl Model for Bytes {
    ghost use Rattle.std.specs.Prelude.{ℕ, List};

    ghost Value = { List ℕ };

    ghost view = { λ b. b.vec.items };
}

impl Bytes {
    /// A copy of these bytes.
    pub fn new(alloc: Global, bytes: &[u8]) -> Result<Bytes, Memory>
        ensures { IfOk result (λ b. b ≡ bytes.now) }
    {
        match Vec::from_slice(alloc, bytes) {
            Ok(vec) => Ok(Bytes { vec }),
            Err(_) => Err(Memory::Exhausted),
        }
    }

    /// The bytes of a vector, which is moved and not copied.
    pub fn from_vec(vec: Vec<u8>) -> Bytes
        ensures { result ≡ vec.items }
    {
        Bytes { vec }
    }

    /// The bytes.
    pub fn as_slice(&self) -> &[u8]
        ensures { result.now ≡ self.now }
    {
        self.vec.as_slice()
    }

    /// How many bytes there are.
    pub fn len(&self) -> usize
        ensures { result ≡ length self.now }
    {
        self.vec.len()
    }
}
