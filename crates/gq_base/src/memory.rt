//! The one answer that is free: want of memory.

use std::alloc::{AllocError, AllocFailed};

/// Want of memory, and its cause. It may come at each call whose signature names it, and no other.
#[derive(Clone, Copy, Debug, PartialEq, Eq)]
pub enum Memory {
    /// There was not enough memory.
    Exhausted,
    /// More work, or more memory, was asked for than one statement may take.
    Limit,
}

impl From<AllocError> for Memory {
    fn from(_error: AllocError) -> Memory {
        Memory::Exhausted
    }
}

impl<T: Drop> From<AllocFailed<T>> for Memory {
    fn from(_failed: AllocFailed<T>) -> Memory {
        Memory::Exhausted
    }
}
