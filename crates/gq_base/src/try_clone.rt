//! Copies of owned values, each of which takes memory of its own.
ghost use Rattle.std.specs.Prelude.{◌≡◌, IfOk};

use crate::list::List;
use crate::memory::Memory;
use std::alloc::Global;

/// A value that can be copied where there is memory for it. The copy is the same plain data.
pub trait TryClone {
    /// A copy of the value.
    fn try_clone(&self, alloc: Global) -> Result<Self, Memory>
        ensures { IfOk result (λ copy. copy ≡ self.now) };
}

impl<T: TryClone> TryClone for Option<T> {
    fn try_clone(&self, alloc: Global) -> Result<Option<T>, Memory> {
        match self {
            None => Ok(None),
            Some(value) => Ok(Some(value.try_clone(alloc)?)),
        }
    }
}

/// A copy of each item, in their order.
pub fn copy_all<T: TryClone + Drop>(alloc: Global, items: &[T]) -> Result<List<T>, Memory>
    ensures { IfOk result (λ copies. copies ≡ items.now) }
{
    let mut copies = List::new(alloc);
    for item in items {
        let copied = item.try_clone(alloc)?;
        copies.push(copied)?;
    }
    Ok(copies)
}
