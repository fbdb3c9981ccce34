//! A growable list whose contract is the list of its items.
ghost use Rattle.std.specs.Prelude.{◌≡◌, [], ◌∷◌, ◌++◌, ◌<◌, length, slice_get, slice_set, ◌↔◌};
ghost use Rattle.std.specs.Prelude.{IsTrue, IfOk, OnOk, OnErr, OnSome};
ghost use Rattle.std.specs.Option.{option_copied};
ghost use Rattle.std.specs.List.{AllZip, list_any};
ghost use Rattle.std.specs.Iterator.Adapters.{IterYieldsInOrder, IterYieldsInReverse};
ghost use Rattle.std.specs.Slice.Iter.{iter_rest};
ghost use Rattle.std.specs.Cmp.Lexicographic.{pointwise, lists_per, lists_equiv};

use crate::memory::Memory;
use crate::try_clone::TryClone;
use std::alloc::{AllocError, Global};
use std::marker::Model;
use std::slice::Iter;

/// A `Vec` that contracts see as the list of its items, so that lists of equal items are equal and
/// a type may hold itself through it.
#[derive(Debug, Drop)]
pub struct List<T> {
    vec: Vec<T>,
}

impl<T> Model for List<T> {
    ghost use Rattle.std.specs.Prelude.{List};
    ghost use Rattle.std.specs.Coded.{coded_list};

    ghost Value = { List T };

    ghost coded = { coded_list T.code };

    ghost view = { λ l. l.vec.items };
}

impl<T> List<T> {
    /// The empty list. It takes no memory.
    pub fn new(alloc: Global) -> List<T>
        ensures { result ≡ [] }
    {
        List {
            vec: Vec::new(alloc),
        }
    }

    /// The items of a vector, which is moved and not copied.
    pub fn from_vec(vec: Vec<T>) -> List<T>
        ensures { result ≡ vec.items }
    {
        List { vec }
    }

    /// The items as a vector, moved and not copied.
    pub fn into_vec(self) -> Vec<T>
        ensures { result.items ≡ self }
    {
        let List { vec } = self;
        vec
    }

    /// The items.
    pub fn as_slice(&self) -> &[T]
        ensures { result.now ≡ self.now }
    {
        self.vec.as_slice()
    }

    /// How many items there are.
    pub fn len(&self) -> usize
        ensures { result ≡ length self.now }
    {
        self.vec.len()
    }

    /// Whether there are no items.
    pub fn is_empty(&self) -> bool
        ensures { IsTrue result ↔ (self.now ≡ []) }
    {
        self.vec.is_empty()
    }

    /// The item at a place counted from 0, or `None` past the end.
    pub fn get(&self, at: usize) -> Option<&T>
        ensures value { option_copied result ≡ slice_get self.now at }
        ensures within { OnSome result (at < length self.now) }
    {
        self.vec.get(at)
    }

    /// The items one after the other, in their order or from the last.
    pub fn iter(&self) -> Iter<'_, T>
        ensures rest { iter_rest result ≡ self.now }
        ensures runs { IterYieldsInOrder T }
        ensures runs_back { IterYieldsInReverse T }
    {
        self.vec.as_slice().iter()
    }
}

impl<T: PartialEq> List<T> {
    /// Whether an item is equal to this one.
    pub fn contains(&self, item: &T) -> bool
        ensures { result ≡ list_any (λ y. T.eq y item.now) self.now }
    {
        self.as_slice().contains(item)
    }
}

impl<T: Copy> List<T> {
    /// A copy of items.
    pub fn from_slice(alloc: Global, items: &[T]) -> Result<List<T>, Memory>
        ensures { IfOk result (λ list. list ≡ items.now) }
    {
        match Vec::from_slice(alloc, items) {
            Ok(vec) => Ok(List { vec }),
            Err(_) => Err(Memory::Exhausted),
        }
    }

    /// Appends copies of items. After `Memory` the list is as before.
    pub fn extend(&mut self, items: &[T]) -> Result<(), Memory>
        ensures extended { OnOk result (self.new ≡ self.old ++ items.now) }
        ensures kept { OnErr result (self.new ≡ self.old) }
    {
        match self.vec.extend_from_slice(items) {
            Ok(()) => Ok(()),
            Err(_) => Err(Memory::Exhausted),
        }
    }
}

impl<T: Drop> List<T> {
    /// Appends an item. After `Memory` the list is as before and the item is dropped.
    pub fn push(&mut self, item: T) -> Result<(), Memory>
        ensures pushed { OnOk result (self.new ≡ self.old ++ item ∷ []) }
        ensures kept { OnErr result (self.new ≡ self.old) }
    {
        match self.vec.push(item) {
            Ok(()) => Ok(()),
            Err(_) => Err(Memory::Exhausted),
        }
    }

    /// Puts an item in the place of another, which is dropped.
    pub fn set(&mut self, at: usize, item: T)
        requires { at < length self.old }
        ensures { self.new ≡ slice_set self.old at item }
    {
        self.vec[at] = item;
    }
}

impl TryClone for List<u32> {
    fn try_clone(&self, alloc: Global) -> Result<List<u32>, Memory> {
        List::from_slice(alloc, self.as_slice())
    }
}

impl<T: Clone> Clone for List<T> {
    ghost is_clone = { λ l m. AllZip T.is_clone l m × (length m ≡ length l) };

    fn clone(&self) -> Result<List<T>, AllocError> {
        Ok(List {
            vec: self.vec.clone()?,
        })
    }
}

impl<T: PartialEq> PartialEq for List<T> {
    ghost eq = { λ x y. pointwise T.eq x y };

    ghost laws = { lists_per T.laws };

    fn eq(&self, other: &List<T>) -> bool {
        self.as_slice() == other.as_slice()
    }
}

impl<T: Eq> Eq for List<T> {
    ghost laws = { lists_equiv T.Eq.laws };
}
