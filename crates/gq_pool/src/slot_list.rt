//! Slots that are taken from a pool at once, and given back at once.
ghost use Rattle.std.specs.Prelude.{◌≡◌, ◌≢◌, ◌↔◌, ◌+◌, ◌≤◌, ℕ, [], length, IfOk, IsTrue};
ghost use Rattle.std.specs.Prelude.{true, false, vec_capacity};
ghost use Rattle.std.specs.List.{AllByRecursion};
ghost use Rattle.gq_pool.specs.Pool.{spare_of, IsFree, IsOut};
ghost use Rattle.gq_pool.specs.Slots.{Holds, all_taken, all_freed};

use crate::{Slot, VectorPool};
use gq_base::Memory;
use std::alloc::Global;
use std::marker::Model;

/// Slots that were taken from a pool, with room for so many. It can be neither copied nor dropped: it
/// ends in `close`, once its slots were given back. It is seen as the numbers of its slots, and how
/// many it has room for.
pub struct SlotList {
    slots: Vec<Slot>,
}

impl Model for SlotList {
    ghost use Rattle.std.specs.Prelude.{vec_capacity};
    ghost use Rattle.gq_pool.specs.Slots.{Slots};

    ghost Value = { Slots };

    ghost view = { λ l. record { numbers = l.slots.items; room = vec_capacity l.slots } };
}

impl SlotList {
    /// An empty list with room for so many slots.
    pub fn with_room(alloc: Global, count: u32) -> Result<SlotList, Memory>
        ensures empty { IfOk result (λ l. l.numbers ≡ []) }
        ensures room { IfOk result (λ l. count ≤ l.room) }
    {
        let slots = Vec::with_capacity(alloc, count as usize)?;
        Ok(SlotList { slots })
    }

    /// The slots.
    pub fn as_slice(&self) -> &[Slot]
        ensures { result.now ≡ self.now.numbers }
    {
        self.slots.as_slice()
    }

    /// Ends an empty list.
    pub fn close(self)
        requires { self.numbers ≡ [] }
    {
        let SlotList { slots } = self;
        slots.destroy_empty();
    }
}

impl VectorPool {
    /// Takes so many slots into an empty list, or answers false where fewer are free. It takes no
    /// memory.
    pub fn take_many(&mut self, count: u32, list: &mut SlotList) -> bool
        requires empty { list.old.numbers ≡ [] }
        requires room { count ≤ list.old.room }
        ensures answer { IsTrue result ↔ (count ≤ spare_of self.old) }
        ensures unchanged { result ≡ false → self.new ≡ self.old }
        ensures unlisted { result ≡ false → list.new ≡ list.old }
        ensures count { result ≡ true → length list.new.numbers ≡ count }
        ensures holds { result ≡ true → Holds self.new list.new.numbers }
        ensures takes { result ≡ true → self.new ≡ all_taken self.old list.new.numbers }
        ensures spare { result ≡ true → spare_of self.new + count ≡ spare_of self.old }
    {
        if self.spare() < count {
            return false;
        }
        take_slots(self, &mut list.slots, count);
        true
    }

    /// Gives all slots of a list back; their cells stay. It takes no memory.
    pub fn give_all(&mut self, list: &mut SlotList)
        requires { Holds self.old list.old.numbers }
        ensures empty { list.new.numbers ≡ [] }
        ensures gives { self.new ≡ all_freed self.old list.old.numbers }
        ensures spare { spare_of self.new ≡ spare_of self.old + length list.old.numbers }
    {
        give_back(self, &mut list.slots);
    }
}

// Takes so many slots of those that are free.
fn take_slots(pool: &mut VectorPool, slots: &mut Vec<Slot>, count: u32)
    requires empty { slots.old.items ≡ [] }
    requires capacity { count ≤ vec_capacity slots.old }
    requires room { count ≤ spare_of pool.old }
    ensures holds { Holds pool.new slots.new.items }
    ensures count { length slots.new.items ≡ count }
    ensures takes { pool.new ≡ all_taken pool.old slots.new.items }
    ensures spare { spare_of pool.new + count ≡ spare_of pool.old }
{
    for _ in 0..count {
        match pool.take() {
            Some(slot) => match slots.push(slot) {
                Ok(()) => {}
                Err(failed) => pool.give(failed.value),
            },
            None => {}
        }
    }
}

// Gives all slots back, the last first.
fn give_back(pool: &mut VectorPool, slots: &mut Vec<Slot>)
    requires { Holds pool.old slots.old.items }
    ensures empty { slots.new.items ≡ [] }
    ensures gives { pool.new ≡ all_freed pool.old slots.old.items }
    ensures spare { spare_of pool.new ≡ spare_of pool.old + length slots.old.items }
{
    while let Some(slot) = slots.pop() {
        pool.give(slot);
    }
}
