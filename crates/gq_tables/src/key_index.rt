//! Rows of a node table by their keys, so that a look-up seldom waits for memory more than once.
ghost use Rattle.std.specs.Prelude.{◌≡◌, ◌<◌, ◌≤◌, ◌^◌, None, Some, length, cond, position, IfOk};
ghost use Rattle.std.specs.Prelude.{IfSome};
ghost use Rattle.gq_base.specs.Plain.{cell_val};
ghost use Rattle.gq_base.specs.Valid.{same_key};
ghost use Rattle.gq_base.specs.Values.{Val, val};
ghost use Rattle.gq_tables.specs.steps.KeyMaps.{row_at};
ghost use Rattle.gq_tables.specs.steps.Slots.{IsSpare, is_open, place_of, row_in};
ghost use Rattle.gq_tables.specs.declared.key_index.TheConstants.{WINDOW};

use crate::key_map::KeyMap;
use crate::slots::slot_of;
use gq_base::{Cell, Memory, Value};
use std::alloc::Global;

// So many slots for each row. With fewer more keys stand in the ordered map, and with more the
// slots fill more memory.
const SLOTS_PER_ROW: usize = 4;

// A key may stand in so many slots that follow one another. Of keys that nobody chose fewer than
// one in a thousand finds other keys in all of them, and keys that somebody chose make no look-up
// go through more.
const WINDOW: usize = 8;

// A key, and the row that stands at it.
#[derive(Clone, Copy)]
struct Entry<'k> {
    key: Value<'k>,
    row: u32,
}

/// A row at each of some keys. A key stands in its window, the few slots from its own on: in the
/// first of them that had no other key when it came, or, where other keys had them all, in an
/// ordered map. No key is ever removed, so a free slot ends a search, and whoever chose the keys, a
/// look-up takes `WINDOW` + log n steps at most.
#[derive(Drop)]
pub(crate) struct KeyIndex<'k> {
    slots: Vec<Option<Entry<'k>>>,
    others: KeyMap<'k>,
    ghost room: { WINDOW ≤ length slots.items },
    ghost spare: { IsSpare slots.items (row_at others) },
}

impl<'k> KeyIndex<'k> {
    ghost use Rattle.gq_tables.specs.steps.KeyIndexes.{held};

    /// The index without keys, which has slots for so many rows.
    pub(crate) fn new(alloc: Global, rows: usize) -> Result<KeyIndex<'k>, Memory>
        requires { rows < 2 ^ 32 }
        ensures { IfOk result (λ index. (v : Val) → held index v ≡ None) }
    {
        let slots = vec![in alloc; None; rows * SLOTS_PER_ROW + WINDOW]?;
        let others = KeyMap::new(alloc);
        Ok(KeyIndex { slots, others })
    }

    /// Puts a row at a key, and answers which row was there before.
    pub(crate) fn insert(&mut self, key: &'k Cell, row: u32) -> Result<Option<u32>, Memory>
        ensures before { IfOk result (λ before. before ≡ held self.old (cell_val (Some key.now))) }
        ensures put { IfOk result (λ before. (v : Val) →
            held self.new v
            ≡ cond (same_key (cell_val (Some key.now)) v) (Some row) (held self.old v)) }
    {
        let value = key.value();
        let Some(place) = place_of(self.slots.as_slice(), &value) else {
            return self.others.insert(key, row);
        };
        let before = row_in(&self.slots[place]);
        self.slots[place] = Some(Entry { key: value, row });
        Ok(before)
    }

    /// The row at a key. No row stands at null, at a node or at a relationship.
    pub(crate) fn get(&self, key: &Value<'_>) -> Option<u32>
        ensures { result ≡ held self.now (val key.now) }
    {
        match place_of(self.slots.as_slice(), key) {
            Some(place) => row_in(&self.slots[place]),
            None => self.others.get(key),
        }
    }
}

// The first slot of a key's window that is free or has the key.
fn place_of(slots: &[Option<Entry<'_>>], key: &Value<'_>) -> Option<usize>
    requires { WINDOW ≤ length slots.now }
    ensures place { result ≡ place_of slots.now (val key.now) }
    ensures within { IfSome result (λ place. place < length slots.now) }
{
    // No key has one of the last slots as its own, so that each window ends within the slots.
    let own = slot_of(key, slots.len() - WINDOW + 1);
    let steps = first_open(&slots[own..own + WINDOW], key)?;
    Some(own + steps)
}

// The first of some slots that is free or has this key.
fn first_open(slots: &[Option<Entry<'_>>], key: &Value<'_>) -> Option<usize>
    ensures place { result ≡ position (is_open (val key.now)) slots.now }
    ensures within { IfSome result (λ place. place < length slots.now) }
{
    slots.iter().position(|slot| is_open(slot, key))
}

// Whether a slot is free or has this key.
fn is_open(slot: &Option<Entry<'_>>, key: &Value<'_>) -> bool
    ensures { result ≡ is_open (val key.now) slot.now }
{
    match slot {
        Some(there) => there.key == *key,
        None => true,
    }
}

fn row_in(slot: &Option<Entry<'_>>) -> Option<u32>
    ensures { result ≡ row_in slot.now }
{
    match slot {
        Some(there) => Some(there.row),
        None => None,
    }
}
