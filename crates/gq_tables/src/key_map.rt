//! Rows by their keys. Each kind of key has a map of its own, so that a key is compared as what it
//! is, and a text that is looked up need not live as long as those in the map.
ghost use Rattle.std.specs.Prelude.{◌≡◌, cond, None, Some, IfOk, OnErr};
ghost use Rattle.gq_base.specs.Plain.{cell_val};
ghost use Rattle.gq_base.specs.Values.{Val, val};
ghost use Rattle.gq_tables.specs.steps.KeyMaps.{row_at};
ghost use Rattle.gq_base.specs.Valid.{same_key};

use gq_base::{Cell, Memory, Value};
use std::alloc::Global;
use std::collections::BTreeMap;

/// A row at each of some keys.
#[derive(Drop)]
pub(crate) struct KeyMap<'k> {
    ints: BTreeMap<i64, u32>,
    texts: BTreeMap<&'k str, u32>,
    flags: BTreeMap<bool, u32>,
}

impl<'k> KeyMap<'k> {
    /// The map without keys. It takes no memory.
    pub(crate) fn new(alloc: Global) -> KeyMap<'k>
        ensures { (v : Val) → row_at result v ≡ None }
    {
        KeyMap {
            ints: BTreeMap::new(alloc),
            texts: BTreeMap::new(alloc),
            flags: BTreeMap::new(alloc),
        }
    }

    /// Puts a row at a key, and answers which row was there before.
    pub(crate) fn insert(&mut self, key: &'k Cell, row: u32) -> Result<Option<u32>, Memory>
        ensures before { IfOk result (λ before.
            before ≡ row_at self.old (cell_val (Some key.now))) }
        ensures put { IfOk result (λ before. (v : Val) →
            row_at self.new v
            ≡ cond (same_key (cell_val (Some key.now)) v) (Some row) (row_at self.old v)) }
        ensures err { OnErr result ((v : Val) → row_at self.new v ≡ row_at self.old v) }
    {
        match key {
            Cell::Int(value) => Ok(self.ints.insert(*value, row)?),
            Cell::Str(text) => Ok(self.texts.insert(text.as_str(), row)?),
            Cell::Flag(value) => Ok(self.flags.insert(*value, row)?),
        }
    }

    /// The row at a key. No row stands at null, at a node or at a relationship.
    pub(crate) fn get(&self, key: &Value<'_>) -> Option<u32>
        ensures { result ≡ row_at self.now (val key.now) }
    {
        match key {
            Value::Int(value) => self.ints.get(value).copied(),
            Value::Str(text) => self.texts.get(*text).copied(),
            Value::Flag(value) => self.flags.get(value).copied(),
            Value::Null | Value::Node(_) | Value::Rel(_) => None,
        }
    }
}
