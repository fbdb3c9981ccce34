//! The keys of the rows of a node table, and the rows by their keys.
ghost use Rattle.std.specs.Prelude.{◌≡◌, ◌<◌, ◌^◌, length, option_map, IfOk, None, Some};
ghost use Rattle.gq_base.specs.Plain.{cell_val};
ghost use Rattle.gq_base.specs.Values.{Val, null, val};
ghost use Rattle.gq_tables.specs.steps.Indexes.{found};
ghost use Rattle.gq_tables.specs.steps.KeyIndexes.{held, is_held};
ghost use Rattle.gq_tables.specs.steps.KeyMaps.{with_row};
ghost use Rattle.gq_tables.specs.Keys.{find_key};
ghost use Rattle.gq_base.specs.Valid.{key_of};

use crate::key_index::KeyIndex;
use crate::near_keys::NearKeys;
use gq_base::{Cell, Kind, Memory, NodeRows, Value};
use std::alloc::Global;

/// One end of a relationship table: the kind of the keys of a node table, and its rows.
#[derive(Clone, Copy)]
pub struct End<'g> {
    pub kind: Kind,
    pub rows: &'g NodeRows,
}

/// An end with its rows by their keys: the first row with each key.
#[derive(Drop)]
pub(crate) struct Keys<'g> {
    pub(crate) end: End<'g>,
    index: Index<'g>,
    ghost finds: { (v : Val) → found index v ≡ find_key end.rows.now v },
}

// Rows by their keys: each in the place of its number where the keys are integers near one another, and else in slots.
#[derive(Drop)]
enum Index<'g> {
    Near(NearKeys),
    Slots(KeyIndex<'g>),
}

impl<'g> Keys<'g> {
    /// The keys of these rows. It takes n log n steps for n rows.
    pub(crate) fn new(alloc: Global, end: End<'g>) -> Result<Keys<'g>, Memory>
        requires { length end.rows.now < 2 ^ 32 }
        ensures { IfOk result (λ keys. keys.end ≡ end.entry) }
    {
        let index = Index::new(alloc, end.rows)?;
        Ok(Keys { end, index })
    }

    /// How many rows there are.
    pub(crate) fn count(&self) -> usize
        ensures { result ≡ length self.now.end.rows.now }
    {
        self.end.rows.len()
    }

    /// The first row with this key. No row has null as its key.
    pub(crate) fn find(&self, key: &Value<'_>) -> Option<u32>
        ensures row { result ≡ find_key self.now.end.rows.now (val key.now) }
        ensures null { find_key self.now.end.rows.now null ≡ None }
    {
        self.index.get(key)
    }
}

impl<'g> Index<'g> {
    fn new(alloc: Global, rows: &'g NodeRows) -> Result<Index<'g>, Memory>
        requires { length rows.now < 2 ^ 32 }
        ensures { IfOk result (λ index. (v : Val) → found index v ≡ find_key rows.now v) }
    {
        match NearKeys::new(alloc, rows)? {
            Some(near) => Ok(Index::Near(near)),
            None => Ok(Index::Slots(index_rows(alloc, rows)?)),
        }
    }

    fn get(&self, key: &Value<'_>) -> Option<u32>
        ensures { result ≡ found self.now (val key.now) }
    {
        match self {
            Index::Near(near) => near.get(key),
            Index::Slots(slots) => slots.get(key),
        }
    }
}

// From the last row on, so that the first of the rows with one key is the one that stays.
fn index_rows<'g>(alloc: Global, rows: &'g NodeRows) -> Result<KeyIndex<'g>, Memory>
    requires { length rows.now < 2 ^ 32 }
    ensures { IfOk result (λ index. (v : Val) → held index v ≡ find_key rows.now v) }
{
    let mut index = KeyIndex::new(alloc, rows.len())?;
    let mut at = rows.len();
    'rows: while at > 0 {
        at -= 1;
        put_row(&mut index, rows.row(at), at as u32)?;
    }
    Ok(index)
}

/// Puts a row at its key, if it has one, and answers whether there was a row before.
pub(crate) fn put_row<'k>(
    index: &mut KeyIndex<'k>,
    row: &'k [Option<Cell>],
    number: u32,
) -> Result<bool, Memory>
    ensures before { IfOk result (λ before. before ≡ is_held index.old (key_of row.now)) }
    ensures put { IfOk result (λ before. (v : Val) →
        held index.new v ≡ with_row (key_of row.now) number v (held index.old v)) }
{
    match key_of(row) {
        Some(key) => Ok(index.insert(key, number)?.is_some()),
        None => Ok(false),
    }
}

fn key_of(row: &[Option<Cell>]) -> Option<&Cell>
    ensures { option_map (λ key. cell_val (Some key.now)) result ≡ key_of row.now }
{
    match row {
        [Some(key), ..] => Some(key),
        _ => None,
    }
}
