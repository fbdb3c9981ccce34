//! Rows of a node table by integer keys that lie near one another: a place of 4 bytes for each
//! number, so that a look-up compares no keys and the places of many rows fit a cache.
ghost use Rattle.std.specs.Prelude.{◌≡◌, ◌+◌, ◌<◌, ◌^◌, None, Some, length, IfOk, IfSome};
ghost use Rattle.std.specs.Bool.{OnTrue};
ghost use Rattle.gq_base.specs.Valid.{key_of};
ghost use Rattle.gq_base.specs.Values.{Val, int, val};
ghost use Rattle.gq_tables.specs.steps.KeyMaps.{with_row};
ghost use Rattle.gq_tables.specs.Keys.{find_key};
ghost use Rattle.gq_tables.specs.steps.NearKeys.{near, place_of};

use gq_base::{Cell, Memory, NodeRows, Value};
use std::alloc::Global;

// At most so many places for each row, so that they take no more than 16 bytes a row.
const PLACES_PER_ROW: usize = 4;

// Marks a place without a row. There are too few rows for one of this number.
const NO_ROW: u32 = u32::MAX;

/// Rows by integer keys: a row or the mark for each number from `low` on.
#[derive(Drop)]
pub(crate) struct NearKeys {
    low: i64,
    rows: Vec<u32>,
}

impl NearKeys {
    /// The first row with each key, or `None` where some row has no integer as its key, or the keys
    /// lie far apart.
    pub(crate) fn new(alloc: Global, rows: &NodeRows) -> Result<Option<NearKeys>, Memory>
        requires { length rows.now < 2 ^ 32 }
        ensures { IfOk result (λ made.
            IfSome made (λ index. (v : Val) → near index v ≡ find_key rows.now v)) }
    {
        match NearKeys::empty(alloc, rows)? {
            Some(index) => Ok(index.with_rows(rows)),
            None => Ok(None),
        }
    }

    /// No rows yet, with a place for each of the keys of these rows, or `None` where some row has no
    /// integer as its key, or the keys lie far apart.
    pub(crate) fn empty(alloc: Global, rows: &NodeRows) -> Result<Option<NearKeys>, Memory>
        requires { length rows.now < 2 ^ 32 }
        ensures { IfOk result (λ made. IfSome made (λ index. (v : Val) → near index v ≡ None)) }
    {
        let Some((low, high)) = bounds_of(rows) else {
            return Ok(None);
        };
        let distance = high.abs_diff(low) as usize;
        if distance >= rows.len() * PLACES_PER_ROW {
            return Ok(None);
        }
        let places = vec![in alloc; NO_ROW; distance + 1]?;
        Ok(Some(NearKeys { low, rows: places }))
    }

    // The empty index with these rows, or `None` where some key has no place. From the last row on,
    // so that the first of the rows with one key is the one that stays.
    fn with_rows(mut self, rows: &NodeRows) -> Option<NearKeys>
        requires few { length rows.now < 2 ^ 32 }
        requires empty { (v : Val) → near self v ≡ None }
        ensures { IfSome result (λ index. (v : Val) → near index v ≡ find_key rows.entry.now v) }
    {
        let mut at = rows.len();
        'rows: while at > 0 {
            at -= 1;
            if !self.put(rows.row(at), at as u32) {
                return None;
            }
        }
        Some(self)
    }

    /// Puts a row at its key, or answers false where the key has no place.
    pub(crate) fn put(&mut self, row: &[Option<Cell>], number: u32) -> bool
        requires { number + 1 < 2 ^ 32 }
        ensures { OnTrue result
            ((v : Val) → near self.new v ≡ with_row (key_of row.now) number v (near self.old v)) }
    {
        let Some(place) = int_key(row).and_then(|key| place_of(self.low, key)) else {
            return false;
        };
        if place >= self.rows.len() {
            return false;
        }
        self.rows[place] = number;
        true
    }

    /// The row at a key. No row stands at a key that is no integer.
    pub(crate) fn get(&self, key: &Value<'_>) -> Option<u32>
        ensures { result ≡ near self.now (val key.now) }
    {
        let Value::Int(key) = key else {
            return None;
        };
        match self.rows.get(place_of(self.low, *key)?) {
            Some(&row) if row != NO_ROW => Some(row),
            _ => None,
        }
    }
}

// The place of a number, if it is not below the least.
fn place_of(low: i64, key: i64) -> Option<usize>
    ensures { result ≡ place_of low key }
{
    if key < low {
        None
    } else {
        Some(key.abs_diff(low) as usize)
    }
}

// The least and the greatest key, where each row has an integer as its key.
fn bounds_of(rows: &NodeRows) -> Option<(i64, i64)> {
    let mut bounds = None;
    for row in 0..rows.len() {
        let key = int_key(rows.row(row))?;
        bounds = match bounds {
            Some((low, high)) => Some((key.min(low), key.max(high))),
            None => Some((key, key)),
        };
    }
    bounds
}

fn int_key(row: &[Option<Cell>]) -> Option<i64>
    ensures { IfSome result (λ key. key_of row.now ≡ Some (int key)) }
{
    match row {
        [Some(Cell::Int(key)), ..] => Some(*key),
        _ => None,
    }
}
