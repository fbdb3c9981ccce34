//! Keys that stand in two rows.
ghost use Rattle.std.specs.Prelude.{◌≡◌, ℕ, ◌+◌, ◌<◌, ◌≤◌, ◌^◌, [], length, IfOk, IfSome, Ok};
ghost use Rattle.std.specs.Prelude.{None, Some};
ghost use Rattle.gq_base.specs.Valid.{key_of};
ghost use Rattle.gq_base.specs.Values.{Val};
ghost use Rattle.gq_tables.specs.Answers.{Answers};
ghost use Rattle.gq_tables.specs.steps.KeyMaps.{stands};
ghost use Rattle.gq_tables.specs.steps.NearKeys.{near};
ghost use Rattle.gq_tables.specs.steps.Passes.{add_nodes, up_to_repeat};

use crate::key_index::KeyIndex;
use crate::keys::put_row;
use crate::near_keys::NearKeys;
use crate::refusal::{TableRefusal, TableStop};
use gq_base::{Cell, Memory, NodeRows, key_of};
use std::alloc::Global;

/// These rows, where no key stands in two of them. The first is that of record 2.
pub(crate) fn with_distinct_keys(alloc: Global, rows: NodeRows) -> Result<NodeRows, TableStop>
    requires { length rows + 2 ≤ 2 ^ 32 }
    ensures answers { Answers (add_nodes 2 [] rows) result }
    ensures same { IfOk result (λ kept. kept ≡ rows) }
{
    match first_repeat(alloc, &rows)? {
        Some(at) => Err(TableStop::Refused(TableRefusal::KeyRepeated {
            number: (at + 2) as u32,
        })),
        None => Ok(rows),
    }
}

// The first row whose key stands in an earlier one.
fn first_repeat(alloc: Global, rows: &NodeRows) -> Result<Option<usize>, Memory>
    requires { length rows.now < 2 ^ 32 }
    ensures value { IfOk result (λ at. add_nodes 2 [] rows.now ≡ up_to_repeat at rows.now) }
    ensures within { IfOk result (λ at. IfSome at (λ place. place < length rows.now)) }
{
    let Some(index) = NearKeys::empty(alloc, rows)? else {
        return repeat_in_slots(alloc, rows);
    };
    match near_repeat(index, rows) {
        NearRepeat::Unplaced => repeat_in_slots(alloc, rows),
        NearRepeat::Nowhere => Ok(None),
        NearRepeat::At(at) => Ok(Some(at)),
    }
}

// Where the places of integer keys show a key in an earlier row.
#[derive(Clone, Copy)]
enum NearRepeat {
    /// Some key has no place.
    Unplaced,
    /// No key stands in two rows.
    Nowhere,
    /// At the first row whose key stands in an earlier one.
    At(usize),
}

fn near_repeat(mut index: NearKeys, rows: &NodeRows) -> NearRepeat
    requires few { length rows.now < 2 ^ 32 }
    requires empty { (v : Val) → near index v ≡ None }
    ensures nowhere { result ≡ NearRepeat.Nowhere → add_nodes 2 [] rows.now ≡ Ok rows.now }
    ensures at { (at : ℕ) → result ≡ NearRepeat.At at → (at < length rows.now)
        × (add_nodes 2 [] rows.now ≡ up_to_repeat (Some at) rows.now) }
{
    for at in 0..rows.len() {
        let row = rows.row(at);
        if has_row(&index, row) {
            return NearRepeat::At(at);
        }
        if !index.put(row, at as u32) {
            return NearRepeat::Unplaced;
        }
    }
    NearRepeat::Nowhere
}

// Whether a row stands at the key of this one, if it has a key.
fn has_row(index: &NearKeys, row: &[Option<Cell>]) -> bool
    ensures { result ≡ stands (near index.now) (key_of row.now) }
{
    match key_of(row) {
        Some(key) => index.get(&key).is_some(),
        None => false,
    }
}

fn repeat_in_slots(alloc: Global, rows: &NodeRows) -> Result<Option<usize>, Memory>
    requires { length rows.now < 2 ^ 32 }
    ensures value { IfOk result (λ at. add_nodes 2 [] rows.now ≡ up_to_repeat at rows.now) }
    ensures within { IfOk result (λ at. IfSome at (λ place. place < length rows.now)) }
{
    let mut index = KeyIndex::new(alloc, rows.len())?;
    for at in 0..rows.len() {
        if put_row(&mut index, rows.row(at), at as u32)? {
            return Ok(Some(at));
        }
    }
    Ok(None)
}
