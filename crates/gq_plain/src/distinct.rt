//! Whether no two items of a table are the same: the names of its fields, the keys of its nodes, or
//! the rows at one end of its relationships. Ordered sets and marks keep it from being quadratic.
ghost use Rattle.std.specs.Prelude.{◌≡◌, ◌==◌, ◌<◌, All, IfOk, map};
ghost use Rattle.gq_base.specs.Lists.{all_distinct};
ghost use Rattle.gq_base.specs.Rels.{rel_seen};
ghost use Rattle.gq_base.specs.Valid.{has_keys, same_name};
ghost use Rattle.gq_plain.specs.steps.Ends.{row_at};

use crate::{Memory, NodeRows, RelRef, RelRows};
use gq_base::{Field, key_of};
use std::alloc::Global;
use std::collections::BTreeSet;

/// One of the two ends of a relationship.
#[derive(Clone, Copy)]
pub(crate) enum End {
    Source,
    Target,
}

/// Whether no two fields have one name.
pub(crate) fn have_distinct_names(alloc: Global, fields: &[Field]) -> Result<bool, Memory>
    ensures { IfOk result (λ answer. answer ≡ all_distinct same_name fields.now) }
{
    let mut names = BTreeSet::new(alloc);
    for field in fields {
        let is_new = names.insert(field.name.as_str())?;
        if !is_new {
            return Ok(false);
        }
    }
    Ok(true)
}

/// Whether each row has a key, and no two rows have the same one.
pub(crate) fn have_keys(alloc: Global, rows: &NodeRows) -> Result<bool, Memory>
    ensures { IfOk result (λ answer. answer ≡ has_keys rows.now) }
{
    let mut keys = BTreeSet::new(alloc);
    for number in 0..rows.len() {
        let Some(key) = key_of(rows.row(number)) else {
            return Ok(false);
        };
        let is_new = keys.insert(key)?;
        if !is_new {
            return Ok(false);
        }
    }
    Ok(true)
}

/// Whether no two relationships have the same row at an end, where there are so many rows. A mark
/// for each row tells it in one pass.
pub(crate) fn have_distinct_rows(
    alloc: Global,
    rels: &RelRows,
    end: End,
    count: usize,
) -> Result<bool, Memory>
    requires { All (λ rel. row_at end rel < count) rels.now }
    ensures { IfOk result (λ answer.
        answer ≡ all_distinct (λ a b. a == b) (map (row_at end) rels.now)) }
{
    let mut marks = vec![in alloc; false; count]?;
    for number in 0..rels.len() {
        let row = row_at(&rels.rel(number), end) as usize;
        if marks[row] {
            return Ok(false);
        }
        marks[row] = true;
    }
    Ok(true)
}

fn row_at(rel: &RelRef<'_>, end: End) -> u32
    ensures { result ≡ row_at end (rel_seen rel.now) }
{
    match end {
        End::Source => rel.source,
        End::Target => rel.target,
    }
}
