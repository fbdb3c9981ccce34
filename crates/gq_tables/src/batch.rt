//! Records of relationships that are read together, and their ends, which are looked up together.
ghost use Rattle.std.specs.Prelude.{◌≡◌, ℕ, ◌<◌, ◌≤◌, ◌++◌, All, IfOk, List, Some, length, take};
ghost use Rattle.std.specs.Prelude.{vec_len};
ghost use Rattle.csv.specs.Records.{field_at, fields_of};
ghost use Rattle.gq_tables.specs.Answers.{seen_end};
ghost use Rattle.gq_base.specs.Values.{val};
ghost use Rattle.gq_tables.specs.steps.Batches.{HasEnds, HasKeys, IsEnd, IsSpelled, row_meant};
ghost use Rattle.gq_tables.specs.steps.Batches.{spelled, texts_of};
ghost use Rattle.gq_tables.specs.steps.Unread.{IsOpen, records_left};

use crate::cells::value_of;
use crate::keys::Keys;
use crate::records::read_next;
use crate::refusal::TableRefusal;
use csv::{ByteRecord, Reader};
use gq_base::{Kind, Memory, Value};
use std::alloc::Global;

/// So many records are read before their ends are looked up. A look-up in an index that fits no
/// cache waits for memory, and those of several records wait at once where nothing else stands
/// between them. More records than these would themselves leave the nearest cache before their
/// turn.
pub(crate) const BATCH: usize = 32;

/// The keys at both ends of a relationship table. They are one index where both ends are one node
/// table.
#[derive(Clone, Copy)]
pub(crate) struct Ends<'k, 'g> {
    pub(crate) sources: &'k Keys<'g>,
    pub(crate) targets: &'k Keys<'g>,
}

/// What the text of an end gives.
#[derive(Clone, Copy)]
pub(crate) enum FoundEnd {
    /// It spells no value of the kind of the keys.
    Bad,
    /// No row has the key that it spells.
    Missing,
    /// The row that has the key.
    Row(u32),
}

/// A record that was read, and what the texts of its ends give.
#[derive(Drop)]
pub(crate) struct PendingRel {
    pub(crate) texts: ByteRecord,
    // The keys that the texts of its ends spell, where they are integers.
    source_key: Option<i64>,
    target_key: Option<i64>,
    pub(crate) source: FoundEnd,
    pub(crate) target: FoundEnd,
}

/// Records to read into, again and again.
pub(crate) fn new_batch(alloc: Global) -> Result<Vec<PendingRel>, Memory>
    ensures { IfOk result (λ batch. vec_len batch ≡ BATCH) }
{
    let mut batch = Vec::with_capacity(alloc, BATCH)?;
    for _place in 0..BATCH {
        batch.push(PendingRel {
            texts: ByteRecord::new(alloc),
            source_key: None,
            target_key: None,
            source: FoundEnd::Missing,
            target: FoundEnd::Missing,
        })?;
    }
    Ok(batch)
}

/// Reads records until the batch is full or none is left, and answers how many there were.
pub(crate) fn fill(reader: &mut Reader<&[u8]>, batch: &mut [PendingRel]) -> Result<usize, Memory>
    requires { IsOpen reader.old }
    ensures within { IfOk result (λ count. count ≤ length batch.new) }
    ensures is_open { IfOk result (λ count. count ≡ length batch.new → IsOpen reader.new) }
    ensures full { IfOk result (λ count. count ≡ length batch.new →
        records_left reader.old ≡ texts_of batch.new ++ records_left reader.new) }
    ensures last { IfOk result (λ count. count < length batch.new →
        records_left reader.old ≡ texts_of (take count batch.new)) }
{
    for (count, pending) in batch.iter_mut().enumerate() {
        if !read_next(reader, &mut pending.texts)? {
            return Ok(count);
        }
    }
    Ok(batch.len())
}

/// Reads the keys of the ends of each of these records, where they are integers.
pub(crate) fn read_keys(batch: &mut [PendingRel], ends: &Ends<'_, '_>)
    ensures texts { texts_of batch.new ≡ texts_of batch.old }
    ensures keys { All
        (HasKeys ends.now.sources.now.end.kind ends.now.targets.now.end.kind) batch.new }
{
    for pending in batch.iter_mut() {
        pending.source_key = key_at(ends.sources.end.kind, &pending.texts, 0);
        pending.target_key = key_at(ends.targets.end.kind, &pending.texts, 1);
    }
}

// The key that the text at this place of a record spells, where it is an integer.
fn key_at(kind: Kind, texts: &ByteRecord, place: usize) -> Option<i64>
    ensures { (text : List ℕ) → field_at (fields_of texts.now) place ≡ Some text
        → IsSpelled kind text result }
{
    if kind != Kind::Int {
        return None;
    }
    match value_of(kind, texts.get(place)?) {
        Some(Value::Int(key)) => Some(key),
        _ => None,
    }
}

/// Looks up the ends of each of these records, whose integer keys were read, and does nothing else
/// between two look-ups: the processor then sees several ahead. It takes no memory.
pub(crate) fn find_ends(batch: &mut [PendingRel], ends: &Ends<'_, '_>)
    requires keys { All
        (HasKeys ends.now.sources.now.end.kind ends.now.targets.now.end.kind) batch.old }
    ensures texts { texts_of batch.new ≡ texts_of batch.old }
    ensures found { All (HasEnds (seen_end ends.now.sources.now.end)
        (seen_end ends.now.targets.now.end)) batch.new }
{
    for pending in batch.iter_mut() {
        pending.source = end_by(ends.sources, pending.source_key, &pending.texts, 0);
        pending.target = end_by(ends.targets, pending.target_key, &pending.texts, 1);
    }
}

// The end at this place of a record, by its key where that was read.
fn end_by(keys: &Keys<'_>, key: Option<i64>, texts: &ByteRecord, place: usize) -> FoundEnd
    requires { (text : List ℕ) → field_at (fields_of texts.now) place ≡ Some text
        → IsSpelled keys.now.end.kind text key }
    ensures { (text : List ℕ) → field_at (fields_of texts.now) place ≡ Some text
        → IsEnd (seen_end keys.now.end) text result }
{
    match key {
        Some(key) => end_of(keys, &Value::Int(key)),
        None => end_at(keys, texts, place),
    }
}

// The end at this place of a record. A record without a text there has no end, and is refused
// before it is asked for.
fn end_at(keys: &Keys<'_>, texts: &ByteRecord, place: usize) -> FoundEnd
    ensures { (text : List ℕ) → field_at (fields_of texts.now) place ≡ Some text
        → IsEnd (seen_end keys.now.end) text result }
{
    match texts.get(place) {
        Some(text) => find_end(keys, text),
        None => FoundEnd::Bad,
    }
}

// The end whose key this text spells.
fn find_end(keys: &Keys<'_>, text: &[u8]) -> FoundEnd
    ensures { IsEnd (seen_end keys.now.end) text.now result }
{
    let Some(key) = value_of(keys.end.kind, text) else {
        return FoundEnd::Bad;
    };
    end_of(keys, &key)
}

// The end that a text gives which spells this key.
fn end_of(keys: &Keys<'_>, key: &Value<'_>) -> FoundEnd
    ensures { (text : List ℕ) → spelled keys.now.end.kind text ≡ Some (val key.now)
        → IsEnd (seen_end keys.now.end) text result }
{
    match keys.find(key) {
        Some(row) => FoundEnd::Row(row),
        None => FoundEnd::Missing,
    }
}

impl FoundEnd {
    /// The row of this end in this column of the record of this number.
    pub(crate) fn row(self, number: u32, column: u32) -> Result<u32, TableRefusal>
        ensures { result ≡ row_meant number column self }
    {
        match self {
            FoundEnd::Bad => Err(TableRefusal::BadField { number, column }),
            FoundEnd::Missing => Err(TableRefusal::NoSuchNode { number, column }),
            FoundEnd::Row(row) => Ok(row),
        }
    }
}
