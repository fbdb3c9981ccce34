//! The relationships of a relationship table.
ghost use Rattle.std.specs.Prelude.{◌≡◌, ℕ, ◌+◌, ◌<◌, ◌≤◌, ◌^◌, List, [], ◌++◌, length};
ghost use Rattle.std.specs.Prelude.{All, IfErr, IfOk, OnOk};
ghost use Rattle.csv.specs.Records.{fields_of};
ghost use Rattle.gq_tables.specs.Answers.{Answers, Refuses, seen_end};
ghost use Rattle.gq_tables.specs.steps.Batches.{AreMarked, HasEnds, rel_by, rels_by, sources_of};
ghost use Rattle.gq_tables.specs.steps.Batches.{targets_of, texts_of};
ghost use Rattle.gq_tables.specs.Rels.{rel_of, rel_table_of};
ghost use Rattle.gq_tables.specs.Tables.{IsRelTable};
ghost use Rattle.gq_tables.specs.steps.Unread.{IsOpen, records_left};

use crate::batch::{Ends, PendingRel, fill, find_ends, new_batch, read_keys};
use crate::cells::read_cells;
use crate::header::read_head;
use crate::keys::{End, Keys};
use crate::records::open_records;
use crate::refusal::{TableRefusal, TableStop};
use crate::sides::Sides;
use csv::Reader;
use gq_base::{Field, List, Mult, PlainRel, RelRows, Row};
use gq_fields::FileKind;
use std::alloc::Global;

/// The fields and relationships of a relationship table.
#[derive(Debug, Drop)]
pub struct RelTableRows {
    pub fields: List<Field>,
    pub rels: RelRows,
}

// What the records of a relationship table are read by.
#[derive(Clone, Copy)]
struct RelForm<'k, 'g> {
    ends: Ends<'k, 'g>,
    mult: Mult,
    fields: &'k [Field],
    limit: u32,
}

/// The relationship table of a file with these bytes, of at most `limit` relationships, or the
/// first refusal.
///
/// The first record is the header. Each other record gives a relationship, whose ends are the rows
/// of `source` and `target` that have the keys in its first two fields, and whose load number is
/// its place among them, from 0. It takes n log n steps for n bytes and rows.
pub fn read_rels(
    alloc: Global,
    bytes: &[u8],
    source: End<'_>,
    target: End<'_>,
    mult: Mult,
    limit: u32,
) -> Result<RelTableRows, TableStop>
    requires few_bytes { length bytes.now < 2 ^ 32 }
    requires few_sources { length source.rows.now < 2 ^ 32 }
    requires few_targets { length target.rows.now < 2 ^ 32 }
    ensures answers { Answers
        (rel_table_of (seen_end source.entry) (seen_end target.entry) mult limit bytes.now) result }
    ensures few { IfOk result (λ table. length table.rels ≤ limit) }
    ensures valid { IfOk result (IsRelTable (seen_end source.entry) (seen_end target.entry) mult) }
{
    let sources = Keys::new(alloc, source)?;
    let targets = Keys::new(alloc, target)?;
    let ends = Ends {
        sources: &sources,
        targets: &targets,
    };
    read_table(alloc, bytes, ends, mult, limit)
}

/// The relationship table of a file with these bytes, both of whose ends are one node table: what
/// `read_rels` answers, with one index of the keys in place of two.
pub fn read_rels_within(
    alloc: Global,
    bytes: &[u8],
    end: End<'_>,
    mult: Mult,
    limit: u32,
) -> Result<RelTableRows, TableStop>
    requires few_bytes { length bytes.now < 2 ^ 32 }
    requires few_rows { length end.rows.now < 2 ^ 32 }
    ensures answers { Answers (rel_table_of (seen_end end.entry) (seen_end end.entry) mult limit
        bytes.now) result }
    ensures few { IfOk result (λ table. length table.rels ≤ limit) }
    ensures valid { IfOk result (IsRelTable (seen_end end.entry) (seen_end end.entry) mult) }
{
    let keys = Keys::new(alloc, end)?;
    let ends = Ends {
        sources: &keys,
        targets: &keys,
    };
    read_table(alloc, bytes, ends, mult, limit)
}

fn read_table(
    alloc: Global,
    bytes: &[u8],
    ends: Ends<'_, '_>,
    mult: Mult,
    limit: u32,
) -> Result<RelTableRows, TableStop>
    requires few_bytes { length bytes.now < 2 ^ 32 }
    ensures answers { Answers
        (rel_table_of (sources_of ends.entry) (targets_of ends.entry) mult limit bytes.now) result }
    ensures few { IfOk result (λ table. length table.rels ≤ limit) }
    ensures valid { IfOk result (IsRelTable (sources_of ends.entry) (targets_of ends.entry) mult) }
{
    let mut reader = open_records(alloc, bytes);
    let fields = read_head(alloc, &mut reader, FileKind::Rels)?;
    let form = RelForm {
        ends,
        mult,
        fields: fields.as_slice(),
        limit,
    };
    let rels = read_records(alloc, &mut reader, &form)?;
    Ok(RelTableRows { fields, rels })
}

// The relationships of the records that are left.
fn read_records(
    alloc: Global,
    reader: &mut Reader<&[u8]>,
    form: &RelForm<'_, '_>,
) -> Result<RelRows, TableStop>
    requires is_open { IsOpen reader.old }
    requires few_records { length (records_left reader.old) + 1 < 2 ^ 32 }
    requires few_fields { length form.now.fields.now + 2 < 2 ^ 32 }
    ensures answers { Answers (rels_by form.now [] (records_left reader.old)) result }
    ensures few { IfOk result (λ rels. length rels ≤ form.now.limit) }
{
    let ends = form.ends;
    let mut sides = Sides::new(alloc, form.mult, ends.sources.count(), ends.targets.count())?;
    let mut records = new_batch(alloc)?;
    let batch = records.as_mut_slice();
    let mut rels = RelRows::new(alloc);
    let mut more = true;
    while more {
        let count = fill(reader, batch)?;
        more = count == batch.len();
        let read = &mut batch[..count];
        read_keys(read, &ends);
        find_ends(read, &ends);
        take_batch(alloc, form, read, &mut sides, &mut rels)?;
    }
    Ok(rels)
}

// Takes the relationships of these records in their order, or answers the first refusal.
fn take_batch(
    alloc: Global,
    form: &RelForm<'_, '_>,
    batch: &[PendingRel],
    sides: &mut Sides,
    rels: &mut RelRows,
) -> Result<(), TableStop>
    requires found { All (HasEnds (sources_of form.now.ends) (targets_of form.now.ends)) batch.now }
    requires marked { AreMarked form.now rels.old sides.old }
    requires few_rels { length rels.old ≤ form.now.limit }
    requires few_records { length rels.old + length batch.now + 1 < 2 ^ 32 }
    requires few_fields { length form.now.fields.now + 2 < 2 ^ 32 }
    ensures taken { OnOk result ((left : List (List (List ℕ))) →
        rels_by form.now rels.old (texts_of batch.now ++ left)
        ≡ rels_by form.now rels.new left) }
    ensures marked { OnOk result (AreMarked form.now rels.new sides.new) }
    ensures few { OnOk result (length rels.new ≤ form.now.limit) }
    ensures count { OnOk result (length rels.new ≡ length rels.old + length batch.now) }
    ensures refused { IfErr result (λ refusal. (left : List (List (List ℕ))) →
        Refuses (rels_by form.now rels.old (texts_of batch.now ++ left)) refusal) }
{
    let mut room = List::new(alloc);
    for pending in batch {
        let rel = read_rel(alloc, form, rels.len(), pending, room)?;
        if !sides.take(&rel) {
            return Err(TableStop::Refused(TableRefusal::NotSingle {
                number: (rels.len() + 2) as u32,
            }));
        }
        room = rels.take(rel)?;
    }
    Ok(())
}

// The relationship of the record after so many relationships. Its cells are gathered in `room`.
fn read_rel(
    alloc: Global,
    form: &RelForm<'_, '_>,
    count: usize,
    pending: &PendingRel,
    room: Row,
) -> Result<PlainRel, TableStop>
    requires found { HasEnds (sources_of form.now.ends) (targets_of form.now.ends) pending.now }
    requires few_rels { count + 2 < 2 ^ 32 }
    requires few_fields { length form.now.fields.now + 2 < 2 ^ 32 }
    requires empty { room ≡ [] }
    ensures { Answers (rel_by form.now count (fields_of pending.now.texts)) result }
{
    if count >= form.limit as usize {
        return Err(TableStop::Refused(TableRefusal::TooManyRows));
    }
    let number = (count + 2) as u32;
    if pending.texts.len() != form.fields.len() + 2 {
        return Err(TableStop::Refused(TableRefusal::FieldCount { number }));
    }
    rel_of(alloc, number, form, pending, room)
}

fn rel_of(
    alloc: Global,
    number: u32,
    form: &RelForm<'_, '_>,
    pending: &PendingRel,
    room: Row,
) -> Result<PlainRel, TableStop>
    requires found { HasEnds (sources_of form.now.ends) (targets_of form.now.ends) pending.now }
    requires wide { length (fields_of pending.now.texts) ≡ length form.now.fields.now + 2 }
    requires few { length form.now.fields.now + 2 < 2 ^ 32 }
    requires empty { room ≡ [] }
    ensures { Answers (rel_of number (sources_of form.now.ends) (targets_of form.now.ends)
        form.now.fields.now (fields_of pending.now.texts)) result }
{
    let source = pending.source.row(number, 1)?;
    let target = pending.target.row(number, 2)?;
    let cells = room.into_vec();
    let cells = read_cells(alloc, number, 2, form.fields, &pending.texts, cells)?;
    Ok(PlainRel {
        source,
        target,
        cells,
    })
}
