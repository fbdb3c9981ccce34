//! The rows of a node table.
ghost use Rattle.std.specs.Prelude.{◌≡◌, ◌+◌, ◌<◌, ◌≤◌, ◌^◌, [], length, IfOk};
ghost use Rattle.gq_base.specs.Results.{and_then};
ghost use Rattle.csv.specs.Records.{fields_of};
ghost use Rattle.gq_tables.specs.Answers.{Answers};
ghost use Rattle.gq_tables.specs.Nodes.{node_of, node_table_of, read_key, read_node, take_nodes};
ghost use Rattle.gq_tables.specs.steps.Passes.{add_nodes, ending};
ghost use Rattle.gq_tables.specs.Tables.{IsNodeTable};
ghost use Rattle.gq_tables.specs.steps.Unread.{IsOpen, records_left};

use crate::cells::{read_cell, read_cells};
use crate::header::read_head;
use crate::records::{open_records, read_next};
use crate::refusal::{TableRefusal, TableStop};
use crate::repeats::with_distinct_keys;
use csv::{ByteRecord, Reader};
use gq_base::{Cell, Field, Kind, List, Memory, NodeRows, Row};
use gq_fields::FileKind;
use std::alloc::Global;

/// The fields and rows of a node table.
#[derive(Debug, Drop)]
pub struct NodeTableRows {
    pub fields: List<Field>,
    pub rows: NodeRows,
}

// The rows before the first refusal that does not ask for earlier keys, and that refusal.
#[derive(Drop)]
struct ReadRows {
    rows: NodeRows,
    stop: Option<TableRefusal>,
}

/// The node table of a file with these bytes, of at most `limit` rows, or the first refusal.
///
/// The first record is the header, whose first field is the key. Each other record gives a row,
/// whose key is not null and stands in no earlier row. It takes n log n steps for n bytes.
pub fn read_nodes(alloc: Global, bytes: &[u8], limit: u32) -> Result<NodeTableRows, TableStop>
    requires { length bytes.now < 2 ^ 32 }
    ensures answers { Answers (node_table_of limit bytes.now) result }
    ensures few { IfOk result (λ table. length table.rows ≤ limit) }
    ensures valid { IfOk result IsNodeTable }
{
    let mut reader = open_records(alloc, bytes);
    let fields = read_head(alloc, &mut reader, FileKind::Nodes)?;
    let read = read_rows(alloc, &mut reader, fields.as_slice(), limit)?;
    let rows = with_distinct_keys(alloc, read.rows)?;
    match read.stop {
        Some(refusal) => Err(TableStop::Refused(refusal)),
        None => Ok(NodeTableRows { fields, rows }),
    }
}

// The rows of the records that are left, whatever their keys. A map of the keys cannot stand beside
// rows that grow.
fn read_rows(
    alloc: Global,
    reader: &mut Reader<&[u8]>,
    fields: &[Field],
    limit: u32,
) -> Result<ReadRows, Memory>
    requires is_open { IsOpen reader.old }
    requires few_records { length (records_left reader.old) + 1 < 2 ^ 32 }
    requires few_fields { length fields.now < 2 ^ 32 }
    ensures reads { IfOk result (λ read.
        take_nodes limit (length fields.now) fields.now 2 [] (records_left reader.old)
        ≡ and_then (add_nodes 2 [] read.rows) (ending read.stop)) }
    ensures few { IfOk result (λ read. length read.rows ≤ limit) }
    ensures short { IfOk result (λ read. length read.rows ≤ length (records_left reader.old)) }
{
    let mut texts = ByteRecord::new(alloc);
    let mut rows = NodeRows::new(alloc);
    let mut room = List::new(alloc);
    while read_next(reader, &mut texts)? {
        match read_node(alloc, fields, limit, rows.len(), &texts, room) {
            Ok(row) => room = rows.take(row)?,
            Err(TableStop::Memory) => return Err(Memory::Exhausted),
            Err(TableStop::Refused(refusal)) => {
                return Ok(ReadRows {
                    rows,
                    stop: Some(refusal),
                });
            }
        }
    }
    Ok(ReadRows { rows, stop: None })
}

// The row of the record after so many rows. Its cells are gathered in `room`.
fn read_node(
    alloc: Global,
    fields: &[Field],
    limit: u32,
    count: usize,
    texts: &ByteRecord,
    room: Row,
) -> Result<Row, TableStop>
    requires few_rows { count + 2 < 2 ^ 32 }
    requires few_fields { length fields.now < 2 ^ 32 }
    requires empty { room ≡ [] }
    ensures { Answers (read_node limit (length fields.now) fields.now (count + 2) count
        (fields_of texts.now)) result }
{
    if count >= limit as usize {
        return Err(TableStop::Refused(TableRefusal::TooManyRows));
    }
    let number = (count + 2) as u32;
    if texts.len() != fields.len() {
        return Err(TableStop::Refused(TableRefusal::FieldCount { number }));
    }
    node_of(alloc, number, fields, texts, room)
}

fn node_of(
    alloc: Global,
    number: u32,
    fields: &[Field],
    texts: &ByteRecord,
    room: Row,
) -> Result<Row, TableStop>
    requires wide { length (fields_of texts.now) ≡ length fields.now }
    requires few { length fields.now < 2 ^ 32 }
    requires empty { room ≡ [] }
    ensures { Answers (node_of number fields.now (fields_of texts.now)) result }
{
    let [key, others @ ..] = fields else {
        return Err(TableStop::Refused(TableRefusal::FieldCount { number }));
    };
    let Some(text) = texts.get(0) else {
        return Err(TableStop::Refused(TableRefusal::FieldCount { number }));
    };
    let cell = read_key(alloc, number, key.kind, text)?;
    let mut cells = room.into_vec();
    cells.push(Some(cell))?;
    read_cells(alloc, number, 1, others, texts, cells)
}

fn read_key(alloc: Global, number: u32, kind: Kind, text: &[u8]) -> Result<Cell, TableStop>
    ensures { Answers (read_key number kind text.now) result }
{
    match read_cell(alloc, number, 1, kind, text)? {
        Some(cell) => Ok(cell),
        None => Err(TableStop::Refused(TableRefusal::NullKey { number })),
    }
}
