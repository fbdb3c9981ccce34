//! The cells that the fields of a record give.
ghost use Rattle.std.specs.Prelude.{◌≡◌, ◌+◌, ◌<◌, ◌^◌, ◌++◌, length, drop, option_map, IfOk, Ok};
ghost use Rattle.gq_base.specs.Results.{and_then};
ghost use Rattle.csv.specs.Records.{fields_of};
ghost use Rattle.gq_base.specs.Plain.{cell_val};
ghost use Rattle.gq_base.specs.Values.{val};
ghost use Rattle.gq_fields.specs.Fields.{cell_of};
ghost use Rattle.gq_tables.specs.Answers.{Answers};
ghost use Rattle.gq_tables.specs.Cells.{read_cell, read_cells};

use crate::refusal::{TableRefusal, TableStop};
use csv::ByteRecord;
use gq_base::{Cell, Field, Kind, List, Memory, Row, Text, Value};
use gq_fields::{read_flag, read_int, read_text};
use std::alloc::Global;

/// The cells of these fields, behind cells that the record gave before. The first of the fields
/// stands behind `before` others.
pub(crate) fn read_cells(
    alloc: Global,
    number: u32,
    before: usize,
    fields: &[Field],
    texts: &ByteRecord,
    cells: Vec<Option<Cell>>,
) -> Result<Row, TableStop>
    requires wide { length (fields_of texts.now) ≡ before + length fields.now }
    requires few { before + length fields.now < 2 ^ 32 }
    ensures { Answers (and_then
        (read_cells number (before + 1) fields.now (drop before (fields_of texts.now)))
        (λ more. Ok (cells.items ++ more))) result }
{
    let mut cells = cells;
    for (place, field) in fields.iter().enumerate() {
        let at = before + place;
        let Some(text) = texts.get(at) else {
            return Err(TableStop::Refused(TableRefusal::FieldCount { number }));
        };
        let column = (at + 1) as u32;
        cells.push(read_cell(alloc, number, column, field.kind, text)?)?;
    }
    Ok(List::from_vec(cells))
}

/// The cell of the field in this column: the field is empty, or of its kind.
pub(crate) fn read_cell(
    alloc: Global,
    number: u32,
    column: u32,
    kind: Kind,
    text: &[u8],
) -> Result<Option<Cell>, TableStop>
    ensures { Answers (read_cell number column kind text.now) result }
{
    match cell_of(alloc, kind, text)? {
        Some(cell) => Ok(cell),
        None => Err(TableStop::Refused(TableRefusal::BadField { number, column })),
    }
}

/// The value of the cell that a text spells, where it spells one of this kind. It borrows the text,
/// so that a key which is only looked up takes no memory.
pub(crate) fn value_of(kind: Kind, text: &[u8]) -> Option<Value<'_>>
    ensures { option_map val result ≡ option_map cell_val (cell_of kind text.now) }
{
    if text.is_empty() {
        return Some(Value::Null);
    }
    match kind {
        Kind::Int => Some(Value::Int(read_int(text).ok()?)),
        Kind::Str => Some(Value::Str(read_text(text).ok()?)),
        Kind::Flag => Some(Value::Flag(read_flag(text).ok()?)),
    }
}

// The cell that a text spells, where it spells one of this kind.
fn cell_of(alloc: Global, kind: Kind, text: &[u8]) -> Result<Option<Option<Cell>>, Memory>
    ensures { IfOk result (λ cell. cell ≡ cell_of kind text.now) }
{
    if text.is_empty() {
        return Ok(Some(None));
    }
    let cell = match kind {
        Kind::Int => match read_int(text) {
            Ok(value) => Cell::Int(value),
            Err(_) => return Ok(None),
        },
        Kind::Str => match read_text(text) {
            Ok(value) => Cell::Str(Text::new(alloc, value)?),
            Err(_) => return Ok(None),
        },
        Kind::Flag => match read_flag(text) {
            Ok(value) => Cell::Flag(value),
            Err(_) => return Ok(None),
        },
    };
    Ok(Some(Some(cell)))
}
