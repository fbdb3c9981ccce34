//! The cells of tables: a column of integers for each property, in which a text has its code.
ghost use Rattle.std.specs.Prelude.{◌≡◌, ℕ, List, [], ◌∷◌, ◌++◌, ◌+◌, ◌^◌, ◌<◌, ◌≤◌, true, length};
ghost use Rattle.std.specs.Prelude.{map, All, IfOk, IfSome, None, slice_index_or};
ghost use Rattle.std.specs.List.{list_all};
ghost use Rattle.gq_base.specs.Plain.{cell_val};
ghost use Rattle.gq_base.specs.Valid.{fits_fields, is_of_kind};
ghost use Rattle.gq_base.specs.Values.{val};
ghost use Rattle.gq_dict.specs.Texts.{AreCodes};
ghost use Rattle.gq_store.specs.Columns.{AreCells, IsCellOf, IsDictOf, column_of, decoded};
ghost use Rattle.gq_store.specs.Columns.{texts_in};
ghost use Rattle.gq_store.specs.RelColumns.{cell_numbered};

use gq_base::{Cell, Field, Kind, Memory, NodeRows, RelRows, Value};
use gq_column::{Column, ColumnBuilder};
use gq_dict::{Coded, Dict};
use std::alloc::Global;
use std::marker::Model;

/// The cells of a property, of fewer than 2^32 rows: those of a node table by row, those of a
/// relationship table by place, null at a place that has no relationship. They are of one kind, and
/// stand as a column of integers: an integer as itself, a boolean as 0 or 1, a text as its code in
/// the dictionary of the texts among them, which is empty where the kind is another.
#[derive(Drop)]
pub struct Property {
    kind: Kind,
    column: Column,
    dict: Dict,
}

impl Model for Property {
    ghost use Rattle.gq_store.specs.Columns.{Encoded};

    ghost Value = { Encoded };

    ghost use Rattle.gq_store.specs.Columns.{IsKept};

    ghost view = { λ p. record { kind = p.kind; dict = p.dict; column = p.column } };

    ghost invariant = { λ p. IsKept p.kind p.dict p.column };
}

impl Property {
    /// Keeps cells, which are of the kind. Each distinct text is copied once; nothing stays borrowed.
    pub(crate) fn build(
        alloc: Global,
        kind: Kind,
        cells: &[&Option<Cell>],
    ) -> Result<Property, Memory>
        requires few { length cells.now < 2 ^ 32 }
        requires kinds { All (λ cell. is_of_kind kind cell ≡ true)
            (map (λ cell. cell.now) cells.now) }
        ensures cells { IfOk result (λ property.
            decoded property ≡ map (λ cell. cell.now) cells.now) }
        ensures kind { IfOk result (λ property. property.kind ≡ kind) }
    {
        let Coded { dict, codes } = Coded::build(alloc, texts_of(alloc, kind, cells)?)?;
        let integers = integers_of(alloc, cells, codes.as_slice())?;
        let column = integers.build(alloc)?;
        Ok(Property { kind, column, dict })
    }

    /// The kind of its cells.
    #[inline(always)]
    pub fn kind(&self) -> Kind
        ensures { result ≡ self.now.kind }
    {
        self.kind
    }

    /// How many rows or places it has.
    #[inline(always)]
    pub fn len(&self) -> u32
        ensures { result ≡ length (decoded self.now) }
    {
        self.column.len()
    }

    /// The value of a cell, or null.
    #[inline(always)]
    pub fn value(&self, row: u32) -> Value<'_>
        requires { row < length (decoded self.now) }
        ensures { val result ≡ cell_val (slice_index_or (decoded self.now) row None) }
    {
        match (self.column.get(row), self.kind) {
            (None, _) => Value::Null,
            (Some(value), Kind::Int) => Value::Int(value),
            (Some(value), Kind::Flag) => Value::Flag(value != 0),
            (Some(code), Kind::Str) => Value::Str(self.dict.text(code as u32)),
        }
    }

    /// The cells as integers, in which a text has its code in the dictionary.
    #[inline(always)]
    pub fn column(&self) -> &Column
        ensures is { result.now ≡ self.now.column }
        ensures cells { AreCells self.now.dict (decoded self.now) result.now }
    {
        &self.column
    }

    /// The texts among the cells, each once, ascending by bytes.
    #[inline(always)]
    pub fn dict(&self) -> &Dict
        ensures is { result.now ≡ self.now.dict }
        ensures texts { IsDictOf (decoded self.now) result.now }
    {
        &self.dict
    }
}

/// The cells of a table, a property after the other, and how many rows or relationships it has.
#[derive(Drop)]
pub(crate) struct TableCells {
    pub(crate) rows: u32,
    pub(crate) properties: Vec<Property>,
}

impl TableCells {
    ghost use Rattle.gq_store.specs.steps.Kept.{AreTableCells};

    /// Keeps the cells of a node table, row by row.
    pub(crate) fn of_rows(
        alloc: Global,
        fields: &[Field],
        rows: &NodeRows,
    ) -> Result<TableCells, Memory>
        requires few { length rows.now < 2 ^ 32 }
        requires fit { list_all (fits_fields fields.now) rows.now ≡ true }
        ensures { IfOk result (AreTableCells (length rows.now) fields.now (λ property.
            column_of property rows.now)) }
    {
        let mut properties = Vec::with_capacity(alloc, fields.len())?;
        for (property, field) in fields.iter().enumerate() {
            let cells = cells_of(alloc, rows, property)?;
            properties.push(Property::build(alloc, field.kind, cells.as_slice())?)?;
        }
        Ok(TableCells {
            rows: rows.len() as u32,
            properties,
        })
    }

    /// Keeps the cells of a relationship table, place by place. `numbers` are the load numbers of
    /// the relationships at the places; at a place that has none the cells are null.
    pub(crate) fn of_rels(
        alloc: Global,
        fields: &[Field],
        rels: &RelRows,
        numbers: &[Option<u32>],
    ) -> Result<TableCells, Memory>
        requires few { length rels.now < 2 ^ 32 }
        requires few_places { length numbers.now < 2 ^ 32 }
        requires fit { list_all (λ rel. fits_fields fields.now rel.cells) rels.now ≡ true }
        requires within { All (λ number. IfSome number (λ n. n < length rels.now)) numbers.now }
        ensures { IfOk result (AreTableCells (length rels.now) fields.now (λ property.
            map (λ number. cell_numbered property rels.now number) numbers.now)) }
    {
        let mut properties = Vec::with_capacity(alloc, fields.len())?;
        for (property, field) in fields.iter().enumerate() {
            let absent = None;
            let cells = placed_cells(alloc, rels, numbers, property, &absent)?;
            properties.push(Property::build(alloc, field.kind, cells.as_slice())?)?;
        }
        Ok(TableCells {
            rows: rels.len() as u32,
            properties,
        })
    }
}

// The cells of a property of rows, which are borrowed.
fn cells_of<'a>(
    alloc: Global,
    rows: &'a NodeRows,
    property: usize,
) -> Result<Vec<&'a Option<Cell>>, Memory>
    requires { All (λ row. property < length row) rows.now }
    ensures { IfOk result (λ cells.
        map (λ cell. cell.now) cells.items ≡ column_of property rows.now) }
{
    let mut cells = Vec::with_capacity(alloc, rows.len())?;
    for row in 0..rows.len() {
        cells.push(&rows.row(row)[property])?;
    }
    Ok(cells)
}

// The cells of a property of relationships, place by place, which are borrowed.
fn placed_cells<'a>(
    alloc: Global,
    rels: &'a RelRows,
    numbers: &[Option<u32>],
    property: usize,
    absent: &'a Option<Cell>,
) -> Result<Vec<&'a Option<Cell>>, Memory>
    requires reach { All (λ rel. property < length rel.cells) rels.now }
    requires within { All (λ number. IfSome number (λ n. n < length rels.now)) numbers.now }
    requires absent { absent.now ≡ None }
    ensures { IfOk result (λ cells. map (λ cell. cell.now) cells.items ≡
        map (λ number. cell_numbered property rels.now number) numbers.now) }
{
    let mut cells = Vec::with_capacity(alloc, numbers.len())?;
    for number in numbers {
        cells.push(placed_cell(rels, *number, property, absent))?;
    }
    Ok(cells)
}

// The cell of a property of the relationship with a load number, or `absent` where there is none.
fn placed_cell<'a>(
    rels: &'a RelRows,
    number: Option<u32>,
    property: usize,
    absent: &'a Option<Cell>,
) -> &'a Option<Cell>
    requires reach { All (λ rel. property < length rel.cells) rels.now }
    requires within { IfSome number (λ n. n < length rels.now) }
    requires absent { absent.now ≡ None }
    ensures { result.now ≡ cell_numbered property rels.now number }
{
    match number {
        Some(number) => &rels.rel(number as usize).cells[property],
        None => absent,
    }
}

// The texts among cells of a kind.
fn texts_of<'a>(
    alloc: Global,
    kind: Kind,
    cells: &[&'a Option<Cell>],
) -> Result<Vec<&'a str>, Memory>
    requires { All (λ cell. is_of_kind kind cell ≡ true) (map (λ cell. cell.now) cells.now) }
    ensures value { IfOk result (λ texts.
        map (λ text. text.now) texts.items ≡ texts_in (map (λ cell. cell.now) cells.now)) }
    ensures few { IfOk result (λ texts. length texts.items ≤ length cells.now) }
{
    match kind {
        Kind::Str => texts_among(alloc, cells),
        Kind::Int | Kind::Flag => Ok(Vec::new(alloc)),
    }
}

// The texts among cells.
fn texts_among<'a>(alloc: Global, cells: &[&'a Option<Cell>]) -> Result<Vec<&'a str>, Memory>
    ensures value { IfOk result (λ texts.
        map (λ text. text.now) texts.items ≡ texts_in (map (λ cell. cell.now) cells.now)) }
    ensures few { IfOk result (λ texts. length texts.items ≤ length cells.now) }
{
    let mut texts = Vec::with_capacity(alloc, cells.len())?;
    for cell in cells {
        if let Some(Cell::Str(text)) = *cell {
            texts.push(text.as_str())?;
        }
    }
    Ok(texts)
}

// The integers of cells, where each text takes the next of the codes.
fn integers_of(
    alloc: Global,
    cells: &[&Option<Cell>],
    codes: &[u32],
) -> Result<ColumnBuilder, Memory>
    requires few { length cells.now < 2 ^ 32 }
    requires codes { length codes.now ≡ length (texts_in (map (λ cell. cell.now) cells.now)) }
    ensures { IfOk result (λ integers. (dict : List (List ℕ)) →
        AreCodes dict (texts_in (map (λ cell. cell.now) cells.now)) codes.now →
        AreCells dict (map (λ cell. cell.now) cells.now) integers) }
{
    let mut integers = ColumnBuilder::with_capacity(alloc, cells.len() as u32)?;
    let mut left = codes;
    for cell in cells {
        let (integer, rest) = integer_of(cell, left);
        integers.push(integer)?;
        left = rest;
    }
    Ok(integers)
}

// The integer of a cell, where a text takes the first of the codes, and the codes that are left.
fn integer_of<'c>(cell: &Option<Cell>, codes: &'c [u32]) -> (Option<i64>, &'c [u32])
    requires { length (texts_in (cell.now ∷ [])) ≤ length codes.now }
    ensures left { length (texts_in (cell.now ∷ [])) + length result.1.now ≡ length codes.now }
    ensures is { (dict others : List (List ℕ)) →
        AreCodes dict (texts_in (cell.now ∷ []) ++ others) codes.now →
        IsCellOf dict cell.now result.0 × AreCodes dict others result.1.now }
{
    match cell {
        None => (None, codes),
        Some(Cell::Int(value)) => (Some(*value), codes),
        Some(Cell::Flag(flag)) => (Some(i64::from(*flag)), codes),
        Some(Cell::Str(_)) => match codes {
            [code, others @ ..] => (Some(i64::from(*code)), others),
            [] => unreachable!(),
        },
    }
}
