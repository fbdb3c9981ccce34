//! What a loaded graph holds: cells, rows of nodes, and relationships with their ends.

ghost use Rattle.std.specs.Prelude.{◌≡◌, Some, option_map};
ghost use Rattle.gq_base.specs.Plain.{cell_val};
ghost use Rattle.gq_base.specs.Valid as valid;
ghost use Rattle.gq_base.specs.Values.{val};

use crate::list::List;
use crate::text::Text;
use crate::value::Value;

/// A property's value that is not null. Null is the absence of a cell.
#[derive(Debug, Drop, PartialEq, Eq)]
pub enum Cell {
    /// An integer of 64 signed bits.
    Int(i64),
    /// A text.
    Str(Text),
    /// A boolean.
    Flag(bool),
}

impl Cell {
    /// The value of the cell, which borrows its text.
    pub fn value(&self) -> Value<'_>
        ensures { val result ≡ cell_val (Some self.now) }
    {
        match self {
            Cell::Int(value) => Value::Int(*value),
            Cell::Str(text) => Value::Str(text.as_str()),
            Cell::Flag(flag) => Value::Flag(*flag),
        }
    }
}

/// The key of a node's row, its first cell, or `None` where that is null or missing.
pub fn key_of(row: &[Option<Cell>]) -> Option<Value<'_>>
    ensures { option_map val result ≡ valid.key_of row.now }
{
    match row {
        [Some(cell), ..] => Some(cell.value()),
        _ => None,
    }
}

/// One optional cell for each field of the table, in the order of its fields.
pub type Row = List<Option<Cell>>;

/// A relationship: the row of its source, the row of its target, and its cells.
#[derive(Debug, Drop)]
pub struct PlainRel {
    pub source: u32,
    pub target: u32,
    pub cells: Row,
}
