//! The cells that lanes have in one row of variables, read where they stand.
ghost use Rattle.std.specs.Prelude.{◌≡◌, ◌<◌, length};
ghost use Rattle.gq_base.specs.Plain.{cell_val};
ghost use Rattle.gq_base.specs.Values.{val};
ghost use Rattle.gq_column.specs.Cells.{cell_at};
ghost use Rattle.gq_filter.specs.steps.RowCells.{AreInside, number_of};
ghost use Rattle.gq_store.specs.Cells.{rel_cell, rel_fields};

use crate::cells::Cells;
use crate::source::{ColumnId, Feed};
use gq_base::Value;
use gq_column::Column;
use gq_plan::{Assignment, Variable};
use gq_store::Graph;

/// The lanes of variables' properties, in one row. Those of relationships are integers and
/// booleans.
#[derive(Clone, Copy)]
pub(crate) struct RowCells<'r> {
    pub(crate) graph: &'r Graph,
    pub(crate) feeds: &'r [Feed<'r>],
    pub(crate) row: &'r Assignment,
    ghost inside: { AreInside graph.now feeds.now },
}

impl Cells for RowCells<'_> {
    ghost use Rattle.gq_filter.specs.steps.RowCells.{cells_of};

    ghost cell = { λ c lane. cells_of c.graph.now c.feeds.now c.row.now lane };

    fn cell(&self, lane: u32) -> Option<i64> {
        let feed = self.feeds.get(lane as usize)?;
        match feed.variable {
            Variable::Node(variable) => {
                let row = *self.row.nodes.get(variable as usize)?;
                cell_at(feed.property.column(), row)
            }
            Variable::Rel(variable) => {
                let number = *self.row.rels.get(variable as usize)?;
                rel_lane(self.graph, feed.column, number)
            }
        }
    }
}

/// The cell of a row; past the end of the column it is null.
#[tactic(auto, using(std::proofs::lemmas::List::get_or_past))]
pub(crate) fn cell_at(column: &Column, row: u32) -> Option<i64>
    ensures { result ≡ cell_at column.now row }
{
    if row < column.len() {
        column.get(row)
    } else {
        None
    }
}

/// The cell of a property of the relationship with a load number, where it is an integer or a
/// boolean.
pub(crate) fn rel_lane(graph: &Graph, column: ColumnId, number: u32) -> Option<i64>
    requires table { column.table < length graph.now.catalog.rels }
    requires property { column.property < length (rel_fields graph.now column.table) }
    ensures { result ≡ number_of
        (cell_val (rel_cell graph.now column.table column.property number)) }
{
    if number < graph.rel_count(column.table) {
        number_of(graph.rel_value(column.table, column.property, number))
    } else {
        None
    }
}

fn number_of(value: Value<'_>) -> Option<i64>
    ensures { result ≡ number_of (val value.entry) }
{
    match value {
        Value::Int(number) => Some(number),
        Value::Flag(true) => Some(1),
        Value::Flag(false) => Some(0),
        Value::Null => None,
        Value::Str(_) => None,
        Value::Node(_) => None,
        Value::Rel(_) => None,
    }
}
