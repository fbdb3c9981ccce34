//! The properties of nodes and relationships of a plain graph.
ghost use Rattle.std.specs.Prelude.{◌≡◌};
ghost use Rattle.gq_base.specs.Plain.{cell_val, property_of};
ghost use Rattle.gq_base.specs.Values.{val};
ghost use Rattle.gq_expr.specs.Reading as reading;

use gq_base::{Cell, Field, NodeId, RelId, Text, Value, find_field};
use gq_plain::PlainGraph;

/// A property of a node, null where it is missing.
pub(crate) fn node_property<'g>(graph: &'g PlainGraph, node: NodeId, name: &Text) -> Value<'g>
    ensures { val result ≡ reading.node_property graph.now node name.now }
{
    let catalog = graph.catalog();
    if node.table >= catalog.node_tables() {
        return Value::Null;
    }
    let rows = graph.node_rows(node.table);
    if node.row as usize >= rows.len() {
        return Value::Null;
    }
    let fields = catalog.node_table(node.table).fields.as_slice();
    property_of(fields, name, rows.row(node.row as usize))
}

/// A property of a relationship, null where it is missing.
pub(crate) fn rel_property<'g>(graph: &'g PlainGraph, rel: RelId, name: &Text) -> Value<'g>
    ensures { val result ≡ reading.rel_property graph.now rel name.now }
{
    let catalog = graph.catalog();
    if rel.table >= catalog.rel_tables() {
        return Value::Null;
    }
    let rels = graph.rel_rows(rel.table);
    if rel.row as usize >= rels.len() {
        return Value::Null;
    }
    let fields = catalog.rel_table(rel.table).fields.as_slice();
    property_of(fields, name, rels.rel(rel.row as usize).cells)
}

// The property of a row whose cells are of these fields.
fn property_of<'g>(fields: &[Field], name: &Text, row: &'g [Option<Cell>]) -> Value<'g>
    ensures { val result ≡ cell_val (property_of fields.now name.now row.now) }
{
    let Some(place) = find_field(fields, name) else {
        return Value::Null;
    };
    match row.get(place) {
        None => Value::Null,
        Some(cell) => cell_value(cell),
    }
}

// The value of an optional cell: null where there is none.
fn cell_value(cell: &Option<Cell>) -> Value<'_>
    ensures { val result ≡ cell_val cell.now }
{
    match cell {
        Some(cell) => cell.value(),
        None => Value::Null,
    }
}
