//! What a stored graph tells of its nodes and relationships.
ghost use Rattle.std.specs.Prelude.{◌≡◌};
ghost use Rattle.gq_base.specs.Values.{val};
ghost use Rattle.gq_expr.specs.Reading as reading;
ghost use Rattle.gq_eval.specs.steps.Places.{node_places, rel_places};

use crate::places::{node_place, rel_place};
use gq_base::{NodeId, RelId, Text, Value};
use gq_store::Graph;

/// A property of a node, of the places of its name; null where it is missing.
#[inline(always)]
pub(crate) fn node_property<'g>(
    graph: &'g Graph,
    node: NodeId,
    name: &Text,
    places: &[u8],
) -> Value<'g>
    requires { places.now ≡ node_places graph.now.catalog name.now }
    ensures { val result ≡ reading.node_property graph.now node name.now }
{
    let catalog = graph.catalog();
    if node.table >= catalog.node_tables() || node.row >= graph.node_count(node.table) {
        return Value::Null;
    }
    match node_place(graph, node.table, name, places) {
        Some(place) => graph.node_value(node.table, place, node.row),
        None => Value::Null,
    }
}

/// A property of a relationship, of the places of its name; null where it is missing.
#[inline(always)]
pub(crate) fn rel_property<'g>(
    graph: &'g Graph,
    rel: RelId,
    name: &Text,
    places: &[u8],
) -> Value<'g>
    requires { places.now ≡ rel_places graph.now.catalog name.now }
    ensures { val result ≡ reading.rel_property graph.now rel name.now }
{
    let catalog = graph.catalog();
    if rel.table >= catalog.rel_tables() || rel.row >= graph.rel_count(rel.table) {
        return Value::Null;
    }
    match rel_place(graph, rel.table, name, places) {
        Some(place) => graph.rel_value(rel.table, place, rel.row),
        None => Value::Null,
    }
}

/// The name of a relationship's type, null where the graph has no such table.
pub(crate) fn type_name(graph: &Graph, rel: RelId) -> Value<'_>
    ensures { val result ≡ reading.type_name graph.now rel }
{
    let catalog = graph.catalog();
    if rel.table < catalog.rel_tables() {
        Value::Str(catalog.rel_table(rel.table).name.as_str())
    } else {
        Value::Null
    }
}
