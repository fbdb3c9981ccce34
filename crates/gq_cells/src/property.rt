//! The sources of properties, as a graph has them.
ghost use Rattle.std.specs.Prelude.{◌≡◌, ◌<◌, length};
ghost use Rattle.gq_cells.specs.Properties.{IsNodeProperty, IsRelProperty};
ghost use Rattle.gq_store.specs.Cells.{node_fields, rel_fields};
ghost use Rattle.gq_store.specs.RelColumns.{place_count};

use crate::source::Source;
use gq_store::Graph;

/// The source of a property of a node table, by the property's place in its table. Its numbers are
/// rows.
pub fn node_property(graph: &Graph, table: u32, property: u32) -> Source<'_>
    requires within { table < length graph.now.catalog.nodes }
    requires property { property < length (node_fields graph.now table) }
    ensures { IsNodeProperty graph.now table property result }
{
    Source::Property(graph.node_property(table, property))
}

/// The source of a property of a relationship table, by the property's place in its table. Its
/// numbers are places.
pub fn rel_property(graph: &Graph, table: u32, property: u32) -> Source<'_>
    requires within { table < length graph.now.catalog.rels }
    requires property { property < length (rel_fields graph.now table) }
    ensures { IsRelProperty graph.now table property result }
{
    Source::Property(graph.rel_property(table, property))
}

/// How many places a relationship table has that has a property.
pub fn rel_places(graph: &Graph, table: u32, property: u32) -> u32
    requires within { table < length graph.now.catalog.rels }
    requires property { property < length (rel_fields graph.now table) }
    ensures { result ≡ place_count graph.now table }
{
    graph.rel_property(table, property).len()
}
