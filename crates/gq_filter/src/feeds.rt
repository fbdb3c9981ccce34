//! The columns of a graph from which lanes are filled.
ghost use Rattle.std.specs.Prelude.{◌≡◌, ◌<◌, length, IfSome, IfNone, None};
ghost use Rattle.gq_base.specs.Catalogs.{find_field};
ghost use Rattle.gq_store.specs.Cells.{node_fields, rel_fields};
ghost use Rattle.gq_filter.specs.Feeds.{IsNodeFeed, IsRelFeed};

use crate::source::{ColumnId, Feed};
use gq_base::{Text, find_field};
use gq_plan::Variable;
use gq_store::Graph;

/// A property of a node variable of a node table, where the table has it: its cells stand by row.
pub fn node_feed<'g>(
    graph: &'g Graph,
    variable: u32,
    table: u32,
    name: &'g Text,
) -> Option<Feed<'g>>
    requires { table < length graph.now.catalog.nodes }
    ensures some { IfSome result (IsNodeFeed graph.now variable table name.now) }
    ensures none { IfNone result
        (find_field (node_fields graph.now table) name.now ≡ None) }
{
    let fields = graph.catalog().node_table(table).fields.as_slice();
    let place = find_field(fields, name)?;
    let at = place as u32;
    let property = graph.node_property(table, at);
    // For the contract: the texts of its cells are in its dictionary, and their codes in its column.
    let _ = (property.dict().len(), property.column().len());
    Some(Feed {
        variable: Variable::Node(variable),
        name,
        property,
        column: ColumnId {
            of_rels: false,
            table,
            property: at,
        },
    })
}

/// A property of a relationship variable of a relationship table, where the table has it: its cells
/// stand by place.
pub fn rel_feed<'g>(graph: &'g Graph, variable: u32, rel: u32, name: &'g Text) -> Option<Feed<'g>>
    requires { rel < length graph.now.catalog.rels }
    ensures some { IfSome result (IsRelFeed graph.now variable rel name.now) }
    ensures none { IfNone result (find_field (rel_fields graph.now rel) name.now ≡ None) }
{
    let fields = graph.catalog().rel_table(rel).fields.as_slice();
    let place = find_field(fields, name)?;
    let at = place as u32;
    let property = graph.rel_property(rel, at);
    // For the contract: the texts of its cells are in its dictionary, and their codes in its column.
    let _ = (property.dict().len(), property.column().len());
    Some(Feed {
        variable: Variable::Rel(variable),
        name,
        property,
        column: ColumnId {
            of_rels: true,
            table: rel,
            property: at,
        },
    })
}
