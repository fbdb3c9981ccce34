//! The labels of the nodes of a table.
ghost use Rattle.std.specs.Prelude.{◌≡◌, slice_get};
ghost use Rattle.std.specs.List.{list_all};
ghost use Rattle.gq_base.specs.Catalogs.{has_label};

use gq_base::{Catalog, Text};
use gq_store::Graph;

/// Whether the nodes of a table have all of some labels.
pub(crate) fn has_labels(graph: &Graph, labels: &[Text], table: u32) -> bool
    ensures { let found = slice_get graph.now.catalog.nodes table in
        result ≡ list_all (has_label found) labels.now }
{
    let catalog = graph.catalog();
    labels
        .iter()
        .all(|label| is_labelled(catalog, table, label))
}

// Whether there is a node table of this number, which has a label.
#[tactic(auto, using(std::proofs::lemmas::Option::slice_get_past))]
fn is_labelled(catalog: &Catalog, table: u32, label: &Text) -> bool
    ensures { result ≡ has_label (slice_get catalog.now.nodes table) label.now }
{
    if catalog.node_tables() <= table {
        return false;
    }
    catalog.has_label(table, label.as_str())
}
