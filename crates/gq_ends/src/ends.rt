//! The nodes at which a trail may end.
ghost use Rattle.std.specs.Prelude.{◌≡◌, ◌<◌, IfOk, IfSome, length, true};
ghost use Rattle.gq_ends.specs.Ends.{AreEnds};
ghost use Rattle.gq_ends.specs.steps.Adding.{HasTable};

use crate::end_test::{none_fits, tests_in};
use crate::labels::has_labels;
use crate::rows::add_rows;
use gq_base::{Memory, NodeId};
use gq_plan::TrailPart;
use gq_store::Graph;
use std::alloc::Global;

/// Nodes among which are all that have the labels and pass the tests of a trail's other end: those
/// of the tables with the labels and with the properties that are compared, which pass the tests that
/// columns decide. There are none where these are more than 8,192.
pub fn end_nodes(
    alloc: Global,
    graph: &Graph,
    part: &TrailPart,
) -> Result<Option<Vec<NodeId>>, Memory>
    ensures { IfOk result (λ found.
        IfSome found (λ ends. AreEnds graph.now part.now ends.items)) }
{
    let mut ends = Vec::new(alloc);
    'tables: for table in 0..graph.catalog().node_tables() {
        if !add_labelled(alloc, graph, part, table, &mut ends)? {
            return Ok(None);
        }
    }
    Ok(Some(ends))
}

// Adds the nodes of a table that may be ends, and answers whether all are few enough.
#[tactic(auto, unfolding(gq_law_trails::specs::Trails::fits_end))]
fn add_labelled(
    alloc: Global,
    graph: &Graph,
    part: &TrailPart,
    table: u32,
    ends: &mut Vec<NodeId>,
) -> Result<bool, Memory>
    requires { table < length graph.now.catalog.nodes }
    ensures { IfOk result (λ few. few ≡ true →
        HasTable graph.now part.now table ends.old.items ends.new.items) }
{
    if !has_labels(graph, part.labels.as_slice(), table) {
        return Ok(true);
    }
    if none_fits(graph, part, table) {
        return Ok(true);
    }
    add_tested(alloc, graph, part, table, ends)
}

// The same where the table has the labels.
fn add_tested(
    alloc: Global,
    graph: &Graph,
    part: &TrailPart,
    table: u32,
    ends: &mut Vec<NodeId>,
) -> Result<bool, Memory>
    requires { table < length graph.now.catalog.nodes }
    ensures { IfOk result (λ few. few ≡ true →
        HasTable graph.now part.now table ends.old.items ends.new.items) }
{
    let tests = tests_in(alloc, graph, part, table)?;
    let count = graph.node_count(table);
    add_rows(ends, tests.as_slice(), table, count)
}
