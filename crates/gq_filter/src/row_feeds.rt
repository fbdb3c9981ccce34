//! The columns of the properties that a condition reads.
ghost use Rattle.std.specs.Prelude.{IfOk};
ghost use Rattle.gq_filter.specs.steps.RowCells.{AreFeedsIn};

use crate::feeds::{node_feed, rel_feed};
use crate::source::Feed;
use gq_base::{Kind, Memory, Text};
use gq_plan::{BoundExpr, Read, Typed, Variable};
use gq_store::Graph;

/// Adds the feeds of the properties that an expression reads, as far as lanes take them.
pub(crate) fn add_feeds<'g>(
    feeds: &mut Vec<Feed<'g>>,
    graph: &'g Graph,
    typed: &Typed,
    expr: &'g BoundExpr,
) -> Result<(), Memory>
    requires { AreFeedsIn graph.now typed.now feeds.old.items }
    ensures { IfOk result (λ _. AreFeedsIn graph.now typed.now feeds.new.items) }
{
    'reads: for read in expr.reads() {
        add_feed(feeds, graph, typed, read)?;
    }
    Ok(())
}

fn add_feed<'g>(
    feeds: &mut Vec<Feed<'g>>,
    graph: &'g Graph,
    typed: &Typed,
    read: &'g Read,
) -> Result<(), Memory>
    requires { AreFeedsIn graph.now typed.now feeds.old.items }
    ensures { IfOk result (λ _. AreFeedsIn graph.now typed.now feeds.new.items) }
{
    match (read.variable, &read.property) {
        (_, None) => Ok(()),
        (Variable::Node(node), Some(name)) => add_node(feeds, graph, typed, node, name),
        (Variable::Rel(rel), Some(name)) => add_rel(feeds, graph, typed, rel, name),
    }
}

// Adds the feed of a property of a node variable, where its table has the property.
fn add_node<'g>(
    feeds: &mut Vec<Feed<'g>>,
    graph: &'g Graph,
    typed: &Typed,
    variable: u32,
    name: &'g Text,
) -> Result<(), Memory>
    requires { AreFeedsIn graph.now typed.now feeds.old.items }
    ensures { IfOk result (λ _. AreFeedsIn graph.now typed.now feeds.new.items) }
{
    match typed.nodes.get(variable as usize) {
        None => Ok(()),
        Some(table) => {
            if *table >= graph.catalog().node_tables() {
                return Ok(());
            }
            match node_feed(graph, variable, *table, name) {
                None => Ok(()),
                Some(feed) => {
                    feeds.push(feed)?;
                    Ok(())
                }
            }
        }
    }
}

// Adds the feed of a property of a relationship variable, where its table has the property and it is
// no text.
fn add_rel<'g>(
    feeds: &mut Vec<Feed<'g>>,
    graph: &'g Graph,
    typed: &Typed,
    variable: u32,
    name: &'g Text,
) -> Result<(), Memory>
    requires { AreFeedsIn graph.now typed.now feeds.old.items }
    ensures { IfOk result (λ _. AreFeedsIn graph.now typed.now feeds.new.items) }
{
    match typed.rels.get(variable as usize) {
        None => Ok(()),
        Some(rel) => {
            if rel.table >= graph.catalog().rel_tables() {
                return Ok(());
            }
            match rel_feed(graph, variable, rel.table, name) {
                None => Ok(()),
                Some(feed) => match feed.property.kind() {
                    Kind::Str => Ok(()),
                    Kind::Int | Kind::Flag => {
                        feeds.push(feed)?;
                        Ok(())
                    }
                },
            }
        }
    }
}
