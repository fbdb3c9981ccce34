//! The matches of patterns: each assignment is looked at once and kept where it is a match.
ghost use Rattle.std.specs.Prelude.{◌≡◌, ◌++◌, map, flat_map, filter, IfOk};
ghost use Rattle.gq_alternatives.specs.Matches.{is_match, pattern_matches};

use crate::assignments::{node_tuples, rel_tuples};
use crate::chosen::Chosen;
use crate::conditions::Conditions;
use gq_base::{List, Memory, NodeId, RelId};
use gq_plain::PlainGraph;
use gq_scopes::Pattern;
use std::alloc::Global;
use std::marker::Model;

/// A node for each node variable and a relationship for each relationship pattern.
#[derive(Debug, Drop)]
pub struct Match {
    pub nodes: List<NodeId>,
    pub rels: List<RelId>,
}

impl Model for Match {
    ghost use Rattle.gq_plan.specs.Assignments.{Assignment};

    ghost Value = { Assignment };

    ghost view = { λ m. record { nodes = m.nodes; rels = m.rels } };
}

/// All matches of patterns in a graph, in the order of their nodes and then of their relationships.
/// Each assignment is made and tested, so the steps grow as the number of nodes to the power of the
/// number of variables: it is for small graphs, and to compare other ways with. `Memory` may come
/// at any graph.
pub fn matches(
    alloc: Global,
    graph: &PlainGraph,
    pattern: &Pattern<'_>,
) -> Result<List<Match>, Memory>
    ensures { IfOk result (λ ms. ms ≡ pattern_matches graph.now pattern.now) }
{
    let node_tuples = node_tuples(alloc, graph, pattern.names().len())?;
    let rel_tuples = rel_tuples(alloc, graph, pattern.rels().len())?;
    let conditions = Conditions::new(alloc, graph, pattern)?;
    matches_among(
        alloc,
        &conditions,
        node_tuples.as_slice(),
        rel_tuples.as_slice(),
    )
}

// The matches that have some of these nodes and some of these relationships.
fn matches_among(
    alloc: Global,
    conditions: &Conditions<'_>,
    node_tuples: &[List<NodeId>],
    rel_tuples: &[List<RelId>],
) -> Result<List<Match>, Memory>
    ensures { let passes = is_match conditions.now.graph.now conditions.now.pattern.now in
        IfOk result (λ ms. ms ≡ flat_map (λ ns.
        filter passes (map (λ rs. record { nodes = ns; rels = rs }) rel_tuples.now))
        node_tuples.now) }
{
    let mut found = List::new(alloc);
    for nodes in node_tuples {
        push_matches(alloc, conditions, nodes.as_slice(), rel_tuples, &mut found)?;
    }
    Ok(found)
}

// The matches that have these nodes.
fn push_matches(
    alloc: Global,
    conditions: &Conditions<'_>,
    nodes: &[NodeId],
    rel_tuples: &[List<RelId>],
    found: &mut List<Match>,
) -> Result<(), Memory>
    ensures { let passes = is_match conditions.now.graph.now conditions.now.pattern.now in
        IfOk result (λ _. found.new ≡ found.old
        ++ filter passes (map (λ rs. record { nodes = nodes.now; rels = rs }) rel_tuples.now)) }
{
    for rels in rel_tuples {
        let chosen = Chosen {
            nodes,
            rels: rels.as_slice(),
        };
        if conditions.hold(&chosen) {
            found.push(chosen.to_match(alloc)?)?;
        }
    }
    Ok(())
}
