//! Breadth-first search over the relationships of a type.
ghost use Rattle.std.specs.Prelude.{◌≡◌, ◌≤◌, ◌-◌, false, true, drop, length, Some};
ghost use Rattle.std.specs.List.{list_any};
ghost use Rattle.gq_marks.specs.Places.{IsWithin};
ghost use Rattle.gq_plan.specs.Assignments.{is_node, same_node, same_rel};
ghost use Rattle.gq_hops.specs.Levels.{ends_met, met_all, spread_each, spread_levels, spread_over};
ghost use Rattle.gq_hops.specs.declared.follow.Hop.{Hop as Step};
ghost use Rattle.gq_hops.specs.steps.Hops.{AreTables, IsHop, IsSite};
ghost use Rattle.gq_hops.specs.steps.Sizes.{AreNodes, AreSizes};

use crate::follow::{Follow, Met, hop_of, level_at, next_met};
use crate::used::Used;
use gq_base::NodeId;
use gq_marks::Visited;

/// Meets each node, once, to which one to so many relationships of a type lead that follow one
/// another from a node, none of them used, and forgets all others. It takes no memory.
pub(crate) fn reach(
    follow: &Follow<'_>,
    used: &Used,
    visited: &mut Visited,
    start: NodeId,
    high: usize,
)
    requires tables { AreTables follow.now }
    requires node { is_node follow.now.graph.now start ≡ true }
    requires sizes { AreSizes follow.now visited.old.sizes }
    ensures nodes { let f = follow.now in visited.new.nodes
        ≡ ends_met f.graph.now f.kind.now f.way used.now high start }
    ensures sizes { visited.new.sizes ≡ visited.old.sizes }
{
    visited.clear();
    expand(follow, used, visited, start);
    reach_on(follow, used, visited, high);
}

// Meets what is new, level by level.
fn reach_on(follow: &Follow<'_>, used: &Used, visited: &mut Visited, high: usize)
    requires tables { AreTables follow.now }
    requires sizes { AreSizes follow.now visited.old.sizes }
    requires there { AreNodes follow.now.graph.now visited.old.nodes }
    ensures nodes { let f = follow.now in visited.new.nodes ≡
        spread_levels f.graph.now f.kind.now f.way used.now (high - 1) 0 visited.old.nodes }
    ensures sizes { visited.new.sizes ≡ visited.old.sizes }
{
    let mut next = 0;
    for level in 1..high {
        next = expand_from(follow, used, visited, next);
    }
}

// Meets the nodes to which the relationships lead at the nodes that were met, from a place on.
// Answers how many were met before.
fn expand_from(follow: &Follow<'_>, used: &Used, visited: &mut Visited, next: usize) -> usize
    requires tables { AreTables follow.now }
    requires sizes { AreSizes follow.now visited.old.sizes }
    requires there { AreNodes follow.now.graph.now visited.old.nodes }
    ensures nodes { let f = follow.now in visited.new.nodes ≡ spread_each f.graph.now f.kind.now
        f.way used.now visited.old.nodes (drop next visited.old.nodes) }
    ensures there { AreNodes follow.now.graph.now visited.new.nodes }
    ensures sizes { visited.new.sizes ≡ visited.old.sizes }
    ensures count { result ≡ length visited.old.nodes }
{
    let end = visited.count();
    for place in next..end {
        let at = visited.node(place);
        expand(follow, used, visited, at);
    }
    end
}

/// Whether one to so many relationships of a type that follow one another, none of them used, lead
/// from a node to another. The search stops where that one is met. It takes no memory.
pub(crate) fn seek(
    follow: &Follow<'_>,
    used: &Used,
    visited: &mut Visited,
    start: NodeId,
    end: NodeId,
    high: usize,
) -> bool
    requires tables { AreTables follow.now }
    requires node { is_node follow.now.graph.now start ≡ true }
    requires sizes { AreSizes follow.now visited.old.sizes }
    ensures met { let f = follow.now in result ≡ list_any (same_node end)
        (ends_met f.graph.now f.kind.now f.way used.now high start) }
    ensures within { result ≡ true → IsWithin visited.new.sizes end }
    ensures sizes { visited.new.sizes ≡ visited.old.sizes }
{
    visited.clear();
    expand(follow, used, visited, start);
    seek_on(follow, used, visited, end, high)
}

// Whether a node is met, level by level.
fn seek_on(
    follow: &Follow<'_>,
    used: &Used,
    visited: &mut Visited,
    end: NodeId,
    high: usize,
) -> bool
    requires tables { AreTables follow.now }
    requires sizes { AreSizes follow.now visited.old.sizes }
    requires there { AreNodes follow.now.graph.now visited.old.nodes }
    ensures met { let f = follow.now in result ≡ list_any (same_node end)
        (spread_levels f.graph.now f.kind.now f.way used.now (high - 1) 0 visited.old.nodes) }
    ensures within { result ≡ true → IsWithin visited.new.sizes end }
    ensures sizes { visited.new.sizes ≡ visited.old.sizes }
{
    let mut next = 0;
    for level in 1..high {
        let stop = visited.count();
        if seek_from(follow, used, visited, next, end) {
            return true;
        }
        next = stop;
    }
    visited.has(end)
}

// Whether a node is met, or is one to which the relationships lead at the nodes that were met, from
// a place on. Where it is not, all these are met.
fn seek_from(
    follow: &Follow<'_>,
    used: &Used,
    visited: &mut Visited,
    next: usize,
    end: NodeId,
) -> bool
    requires tables { AreTables follow.now }
    requires sizes { AreSizes follow.now visited.old.sizes }
    requires there { AreNodes follow.now.graph.now visited.old.nodes }
    ensures met { let f = follow.now in result ≡ list_any (same_node end)
        (spread_each f.graph.now f.kind.now f.way used.now visited.old.nodes
        (drop next visited.old.nodes)) }
    ensures within { result ≡ true → IsWithin visited.new.sizes end }
    ensures nodes { let f = follow.now in result ≡ false → visited.new.nodes
        ≡ spread_each f.graph.now f.kind.now f.way used.now visited.old.nodes
        (drop next visited.old.nodes) }
    ensures there { AreNodes follow.now.graph.now visited.new.nodes }
    ensures sizes { visited.new.sizes ≡ visited.old.sizes }
{
    let stop = visited.count();
    for place in next..stop {
        if visited.has(end) {
            return true;
        }
        let at = visited.node(place);
        expand(follow, used, visited, at);
    }
    visited.has(end)
}

// Meets the nodes to which the relationships at a node lead.
fn expand(follow: &Follow<'_>, used: &Used, visited: &mut Visited, at: NodeId)
    requires tables { AreTables follow.now }
    requires node { is_node follow.now.graph.now at ≡ true }
    requires sizes { AreSizes follow.now visited.old.sizes }
    requires there { AreNodes follow.now.graph.now visited.old.nodes }
    ensures nodes { let f = follow.now in visited.new.nodes ≡ spread_over f.graph.now f.way used.now
        visited.old.nodes (met_all f.graph.now f.kind.now f.way (Some at)) }
    ensures there { AreNodes follow.now.graph.now visited.new.nodes }
    ensures sizes { visited.new.sizes ≡ visited.old.sizes }
{
    let mut level = level_at(follow, at, 0);
    loop {
        match next_met(follow, &mut level) {
            None => return,
            Some(met) => {
                if !is_used(follow, used, met) {
                    visited.visit(met.node);
                }
            }
        }
    }
}

/// Whether a relationship that is met is used. Which one it is, is not read where none is.
pub(crate) fn is_used(follow: &Follow<'_>, used: &Used, met: Met) -> bool
    requires { IsSite follow.now met }
    ensures { (hop : Step) → IsHop follow.now met hop →
        result ≡ list_any (same_rel hop.rel) used.now }
{
    !used.is_empty() && used.has(hop_of(follow, met).rel)
}
