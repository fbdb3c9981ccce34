//! Bounds of how many relationships lead from a node to one where a walk may end. They are found
//! backward from the nodes where it may, some relationships far.
ghost use Rattle.std.specs.Prelude.{◌≡◌, ◌<◌, ◌≤◌, suc, true, IfOk, length};
ghost use Rattle.std.specs.List.{AllByRecursion};
ghost use Rattle.gq_base.specs.Directions.{opposite};
ghost use Rattle.gq_base.specs.Plain.{Graph as Plain};
ghost use Rattle.gq_base.specs.declared.NodeId.{NodeId as Node};
ghost use Rattle.gq_law_trails.specs.Bounds.{AreBounds};
ghost use Rattle.gq_marks.specs.Marking.{IsSpread, bound_of, is_marked};
ghost use Rattle.gq_plan.specs.Assignments.{is_node};
ghost use Rattle.gq_hops.specs.steps.Aims.{AreHit, AreInside, IsAimed};
ghost use Rattle.gq_hops.specs.steps.Hops.{AreTables};

use crate::follow::{Follow, level_at, next_met};
use gq_base::{Memory, NodeId};
use gq_marks::Marks;
use std::alloc::Global;

/// The most nodes that have bounds of their own.
const MAX_REACHED: usize = 8_192;

/// The bound of all others where none of them comes to an end: more than a walk may have.
const NEVER: u8 = 255;

/// Bounds by which a walk may end at each node, with places for others at so many nodes, a byte each:
/// those of the first tables for which they are enough.
pub(crate) fn marks_for(alloc: Global, back: &Follow<'_>, places: usize) -> Result<Marks, Memory>
    ensures { IfOk result (λ m. (n : Node) → bound_of m n ≡ 0) }
{
    let graph = back.graph;
    let mut sizes = Vec::new(alloc);
    let mut left = places;
    'tables: for table in 0..graph.catalog().node_tables() {
        let nodes = graph.node_count(table);
        if left < nodes as usize {
            break;
        }
        left -= nodes as usize;
        sizes.push(nodes)?;
    }
    let room = if places == 0 { 0 } else { MAX_REACHED };
    Ok(Marks::new(alloc, sizes.as_slice(), room)?)
}

/// Finds how many relationships a walk needs at least to come to one of some nodes: less than so
/// many, from each node that is as near, and so many from all others. Where there is no room for
/// these nodes, a walk may end at each node.
pub(crate) fn aim_at(marks: &mut Marks, back: &Follow<'_>, ends: &[NodeId], rounds: u8)
    requires tables { AreTables back.now }
    requires inside { AreInside back.now.graph.now ends.now }
    requires few { rounds ≤ 16 }
    ensures bounds { AreBounds back.now.graph.now back.now.kind.now (opposite back.now.way)
        (bound_of marks.new) }
    ensures ends { AllByRecursion (λ n. bound_of marks.new n ≡ 0) ends.now }
{
    marks.clear();
    if !put_each(marks, ends) {
        return;
    }
    marks.set_rest(1);
    let mut from = 0;
    'rounds: for level in 0..rounds {
        let stop = marks.count();
        if !go_round(marks, back, from, level) {
            return;
        }
        if marks.count() == stop {
            marks.set_rest(NEVER);
            let _known = marks.count();
            return;
        }
        marks.set_rest(level + 2);
        from = stop;
    }
    let _ = marks.count();
}

// Marks nodes with 0, and answers whether there was room for all.
fn put_each(marks: &mut Marks, nodes: &[NodeId]) -> bool
    ensures spread { IsSpread 0 marks.old marks.new }
    ensures inside { (g : Plain) → AreInside g nodes.now → AreInside g marks.old.reached →
        AreInside g marks.new.reached }
    ensures all { result ≡ true → AllByRecursion (λ n. is_marked marks.new n ≡ true) nodes.now }
{
    'nodes: for place in 0..nodes.len() {
        let node = nodes[place];
        if !marks.put(node, 0) {
            return false;
        }
    }
    true
}

// Marks those from which a relationship leads to one of the nodes that were reached from a place
// on, and answers whether there was room.
fn go_round(marks: &mut Marks, back: &Follow<'_>, from: usize, level: u8) -> bool
    requires tables { AreTables back.now }
    requires few { level ≤ 16 }
    requires rest { marks.old.rest ≡ suc level }
    requires from { from ≤ length marks.old.reached }
    requires inside { AreInside back.now.graph.now marks.old.reached }
    requires aimed { IsAimed back.now.graph.now back.now.kind.now (opposite back.now.way) level from
        marks.old }
    ensures spread { IsSpread (suc level) marks.old marks.new }
    ensures inside { AreInside back.now.graph.now marks.new.reached }
    ensures aimed { result ≡ true → IsAimed back.now.graph.now back.now.kind.now
        (opposite back.now.way) (suc level) (length marks.old.reached) marks.new }
    ensures bounds { AreBounds back.now.graph.now back.now.kind.now (opposite back.now.way)
        (bound_of marks.new) }
{
    let stop = marks.count();
    let mut at = from;
    'nodes: while at < stop {
        if !spread(marks, back, marks.reached(at), level + 1) {
            let _ = marks.count();
            return false;
        }
        at += 1;
    }
    let _ = marks.count();
    true
}

// Marks the nodes from which a relationship leads to a node, and answers whether there was room.
fn spread(marks: &mut Marks, back: &Follow<'_>, node: NodeId, mark: u8) -> bool
    requires tables { AreTables back.now }
    requires node { is_node back.now.graph.now node ≡ true }
    requires mark { mark < 255 }
    requires inside { AreInside back.now.graph.now marks.old.reached }
    ensures spread { IsSpread mark marks.old marks.new }
    ensures inside { AreInside back.now.graph.now marks.new.reached }
    ensures hit { result ≡ true → AreHit back.now marks.new node }
{
    let mut level = level_at(back, node, 0);
    loop {
        match next_met(back, &mut level) {
            None => return true,
            Some(met) => {
                if !marks.put(met.node, mark) {
                    return false;
                }
            }
        }
    }
}
