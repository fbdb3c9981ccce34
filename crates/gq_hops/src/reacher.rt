//! The nodes to which a trail leads, each once.
ghost use Rattle.std.specs.Prelude.{◌≡◌, ◌≤◌, ◌<◌, ◌∷◌, [], true, drop, length, slice_get, IfOk};
ghost use Rattle.std.specs.Prelude.{if◌then◌else◌};
ghost use Rattle.std.specs.List.{list_any};
ghost use Rattle.gq_plan.specs.Assignments.{is_node, same_node};
ghost use Rattle.gq_hops.specs.Levels.{ends_met};
ghost use Rattle.gq_hops.specs.Reaching.{Reaching as Ends};
ghost use Rattle.gq_hops.specs.steps.Hops.{is_far};
ghost use Rattle.gq_hops.specs.steps.Sizes.{size_in, sizes_in};

use crate::follow::{Follow, Followed, follow_type};
use crate::reach::{reach, seek};
use crate::used::Used;
use gq_base::{Memory, NodeId, RelId};
use gq_marks::Visited;
use gq_plan::TrailPart;
use gq_store::Graph;
use std::alloc::Global;
use std::marker::Model;

/// The nodes to which one to so many relationships of a trail's type lead from a node, each once,
/// found by breadth-first search. It has room for all nodes of the tables to which they lead and for
/// 384 used relationships from the start, so that a search takes no memory.
#[derive(Drop)]
pub struct Reacher<'g> {
    follow: Follow<'g>,
    high: usize,
    used: Used,
    visited: Visited,
    // How many of those that were met were handed out.
    place: usize,
}

impl<'g> Model for Reacher<'g> {
    ghost use Rattle.gq_hops.specs.Reaching.{Reaching};

    ghost Value = { Reaching };

    ghost use Rattle.gq_hops.specs.steps.Reaches.{CanReach, reaching_of};

    ghost view = { reaching_of };

    ghost invariant = { CanReach };
}

impl<'g> Reacher<'g> {
    /// A search of a trail that owes nothing. After `Memory` there is none; it is `Limit` where the
    /// tables to which the trail leads have more than 2^32 nodes.
    pub fn new(alloc: Global, graph: &'g Graph, part: &'g TrailPart) -> Result<Reacher<'g>, Memory>
        requires { 1 ≤ part.now.high }
        ensures graph { IfOk result (λ r. r.graph ≡ graph.now) }
        ensures kind { IfOk result (λ r. r.kind ≡ part.now.kind) }
        ensures way { IfOk result (λ r. r.way ≡ part.now.way) }
        ensures high { IfOk result (λ r. r.high ≡ part.now.high) }
        ensures owed { IfOk result (λ r. r.owed ≡ []) }
    {
        graph.stands_valid();
        let follow = follow_type(alloc, graph, &part.kind, part.way)?;
        let sizes = sizes_of(alloc, graph, &follow.tables)?;
        Ok(Reacher {
            follow,
            high: part.high as usize,
            used: Used::new(alloc)?,
            visited: Visited::new(alloc, sizes)?,
            place: 0,
        })
    }

    /// From now on the nodes are owed to which the trail leads from a node, without those
    /// relationships that are used. It takes no memory.
    pub fn begin(&mut self, start: NodeId, used: &[RelId])
        requires start { is_node self.old.graph start ≡ true }
        requires few { length used.now ≤ 384 }
        ensures { let r : Ends = self.old in self.new
            ≡ record r { owed = ends_met r.graph r.kind r.way used.now r.high start } }
    {
        self.used.set(used);
        reach(
            &self.follow,
            &self.used,
            &mut self.visited,
            start,
            self.high,
        );
        self.place = 0;
    }

    /// From now on a node is owed if the trail leads to it from another, without those relationships
    /// that are used. The search stops where it is met, and takes no memory.
    pub fn begin_to(&mut self, start: NodeId, used: &[RelId], end: NodeId)
        requires start { is_node self.old.graph start ≡ true }
        requires few { length used.now ≤ 384 }
        ensures { let r : Ends = self.old in
            let all = ends_met r.graph r.kind r.way used.now r.high start in self.new
            ≡ record r { owed = if list_any (same_node end) all then end ∷ [] else [] } }
    {
        self.used.set(used);
        let leads = seek(
            &self.follow,
            &self.used,
            &mut self.visited,
            start,
            end,
            self.high,
        );
        self.visited.clear();
        if leads {
            self.visited.visit(end);
        }
        self.place = 0;
    }

    /// The next node, or none where none is owed.
    pub fn next(&mut self) -> Option<NodeId>
        ensures first { result ≡ slice_get self.old.owed 0 }
        ensures rest { self.new ≡ record self.old { owed = drop 1 self.old.owed } }
    {
        if self.visited.count() <= self.place {
            return None;
        }
        let node = self.visited.node(self.place);
        self.place += 1;
        Some(node)
    }
}

// How many rows each table of nodes has to which relationships of these tables lead; the others are
// taken to have none.
fn sizes_of(alloc: Global, graph: &Graph, followed: &[Followed]) -> Result<Vec<u32>, Memory>
    ensures { IfOk result (λ sizes. sizes.items ≡ sizes_in graph.now followed.now) }
{
    let mut sizes = Vec::new(alloc);
    'tables: for table in 0..graph.catalog().node_tables() {
        sizes.push(size_of(graph, followed, table))?;
    }
    Ok(sizes)
}

fn size_of(graph: &Graph, followed: &[Followed], table: u32) -> u32
    requires { table < length graph.now.catalog.nodes }
    ensures { result ≡ size_in graph.now followed.now table }
{
    if leads_into(followed, table) {
        graph.node_count(table)
    } else {
        0
    }
}

fn leads_into(followed: &[Followed], table: u32) -> bool
    ensures { result ≡ is_far followed.now table }
{
    followed.iter().any(|one| one.far == table)
}
