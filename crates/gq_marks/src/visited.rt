//! The nodes that a search has met, in their order, each once.
ghost use Rattle.std.specs.Prelude.{◌≡◌, ◌<◌, ◌≤◌, ◌^◌, [], true, get_or, length, nat_lt, slice_get};
ghost use Rattle.std.specs.Prelude.{IfOk, Some};
ghost use Rattle.std.specs.List.{list_any};
ghost use Rattle.gq_marks.specs.Places.{IsWithin, place_in, starts_from, total_of};
ghost use Rattle.gq_marks.specs.Visiting.{with_visit};
ghost use Rattle.gq_plan.specs.Assignments.{same_node};

use gq_base::{Memory, NodeId};
use std::alloc::Global;
use std::marker::Model;

/// The most nodes that a search has room for.
const MOST: usize = 4_294_967_296;

/// The nodes that a search has met. It has room for all nodes from the start, so that meeting one
/// takes no memory, and forgetting them takes a step for each of them alone.
#[derive(Drop)]
pub struct Visited {
    // How many rows each table of nodes has, and how many stand before them.
    sizes: Vec<u32>,
    starts: Vec<usize>,
    // Whether a node was met.
    marks: Vec<bool>,
    // Those that were met stand in the first places.
    nodes: Vec<NodeId>,
    count: usize,
}

impl Model for Visited {
    ghost use Rattle.gq_marks.specs.Visiting.{Visiting};

    ghost Value = { Visiting };

    ghost use Rattle.gq_marks.specs.Insides.{IsVisiting, visiting_of};

    ghost view = { visiting_of };

    ghost invariant = { IsVisiting };
}

impl Visited {
    /// Room for the nodes of tables of so many rows each, of which none was met yet. It answers
    /// `Limit` where they are more than 2^32.
    pub fn new(alloc: Global, sizes: Vec<u32>) -> Result<Visited, Memory>
        ensures sizes { IfOk result (λ v. v.sizes ≡ sizes.items) }
        ensures none { IfOk result (λ v. v.nodes ≡ []) }
    {
        let total = total_rows(&sizes)?;
        let starts = starts_of(alloc, &sizes)?;
        let node = NodeId { table: 0, row: 0 };
        Ok(Visited {
            sizes,
            starts,
            marks: vec![in alloc; false; total]?,
            nodes: vec![in alloc; node; total]?,
            count: 0,
        })
    }

    /// Meets a node, if it was not met before.
    pub fn visit(&mut self, node: NodeId)
        requires { IsWithin self.old.sizes node }
        ensures { self.new ≡ with_visit self.old node }
    {
        let place = place_of(&self.starts, &self.sizes, node);
        if !self.marks[place] {
            self.marks[place] = true;
            self.nodes[self.count] = node;
            self.count += 1;
        }
    }

    /// Whether a node was met.
    pub fn has(&self, node: NodeId) -> bool
        ensures met { result ≡ list_any (same_node node) self.now.nodes }
        ensures within { result ≡ true → IsWithin self.now.sizes node }
    {
        if !is_within(&self.sizes, node) {
            return false;
        }
        self.marks[place_of(&self.starts, &self.sizes, node)]
    }

    /// Forgets all nodes.
    pub fn clear(&mut self)
        ensures { self.new ≡ record self.old { nodes = [] } }
    {
        for at in 0..self.count {
            let place = place_of(&self.starts, &self.sizes, self.nodes[at]);
            self.marks[place] = false;
        }
        self.count = 0;
    }

    /// How many nodes were met.
    pub fn count(&self) -> usize
        ensures { result ≡ length self.now.nodes }
    {
        self.count
    }

    /// The node that was met at a place.
    pub fn node(&self, place: usize) -> NodeId
        requires { place < length self.now.nodes }
        ensures { slice_get self.now.nodes place ≡ Some result }
    {
        self.nodes[place]
    }
}

// Whether a node is a row of one of the tables.
fn is_within(sizes: &[u32], node: NodeId) -> bool
    ensures { result ≡ nat_lt node.row (get_or sizes.now node.table 0) }
{
    match sizes.get(node.table as usize) {
        None => false,
        Some(size) => node.row < *size,
    }
}

// The number of a node.
#[tactic(auto, using(crate::proofs::Places::place_found, crate::proofs::Places::place_low))]
fn place_of(starts: &[usize], sizes: &[u32], node: NodeId) -> usize
    requires starts { starts.now ≡ starts_from 0 sizes.now }
    requires few { total_of sizes.now ≤ 2 ^ 32 }
    requires within { IsWithin sizes.now node }
    ensures place { result ≡ place_in sizes.now node.table node.row }
    ensures low { result < total_of sizes.now }
{
    starts[node.table as usize] + node.row as usize
}

// How many rows all tables have, if they are not too many.
fn total_rows(sizes: &[u32]) -> Result<usize, Memory>
    ensures total { IfOk result (λ total. total ≡ total_of sizes.now) }
    ensures few { IfOk result (λ total. total ≤ 2 ^ 32) }
{
    let mut total = 0;
    for size in sizes {
        total += *size as usize;
        if MOST < total {
            return Err(Memory::Limit);
        }
    }
    Ok(total)
}

// How many rows stand before each table.
fn starts_of(alloc: Global, sizes: &[u32]) -> Result<Vec<usize>, Memory>
    requires { total_of sizes.now ≤ 2 ^ 32 }
    ensures { IfOk result (λ starts. starts.items ≡ starts_from 0 sizes.now) }
{
    let mut starts = Vec::new(alloc);
    let mut total = 0;
    for size in sizes {
        starts.push(total)?;
        total += *size as usize;
    }
    Ok(starts)
}
