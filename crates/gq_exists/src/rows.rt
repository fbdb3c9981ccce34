//! Nodes, each once, by a bit for each row of their tables.
ghost use Rattle.std.specs.Prelude.{◌≡◌, ◌<◌, ◌||◌, ℕ, [], IfOk, OnOk, length, nat_eq, not};
ghost use Rattle.std.specs.List.{list_any};
ghost use Rattle.gq_base.specs.declared.NodeId.{NodeId};
ghost use Rattle.gq_exists.specs.Made.{some_stand_on};
ghost use Rattle.gq_exists.specs.steps.Levels.{with_key};
ghost use Rattle.gq_exists.specs.steps.Rows.{AreRows, blocks_of, marked_at, marked_in, rows_in};
ghost use Rattle.gq_exists.specs.steps.Rows.{with_node};
ghost use Rattle.gq_plan.specs.Assignments.{same_node};
ghost use Rattle.gq_plan.specs.Keys.{has_key};

use gq_base::{Memory, NodeId};
use gq_bits::{Marks, VECTOR};
use gq_expr::Assigned;
use std::alloc::Global;

/// Nodes, each once, in the order of their first. Which rows of a table they are is told by bits,
/// in blocks of `VECTOR` rows; past the last block of a table none is there.
#[derive(Drop)]
pub struct Rows {
    alloc: Global,
    pub(crate) nodes: Vec<NodeId>,
    pub(crate) tables: Vec<Vec<Marks>>,
}

impl Rows {
    /// No nodes. It takes no memory.
    pub(crate) fn new(alloc: Global) -> Rows
        ensures none { result.nodes.items ≡ [] }
        ensures are { AreRows result }
    {
        Rows {
            alloc,
            nodes: Vec::new(alloc),
            tables: Vec::new(alloc),
        }
    }

    /// How many nodes there are.
    pub(crate) fn len(&self) -> usize
        ensures { result ≡ length (rows_in self.now) }
    {
        self.nodes.len()
    }

    /// Whether a list is one of these nodes. It takes no memory.
    pub(crate) fn has(&self, key: &[NodeId]) -> bool
        requires { AreRows self.now }
        ensures { result ≡ has_key key.now (rows_in self.now) }
    {
        let Some((node, others)) = key.split_first() else {
            return false;
        };
        others.is_empty() && self.has_node(*node)
    }

    /// Whether the nodes that a row has at some variables are one of these. It takes no memory.
    pub(crate) fn has_at<R: Assigned>(&self, nodes: &[u32], row: &R) -> bool
        requires { AreRows self.now }
        ensures { result ≡ some_stand_on nodes.now (R.assignment row.now) (rows_in self.now) }
    {
        let Some((variable, others)) = nodes.split_first() else {
            return false;
        };
        if !others.is_empty() {
            return false;
        }
        match row.node(*variable) {
            None => false,
            Some(node) => self.has_node(node),
        }
    }

    /// Adds the node of a list, unless it is among these.
    pub(crate) fn insert(&mut self, key: &[NodeId]) -> Result<(), Memory>
        requires are { AreRows self.old }
        requires wide { length key.now ≡ 1 }
        ensures keys { OnOk result (rows_in self.new ≡ with_key (rows_in self.old) key.now) }
        ensures are { OnOk result (AreRows self.new) }
    {
        let Some((node, _others)) = key.split_first() else {
            return Ok(());
        };
        self.insert_node(*node)
    }

    // Whether a node is among these.
    fn has_node(&self, node: NodeId) -> bool
        requires { AreRows self.now }
        ensures { result ≡ list_any (same_node node) self.now.nodes.items }
    {
        match self.tables.get(node.table as usize) {
            None => false,
            Some(blocks) => has_row(blocks.as_slice(), node.row),
        }
    }

    // Adds a node, unless it is among these.
    fn insert_node(&mut self, node: NodeId) -> Result<(), Memory>
        requires { AreRows self.old }
        ensures nodes { OnOk result (self.new.nodes.items ≡ with_node self.old.nodes.items node) }
        ensures are { OnOk result (AreRows self.new) }
    {
        let table = node.table as usize;
        reach_table(&mut self.tables, self.alloc, table)?;
        if mark(&mut self.tables[table], node.row)? {
            self.nodes.push(node)?;
        }
        Ok(())
    }
}

// Whether a row is marked.
fn has_row(blocks: &[Marks], row: u32) -> bool
    ensures { result ≡ marked_in blocks.now row }
{
    match blocks.get((row / VECTOR) as usize) {
        None => false,
        Some(marks) => marks.get(row % VECTOR),
    }
}

// Marks a row, and answers whether it was not marked before.
fn mark(blocks: &mut Vec<Marks>, row: u32) -> Result<bool, Memory>
    ensures first { IfOk result (λ first. first ≡ not (marked_in blocks.old.items row)) }
    ensures marked { OnOk result ((r : ℕ) → marked_in blocks.new.items r
        ≡ (nat_eq r row || marked_in blocks.old.items r)) }
{
    let block = (row / VECTOR) as usize;
    reach_block(blocks, block)?;
    let marks = &mut blocks[block];
    let known = marks.get(row % VECTOR);
    marks.set(row % VECTOR, true);
    Ok(!known)
}

// Makes blocks up to one of this number.
fn reach_block(blocks: &mut Vec<Marks>, block: usize) -> Result<(), Memory>
    ensures there { OnOk result (block < length blocks.new.items) }
    ensures same { OnOk result (
        (r : ℕ) → marked_in blocks.new.items r ≡ marked_in blocks.old.items r) }
{
    'blocks: while blocks.len() <= block {
        blocks.push(Marks::none())?;
    }
    Ok(())
}

// Makes tables up to one of this number.
fn reach_table(tables: &mut Vec<Vec<Marks>>, alloc: Global, table: usize) -> Result<(), Memory>
    ensures there { OnOk result (table < length tables.new.items) }
    ensures same { OnOk result ((n : NodeId) →
        marked_at (blocks_of tables.new.items) n ≡ marked_at (blocks_of tables.old.items) n) }
{
    'tables: while tables.len() <= table {
        tables.push(Vec::new(alloc))?;
    }
    Ok(())
}
