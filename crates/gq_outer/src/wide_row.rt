//! A row that gives each variable of a query a node or a relationship, or nothing.
ghost use Rattle.std.specs.Prelude.{◌≡◌, ◌<◌, length, replicate, slice_set, IfOk, None};
ghost use Rattle.gq_outer.specs.Rows.{read};

use gq_base::{Memory, NodeId, RelId};
use gq_expr::Assigned;
use std::alloc::Global;
use std::marker::Model;

/// A node or nothing for each node variable of a query, and a relationship or nothing for each
/// relationship variable. It is seen as these two lists.
#[derive(Drop)]
pub struct WideRow {
    nodes: Vec<Option<NodeId>>,
    rels: Vec<Option<RelId>>,
}

impl Model for WideRow {
    ghost use Rattle.gq_outer.specs.Rows.{Wide};

    ghost Value = { Wide };

    ghost view = { λ row. record { nodes = row.nodes.items; rels = row.rels.items } };
}

impl WideRow {
    /// Nothing for so many node variables and so many relationship variables; `Memory` where there
    /// is no memory for them.
    pub fn new(alloc: Global, nodes: u32, rels: u32) -> Result<WideRow, Memory>
        ensures nodes { IfOk result (λ row. row.nodes ≡ replicate nodes None) }
        ensures rels { IfOk result (λ row. row.rels ≡ replicate rels None) }
    {
        let nodes = vec![in alloc; None; nodes as usize]?;
        let rels = vec![in alloc; None; rels as usize]?;
        Ok(WideRow { nodes, rels })
    }

    /// Gives a node variable a node, or nothing.
    pub fn set_node(&mut self, variable: u32, node: Option<NodeId>)
        requires { variable < length self.old.nodes }
        ensures { self.new
            ≡ record self.old { nodes = slice_set self.old.nodes variable node } }
    {
        self.nodes[variable as usize] = node;
    }

    /// Gives a relationship variable a relationship, or nothing.
    pub fn set_rel(&mut self, variable: u32, rel: Option<RelId>)
        requires { variable < length self.old.rels }
        ensures { self.new ≡ record self.old { rels = slice_set self.old.rels variable rel } }
    {
        self.rels[variable as usize] = rel;
    }

    /// Gives each variable what another row gives it, of as many variables. It takes no memory.
    pub fn copy_from(&mut self, other: &WideRow)
        requires nodes { length self.old.nodes ≡ length other.now.nodes }
        requires rels { length self.old.rels ≡ length other.now.rels }
        ensures { self.new ≡ other.now }
    {
        self.nodes
            .as_mut_slice()
            .copy_from_slice(other.nodes.as_slice());
        self.rels
            .as_mut_slice()
            .copy_from_slice(other.rels.as_slice());
    }
}

impl Assigned for WideRow {
    ghost assignment = { read };

    fn node(&self, variable: u32) -> Option<NodeId> {
        *self.nodes.get(variable as usize)?
    }

    fn rel(&self, variable: u32) -> Option<RelId> {
        *self.rels.get(variable as usize)?
    }
}
