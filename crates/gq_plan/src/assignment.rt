//! An assignment as rows and load numbers, read by the tables of a typed alternative.
ghost use Rattle.std.specs.Prelude.{◌≡◌, length, IfOk};
ghost use Rattle.gq_plan.specs.Rows.{as_read, zero_row};

use crate::typed::Typed;
use gq_base::{List, Memory, NodeId, RelId};
use gq_expr::Assigned;
use std::alloc::Global;

/// A row for each node variable of a typed alternative and a load number for each relationship variable. Their tables are
/// those of the alternative.
#[derive(Drop)]
pub struct Assignment {
    /// The row of each node variable's node in its table, counted from 0.
    pub nodes: List<u32>,
    /// The number of each relationship variable's relationship in its table, counted from 0 in the order of loading.
    pub rels: List<u32>,
}

impl Assignment {
    /// Row 0 and load number 0 for each variable of an alternative; `Memory` where there is no memory for them.
    pub fn zeros(alloc: Global, typed: &Typed) -> Result<Assignment, Memory>
        ensures row { IfOk result (λ row. row ≡ zero_row typed.now) }
        ensures nodes { IfOk result (λ row. length row.nodes ≡ length typed.now.nodes) }
        ensures rels { IfOk result (λ row. length row.rels ≡ length typed.now.rels) }
    {
        let nodes = List::from_vec(vec![in alloc; 0; typed.nodes.len()]?);
        let rels = List::from_vec(vec![in alloc; 0; typed.rels.len()]?);
        Ok(Assignment { nodes, rels })
    }
}

/// Rows and load numbers with the tables that an alternative gives them: what expressions read.
#[derive(Clone, Copy)]
pub struct TypedRow<'r> {
    pub typed: &'r Typed,
    pub row: &'r Assignment,
}

impl Assigned for TypedRow<'_> {
    ghost assignment = { λ n. as_read n.typed.now n.row.now };

    #[tactic(auto, using(crate::proofs::Rows::node_assigned))]
    fn node(&self, variable: u32) -> Option<NodeId> {
        let table = *self.typed.nodes.get(variable as usize)?;
        let row = *self.row.nodes.get(variable as usize)?;
        Some(NodeId { table, row })
    }

    #[tactic(auto, using(crate::proofs::Rows::rel_assigned))]
    fn rel(&self, variable: u32) -> Option<RelId> {
        let rel = self.typed.rels.get(variable as usize)?;
        let row = *self.row.rels.get(variable as usize)?;
        Some(RelId {
            table: rel.table,
            row,
        })
    }
}
