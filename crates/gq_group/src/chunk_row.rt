//! What expressions read at one selected position of each group of a chunk.
ghost use Rattle.std.specs.Prelude.{◌≡◌};
ghost use Rattle.gq_group.specs.Chunks.{IsChunkOf, assignment_at};
ghost use Rattle.gq_group.specs.Groups.{AreSelected};
ghost use Rattle.gq_plan.specs.Assignments.{row_of};
ghost use Rattle.gq_plan.specs.Rows.{assigned};

use crate::chunk::Chunk;
use crate::edge::edge_number;
use gq_base::{NodeId, RelId};
use gq_expr::Assigned;
use gq_plan::Typed;
use gq_store::Graph;
use std::marker::Model;

/// An assignment of a chunk, where it lies: nothing is read of a variable before it is asked for.
/// It is seen as the nodes and relationships of the assignment.
#[derive(Drop)]
pub struct ChunkRow<'q, 'r, 'c, 'g, 'p> {
    graph: &'q Graph,
    typed: &'q Typed,
    chunk: &'r Chunk<'c, 'g>,
    positions: &'p [u32],
}

impl<'q, 'r, 'c, 'g, 'p> Model for ChunkRow<'q, 'r, 'c, 'g, 'p> {
    ghost use Rattle.gq_plan.specs.Assignments.{Assignment};

    ghost Value = { Assignment };

    ghost use Rattle.gq_group.specs.steps.Inner.{IsRead, read_of};

    ghost view = { read_of };

    ghost invariant = { IsRead };
}

impl<'q, 'r, 'c, 'g, 'p> ChunkRow<'q, 'r, 'c, 'g, 'p> {
    /// The assignment at one selected position of each group.
    pub fn new(
        graph: &'q Graph,
        typed: &'q Typed,
        chunk: &'r Chunk<'c, 'g>,
        positions: &'p [u32],
    ) -> ChunkRow<'q, 'r, 'c, 'g, 'p>
        requires chunk { IsChunkOf graph.now typed.now chunk.now }
        requires selected { AreSelected chunk.now.groups.now positions.now }
        ensures { let here = assignment_at graph.now typed.now chunk.now positions.now in
            result ≡ assigned typed.now here }
    {
        ChunkRow {
            graph,
            typed,
            chunk,
            positions,
        }
    }
}

impl Assigned for ChunkRow<'_, '_, '_, '_, '_> {
    ghost assignment = { row_of };

    fn node(&self, variable: u32) -> Option<NodeId> {
        match self.typed.nodes.get(variable as usize) {
            None => None,
            Some(table) => Some(NodeId {
                table: *table,
                row: self.chunk.node_at(variable, self.positions),
            }),
        }
    }

    fn rel(&self, variable: u32) -> Option<RelId> {
        match self.typed.rels.get(variable as usize) {
            None => None,
            Some(rel) => {
                let edge = self.chunk.edge_at(variable, self.positions);
                Some(RelId {
                    table: rel.table,
                    row: edge_number(self.graph, rel.table, edge),
                })
            }
        }
    }
}
