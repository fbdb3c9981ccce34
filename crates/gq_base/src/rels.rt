//! The relationships of a table: their ends, and the rows of their cells.
ghost use Rattle.std.specs.Prelude.{◌≡◌, [], ◌∷◌, ◌++◌, ◌<◌, length, slice_get};
ghost use Rattle.std.specs.Prelude.{IfOk, OnOk, OnErr, Some};
ghost use Rattle.gq_base.specs.Rels.{rel_seen};

use crate::cell::{Cell, PlainRel, Row};
use crate::memory::Memory;
use crate::rows::NodeRows;
use std::alloc::Global;
use std::marker::Model;

/// The relationships of a relationship table, in load order. None of them has a list of cells of
/// its own, so that a table takes memory for its cells and 16 bytes for each relationship.
#[derive(Debug, Drop)]
pub struct RelRows {
    ends: Vec<Ends>,
    // The cells of each relationship.
    rows: NodeRows,
}

// The rows of the nodes that a relationship leads from and to.
#[derive(Clone, Copy, Debug)]
struct Ends {
    source: u32,
    target: u32,
}

/// A relationship whose cells are borrowed: the row of its source, the row of its target, and a
/// cell for each field of its table, in their order.
#[derive(Clone, Copy, Debug)]
pub struct RelRef<'r> {
    pub source: u32,
    pub target: u32,
    pub cells: &'r [Option<Cell>],
}

impl Model for RelRows {
    ghost use Rattle.std.specs.Prelude.{◌≡◌, List, length};
    ghost use Rattle.gq_base.specs.steps.Rels.{rels_of};
    ghost use Rattle.gq_base.specs.declared.cell.PlainRel.{PlainRel};

    ghost Value = { List PlainRel };

    ghost view = { λ rels. rels_of rels.ends.items rels.rows };

    ghost invariant = { λ rels. length rels.ends.items ≡ length rels.rows };
}

impl RelRows {
    /// No relationships. They take no memory.
    pub fn new(alloc: Global) -> RelRows
        ensures { result ≡ [] }
    {
        RelRows {
            ends: Vec::new(alloc),
            rows: NodeRows::new(alloc),
        }
    }

    /// How many relationships there are.
    #[tactic(auto, using(crate::proofs::RowLemmas::length_rels_of))]
    pub fn len(&self) -> usize
        ensures { result ≡ length self.now }
    {
        self.ends.len()
    }

    /// The relationship with a load number.
    #[tactic(auto, using(crate::proofs::RowLemmas::length_rels_of, crate::proofs::RowLemmas::rels_at))]
    pub fn rel(&self, number: usize) -> RelRef<'_>
        requires { number < length self.now }
        ensures { slice_get self.now number ≡ Some (rel_seen result) }
    {
        let Ends { source, target } = self.ends[number];
        RelRef {
            source,
            target,
            cells: self.rows.row(number),
        }
    }

    /// Appends a relationship. After `Memory` they are as before and the relationship is dropped.
    pub fn push(&mut self, rel: PlainRel) -> Result<(), Memory>
        ensures pushed { OnOk result (self.new ≡ self.old ++ rel ∷ []) }
        ensures kept { OnErr result (self.new ≡ self.old) }
    {
        self.take(rel)?;
        Ok(())
    }

    /// Appends a relationship as `push` does, and answers the list that held its cells: it is
    /// empty, and has room for those of the next.
    #[tactic(auto, using(crate::proofs::RowLemmas::rels_push))]
    pub fn take(&mut self, rel: PlainRel) -> Result<Row, Memory>
        ensures taken { OnOk result (self.new ≡ self.old ++ rel ∷ []) }
        ensures room { IfOk result (λ room. room ≡ []) }
        ensures kept { OnErr result (self.new ≡ self.old) }
    {
        let PlainRel {
            source,
            target,
            cells,
        } = rel;
        // With room for the ends nothing fails behind the cells.
        self.ends.reserve(1)?;
        let room = self.rows.take(cells)?;
        match self.ends.push(Ends { source, target }) {
            Ok(()) => Ok(room),
            Err(_) => unreachable!(),
        }
    }
}
