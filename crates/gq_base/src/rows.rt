//! The rows of a node table, whose cells stand one behind the other in one vector.
ghost use Rattle.std.specs.Prelude.{◌≡◌, [], ◌∷◌, ◌++◌, ◌<◌, ◌≤◌, length, slice_get};
ghost use Rattle.std.specs.Prelude.{IfOk, OnOk, OnErr, Some};
ghost use Rattle.gq_base.specs.steps.Rows.{start_at};

use crate::cell::{Cell, Row};
use crate::list::List;
use crate::memory::Memory;
use std::alloc::Global;
use std::marker::Model;

/// The rows of a node table, in load order. No row has a list of cells of its own, so that a table
/// takes memory for its cells and 8 bytes for each row.
#[derive(Debug, Drop)]
pub struct NodeRows {
    // Where the cells of each row end: they begin where those before them end.
    ends: Vec<usize>,
    cells: Vec<Option<Cell>>,
}

impl Model for NodeRows {
    ghost use Rattle.std.specs.Prelude.{List};
    ghost use Rattle.std.specs.declared.option.Option.{Option};
    ghost use Rattle.gq_base.specs.declared.cell.Cell.{Cell};
    ghost use Rattle.gq_base.specs.steps.Rows.{AreCut, rows_from};

    ghost Value = { List (List (Option Cell)) };

    ghost view = { λ rows. rows_from 0 rows.ends.items rows.cells.items };

    ghost invariant = { λ rows. AreCut 0 rows.ends.items rows.cells.items };
}

impl NodeRows {
    /// No rows. They take no memory.
    pub fn new(alloc: Global) -> NodeRows
        ensures { result ≡ [] }
    {
        NodeRows {
            ends: Vec::new(alloc),
            cells: Vec::new(alloc),
        }
    }

    /// How many rows there are.
    #[tactic(auto, using(crate::proofs::RowLemmas::length_rows_from))]
    pub fn len(&self) -> usize
        ensures { result ≡ length self.now }
    {
        self.ends.len()
    }

    /// The cells of a row, counted from 0.
    #[tactic(auto, using(crate::proofs::RowLemmas::length_rows_from, crate::proofs::RowLemmas::cut_at, crate::proofs::RowLemmas::rows_at))]
    pub fn row(&self, row: usize) -> &[Option<Cell>]
        requires { row < length self.now }
        ensures { slice_get self.now row ≡ Some result.now }
    {
        let start = start_at(self.ends.as_slice(), row);
        &self.cells[start..self.ends[row]]
    }

    /// Appends a row. After `Memory` the rows are as before and the row is dropped.
    pub fn push(&mut self, row: Row) -> Result<(), Memory>
        ensures pushed { OnOk result (self.new ≡ self.old ++ row ∷ []) }
        ensures kept { OnErr result (self.new ≡ self.old) }
    {
        self.take(row)?;
        Ok(())
    }

    /// Appends a row as `push` does, and answers the list that held its cells: it is empty, and has
    /// room for those of the next.
    #[tactic(auto, using(crate::proofs::RowLemmas::cut_push, crate::proofs::RowLemmas::rows_push))]
    pub fn take(&mut self, row: Row) -> Result<Row, Memory>
        ensures taken { OnOk result (self.new ≡ self.old ++ row ∷ []) }
        ensures room { IfOk result (λ room. room ≡ []) }
        ensures kept { OnErr result (self.new ≡ self.old) }
    {
        let mut cells = row.into_vec();
        let before = self.cells.len();
        if self.cells.append(&mut cells).is_err() {
            return Err(Memory::Exhausted);
        }
        match self.ends.push(self.cells.len()) {
            Ok(()) => Ok(List::from_vec(cells)),
            Err(_) => {
                self.cells.truncate(before);
                Err(Memory::Exhausted)
            }
        }
    }
}

// Where the cells of a row begin.
#[tactic(auto, using(crate::proofs::RowLemmas::start_behind))]
fn start_at(ends: &[usize], row: usize) -> usize
    requires { row ≤ length ends.now }
    ensures { result ≡ start_at 0 ends.now row }
{
    if row == 0 { 0 } else { ends[row - 1] }
}
