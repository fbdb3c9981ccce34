//! What was answered of the rows of tables: of each whether it was asked about, and the answer.
ghost use Rattle.std.specs.Prelude.{◌≡◌, ◌<◌, ℕ, IfOk, None};
ghost use Rattle.gq_base.specs.declared.NodeId.{NodeId as Node};
ghost use Rattle.gq_bits.specs.declared.TheConstants.{VECTOR};
ghost use Rattle.gq_ends.specs.steps.Answers.{Tells, at_node, at_place, at_row};

use gq_base::{Memory, NodeId};
use gq_bits::{Marks, VECTOR};
use std::alloc::Global;

/// Of `VECTOR` rows those that were asked about, and of these those that pass.
#[derive(Drop)]
pub(crate) struct PieceAnswers {
    pub(crate) asked: Marks,
    pub(crate) passed: Marks,
}

impl PieceAnswers {
    // No row was asked about.
    fn none() -> PieceAnswers
        ensures { (place : ℕ) → at_place result place ≡ None }
    {
        PieceAnswers {
            asked: Marks::none(),
            passed: Marks::none(),
        }
    }

    // What was answered at a place, if it was asked about.
    fn answer(&self, place: u32) -> Option<bool>
        requires { place < VECTOR }
        ensures { result ≡ at_place self.now place }
    {
        if self.asked.get(place) {
            Some(self.passed.get(place))
        } else {
            None
        }
    }

    // An answer is remembered.
    fn tell(&mut self, place: u32, passes: bool)
        requires { place < VECTOR }
        ensures { Tells (at_place self.old) (at_place self.new) place passes }
    {
        self.asked.set(place, true);
        self.passed.set(place, passes);
    }
}

/// The same of the rows of a table. There is room for them from the start.
#[derive(Drop)]
pub(crate) struct TableAnswers {
    pub(crate) pieces: Vec<PieceAnswers>,
}

impl TableAnswers {
    /// Room for so many rows, none of which was asked about.
    pub(crate) fn new(alloc: Global, rows: u32) -> Result<TableAnswers, Memory>
        ensures { IfOk result (λ t. (row : ℕ) → at_row t row ≡ None) }
    {
        let count = rows.div_ceil(VECTOR);
        let mut pieces = Vec::with_capacity(alloc, count as usize)?;
        'pieces: for _piece in 0..count {
            pieces.push(PieceAnswers::none())?;
        }
        Ok(TableAnswers { pieces })
    }

    // What was answered of a row, if it was asked about.
    fn answer(&self, row: u32) -> Option<bool>
        ensures { result ≡ at_row self.now row }
    {
        match self.pieces.get(row as usize / VECTOR as usize) {
            None => None,
            Some(piece) => piece.answer(row % VECTOR),
        }
    }

    // An answer is remembered, where there is room for the row.
    fn tell(&mut self, row: u32, passes: bool)
        ensures { Tells (at_row self.old) (at_row self.new) row passes }
    {
        let piece = row as usize / VECTOR as usize;
        if piece < self.pieces.len() {
            self.pieces[piece].tell(row % VECTOR, passes);
        }
    }
}

/// What was answered of a node, if it was asked about.
pub(crate) fn answer_of(answers: &[TableAnswers], node: NodeId) -> Option<bool>
    ensures { result ≡ at_node answers.now node }
{
    match answers.get(node.table as usize) {
        None => None,
        Some(table) => table.answer(node.row),
    }
}

/// The answer about a node is remembered, where there is room for it.
pub(crate) fn tell(answers: &mut Vec<TableAnswers>, node: NodeId, passes: bool)
    ensures { Tells (at_node answers.old.items) (at_node answers.new.items) node passes }
{
    let table = node.table as usize;
    if table < answers.len() {
        answers[table].tell(node.row, passes);
    }
}
