//! Rows that are marked, so many at most.
ghost use Rattle.std.specs.Prelude.{◌≡◌, ◌<◌, ◌+◌, ◌*◌, ◌&&◌, ℕ, All, IfSome, true};
ghost use Rattle.gq_bits.specs.Places.{is_marked};
ghost use Rattle.gq_masks.specs.Masks.{may_have};

use gq_base::Memory;
use gq_bits::{Marks, VECTOR};
use std::alloc::Global;

/// Rows that are marked, a bit for each row of a table, and how many rows may be marked yet.
#[derive(Drop)]
pub(crate) struct Marked {
    pub(crate) pieces: Vec<Marks>,
    pub(crate) spare: usize,
}

impl Marked {
    /// None of so many rows is marked. Twice as many may be: more would take longer than what is
    /// saved by it. Their memory is taken.
    pub(crate) fn none(alloc: Global, rows: u32) -> Result<Marked, Memory> {
        let mut pieces = Vec::new(alloc);
        for _ in 0..rows.div_ceil(VECTOR) {
            pieces.push(Marks::none())?;
        }
        let spare = rows as usize * 2;
        Ok(Marked { pieces, spare })
    }

    /// Whether a row may be marked: it is, or there is no mark for it.
    pub(crate) fn has(&self, row: u32) -> bool
        ensures { result ≡ may_have self.now.pieces.items row }
    {
        match self.pieces.get(row as usize / VECTOR as usize) {
            None => true,
            Some(marks) => marks.get(row % VECTOR),
        }
    }

    /// Of a piece of rows, keeps those that may be marked.
    pub(crate) fn keep(&self, piece: u32, marks: &mut Marks)
        ensures { (k : ℕ) → k < VECTOR → is_marked marks.new k ≡ (is_marked marks.old k
            && may_have self.now.pieces.items (VECTOR * piece + k)) }
    {
        match self.pieces.get(piece as usize) {
            None => {}
            Some(own) => marks.and(own),
        }
    }

    /// Marks the rows of a list, unless those are more than may be marked.
    pub(crate) fn mark(&mut self, rows: &[u32]) -> bool
        ensures own { result ≡ true →
            All (λ row. may_have self.new.pieces.items row ≡ true) rows.now }
        ensures others { (k : ℕ) → may_have self.old.pieces.items k ≡ true →
            may_have self.new.pieces.items k ≡ true }
    {
        match self.spare.checked_sub(rows.len()) {
            None => false,
            Some(spare) => {
                self.spare = spare;
                mark_all(&mut self.pieces, rows);
                true
            }
        }
    }

    /// Marks a row, if there is one.
    pub(crate) fn mark_one(&mut self, row: Option<u32>)
        ensures own { IfSome row (λ r. may_have self.new.pieces.items r ≡ true) }
        ensures others { (k : ℕ) → may_have self.old.pieces.items k ≡ true →
            may_have self.new.pieces.items k ≡ true }
    {
        match row {
            None => {}
            Some(row) => mark_row(&mut self.pieces, row),
        }
    }
}

// Marks rows.
fn mark_all(pieces: &mut Vec<Marks>, rows: &[u32])
    ensures own { All (λ row. may_have pieces.new.items row ≡ true) rows.now }
    ensures others { (k : ℕ) → may_have pieces.old.items k ≡ true →
        may_have pieces.new.items k ≡ true }
{
    for row in rows {
        mark_row(pieces, *row);
    }
}

// Marks a row.
fn mark_row(pieces: &mut Vec<Marks>, row: u32)
    ensures own { may_have pieces.new.items row ≡ true }
    ensures others { (k : ℕ) → may_have pieces.old.items k ≡ true →
        may_have pieces.new.items k ≡ true }
{
    match pieces.get_mut(row as usize / VECTOR as usize) {
        None => {}
        Some(marks) => marks.set(row % VECTOR, true),
    }
}
