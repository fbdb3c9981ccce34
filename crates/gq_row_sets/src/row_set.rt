//! Sets of the first rows of a table.
ghost use Rattle.std.specs.Prelude.{◌≡◌, ℕ, ◌*◌, ◌<◌, ◌≤◌, ◌==◌, ◌&&◌, if◌then◌else◌, IfOk, All};
ghost use Rattle.std.specs.Prelude.{length, take, drop, false, slice_index};
ghost use Rattle.std.specs.Int.{bit_at};
ghost use Rattle.gq_bits.specs.Places.{is_marked};
ghost use Rattle.gq_row_sets.specs.Rows.{also_told, next_end, nothing_told};

use gq_base::Memory;
use gq_bits::{Marks, VECTOR};
use std::alloc::Global;
use std::marker::Model;

/// Which of the first rows of a table are in a set: it is told of them piece by piece, `VECTOR` rows
/// at a time. It is seen as how many rows the table has, and for each of the first ones whether it
/// is in the set.
#[derive(Drop)]
pub struct RowSet {
    rows: u32,
    told: u32,
    pieces: Vec<Marks>,
}

impl Model for RowSet {
    ghost use Rattle.gq_row_sets.specs.Rows.{RowsTold};
    ghost use Rattle.gq_row_sets.specs.steps.Pieces.{first_rows, AreTold};

    ghost Value = { RowsTold };

    ghost view = { λ s. record { rows = s.rows; told = first_rows s.told s.pieces.items } };

    ghost invariant = { λ s. AreTold s.rows s.told s.pieces.items };
}

impl RowSet {
    /// A set of the rows of a table that has none.
    pub fn none(alloc: Global) -> RowSet
        ensures { result ≡ nothing_told 0 }
    {
        RowSet {
            rows: 0,
            told: 0,
            pieces: Vec::new(alloc),
        }
    }

    /// A set of so many rows, of which it is not told yet. Their memory is taken.
    pub fn with_room(alloc: Global, rows: u32) -> Result<RowSet, Memory>
        ensures { IfOk result (λ s. s ≡ nothing_told rows) }
    {
        let pieces = Vec::with_capacity(alloc, rows.div_ceil(VECTOR) as usize)?;
        Ok(RowSet {
            rows,
            told: 0,
            pieces,
        })
    }

    /// Of how many rows it is told.
    pub fn told(&self) -> u32
        ensures { result ≡ length self.now.told }
    {
        self.told
    }

    /// Where the piece ends of which it is told next.
    pub fn next_end(&self) -> u32
        ensures end { result ≡ next_end self.now }
        ensures ahead { length self.now.told ≤ result }
    {
        self.told + (self.rows - self.told).min(VECTOR)
    }

    /// Tells of the next piece which of its rows are in the set, where their memory was taken. It
    /// takes none.
    pub fn tell(&mut self, marks: Marks) -> bool
        ensures { self.new ≡ (if result then also_told self.old marks else self.old) }
    {
        let _whole = marks.word(0);
        if self.pieces.len() == self.pieces.capacity() {
            return false;
        }
        let end = self.next_end();
        match self.pieces.push(marks) {
            Ok(()) => {
                self.told = end;
                true
            }
            Err(_) => false,
        }
    }

    /// Keeps the marked places of a list whose rows are in the set.
    pub fn keep(&self, rows: &[u32], marks: &mut Marks)
        requires few { length rows.now ≤ VECTOR }
        requires told { All (λ row. row < length self.now.told) rows.now }
        requires within { (k : ℕ) → length rows.now ≤ k → is_marked marks.old k ≡ false }
        ensures { (k : ℕ) → is_marked marks.new k ≡ (is_marked marks.old k
            && is_marked self.now.told (slice_index rows.now k)) }
    {
        for index in 0..rows.len().div_ceil(64) {
            let mask = self.mask(part_of(rows, index));
            marks.keep_word(index as u32, mask);
        }
    }

    // The places of at most 64 rows that are in the set.
    fn mask(&self, rows: &[u32]) -> u64
        requires few { length rows.now ≤ 64 }
        requires told { All (λ row. row < length self.now.told) rows.now }
        ensures { (i : ℕ) → i < length rows.now → (bit_at result i == 1)
            ≡ is_marked self.now.told (slice_index rows.now i) }
    {
        let mut mask = 0;
        for (place, row) in rows.iter().enumerate() {
            mask |= u64::from(self.has(*row)) << place;
        }
        mask
    }

    /// Whether a row is in the set.
    pub fn has(&self, row: u32) -> bool
        requires { row < length self.now.told }
        ensures { result ≡ is_marked self.now.told row }
    {
        self.pieces[row as usize / VECTOR as usize].get(row % VECTOR)
    }
}

// The rows from 64 * index on, 64 at most.
fn part_of(rows: &[u32], index: usize) -> &[u32]
    requires { 64 * index ≤ length rows.now }
    ensures { result.now ≡ take 64 (drop (64 * index) rows.now) }
{
    let low = 64 * index;
    let count = (rows.len() - low).min(64);
    &rows[low..low + count]
}
