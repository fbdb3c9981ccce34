//! A column of optional integers that keeps only those that are not null. It is seen as the list of
//! its cells. The crate stands on the bits of `gq_bits`, which say which rows have a cell and where
//! it is kept.
#![tactic(auto)]

ghost use Rattle.std.specs.Prelude.{◌≡◌, ℕ, ◌+◌, ◌-◌, ◌^◌, ◌++◌, [], ◌∷◌, ◌<◌, ◌≤◌, length, map};
ghost use Rattle.std.specs.Prelude.{All, IfOk, slice_index, slice_range, slice_index_or, pos};
ghost use Rattle.std.specs.Prelude.{is_some};
ghost use Rattle.gq_column.specs.Cells.{Gathered, cell_at};
ghost use Rattle.gq_column.specs.steps.Cells.{BlockGathered, kept_of};

mod builder;

pub use builder::ColumnBuilder;
use gq_base::Memory;
use gq_bits::{BitList, Marks, VECTOR};
use std::alloc::Global;
use std::hint::select_unpredictable;
use std::marker::Model;

/// A column of fewer than 2^32 cells. It is seen as the list of its optional integers.
#[derive(Drop)]
pub struct Column {
    // Which rows are not null.
    present: BitList,
    // Their cells, that of a row at the row's rank, and behind them a 0 for the rows that are null.
    kept: Vec<i64>,
}

impl Model for Column {
    ghost use Rattle.std.specs.Prelude.{List, ℤ, Option};
    ghost use Rattle.gq_column.specs.steps.Cells.{cells_of, AreKept};

    ghost Value = { List (Option ℤ) };

    ghost view = { λ c. cells_of c.present c.kept.items };

    ghost invariant = { λ c. AreKept c.present c.kept.items };
}

impl Column {
    /// The column of these cells.
    pub fn build(alloc: Global, cells: &[Option<i64>]) -> Result<Column, Memory>
        requires { length cells.now < 2 ^ 32 }
        ensures { IfOk result (λ column. column ≡ cells.now) }
    {
        let mut growing = ColumnBuilder::with_capacity(alloc, cells.len() as u32)?;
        for cell in cells {
            growing.push(*cell)?;
        }
        growing.build(alloc)
    }

    /// How many rows the column has.
    pub fn len(&self) -> u32
        ensures { result ≡ length self.now }
    {
        self.present.len()
    }

    /// The cell of a row.
    pub fn get(&self, row: u32) -> Option<i64>
        requires { row < length self.now }
        ensures { result ≡ cell_at self.now row }
    {
        if self.kept.len() > self.present.len() as usize {
            // No row is null, so each cell stands at its row.
            return Some(self.kept[row as usize]);
        }
        if self.present.get(row) {
            Some(self.kept[self.present.rank(row) as usize])
        } else {
            None
        }
    }

    /// Gathers the cells of rows, in their order.
    pub fn gather(&self, rows: &[u32], out: &mut [i64], known: &mut Marks)
        requires few { length rows.now ≤ VECTOR }
        requires inside { All (λ row. row < length self.now) rows.now }
        requires room { length rows.now ≤ length out.old }
        ensures { Gathered (map (λ row. cell_at self.now row) rows.now) out.old out.new known.new }
    {
        if self.kept.len() > self.present.len() as usize {
            // No row is null, so each cell stands at its row.
            copy_rows(self.kept.as_slice(), rows, out);
            *known = Marks::first(rows.len() as u32);
        } else {
            self.gather_by_rank(rows, out, known);
        }
    }

    /// Gathers the cells of the rows from `low` to below `high`.
    pub fn gather_span(&self, low: u32, high: u32, out: &mut [i64], known: &mut Marks)
        requires ordered { low ≤ high }
        requires few { high - low ≤ VECTOR }
        requires inside { high ≤ length self.now }
        requires room { high - low ≤ length out.old }
        ensures { Gathered (slice_range self.now low high) out.old out.new known.new }
    {
        let first = self.present.rank(low) as usize;
        let end = self.present.rank(high) as usize;
        let count = (high - low) as usize;
        if end - first == count {
            // No row of the span is null, so its cells stand side by side.
            out[..count].copy_from_slice(&self.kept[first..end]);
            *known = Marks::first(high - low);
        } else {
            self.gather_span_with_nulls(low, high, out, known);
        }
    }

    fn gather_by_rank(&self, rows: &[u32], out: &mut [i64], known: &mut Marks)
        requires few { length rows.now ≤ VECTOR }
        requires inside { All (λ row. row < length self.now) rows.now }
        requires room { length rows.now ≤ length out.old }
        ensures { Gathered (map (λ row. cell_at self.now row) rows.now) out.old out.new known.new }
    {
        let count = rows.len();
        *known = Marks::first(count as u32);
        for index in 0..count.div_ceil(64) {
            let low = 64 * index;
            let high = count.min(low + 64);
            let word = self.gather_block(rows, low, high, out);
            known.keep_word(index as u32, word);
        }
    }

    // Gathers the places from `low` to below `high`. No branch hangs on a cell, since nulls stand
    // in no order. The last place comes first, so that the word grows by doubling.
    fn gather_block(&self, rows: &[u32], low: usize, high: usize, out: &mut [i64]) -> u64
        requires ordered { low ≤ high }
        requires few { high - low ≤ 64 }
        requires covered { high ≤ length rows.now }
        requires inside { All (λ row. row < length self.now) rows.now }
        requires room { length rows.now ≤ length out.old }
        ensures { BlockGathered
            (λ k. cell_at self.now (slice_index rows.now k)) low high out.old out.new result }
    {
        let null = self.kept.len() - 1;
        let mut word = 0;
        for done in 0..high - low {
            let place = high - 1 - done;
            let row = rows[place];
            let on = self.present.get(row);
            let rank = self.present.rank(row) as usize;
            out[place] = self.kept[select_unpredictable(on, rank, null)];
            word = 2 * word + u64::from(on);
        }
        word
    }

    fn gather_span_with_nulls(&self, low: u32, high: u32, out: &mut [i64], known: &mut Marks)
        requires ordered { low ≤ high }
        requires few { high - low ≤ VECTOR }
        requires inside { high ≤ length self.now }
        requires room { high - low ≤ length out.old }
        ensures { Gathered (slice_range self.now low high) out.old out.new known.new }
    {
        let count = high - low;
        *known = Marks::first(count);
        for index in 0..count.div_ceil(64) {
            let first = 64 * index;
            let end = count.min(first + 64);
            let word = self.gather_span_block(low, first, end, out);
            known.keep_word(index, word);
        }
    }

    // Gathers the rows from `low + first` on into the places from `first` to below `end`, without a
    // branch on a cell.
    fn gather_span_block(&self, low: u32, first: u32, end: u32, out: &mut [i64]) -> u64
        requires ordered { first ≤ end }
        requires few { end - first ≤ 64 }
        requires inside { low + end ≤ length self.now }
        requires room { end ≤ length out.old }
        ensures { BlockGathered (λ k. cell_at self.now (low + k)) first end out.old out.new result }
    {
        let null = self.kept.len() - 1;
        let mut next = self.present.rank(low + first) as usize;
        let mut word = 0;
        for place in first..end {
            let on = self.present.get(low + place);
            out[place as usize] = self.kept[select_unpredictable(on, next, null)];
            next += usize::from(on);
            word |= u64::from(on) << (place - first);
        }
        word
    }
}

fn copy_rows(cells: &[i64], rows: &[u32], out: &mut [i64])
    requires inside { All (λ row. row < length cells.now) rows.now }
    requires room { length rows.now ≤ length out.old }
    ensures written { (k : ℕ) → k < length rows.now → slice_index_or out.new k (pos 0)
        ≡ slice_index_or cells.now (slice_index rows.now k) (pos 0) }
    ensures rest { (k : ℕ) → length rows.now ≤ k
        → slice_index_or out.new k (pos 0) ≡ slice_index_or out.old k (pos 0) }
{
    for (place, row) in rows.iter().enumerate() {
        out[place] = cells[*row as usize];
    }
}
