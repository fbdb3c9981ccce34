//! The lines of an answer, and the listing that has them.
ghost use Rattle.std.specs.Prelude.{◌≡◌, ℕ, ◌<◌, ◌≤◌, ◌+◌, ◌-◌, ◌*◌, [], IsTrue, length, nat_eq};
ghost use Rattle.std.specs.Prelude.{slice_index_or};
ghost use Rattle.std.specs.List.{All};
ghost use Rattle.gq_base.specs.Values.{null, val};
ghost use Rattle.gq_base.specs.declared.value.Value.TheVariants as value;
ghost use Rattle.gq_cells.specs.Lanes.{lane_val};
ghost use Rattle.gq_rows.specs.steps.Lines.{values_of};

use gq_base::Value;
use gq_cells::{Cells, Lane};
use std::marker::Model;

/// The values of rows, one row after another.
#[derive(Drop)]
pub enum Values<'g> {
    Made(Vec<Value<'g>>),
    Kept(Cells<'g>),
}

impl<'g> Values<'g> {
    // A value, counted from 0.
    #[inline(always)]
    fn value(&self, index: usize) -> Value<'g>
        requires { index < length (values_of self.now) }
        ensures { val result ≡ slice_index_or (values_of self.now) index null }
    {
        match self {
            Values::Made(values) => values[index],
            Values::Kept(cells) => cells.value(index),
        }
    }

    // Values that stand so many places from one another, from a place on.
    fn values(&self, first: usize, step: usize, count: usize, out: &mut Lane<'g>)
        requires few { count ≤ 64 }
        requires within { (k : ℕ) → k < count → first + k * step < length (values_of self.now) }
        ensures { (k : ℕ) → k < count → lane_val out.new k
            ≡ slice_index_or (values_of self.now) (first + k * step) null }
    {
        match self {
            Values::Made(values) => {
                out.has_integers = false;
                made_values(values.as_slice(), first, step, count, &mut out.values);
            }
            Values::Kept(cells) => cells.values(first, step, count, out),
        }
    }
}

fn made_values<'g>(
    values: &[Value<'g>],
    first: usize,
    step: usize,
    count: usize,
    out: &mut [Value<'g>; 64],
)
    requires few { count ≤ 64 }
    requires within { (k : ℕ) → k < count → first + k * step < length values.now }
    ensures { (k : ℕ) → k < count → val (slice_index_or out.new k value.Null)
        ≡ val (slice_index_or values.now (first + k * step) value.Null) }
{
    // For the arithmetic: their number fits 64 bits.
    let _ = values.len();
    for place in 0..count {
        out[place] = values[first + place * step];
    }
}

/// The lines that answer a query, each with one value for each of its columns. The first lines of
/// the list of values are skipped.
#[derive(Drop)]
pub struct Lines<'g> {
    pub(crate) values: Values<'g>,
    pub(crate) width: usize,
    pub(crate) skip: usize,
    pub(crate) end: usize,
}

impl<'g> Model for Lines<'g> {
    ghost use Rattle.std.specs.Prelude.{List};
    ghost use Rattle.gq_base.specs.Values.{Val};

    ghost Value = { List (List Val) };

    ghost use Rattle.gq_rows.specs.steps.Lines.{HasLines, lines_of};

    ghost view = { lines_of };

    ghost invariant = { HasLines };
}

impl<'g> Lines<'g> {
    /// How many lines there are.
    pub fn len(&self) -> usize
        ensures { result ≡ length self.now }
    {
        self.end.saturating_sub(self.skip)
    }

    /// Whether there are no lines.
    pub fn is_empty(&self) -> bool
        ensures { result ≡ nat_eq (length self.now) 0 }
    {
        self.len() == 0
    }

    /// How many values a line has, which is as many as each has.
    pub fn width(&self, row: usize) -> usize
        requires { row < length self.now }
        ensures width { result ≡ length (slice_index_or self.now row []) }
        ensures all { All (λ line. length line ≡ result) self.now }
    {
        let _ = row;
        self.width
    }

    /// The value of a line in a column, both counted from 0.
    #[inline(always)]
    pub fn value(&self, row: usize, column: usize) -> Value<'g>
        requires row { row < length self.now }
        requires column { column < length (slice_index_or self.now row []) }
        ensures { val result ≡ slice_index_or (slice_index_or self.now row []) column null }
    {
        self.values.value((self.skip + row) * self.width + column)
    }

    /// The values of at most 64 lines from a line on in a column, each in its place.
    pub fn values(&self, first: usize, count: usize, column: usize, out: &mut Lane<'g>)
        requires few { count ≤ 64 }
        requires lines { first + count ≤ length self.now }
        requires column { All (λ line. column < length line) self.now }
        ensures { (k : ℕ) → k < count → lane_val out.new k
            ≡ slice_index_or (slice_index_or self.now (first + k) []) column null }
    {
        if count > 0 {
            let place = (self.skip + first) * self.width + column;
            self.values.values(place, self.width, count, out);
        }
    }

    /// Whether the value of a line in a column, both counted from 0, is kept as that of the line
    /// before is: then they are the same. Where it is not, they may be the same too.
    #[inline(always)]
    pub fn stays(&self, row: usize, column: usize) -> bool
        requires behind { 0 < row }
        requires row { row < length self.now }
        requires column { column < length (slice_index_or self.now row []) }
        ensures { IsTrue result → slice_index_or (slice_index_or self.now (row - 1) []) column null
            ≡ slice_index_or (slice_index_or self.now row []) column null }
    {
        match &self.values {
            Values::Made(_) => false,
            Values::Kept(cells) => {
                let place = (self.skip + row) * self.width + column;
                cells.same(place - self.width, place)
            }
        }
    }
}

/// What a table of rows gives in the end: its lines, how many columns they have, and how many
/// chunks with a row it took.
#[derive(Drop)]
pub struct Listing<'g> {
    pub(crate) lines: Lines<'g>,
    pub(crate) columns: usize,
    pub(crate) pushed: u64,
}

impl<'g> Listing<'g> {
    /// How many lines there are.
    pub fn len(&self) -> usize
        ensures { result ≡ length self.now.lines }
    {
        self.lines.len()
    }

    /// Whether there are no lines.
    pub fn is_empty(&self) -> bool
        ensures { result ≡ nat_eq (length self.now.lines) 0 }
    {
        self.lines.is_empty()
    }

    /// How many columns there are, also where there are no lines.
    pub fn columns(&self) -> usize
        ensures { result ≡ self.now.columns }
    {
        self.columns
    }

    /// How many values a line, counted from 0, has: one for each column, as each line has.
    pub fn width(&self, row: usize) -> usize
        requires { row < length self.now.lines }
        ensures width { result ≡ length (slice_index_or self.now.lines row []) }
        ensures all { All (λ line. length line ≡ result) self.now.lines }
    {
        self.lines.width(row)
    }

    /// The value of a line in a column, both counted from 0.
    #[inline(always)]
    pub fn value(&self, row: usize, column: usize) -> Value<'g>
        requires row { row < length self.now.lines }
        requires column { column < length (slice_index_or self.now.lines row []) }
        ensures { val result ≡ slice_index_or (slice_index_or self.now.lines row []) column null }
    {
        self.lines.value(row, column)
    }

    /// Whether the values are kept as numbers. Then it pays to read those of many lines at once.
    pub fn is_kept(&self) -> bool {
        match &self.lines.values {
            Values::Made(_) => false,
            Values::Kept(_) => true,
        }
    }

    /// The values of at most 64 lines from a line on, counted from 0, in a column, each in its place:
    /// read in one loop, where they are kept in one way.
    pub fn values(&self, first: usize, count: usize, column: usize, out: &mut Lane<'g>)
        requires few { count ≤ 64 }
        requires lines { first + count ≤ length self.now.lines }
        requires column { All (λ line. column < length line) self.now.lines }
        ensures { (k : ℕ) → k < count → lane_val out.new k
            ≡ slice_index_or (slice_index_or self.now.lines (first + k) []) column null }
    {
        self.lines.values(first, count, column, out);
    }

    /// Whether the value of a line in a column, both counted from 0, is kept as that of the line
    /// before is: then they are the same. Where it is not, they may be the same too.
    #[inline(always)]
    pub fn stays(&self, row: usize, column: usize) -> bool
        requires behind { 0 < row }
        requires row { row < length self.now.lines }
        requires column { column < length (slice_index_or self.now.lines row []) }
        ensures { let lines = self.now.lines in IsTrue result
            → slice_index_or (slice_index_or lines (row - 1) []) column null
            ≡ slice_index_or (slice_index_or lines row []) column null }
    {
        self.lines.stays(row, column)
    }

    /// How many chunks with at least one row were pushed to the table. The number stands still at
    /// 2^64 - 1.
    pub fn pushed(&self) -> u64
        ensures { result ≡ self.now.pushed }
    {
        self.pushed
    }
}
