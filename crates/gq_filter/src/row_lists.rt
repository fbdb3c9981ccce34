//! Which marked rows of a list pass a test of the properties of one node variable.
ghost use Rattle.std.specs.Prelude.{◌≡◌, ℕ, ◌≤◌, ◌&&◌, false, length, map, slice_index};
ghost use Rattle.std.specs.List.{list_all};
ghost use Rattle.gq_bits.specs.Places.{is_marked};
ghost use Rattle.gq_column.specs.Cells.{cell_at};
ghost use Rattle.gq_filter.specs.LaneTests.{holds, passes};
ghost use Rattle.gq_filter.specs.RowLists.{cells_at};
ghost use Rattle.gq_lanes.specs.Tests.{compares};

use crate::cells::{Cells, compared, holds_at};
use crate::lane_test::LaneTest;
use crate::row_cells::cell_at;
use crate::source::Feed;
use crate::span_lanes::feed_at;
use gq_bits::{Marks, VECTOR};
use gq_column::Column;
use gq_lanes::LaneOp;

/// The cells that lanes have at one row, or place, of their columns.
#[derive(Clone, Copy)]
pub(crate) struct ColumnCells<'r> {
    pub(crate) feeds: &'r [Feed<'r>],
    pub(crate) row: u32,
}

impl Cells for ColumnCells<'_> {
    ghost use Rattle.gq_filter.specs.RowLists.{cells_at};

    ghost cell = { λ c lane. cells_at c.feeds.now c.row lane };

    fn cell(&self, lane: u32) -> Option<i64> {
        let feed = feed_at(self.feeds, lane)?;
        cell_at(feed.property.column(), self.row)
    }
}

/// Keeps the marked places of a list at whose row a test of lanes holds: all lanes are of the node
/// variable that has the row. It takes no memory.
#[cycle(keep_list)]
#[tactic(auto, using(crate::proofs::Equations::equations))]
pub(crate) fn keep_list(test: &LaneTest, feeds: &[Feed<'_>], rows: &[u32], marks: &mut Marks)
    requires few { length rows.now ≤ VECTOR }
    requires within { (k : ℕ) → length rows.now ≤ k → is_marked marks.old k ≡ false }
    ensures { (k : ℕ) → is_marked marks.new k ≡ (is_marked marks.old k
        && holds (cells_at feeds.now (slice_index rows.now k)) test.now) }
{
    match test {
        LaneTest::Const { lane, op, constant } => match feed_at(feeds, *lane) {
            None => *marks = Marks::none(),
            Some(feed) => keep_compared(feed.property.column(), *op, *constant, rows, marks),
        },
        LaneTest::All(tests) => keep_all(tests.as_slice(), feeds, rows, marks),
        _ => keep_each(test, feeds, rows, marks),
    }
}

#[cycle(keep_list)]
fn keep_all(tests: &[LaneTest], feeds: &[Feed<'_>], rows: &[u32], marks: &mut Marks)
    requires few { length rows.now ≤ VECTOR }
    requires within { (k : ℕ) → length rows.now ≤ k → is_marked marks.old k ≡ false }
    ensures { (k : ℕ) → is_marked marks.new k ≡ (is_marked marks.old k
        && list_all (λ on. on) (map (holds (cells_at feeds.now (slice_index rows.now k)))
        tests.now)) }
{
    for test in tests {
        keep_list(test, feeds, rows, marks);
    }
}

/// Keeps the places whose cell is known and compares so with the constant. Queries mostly ask just
/// this of a node's neighbours, and there are many of them, so that the loop does nothing else.
pub(crate) fn keep_compared(
    column: &Column,
    op: LaneOp,
    constant: i64,
    rows: &[u32],
    marks: &mut Marks,
)
    requires few { length rows.now ≤ VECTOR }
    requires within { (k : ℕ) → length rows.now ≤ k → is_marked marks.old k ≡ false }
    ensures { (k : ℕ) → is_marked marks.new k ≡ (is_marked marks.old k
        && passes (λ z. compares op z constant) (cell_at column.now (slice_index rows.now k))) }
{
    for place in 0..rows.len() {
        if !marks.get(place as u32) {
            continue;
        }
        if !compared(op, cell_at(column, rows[place]), constant) {
            marks.set(place as u32, false);
        }
    }
}

// Keeps the places at whose row the test holds.
fn keep_each(test: &LaneTest, feeds: &[Feed<'_>], rows: &[u32], marks: &mut Marks)
    requires few { length rows.now ≤ VECTOR }
    requires within { (k : ℕ) → length rows.now ≤ k → is_marked marks.old k ≡ false }
    ensures { (k : ℕ) → is_marked marks.new k ≡ (is_marked marks.old k
        && holds (cells_at feeds.now (slice_index rows.now k)) test.now) }
{
    for place in 0..rows.len() {
        if !marks.get(place as u32) {
            continue;
        }
        let cells = ColumnCells {
            feeds: &*feeds,
            row: rows[place],
        };
        if !holds_at(test, &cells) {
            marks.set(place as u32, false);
        }
    }
}
