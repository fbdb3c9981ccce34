//! Which marked places of a span of rows, or places, pass a test of their properties.
ghost use Rattle.std.specs.Prelude.{◌≡◌, ℕ, ◌+◌, ◌<◌, ◌≤◌, ◌^◌, ◌&&◌, ◌==◌, false, map};
ghost use Rattle.std.specs.List.{list_all};
ghost use Rattle.std.specs.Int.{bit_at};
ghost use Rattle.gq_bits.specs.Places.{is_marked};
ghost use Rattle.gq_column.specs.Cells.{cell_at};
ghost use Rattle.gq_filter.specs.LaneTests.{holds, passes};
ghost use Rattle.gq_filter.specs.RowLists.{cells_at};
ghost use Rattle.gq_lanes.specs.Tests.{compares};

use crate::cells::{compared, holds_at};
use crate::lane_test::LaneTest;
use crate::row_cells::cell_at;
use crate::row_lists::ColumnCells;
use crate::source::Feed;
use crate::span_lanes::feed_at;
use gq_bits::{Marks, VECTOR};
use gq_column::Column;
use gq_lanes::LaneOp;

/// Keeps the marked places of a span at whose row a test of lanes holds: the first place has the row
/// `low`. It takes no memory. Spans are mostly short, so that no lanes are gathered for them.
#[cycle(keep_span)]
#[tactic(auto, using(crate::proofs::Equations::equations))]
pub(crate) fn keep_span(
    test: &LaneTest,
    feeds: &[Feed<'_>],
    low: u32,
    count: u32,
    marks: &mut Marks,
)
    requires few { count ≤ VECTOR }
    requires fits { low + count < 2 ^ 32 }
    requires within { (k : ℕ) → count ≤ k → is_marked marks.old k ≡ false }
    ensures { (k : ℕ) → is_marked marks.new k ≡ (is_marked marks.old k
        && holds (cells_at feeds.now (low + k)) test.now) }
{
    match test {
        LaneTest::Const { lane, op, constant } => match feed_at(feeds, *lane) {
            None => *marks = Marks::none(),
            Some(feed) => {
                keep_compared(feed.property.column(), *op, *constant, low, count, marks)
            }
        },
        LaneTest::All(tests) => keep_all(tests.as_slice(), feeds, low, count, marks),
        _ => keep_each(test, feeds, low, count, marks),
    }
}

#[cycle(keep_span)]
fn keep_all(tests: &[LaneTest], feeds: &[Feed<'_>], low: u32, count: u32, marks: &mut Marks)
    requires few { count ≤ VECTOR }
    requires fits { low + count < 2 ^ 32 }
    requires within { (k : ℕ) → count ≤ k → is_marked marks.old k ≡ false }
    ensures { (k : ℕ) → is_marked marks.new k ≡ (is_marked marks.old k
        && list_all (λ on. on) (map (holds (cells_at feeds.now (low + k))) tests.now)) }
{
    for test in tests {
        keep_span(test, feeds, low, count, marks);
    }
}

// Keeps the places whose cell is known and compares so with the constant. Queries mostly ask just
// this of relationships, and there are many of them, so that the loop does nothing else.
fn keep_compared(
    column: &Column,
    op: LaneOp,
    constant: i64,
    low: u32,
    count: u32,
    marks: &mut Marks,
)
    requires few { count ≤ VECTOR }
    requires fits { low + count < 2 ^ 32 }
    requires within { (k : ℕ) → count ≤ k → is_marked marks.old k ≡ false }
    ensures { (k : ℕ) → is_marked marks.new k ≡ (is_marked marks.old k
        && passes (λ z. compares op z constant) (cell_at column.now (low + k))) }
{
    for index in 0..count.div_ceil(64) {
        let first = 64 * index;
        let end = count.min(first + 64);
        let mask = compared_mask(column, op, constant, low + first, end - first);
        marks.keep_word(index, mask);
    }
}

// Those of at most 64 rows, from one on, whose cell is known and compares so with the constant.
fn compared_mask(column: &Column, op: LaneOp, constant: i64, low: u32, count: u32) -> u64
    requires few { count ≤ 64 }
    requires fits { low + count < 2 ^ 32 }
    ensures { (i : ℕ) → i < count → (bit_at result i == 1)
        ≡ passes (λ z. compares op z constant) (cell_at column.now (low + i)) }
{
    let mut mask = 0;
    for place in 0..count {
        let on = compared(op, cell_at(column, low + place), constant);
        mask |= u64::from(on) << place;
    }
    mask
}

// Keeps the places at whose row the test holds.
fn keep_each(test: &LaneTest, feeds: &[Feed<'_>], low: u32, count: u32, marks: &mut Marks)
    requires few { count ≤ VECTOR }
    requires fits { low + count < 2 ^ 32 }
    requires within { (k : ℕ) → count ≤ k → is_marked marks.old k ≡ false }
    ensures { (k : ℕ) → is_marked marks.new k ≡ (is_marked marks.old k
        && holds (cells_at feeds.now (low + k)) test.now) }
{
    for place in 0..count {
        if !marks.get(place) {
            continue;
        }
        let cells = ColumnCells {
            feeds: &*feeds,
            row: low + place,
        };
        if !holds_at(test, &cells) {
            marks.set(place, false);
        }
    }
}
