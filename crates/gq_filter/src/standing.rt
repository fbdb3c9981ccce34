//! Which marked rows of a list pass a test of lanes that reads other variables too: what these have
//! stands while the list is tested, so that it is read once for all its rows.
ghost use Rattle.std.specs.Prelude.{◌≡◌, ℕ, ℤ, ◌≤◌, ◌&&◌, false, length, map, slice_index};
ghost use Rattle.std.specs.List.{list_all};
ghost use Rattle.gq_bits.specs.Places.{is_marked};
ghost use Rattle.gq_column.specs.Cells.{cell_at};
ghost use Rattle.gq_filter.specs.LaneTests.{holds, pass, passes};
ghost use Rattle.gq_filter.specs.steps.RowCells.{cells_of};
ghost use Rattle.gq_filter.specs.steps.Standing.{lane_cell, standing_cells};
ghost use Rattle.gq_lanes.specs.Tests.{compares};

use crate::cells::{Cells, both_compared, compared, holds_at};
use crate::lane_test::LaneTest;
use crate::row_cells::{RowCells, cell_at};
use crate::row_lists::keep_compared;
use crate::span_lanes::feed_at;
use crate::standing_row::StandingRow;
use gq_bits::{Marks, VECTOR};
use gq_column::Column;
use gq_lanes::LaneOp;
use gq_plan::Variable;

/// The cells of a lane, by the row that the variable takes.
#[derive(Clone, Copy)]
enum RowLane<'r> {
    /// Those of a column.
    Moves(&'r Column),
    /// One for all rows.
    Stands(Option<i64>),
}

/// The cells of the lanes where the variable takes one row.
#[derive(Clone, Copy)]
struct TakenCells<'r> {
    lanes: &'r StandingRow<'r>,
    row: u32,
}

impl StandingRow<'_> {
    // The cells of a lane.
    fn lane(&self, lane: u32) -> RowLane<'_>
        ensures { (row : ℕ) → lane_cell result row ≡ standing_cells self.now row lane }
    {
        match feed_at(self.feeds, lane) {
            None => RowLane::Stands(None),
            Some(feed) => match feed.variable {
                Variable::Node(node) => {
                    if node == self.variable {
                        return RowLane::Moves(feed.property.column());
                    }
                    RowLane::Stands(self.stands(lane))
                }
                Variable::Rel(_) => RowLane::Stands(self.stands(lane)),
            },
        }
    }

    // The cell of a lane in the row as it is.
    fn stands(&self, lane: u32) -> Option<i64>
        ensures { result ≡ cells_of self.now.graph.now self.now.feeds.now self.now.row.now lane }
    {
        let cells = RowCells {
            graph: self.graph,
            feeds: self.feeds,
            row: self.row,
        };
        cells.cell(lane)
    }
}

impl Cells for TakenCells<'_> {
    ghost use Rattle.gq_filter.specs.steps.Standing.{standing_cells};

    ghost cell = { λ c lane. standing_cells c.lanes.now c.row lane };

    fn cell(&self, lane: u32) -> Option<i64> {
        match self.lanes.lane(lane) {
            RowLane::Moves(column) => cell_at(column, self.row),
            RowLane::Stands(cell) => cell,
        }
    }
}

/// Keeps the marked places of a list at whose row a test of lanes holds. It takes no memory.
#[cycle(keep_standing)]
#[tactic(auto, using(crate::proofs::Equations::equations))]
pub(crate) fn keep_standing(
    test: &LaneTest,
    lanes: &StandingRow<'_>,
    rows: &[u32],
    marks: &mut Marks,
)
    requires few { length rows.now ≤ VECTOR }
    requires within { (k : ℕ) → length rows.now ≤ k → is_marked marks.old k ≡ false }
    ensures { (k : ℕ) → is_marked marks.new k ≡ (is_marked marks.old k
        && holds (standing_cells lanes.now (slice_index rows.now k)) test.now) }
{
    match test {
        LaneTest::Const { lane, op, constant } => {
            keep_const(*op, lanes, *lane, *constant, rows, marks)
        }
        LaneTest::Columns { left, op, right } => {
            keep_columns(*op, lanes, *left, *right, rows, marks)
        }
        LaneTest::All(tests) => keep_all(tests.as_slice(), lanes, rows, marks),
        _ => keep_each(test, lanes, rows, marks),
    }
}

#[cycle(keep_standing)]
fn keep_all(tests: &[LaneTest], lanes: &StandingRow<'_>, rows: &[u32], marks: &mut Marks)
    requires few { length rows.now ≤ VECTOR }
    requires within { (k : ℕ) → length rows.now ≤ k → is_marked marks.old k ≡ false }
    ensures { (k : ℕ) → is_marked marks.new k ≡ (is_marked marks.old k
        && list_all (λ on. on) (map (holds (standing_cells lanes.now (slice_index rows.now k)))
        tests.now)) }
{
    for test in tests {
        keep_standing(test, lanes, rows, marks);
    }
}

// Keeps the places at which a lane's cell is known and compares so with a constant.
fn keep_const(
    op: LaneOp,
    lanes: &StandingRow<'_>,
    lane: u32,
    constant: i64,
    rows: &[u32],
    marks: &mut Marks,
)
    requires few { length rows.now ≤ VECTOR }
    requires within { (k : ℕ) → length rows.now ≤ k → is_marked marks.old k ≡ false }
    ensures { (k : ℕ) → is_marked marks.new k ≡ (is_marked marks.old k
        && passes (λ z. compares op z constant)
        (standing_cells lanes.now (slice_index rows.now k) lane)) }
{
    match lanes.lane(lane) {
        RowLane::Moves(column) => keep_compared(column, op, constant, rows, marks),
        RowLane::Stands(cell) => {
            let passes = compared(op, cell, constant);
            keep_if(passes, marks);
        }
    }
}

// Keeps the places at which the cells of two lanes are known and compare so.
fn keep_columns(
    op: LaneOp,
    lanes: &StandingRow<'_>,
    left: u32,
    right: u32,
    rows: &[u32],
    marks: &mut Marks,
)
    requires few { length rows.now ≤ VECTOR }
    requires within { (k : ℕ) → length rows.now ≤ k → is_marked marks.old k ≡ false }
    ensures { (k : ℕ) → is_marked marks.new k ≡ (is_marked marks.old k && pass (compares op)
        (standing_cells lanes.now (slice_index rows.now k) left)
        (standing_cells lanes.now (slice_index rows.now k) right)) }
{
    keep_both(op, lanes.lane(left), lanes.lane(right), rows, marks)
}

// The same of the cells that two lanes have.
fn keep_both(op: LaneOp, left: RowLane<'_>, right: RowLane<'_>, rows: &[u32], marks: &mut Marks)
    requires few { length rows.now ≤ VECTOR }
    requires within { (k : ℕ) → length rows.now ≤ k → is_marked marks.old k ≡ false }
    ensures { (k : ℕ) → is_marked marks.new k ≡ (is_marked marks.old k && pass (compares op)
        (lane_cell left.entry (slice_index rows.now k))
        (lane_cell right.entry (slice_index rows.now k))) }
{
    match left {
        RowLane::Moves(column) => match right {
            RowLane::Moves(other) => keep_pairs(op, column, other, rows, marks),
            RowLane::Stands(cell) => keep_against(op, column, cell, rows, marks),
        },
        RowLane::Stands(cell) => match right {
            RowLane::Moves(column) => keep_against(turned(op), column, cell, rows, marks),
            RowLane::Stands(other) => {
                let passes = both_compared(op, cell, other);
                keep_if(passes, marks);
            }
        },
    }
}

// Keeps the places at which a column's cell and one that stands are known and compare so.
fn keep_against(op: LaneOp, column: &Column, cell: Option<i64>, rows: &[u32], marks: &mut Marks)
    requires few { length rows.now ≤ VECTOR }
    requires within { (k : ℕ) → length rows.now ≤ k → is_marked marks.old k ≡ false }
    ensures { (k : ℕ) → is_marked marks.new k ≡ (is_marked marks.old k
        && pass (compares op) (cell_at column.now (slice_index rows.now k)) cell) }
{
    match cell {
        None => *marks = Marks::none(),
        Some(constant) => keep_compared(column, op, constant, rows, marks),
    }
}

// Keeps the places at which the cells of two columns are known and compare so.
fn keep_pairs(op: LaneOp, left: &Column, right: &Column, rows: &[u32], marks: &mut Marks)
    requires few { length rows.now ≤ VECTOR }
    requires within { (k : ℕ) → length rows.now ≤ k → is_marked marks.old k ≡ false }
    ensures { (k : ℕ) → is_marked marks.new k ≡ (is_marked marks.old k && pass (compares op)
        (cell_at left.now (slice_index rows.now k)) (cell_at right.now (slice_index rows.now k))) }
{
    for place in 0..rows.len() {
        if !marks.get(place as u32) {
            continue;
        }
        let row = rows[place];
        if !both_compared(op, cell_at(left, row), cell_at(right, row)) {
            marks.set(place as u32, false);
        }
    }
}

// Keeps the places at whose row the test holds.
fn keep_each(test: &LaneTest, lanes: &StandingRow<'_>, rows: &[u32], marks: &mut Marks)
    requires few { length rows.now ≤ VECTOR }
    requires within { (k : ℕ) → length rows.now ≤ k → is_marked marks.old k ≡ false }
    ensures { (k : ℕ) → is_marked marks.new k ≡ (is_marked marks.old k
        && holds (standing_cells lanes.now (slice_index rows.now k)) test.now) }
{
    for place in 0..rows.len() {
        if !marks.get(place as u32) {
            continue;
        }
        let cells = TakenCells {
            lanes: &*lanes,
            row: rows[place],
        };
        if !holds_at(test, &cells) {
            marks.set(place as u32, false);
        }
    }
}

// Keeps all marks, or none.
fn keep_if(passes: bool, marks: &mut Marks)
    ensures { (k : ℕ) → is_marked marks.new k ≡ (is_marked marks.old k && passes) }
{
    if !passes {
        *marks = Marks::none();
    }
}

// The comparison of the cells in turn.
fn turned(op: LaneOp) -> LaneOp
    ensures { (a b : ℤ) → compares result a b ≡ compares op b a }
{
    match op {
        LaneOp::Equal => LaneOp::Equal,
        LaneOp::NotEqual => LaneOp::NotEqual,
        LaneOp::Less => LaneOp::Greater,
        LaneOp::LessEqual => LaneOp::GreaterEqual,
        LaneOp::Greater => LaneOp::Less,
        LaneOp::GreaterEqual => LaneOp::LessEqual,
    }
}
