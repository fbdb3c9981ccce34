//! Whether a test of lanes holds at one place, cell by cell.
ghost use Rattle.std.specs.Prelude.{◌≡◌, ℕ, ℤ, Option, map, not};
ghost use Rattle.std.specs.List.{list_all, list_any};
ghost use Rattle.gq_filter.specs.LaneTests.{holds, pass, passes};
ghost use Rattle.gq_lanes.specs.Tests.{compares, is_between};

use crate::lane_test::LaneTest;
use gq_lanes::LaneOp;

/// The cells that lanes have at one place, each read when it is asked for.
pub trait Cells {
    /// The cell of a lane, where it is known.
    ghost cell: { Self → ℕ → Option ℤ };

    /// The cell of a lane, or `None` where it is not known.
    fn cell(&self, lane: u32) -> Option<i64>
        ensures { result ≡ cell self.now lane };
}

/// Whether a test holds at a place. Where many places of lanes stand side by side, `keep_lanes` is
/// faster.
#[cycle(holds_at)]
#[tactic(auto, using(crate::proofs::Equations::equations))]
pub fn holds_at<C: Cells>(test: &LaneTest, cells: &C) -> bool
    ensures { result ≡ holds (C.cell cells.now) test.now }
{
    match test {
        LaneTest::Const { lane, op, constant } => compared(*op, cells.cell(*lane), *constant),
        LaneTest::Columns { left, op, right } => {
            both_compared(*op, cells.cell(*left), cells.cell(*right))
        }
        LaneTest::Range { lane, low, high } => between(cells.cell(*lane), *low, *high),
        LaneTest::Outside { lane, low, high } => outside(cells.cell(*lane), *low, *high),
        LaneTest::Known(lane) => cells.cell(*lane).is_some(),
        LaneTest::Null(lane) => cells.cell(*lane).is_none(),
        LaneTest::All(tests) => all_hold(tests.as_slice(), cells),
        LaneTest::Any(tests) => any_holds(tests.as_slice(), cells),
    }
}

#[cycle(holds_at)]
fn all_hold<C: Cells>(tests: &[LaneTest], cells: &C) -> bool
    ensures { result ≡ list_all (λ on. on) (map (holds (C.cell cells.now)) tests.now) }
{
    for test in tests {
        if !holds_at(test, cells) {
            return false;
        }
    }
    true
}

#[cycle(holds_at)]
fn any_holds<C: Cells>(tests: &[LaneTest], cells: &C) -> bool
    ensures { result ≡ list_any (λ on. on) (map (holds (C.cell cells.now)) tests.now) }
{
    for test in tests {
        if holds_at(test, cells) {
            return true;
        }
    }
    false
}

/// Whether a cell is known and compares so with a constant.
pub(crate) fn compared(op: LaneOp, cell: Option<i64>, constant: i64) -> bool
    ensures { result ≡ passes (λ z. compares op z constant) cell }
{
    match cell {
        None => false,
        Some(cell) => compares(op, cell, constant),
    }
}

/// Whether two cells are known and compare so.
pub(crate) fn both_compared(op: LaneOp, left: Option<i64>, right: Option<i64>) -> bool
    ensures { result ≡ pass (compares op) left right }
{
    match left {
        None => false,
        Some(left) => match right {
            None => false,
            Some(right) => compares(op, left, right),
        },
    }
}

// Whether a cell is known and stands from `low` to below `high`.
fn between(cell: Option<i64>, low: i64, high: i64) -> bool
    ensures { result ≡ passes (is_between low high) cell }
{
    match cell {
        None => false,
        Some(cell) => low <= cell && cell < high,
    }
}

// Whether a cell is known and does not stand from `low` to below `high`.
fn outside(cell: Option<i64>, low: i64, high: i64) -> bool
    ensures { result ≡ passes (λ z. not (is_between low high z)) cell }
{
    match cell {
        None => false,
        Some(cell) => !(low <= cell && cell < high),
    }
}

fn compares(op: LaneOp, left: i64, right: i64) -> bool
    ensures { result ≡ compares op left right }
{
    match op {
        LaneOp::Equal => left == right,
        LaneOp::NotEqual => left != right,
        LaneOp::Less => left < right,
        LaneOp::LessEqual => left <= right,
        LaneOp::Greater => left > right,
        LaneOp::GreaterEqual => left >= right,
    }
}
