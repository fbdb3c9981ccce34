//! The rows of a table that pass tests of columns, as nodes.
ghost use Rattle.std.specs.Prelude.{◌≡◌, ◌+◌, ◌-◌, ◌<◌, ◌≤◌, ℕ, All, IfOk, false, true, length};
ghost use Rattle.gq_bits.specs.Places.{is_marked};
ghost use Rattle.gq_bits.specs.declared.TheConstants.{VECTOR};
ghost use Rattle.gq_ends.specs.steps.Adding.{HasRows};
ghost use Rattle.gq_ends.specs.steps.Tests.{HaveRows, HoldAll};

use crate::end_test::EndTest;
use gq_base::{Memory, NodeId};
use gq_bits::{Marks, VECTOR};
use gq_column::Column;
use gq_filter::{Lane, Lanes, keep_lanes};

/// The most nodes that are listed.
const MAX_ENDS: usize = 8_192;

/// Adds the nodes of the first rows of a table, so many, that pass tests, and answers whether all
/// nodes are few enough.
pub(crate) fn add_rows(
    ends: &mut Vec<NodeId>,
    tests: &[EndTest<'_>],
    table: u32,
    count: u32,
) -> Result<bool, Memory>
    requires { HaveRows count tests.now }
    ensures { IfOk result (λ few. few ≡ true →
        HasRows tests.now table 0 count ends.old.items ends.new.items) }
{
    let mut low = 0;
    'spans: while low < count {
        let high = end_of(low, count);
        if !add_span(ends, tests, table, low, high)? {
            return Ok(false);
        }
        low = high;
    }
    Ok(true)
}

// Where the rows end that are looked at together, from one row on.
fn end_of(low: u32, count: u32) -> u32
    requires { low < count }
    ensures some { low < result }
    ensures few { result - low ≤ VECTOR }
    ensures within { result ≤ count }
{
    if count - low < VECTOR {
        count
    } else {
        low + VECTOR
    }
}

// Adds the nodes of the rows from `low` up to, but without, `high` that pass tests, and answers
// whether all nodes are few enough.
fn add_span(
    ends: &mut Vec<NodeId>,
    tests: &[EndTest<'_>],
    table: u32,
    low: u32,
    high: u32,
) -> Result<bool, Memory>
    requires ordered { low ≤ high }
    requires few { high - low ≤ VECTOR }
    requires inside { HaveRows high tests.now }
    ensures { IfOk result (λ few. few ≡ true →
        HasRows tests.now table low high ends.old.items ends.new.items) }
{
    let marks = kept_rows(tests, low, high);
    let mut from = 0;
    'places: while let Some(place) = marks.next_from(from) {
        if MAX_ENDS <= ends.len() {
            return Ok(false);
        }
        let row = low + place;
        ends.push(NodeId { table, row })?;
        from = place + 1;
    }
    Ok(true)
}

// Of the rows from `low` up to, but without, `high`, by their places from there, those that pass
// tests.
fn kept_rows(tests: &[EndTest<'_>], low: u32, high: u32) -> Marks
    requires ordered { low ≤ high }
    requires few { high - low ≤ VECTOR }
    requires inside { HaveRows high tests.now }
    ensures within { (k : ℕ) → high - low ≤ k → is_marked result k ≡ false }
    ensures kept { (k : ℕ) → k < high - low → HoldAll tests.now (low + k) →
        is_marked result k ≡ true }
{
    let count = high - low;
    let mut marks = Marks::first(count);
    'tests: for test in tests {
        let column = test.column;
        let lane = SpanLane { column, low, high };
        keep_lanes(&test.test, &lane, count, &mut marks);
    }
    marks
}

/// The one lane of a column in the rows from `low` up to, but without, `high`.
#[derive(Clone, Copy)]
struct SpanLane<'r> {
    column: &'r Column,
    low: u32,
    high: u32,
    ghost ordered: { low ≤ high },
    ghost few: { high - low ≤ VECTOR },
    ghost inside: { high ≤ length column.now },
}

impl Lanes for SpanLane<'_> {
    ghost use Rattle.gq_ends.specs.steps.Tests.{span_cell};

    ghost cell_at = { λ l place lane. span_cell l.column.now l.low l.high place lane };

    fn lane(&self, lane: u32) -> Lane {
        let mut cells = [0; VECTOR as usize];
        let mut known = Marks::none();
        if lane == 0 {
            self.column
                .gather_span(self.low, self.high, &mut cells, &mut known);
            return Lane { cells, known };
        }
        Lane { cells, known }
    }
}
