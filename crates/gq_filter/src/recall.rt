//! Which rows of a table a test of lanes passes, remembered piece by piece.
ghost use Rattle.std.specs.Prelude.{◌≡◌, ℕ, ◌≤◌, ◌<◌, ◌&&◌, All, IfOk, IsTrue, [], false, length};
ghost use Rattle.std.specs.Prelude.{slice_index};
ghost use Rattle.gq_bits.specs.Places.{is_marked};
ghost use Rattle.gq_filter.specs.LaneTests.{holds};
ghost use Rattle.gq_filter.specs.steps.Recalling.{TellsTest};
ghost use Rattle.gq_filter.specs.RowLists.{cells_at};
ghost use Rattle.gq_filter.specs.steps.SpanLanes.{HaveRows};
ghost use Rattle.gq_row_sets.specs.Rows.{next_end};

use crate::kernels::keep_lanes;
use crate::lane_test::LaneTest;
use crate::row_lists::keep_list;
use crate::source::Feed;
use crate::span_lanes::SpanLanes;
use gq_base::Memory;
use gq_bits::{Marks, VECTOR};
use gq_row_sets::RowSet;
use std::alloc::Global;

/// What is remembered of a test of lanes: at which of the first rows of a table it holds. Up to as
/// many rows as half of the table lists are tried row by row, so that a statement that asks for few
/// rows, or stops early, tries no others. From then on each list has one more piece of the table
/// tried by the kernels, until all of it is: what that takes is a small part of what those rows took,
/// since the cells of a piece stand side by side.
#[derive(Drop)]
pub(crate) struct Recall {
    pub(crate) passed: RowSet,
    // How many rows are left to be asked for before the first piece is tried.
    pub(crate) left: u32,
}

impl Recall {
    /// Nothing is remembered, and nothing will be.
    pub(crate) fn none(alloc: Global) -> Recall
        ensures { result.passed.told ≡ [] }
    {
        Recall {
            passed: RowSet::none(alloc),
            left: 0,
        }
    }

    /// Nothing is remembered yet. The memory for so many rows is taken. A piece takes some time even
    /// where the table is small, so it waits for a vector's rows at least.
    pub(crate) fn with_room(alloc: Global, rows: u32) -> Result<Recall, Memory>
        ensures { IfOk result (λ r. r.passed.told ≡ []) }
    {
        let passed = RowSet::with_room(alloc, rows)?;
        let left = (rows / 2).max(VECTOR);
        Ok(Recall { passed, left })
    }

    /// Keeps the marked places of a list at whose row the test holds. It takes no memory.
    pub(crate) fn keep(
        &mut self,
        test: &LaneTest,
        feeds: &[Feed<'_>],
        list: &[u32],
        marks: &mut Marks,
    )
        requires tells { TellsTest feeds.now test.now self.old.passed.told }
        requires few { length list.now ≤ VECTOR }
        requires within { (k : ℕ) → length list.now ≤ k → is_marked marks.old k ≡ false }
        ensures tells { TellsTest feeds.now test.now self.new.passed.told }
        ensures kept { (k : ℕ) → is_marked marks.new k ≡ (is_marked marks.old k
            && holds (cells_at feeds.now (slice_index list.now k)) test.now) }
    {
        self.ask(test, feeds, list.len() as u32);
        if are_below(list, self.passed.told()) {
            self.passed.keep(list, marks);
        } else {
            keep_list(test, feeds, list, marks);
        }
    }

    // Notes that so many rows are asked for, and tries the next piece where enough were.
    fn ask(&mut self, test: &LaneTest, feeds: &[Feed<'_>], count: u32)
        requires { TellsTest feeds.now test.now self.old.passed.told }
        ensures { TellsTest feeds.now test.now self.new.passed.told }
    {
        let high = self.passed.next_end();
        if self.passed.told() == high {
            return;
        }
        self.left = self.left.saturating_sub(count);
        if self.left == 0 && have_rows(feeds, high) {
            self.try_rows(test, feeds, high);
        }
    }

    // Tries the next piece, up to a row.
    fn try_rows(&mut self, test: &LaneTest, feeds: &[Feed<'_>], high: u32)
        requires tells { TellsTest feeds.now test.now self.old.passed.told }
        requires high { high ≡ next_end self.old.passed }
        requires ahead { length self.old.passed.told ≤ high }
        requires inside { HaveRows high feeds.now }
        ensures { TellsTest feeds.now test.now self.new.passed.told }
    {
        let low = self.passed.told();
        let mut marks = Marks::first(high - low);
        let lanes = SpanLanes { feeds, low, high };
        keep_lanes(test, &lanes, high - low, &mut marks);
        let _ = self.passed.tell(marks);
    }
}

// Whether all rows are below one.
fn are_below(rows: &[u32], end: u32) -> bool
    ensures { IsTrue result → All (λ row. row < end) rows.now }
{
    for row in rows {
        if *row >= end {
            return false;
        }
    }
    true
}

// Whether the column of each feed has so many rows.
fn have_rows(feeds: &[Feed<'_>], rows: u32) -> bool
    ensures { IsTrue result → HaveRows rows feeds.now }
{
    for feed in feeds {
        if feed.property.column().len() < rows {
            return false;
        }
    }
    true
}
