//! The places of a scan that conditions keep, a piece at a time.
ghost use Rattle.std.specs.Prelude.{◌≡◌, ◌+◌, ◌≤◌, ◌<◌, ◌^◌, ◌&&◌, ℕ, length, false, IfSome, Some};
ghost use Rattle.gq_base.specs.Valid.{row_count};
ghost use Rattle.gq_bits.specs.Places.{is_marked};
ghost use Rattle.gq_filter.specs.Rows.{count_in, row_in};
ghost use Rattle.gq_plan.specs.Rows.{node_table};
ghost use Rattle.gq_sift.specs.steps.Filters.{Filters};
ghost use Rattle.gq_steps.specs.Keeps.{IsRange, IsSifted};
ghost use Rattle.gq_steps.specs.Levels.{known, step_at};
ghost use Rattle.gq_steps.specs.Moves.{run_of, steps_in, IsRun, IsHeld};
ghost use Rattle.gq_steps.specs.steps.Outcomes.{passes_at, with_row};
ghost use Rattle.gq_steps.specs.Tests.{test_of};

use gq_bits::{Marks, VECTOR};
use gq_chains::{scanned, test_at};
use gq_filter::Rows;
use gq_plan::Assignment;
use gq_steps::{Action, Cut, GroupSteps, PlanRun};

/// The node variable that a group scans, where its other steps are conditions.
pub(crate) fn filters(group: GroupSteps) -> Option<u32>
    ensures { IfSome result (λ node. (group.cut ≡ Cut.Rows) × (group.action ≡ Action.Scan node)) }
{
    match group.cut {
        Cut::Rows => scanned(group.action),
        _ => None,
    }
}

/// Marks those of so many places of a scan, from one on, that the group's conditions keep, and no
/// others.
pub(crate) fn filter(
    plan_run: &mut PlanRun<'_>,
    group: GroupSteps,
    node: u32,
    first: u32,
    count: u32,
    row: &mut Assignment,
    marks: &mut Marks,
)
    requires run { IsRun (run_of plan_run.old) }
    requires steps { IsRange (run_of plan_run.old) group }
    requires filters { Filters (run_of plan_run.old) group node }
    requires held { IsHeld (run_of plan_run.old) row.old (known (run_of plan_run.old) group.first) }
    requires count { count ≤ VECTOR }
    requires inside { first + count ≤ row_count plan_run.old.graph.now.nodes
        (node_table plan_run.old.typed.now node) }
    requires fits { first + count < 2 ^ 32 }
    ensures sifted { IsSifted (run_of plan_run.old) group first count row.old row.new marks.new }
    ensures same { plan_run.new ≡ plan_run.old }
{
    *marks = Marks::first(count);
    let rows = Rows::Span {
        low: first,
        high: first + count,
    };
    for depth in group.first + 1..group.end {
        keep_rows(plan_run, depth, node, rows, row, marks);
    }
    let _whole = marks.word(0);
}

// Keeps the marked places at whose row the condition is true that the step at a depth asks for: a
// node variable has that row.
fn keep_rows(
    plan_run: &mut PlanRun<'_>,
    depth: usize,
    node: u32,
    rows: Rows<'_>,
    row: &mut Assignment,
    marks: &mut Marks,
)
    requires run { IsRun (run_of plan_run.old) }
    requires depth { depth < length (steps_in plan_run.old) }
    requires node { node < length row.old.nodes }
    requires few { count_in rows ≤ VECTOR }
    requires within { (j : ℕ) → count_in rows ≤ j → is_marked marks.old j ≡ false }
    ensures kept { (i : ℕ) → test_of (step_at (run_of plan_run.old) depth) ≡ Some i → (j : ℕ)
        → is_marked marks.new j ≡ (is_marked marks.old j && passes_at plan_run.old.graph.now
        plan_run.old.typed.now (with_row node (row_in rows.entry j) row.old) i) }
    ensures row { row.new ≡ row.old }
    ensures same { plan_run.new ≡ plan_run.old }
{
    match test_at(plan_run, depth) {
        None => {}
        Some(test) => keep_test(plan_run, test, node, rows, row, marks),
    }
}

/// The same of a test of the alternative.
pub(crate) fn keep_test(
    plan_run: &mut PlanRun<'_>,
    test: u32,
    node: u32,
    rows: Rows<'_>,
    row: &mut Assignment,
    marks: &mut Marks,
)
    requires run { IsRun (run_of plan_run.old) }
    requires node { node < length row.old.nodes }
    requires few { count_in rows ≤ VECTOR }
    requires within { (j : ℕ) → count_in rows ≤ j → is_marked marks.old j ≡ false }
    ensures kept { (j : ℕ) → is_marked marks.new j ≡ (is_marked marks.old j
        && passes_at plan_run.old.graph.now plan_run.old.typed.now
        (with_row node (row_in rows.entry j) row.old) test) }
    ensures row { row.new ≡ row.old }
    ensures same { plan_run.new ≡ plan_run.old }
{
    match plan_run.tests.get_mut(test as usize) {
        None => *marks = Marks::none(),
        Some(test) => test.keep_rows(node, rows, row, marks),
    }
}
