//! How the places of a group are found, by what its tests ask: it is found once, when the group is
//! made.
ghost use Rattle.std.specs.Prelude.{◌≡◌, ◌+◌, ◌<◌, ◌≤◌, ℕ, length, true, IsTrue, Some};
ghost use Rattle.gq_steps.specs.Actions.{action_of};
ghost use Rattle.gq_steps.specs.Levels.{step_at};
ghost use Rattle.gq_steps.specs.Moves.{IsRun, run_of, steps_in};
ghost use Rattle.gq_steps.specs.Tests.{IsCut, test_of};
ghost use Rattle.gq_sift.specs.steps.Asks.{IsAsked};

use crate::row_tests::{do_rows_decide, is_list_test};
use gq_chains::{are_chained, test_at};
use gq_plan::Follow;
use gq_steps::{Action, Cut, PlanRun};

/// What may be asked of the steps of a group behind its first one.
#[derive(Clone, Copy)]
pub(crate) enum Ask {
    /// To be conditions.
    Conditions,
    /// To be tests that rows alone decide, or to ask that a relationship that is followed so is no loop.
    RowTests(Follow),
    /// To be such, or to ask that this relationship differs from another one.
    ListTests(Follow),
    /// To be conditions that places of a relationship variable may decide.
    Placed(u32),
}

/// How the places are found of the group of the steps from one on up to another.
pub fn cut_of(plan_run: &PlanRun<'_>, first: usize, end: usize) -> Cut
    requires run { IsRun (run_of plan_run.now) }
    requires some { first < end }
    requires inside { end ≤ length (steps_in plan_run.now) }
    ensures { IsCut (run_of plan_run.now) first end result }
{
    match plan_run.action(first) {
        Action::Scan(_node) => scan_cut(plan_run, first, end),
        Action::List(follow) => list_cut(plan_run, first, end, follow),
        _ => Cut::Each,
    }
}

// Those of one that scans a node variable.
fn scan_cut(plan_run: &PlanRun<'_>, first: usize, end: usize) -> Cut
    requires run { IsRun (run_of plan_run.now) }
    requires some { first < end }
    requires inside { end ≤ length (steps_in plan_run.now) }
    ensures { IsCut (run_of plan_run.now) first end result }
{
    if are_all(plan_run, first, end, Ask::Conditions) {
        return Cut::Rows;
    }
    if are_chained(plan_run, first, end) {
        return Cut::Chain;
    }
    Cut::Each
}

// Those of one that follows a list.
fn list_cut(plan_run: &PlanRun<'_>, first: usize, end: usize, follow: Follow) -> Cut
    requires run { IsRun (run_of plan_run.now) }
    requires some { first < end }
    requires inside { end ≤ length (steps_in plan_run.now) }
    requires list { action_of (step_at (run_of plan_run.now) first) ≡ Action.List follow }
    ensures { IsCut (run_of plan_run.now) first end result }
{
    if are_all(plan_run, first, end, Ask::RowTests(follow)) {
        return Cut::List;
    }
    if are_all(plan_run, first, end, Ask::ListTests(follow)) {
        return Cut::Pairs;
    }
    if are_placed(plan_run, first, end, follow.rel) {
        return Cut::Told;
    }
    if are_chained(plan_run, first, end) {
        return Cut::Chain;
    }
    if is_one_placed(plan_run, first, end, follow.rel) {
        return Cut::Refused;
    }
    Cut::Each
}

// Whether each of the steps behind the first one is so.
fn are_all(plan_run: &PlanRun<'_>, first: usize, end: usize, ask: Ask) -> bool
    requires run { IsRun (run_of plan_run.now) }
    requires some { first < end }
    requires inside { end ≤ length (steps_in plan_run.now) }
    ensures { IsTrue result → (d : ℕ) → first < d → d < end →
        IsAsked (run_of plan_run.now) ask d }
{
    for depth in first + 1..end {
        if !is_asked(plan_run, depth, ask) {
            return false;
        }
    }
    true
}

// Whether the step at a depth is so.
fn is_asked(plan_run: &PlanRun<'_>, depth: usize, ask: Ask) -> bool
    requires run { IsRun (run_of plan_run.now) }
    requires depth { depth < length (steps_in plan_run.now) }
    ensures { IsTrue result → IsAsked (run_of plan_run.now) ask depth }
{
    match ask {
        Ask::Conditions => is_condition(plan_run, depth),
        Ask::RowTests(follow) => do_rows_decide(plan_run, depth, follow),
        Ask::ListTests(follow) => is_list_test(plan_run, depth, follow),
        Ask::Placed(rel) => is_placed(plan_run, depth, rel),
    }
}

// Whether it is a condition.
fn is_condition(plan_run: &PlanRun<'_>, depth: usize) -> bool
    requires { depth < length (steps_in plan_run.now) }
    ensures { IsTrue result → (i : ℕ) × (test_of (step_at (run_of plan_run.now) depth) ≡ Some i) }
{
    match test_at(plan_run, depth) {
        None => false,
        Some(_test) => true,
    }
}

// Whether there are steps behind the first one, and each is a condition that places of a relationship
// variable may decide.
fn are_placed(plan_run: &PlanRun<'_>, first: usize, end: usize, rel: u32) -> bool
    requires run { IsRun (run_of plan_run.now) }
    requires some { first < end }
    requires inside { end ≤ length (steps_in plan_run.now) }
    ensures { IsTrue result → first + 1 < end }
{
    if first + 1 >= end {
        return false;
    }
    are_all(plan_run, first, end, Ask::Placed(rel))
}

// Whether one of the conditions that come first behind the first step is such a condition.
fn is_one_placed(plan_run: &PlanRun<'_>, first: usize, end: usize, rel: u32) -> bool
    requires some { first < end }
    requires inside { end ≤ length (steps_in plan_run.now) }
{
    for depth in first + 1..end {
        if is_placed(plan_run, depth, rel) {
            return true;
        }
        if !is_condition(plan_run, depth) {
            return false;
        }
    }
    false
}

// Whether the step at a depth is such a condition.
fn is_placed(plan_run: &PlanRun<'_>, depth: usize, rel: u32) -> bool
    requires { depth < length (steps_in plan_run.now) }
{
    match test_at(plan_run, depth) {
        None => false,
        Some(test) => match plan_run.tests.get(test as usize) {
            None => false,
            Some(test) => test.placed(rel).is_some(),
        },
    }
}
