//! What the steps of a group do, and what they ask.
ghost use Rattle.std.specs.Prelude.{◌≡◌, ◌⊎◌, ◌<◌, length, IfSome, IsTrue};
ghost use Rattle.gq_plan.specs.Rows.{rel_table};
ghost use Rattle.gq_steps.specs.Levels.{step_at};
ghost use Rattle.gq_steps.specs.Moves.{run_of, steps_in, IsRun};
ghost use Rattle.gq_steps.specs.Tests.{IsRowTest, follow_of, pair_of, test_of};

use gq_plan::Follow;
use gq_steps::{Action, PlanRun};

/// The node variable that is scanned, if one is.
pub fn scanned(action: Action) -> Option<u32>
    ensures { IfSome result (λ node. action ≡ Action.Scan node) }
{
    match action {
        Action::Scan(node) => Some(node),
        _ => None,
    }
}

/// How a relationship is followed to a node that was not bound, if one is.
pub fn extended(action: Action) -> Option<Follow>
    ensures { IfSome result (λ follow. (action ≡ Action.List follow)
        ⊎ (action ≡ Action.Column follow)) }
{
    match action {
        Action::List(follow) => Some(follow),
        Action::Column(follow) => Some(follow),
        _ => None,
    }
}

/// How the step at a depth follows a relationship to a node that was not bound, if it does.
pub(crate) fn follow_at(plan_run: &PlanRun<'_>, depth: usize) -> Option<Follow>
    requires { depth < length (steps_in plan_run.now) }
    ensures { result ≡ follow_of (step_at (run_of plan_run.now) depth) }
{
    match plan_run.action(depth) {
        Action::List(follow) => Some(follow),
        Action::Column(follow) => Some(follow),
        _ => None,
    }
}

/// The test that the step at a depth asks for, if it is one.
pub fn test_at(plan_run: &PlanRun<'_>, depth: usize) -> Option<u32>
    requires { depth < length (steps_in plan_run.now) }
    ensures { result ≡ test_of (step_at (run_of plan_run.now) depth) }
{
    match plan_run.action(depth) {
        Action::Test(test) => Some(test),
        _ => None,
    }
}

/// The pair that the step at a depth asks to differ, if it asks for one.
pub fn pair_at(plan_run: &PlanRun<'_>, depth: usize) -> Option<u32>
    requires { depth < length (steps_in plan_run.now) }
    ensures { result ≡ pair_of (step_at (run_of plan_run.now) depth) }
{
    match plan_run.action(depth) {
        Action::Differ(pair) => Some(pair),
        _ => None,
    }
}

/// Whether the step at a depth is a test that rows alone decide.
pub fn is_row_test(plan_run: &PlanRun<'_>, depth: usize) -> bool
    requires run { IsRun (run_of plan_run.now) }
    requires depth { depth < length (steps_in plan_run.now) }
    ensures { IsTrue result → IsRowTest (run_of plan_run.now) depth }
{
    match test_at(plan_run, depth) {
        None => false,
        Some(test) => match plan_run.tests.get(test as usize) {
            None => false,
            Some(test) => test.reads_rows(),
        },
    }
}

/// The table of a relationship variable, if there is such a variable.
pub fn rel_table(plan_run: &PlanRun<'_>, rel: u32) -> Option<u32>
    ensures there { IfSome result (λ table. rel < length plan_run.now.typed.now.rels) }
    ensures table { IfSome result (λ table. rel_table plan_run.now.typed.now rel ≡ table) }
{
    match plan_run.typed.rels.get(rel as usize) {
        None => None,
        Some(typed) => Some(typed.table),
    }
}
