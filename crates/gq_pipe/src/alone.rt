//! What a pipeline owes as it starts. A plan without groups has no steps but tests that read nothing,
//! and means that nothing is bound: once where all of them are true, or else not at all.
ghost use Rattle.std.specs.Prelude.{◌≡◌, true, if◌then◌else◌, length, map, nat_eq, IfOk};
ghost use Rattle.std.specs.List.{list_all};
ghost use Rattle.gq_pipe.specs.steps.Alone as alone;
ghost use Rattle.gq_pipe.specs.steps.Alone.{is_kept};
ghost use Rattle.gq_plan.specs.Plans.{step_of};
ghost use Rattle.gq_steps.specs.Moves.{run_of, IsRun};
ghost use Rattle.gq_steps.specs.steps.Outcomes.{passes_at};

use gq_base::Memory;
use gq_plan::{Assignment, Step};
use gq_search::{State, Walker};
use gq_steps::PlanRun;
use std::alloc::Global;

/// Whether a pipeline over so many groups owes anything: without groups its tests tell.
pub(crate) fn owes_some(plan_run: &PlanRun<'_>, groups: usize, row: &Assignment) -> bool
    requires { IsRun (run_of plan_run.now) }
    ensures { let test = passes_at plan_run.now.graph.now plan_run.now.typed.now row.now in
        let all = list_all (is_kept test) (map step_of plan_run.now.plan.now) in
        result ≡ (if nat_eq groups 0 then all else true) }
{
    if groups == 0 {
        return tests_hold(plan_run, plan_run.plan, row);
    }
    true
}

// Whether those of these steps that are tests are true.
fn tests_hold(plan_run: &PlanRun<'_>, steps: &[Step], row: &Assignment) -> bool
    requires { IsRun (run_of plan_run.now) }
    ensures { let test = passes_at plan_run.now.graph.now plan_run.now.typed.now row.now in
        result ≡ list_all (is_kept test) (map step_of steps.now) }
{
    'steps: for step in steps {
        if !holds(plan_run, step, row) {
            return false;
        }
    }
    true
}

// Whether a step is no test, or its test is true.
#[tactic(auto, using(gq_plan::proofs::StepEquations::equations))]
fn holds(plan_run: &PlanRun<'_>, step: &Step, row: &Assignment) -> bool
    requires { IsRun (run_of plan_run.now) }
    ensures { let test = passes_at plan_run.now.graph.now plan_run.now.typed.now row.now in
        result ≡ is_kept test (step_of step.now) }
{
    match step {
        Step::Keep { test } => plan_run.keep(*test, row),
        Step::Scan { .. } | Step::Extend { .. } | Step::ColumnExtend { .. } => true,
        Step::Close { .. } | Step::ColumnClose { .. } | Step::Join { .. } => true,
        Step::Differ { .. } | Step::NoLoop { .. } => true,
    }
}

/// A walker over so many groups that owes all of their walks, or none.
pub(crate) fn first_walker(alloc: Global, groups: usize, owes: bool) -> Result<Walker, Memory>
    ensures cursors { IfOk result (λ w. length w.cursors.items ≡ groups) }
    ensures marks { IfOk result (λ w. length w.marks.items ≡ groups) }
    ensures state { IfOk result (λ w. w.state ≡ alone.first_state owes) }
{
    let Walker {
        cursors,
        marks,
        state: _,
    } = Walker::new(alloc, groups)?;
    let state = first_state(owes);
    Ok(Walker {
        cursors,
        marks,
        state,
    })
}

fn first_state(owes: bool) -> State
    ensures { result ≡ alone.first_state owes }
{
    if owes { State::Fresh } else { State::Done }
}
