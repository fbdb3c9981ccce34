//! A plan's steps cut into its groups.
ghost use Rattle.std.specs.Prelude.{◌≡◌, ◌<◌, ◌≤◌, length, true, IfOk};
ghost use Rattle.gq_law_groups.specs.Groups.{makes_group};
ghost use Rattle.gq_homes.specs.Cuts.{IsCutTo, IsGroupOf, flag};
ghost use Rattle.gq_steps.specs.Levels.{step_at};
ghost use Rattle.gq_steps.specs.Moves.{IsRun, run_of, steps_in};

use gq_base::Memory;
use gq_sift::cut_of;
use gq_steps::{Action, GroupSteps, PlanRun};
use std::alloc::Global;

/// The groups of steps of which the first makes one: each with the steps up to the next one that
/// does, and flat as it is told. No steps have no groups.
pub fn cut_groups(
    alloc: Global,
    plan_run: &PlanRun<'_>,
    flat: &[bool],
) -> Result<Vec<GroupSteps>, Memory>
    requires run { IsRun (run_of plan_run.now) }
    requires begins { 0 < length (steps_in plan_run.now)
        → makes_group (step_at (run_of plan_run.now) 0) ≡ true }
    ensures { let c = run_of plan_run.now in
        IfOk result (λ gs. IsCutTo c flat.now gs.items (length c.steps)) }
{
    let mut groups = Vec::new(alloc);
    let count = plan_run.steps.len();
    if count == 0 {
        return Ok(groups);
    }
    let mut first = 0;
    let mut end = 1;
    while end < count {
        if starts_group(plan_run, end) {
            let flat = flag(flat, groups.len());
            groups.push(group_of(plan_run, first, end, flat))?;
            first = end;
        }
        end += 1;
    }
    let flat = flag(flat, groups.len());
    groups.push(group_of(plan_run, first, end, flat))?;
    Ok(groups)
}

// The group of the steps from one on up to another.
fn group_of(plan_run: &PlanRun<'_>, first: usize, end: usize, flat: bool) -> GroupSteps
    requires run { IsRun (run_of plan_run.now) }
    requires some { first < end }
    requires inside { end ≤ length (steps_in plan_run.now) }
    ensures { IsGroupOf (run_of plan_run.now) first end flat result }
{
    GroupSteps {
        first,
        end,
        flat,
        action: plan_run.action(first),
        cut: cut_of(plan_run, first, end),
    }
}

fn flag(flat: &[bool], group: usize) -> bool
    ensures { result ≡ flag flat.now group }
{
    match flat.get(group) {
        Some(flat) => *flat,
        None => false,
    }
}

// Whether the step at a depth makes a group.
fn starts_group(plan_run: &PlanRun<'_>, depth: usize) -> bool
    requires { depth < length (steps_in plan_run.now) }
    ensures { result ≡ makes_group (step_at (run_of plan_run.now) depth) }
{
    match plan_run.action(depth) {
        Action::Scan(_node) => true,
        Action::List(_follow) => true,
        Action::Close(_follow) => true,
        Action::Join => true,
        _ => false,
    }
}
