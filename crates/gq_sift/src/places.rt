//! The steps of one group, tried one after another at one place of its whole list.
ghost use Rattle.gq_steps.specs.Keeps.{IsRange, IsTriedAt};
ghost use Rattle.gq_steps.specs.Levels.{known};
ghost use Rattle.gq_steps.specs.Matches.{AreMatches};
ghost use Rattle.gq_steps.specs.Moves.{run_of, IsRun, IsHeld};

use gq_plan::Assignment;
use gq_steps::{GroupSteps, PlanRun, Tried};

/// Whether all steps of a group make something of a place of its whole list. What they bind is
/// written. If the group joins, its matches are told.
pub fn keep_place(
    plan_run: &PlanRun<'_>,
    group: GroupSteps,
    matches: &[u32],
    place: u32,
    row: &mut Assignment,
) -> bool
    requires run { IsRun (run_of plan_run.now) }
    requires steps { IsRange (run_of plan_run.now) group }
    requires held { IsHeld (run_of plan_run.now) row.old (known (run_of plan_run.now) group.first) }
    requires matches { AreMatches (run_of plan_run.now) group.first row.old matches.now }
    ensures { IsTriedAt (run_of plan_run.now) group place row.old result row.new }
{
    let mut step = group.first;
    while step < group.end {
        let at = if step == group.first { place } else { 0 };
        match plan_run.try_step(step, matches, at, row) {
            Tried::Made => step += 1,
            Tried::Missed | Tried::Past => return false,
        }
    }
    true
}
