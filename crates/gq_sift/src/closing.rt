//! The places at which a step can make something: those of a step that closes lead to the row that
//! is there.
ghost use Rattle.std.specs.Prelude.{◌≡◌, ◌+◌, ◌<◌, ◌≤◌, ◌^◌, ◌&&◌, ℕ, length, nat_lt};
ghost use Rattle.gq_bits.specs.Places.{is_marked};
ghost use Rattle.gq_sift.specs.steps.Candidates.{AreCandidates, leads_to};
ghost use Rattle.gq_steps.specs.Actions.{action_of};
ghost use Rattle.gq_steps.specs.Levels.{known, step_at};
ghost use Rattle.gq_steps.specs.Moves.{run_of, steps_in, IsRun, IsHeld};

use gq_bits::{Marks, VECTOR};
use gq_lanes::keep_equal_id;
use gq_plan::Assignment;
use gq_steps::{Action, GroupSteps, PlanRun};

/// Marks those of so many places of a group's list, from one on, at which its first step can make
/// something.
pub(crate) fn candidates(
    plan_run: &PlanRun<'_>,
    group: GroupSteps,
    first: u32,
    count: u32,
    row: &Assignment,
    marks: &mut Marks,
)
    requires run { IsRun (run_of plan_run.now) }
    requires step { group.first < length (steps_in plan_run.now) }
    requires action { group.action ≡ action_of (step_at (run_of plan_run.now) group.first) }
    requires held { IsHeld (run_of plan_run.now) row.now (known (run_of plan_run.now) group.first) }
    requires count { count ≤ VECTOR }
    requires fits { first + count < 2 ^ 32 }
    ensures { AreCandidates (run_of plan_run.now) group.first first count row.now marks.new }
{
    match group.action {
        Action::Close(follow) => {
            let list = plan_run.list(follow, row);
            *marks = closing(list, first, count, row.nodes.as_slice()[follow.to as usize]);
        }
        _ => *marks = Marks::first(count),
    }
}

// Of so many places of a list, from one on, those with a row.
fn closing(list: &[u32], first: u32, count: u32, row: u32) -> Marks
    requires count { count ≤ VECTOR }
    requires fits { first + count < 2 ^ 32 }
    ensures whole { length result ≡ VECTOR }
    ensures each { (j : ℕ) → is_marked result j
        ≡ (nat_lt j count && leads_to list.now (first + j) row) }
{
    let low = list.len().min(first as usize);
    let high = list.len().min((first + count) as usize);
    let ids = &list[low..high];
    let mut marks = Marks::first(ids.len() as u32);
    keep_equal_id(ids, row, &mut marks);
    let _whole = marks.word(0);
    marks
}
