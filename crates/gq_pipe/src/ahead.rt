//! What groups are told of their places by later ones, which make nothing of some.
ghost use Rattle.std.specs.Prelude.{◌≡◌, ◌<◌, length, false, true, IfSome};
ghost use Rattle.gq_pipe.specs.steps.Ahead.{EndsHere, IsToldMore};
ghost use Rattle.gq_pipe.specs.steps.Sights.{HasRow, IsListed};
ghost use Rattle.gq_plan.specs.Plans.{Extend};
ghost use Rattle.gq_steps.specs.Actions.{action_of};
ghost use Rattle.gq_steps.specs.Levels.{known, step_at};
ghost use Rattle.gq_steps.specs.Moves.{run_of, steps_in, IsHeld, IsRun};

use crate::closing::Closing;
use crate::sight::Sight;
use gq_bits::Marks;
use gq_plan::{Assignment, Follow};
use gq_steps::{Action, GroupSteps, PlanRun};

/// What a group is told of its places by a later one.
#[derive(Drop)]
pub(crate) enum Ahead<'g> {
    /// That one closes at the group's node.
    Near(Closing<'g>),
    /// It leads from the group's node to another one.
    Far(Sight<'g>),
}

impl Ahead<'_> {
    /// Whether it is known of a place of a group's list that the later group makes nothing of it. It
    /// takes no memory.
    pub(crate) fn ends_at(
        &mut self,
        plan_run: &PlanRun<'_>,
        group: GroupSteps,
        place: u32,
        row: &Assignment,
    ) -> bool
        requires run { IsRun (run_of plan_run.now) }
        requires step { group.first < length (steps_in plan_run.now) }
        requires action { group.action ≡ action_of (step_at (run_of plan_run.now) group.first) }
        requires held { IsHeld (run_of plan_run.now) row.now
            (known (run_of plan_run.now) group.first) }
        ensures ends { result ≡ true → EndsHere (run_of plan_run.now) group.first row.now place
            self.new }
        ensures same { self.new ≡ self.old }
    {
        match self {
            Ahead::Near(closing) => match group.action {
                Action::List(follow) => closing.ends_at(plan_run, follow, place, row),
                _ => false,
            },
            Ahead::Far(sight) => match row_at(plan_run, group, place, row) {
                None => false,
                Some(own) => sight.ends_at(own),
            },
        }
    }

    /// Whether it is time to tell it of more rows.
    pub(crate) fn is_due(&mut self) -> bool
        ensures { self.new ≡ self.old }
    {
        match self {
            Ahead::Near(_) => false,
            Ahead::Far(sight) => sight.mask.is_due(),
        }
    }

    /// Tells it which of the next rows are chosen, if it has a mask. It takes no memory.
    pub(crate) fn tell(&mut self, chosen: &Marks)
        ensures { IsToldMore chosen.now self.old self.new }
    {
        match self {
            Ahead::Near(_) => {}
            Ahead::Far(sight) => sight.mask.tell(chosen),
        }
    }
}

// The row that a place of a group's list has, if the group scans or follows a list.
fn row_at(plan_run: &PlanRun<'_>, group: GroupSteps, place: u32, row: &Assignment) -> Option<u32>
    requires run { IsRun (run_of plan_run.now) }
    requires step { group.first < length (steps_in plan_run.now) }
    requires action { group.action ≡ action_of (step_at (run_of plan_run.now) group.first) }
    requires held { IsHeld (run_of plan_run.now) row.now (known (run_of plan_run.now) group.first) }
    ensures { IfSome result (HasRow (run_of plan_run.now) group.first row.now place) }
{
    match group.action {
        Action::Scan(_node) => Some(place),
        Action::List(follow) => listed_at(plan_run, group.first, follow, place, row),
        _ => None,
    }
}

// The row that a place of the list has that the step at a depth follows so.
fn listed_at(
    plan_run: &PlanRun<'_>,
    depth: usize,
    follow: Follow,
    place: u32,
    row: &Assignment,
) -> Option<u32>
    requires run { IsRun (run_of plan_run.now) }
    requires depth { depth < length (steps_in plan_run.now) }
    requires follows { step_at (run_of plan_run.now) depth
        ≡ Extend false follow.rel follow.from follow.to follow.direction }
    requires held { IsHeld (run_of plan_run.now) row.now (known (run_of plan_run.now) depth) }
    ensures { IfSome result (IsListed (run_of plan_run.now) depth row.now place) }
{
    match plan_run.list(follow, row).get(place as usize) {
        None => None,
        Some(own) => Some(*own),
    }
}
