//! Masks that are told of rows one after another, from the last group to the first: each keeps of its
//! far rows those that the mask of the later group has.
ghost use Rattle.std.specs.Prelude.{◌≡◌, ◌<◌, length, true, List, Some, IfSome, slice_get};
ghost use Rattle.gq_pipe.specs.declared.ahead.Ahead.TheVariants.{Far};
ghost use Rattle.gq_pipe.specs.steps.Ahead.{AreAhead, AreNext, AreToldMore, EndsAmong, StayAhead};
ghost use Rattle.gq_pipe.specs.steps.Sights.{StayOpen};
ghost use Rattle.gq_steps.specs.declared.group_steps.GroupSteps.{GroupSteps};
ghost use Rattle.gq_steps.specs.Actions.{action_of};
ghost use Rattle.gq_steps.specs.Levels.{Run, known, step_at};
ghost use Rattle.gq_steps.specs.Moves.{run_of, steps_in, IsHeld, IsRun};

use crate::ahead::Ahead;
use crate::sight::Sight;
use gq_bits::{Marks, VECTOR};
use gq_plan::Assignment;
use gq_steps::{GroupSteps, PlanRun};

/// Whether it is known of a place of the list of the group at a depth that a later group makes
/// nothing of it. Where a mask is due it is told of more rows, or one for which it waits is. It takes
/// no memory.
pub(crate) fn ends_ahead(
    aheads: &mut Vec<Option<Ahead<'_>>>,
    depth: usize,
    plan_run: &mut PlanRun<'_>,
    group: GroupSteps,
    place: u32,
    row: &mut Assignment,
) -> bool
    requires run { IsRun (run_of plan_run.old) }
    requires step { group.first < length (steps_in plan_run.old) }
    requires action { group.action ≡ action_of (step_at (run_of plan_run.old) group.first) }
    requires held { IsHeld (run_of plan_run.old) row.old (known (run_of plan_run.old) group.first) }
    ensures told { StayAhead (run_of plan_run.old) aheads.old.items aheads.new.items }
    ensures ends { result ≡ true → EndsAmong (run_of plan_run.old) group.first row.old place
        depth aheads.new.items }
    ensures row { row.new ≡ row.old }
    ensures same { plan_run.new ≡ plan_run.old }
{
    if is_due(aheads, depth) {
        tell_next(aheads, depth, plan_run, row);
        return false;
    }
    match aheads.get_mut(depth) {
        None => false,
        Some(told) => match told {
            None => false,
            Some(ahead) => ahead.ends_at(plan_run, group, place, row),
        },
    }
}

// Whether it is time to tell the mask of a group of more rows.
fn is_due(aheads: &mut Vec<Option<Ahead<'_>>>, depth: usize) -> bool
    ensures { aheads.new.items ≡ aheads.old.items }
{
    match aheads.get_mut(depth) {
        None => false,
        Some(told) => match told {
            None => false,
            Some(ahead) => ahead.is_due(),
        },
    }
}

// Tells the mask of a group of the next rows, or the last one for which it waits.
fn tell_next(
    aheads: &mut Vec<Option<Ahead<'_>>>,
    depth: usize,
    plan_run: &mut PlanRun<'_>,
    row: &mut Assignment,
)
    requires { IsRun (run_of plan_run.old) }
    ensures told { StayAhead (run_of plan_run.old) aheads.old.items aheads.new.items }
    ensures row { row.new ≡ row.old }
    ensures same { plan_run.new ≡ plan_run.old }
{
    let last = last_open(aheads.as_slice(), depth);
    match chosen_at(aheads.as_slice(), last, plan_run, row) {
        None => {}
        Some(chosen) => tell_at(aheads, last, &chosen),
    }
}

// Tells the mask of a group which of the next rows are chosen.
fn tell_at(aheads: &mut Vec<Option<Ahead<'_>>>, depth: usize, chosen: &Marks)
    ensures { AreToldMore chosen.now depth aheads.old.items aheads.new.items }
{
    match aheads.get_mut(depth) {
        None => {}
        Some(told) => match told {
            None => {}
            Some(ahead) => ahead.tell(chosen),
        },
    }
}

// The last mask that is told of rows yet, of those from that of a group on of which each keeps the
// rows that the next one has.
fn last_open(aheads: &[Option<Ahead<'_>>], depth: usize) -> usize {
    let mut last = depth;
    for later in depth..aheads.len() {
        if waits(aheads, last, later) {
            last = later;
        }
    }
    last
}

// Whether the mask of a group waits until that of a later one is told of all rows.
fn waits(aheads: &[Option<Ahead<'_>>], depth: usize, later: usize) -> bool {
    match sight_at(aheads, depth) {
        None => false,
        Some(sight) => match sight_at(aheads, later) {
            None => false,
            Some(next) => { sight.later == later && next.node == sight.far && next.mask.is_open() }
        },
    }
}

// Which of the next rows of which the mask of a group is told are chosen, if it has one: those that
// its test passes, without those of which it is known that nothing comes.
fn chosen_at(
    aheads: &[Option<Ahead<'_>>],
    depth: usize,
    plan_run: &mut PlanRun<'_>,
    row: &mut Assignment,
) -> Option<Marks>
    requires { IsRun (run_of plan_run.old) }
    ensures next { IfSome result (AreNext (run_of plan_run.old) aheads.now depth) }
    ensures row { row.new ≡ row.old }
    ensures same { plan_run.new ≡ plan_run.old }
{
    match sight_at(aheads, depth) {
        None => None,
        Some(sight) => {
            let mut chosen = sight.passed(plan_run, row);
            keep_open(aheads, sight, &mut chosen);
            Some(chosen)
        }
    }
}

// Of the next rows of which a mask is told keeps those that the mask of the later group has, where
// that one is told of all rows.
fn keep_open(aheads: &[Option<Ahead<'_>>], sight: &Sight<'_>, chosen: &mut Marks)
    ensures { (c : Run) (ss : List GroupSteps) → AreAhead c ss aheads.now
        → StayOpen c ss sight.now chosen.old chosen.new }
{
    let low = sight.mask.told();
    match sight_at(aheads, sight.later) {
        None => {}
        Some(next) => {
            if low % VECTOR == 0 && next.node == sight.far && next.mask.is_whole() {
                next.mask.keep(low / VECTOR, chosen);
            }
        }
    }
}

/// The mask of a group, if it has one.
pub(crate) fn sight_at<'a, 'g>(
    aheads: &'a [Option<Ahead<'g>>],
    depth: usize,
) -> Option<&'a Sight<'g>>
    ensures { IfSome result (λ t. slice_get aheads.now depth ≡ Some (Some (Far t.now))) }
{
    match aheads.get(depth) {
        None => None,
        Some(told) => match told {
            None => None,
            Some(ahead) => match ahead {
                Ahead::Near(_) => None,
                Ahead::Far(sight) => Some(sight),
            },
        },
    }
}
