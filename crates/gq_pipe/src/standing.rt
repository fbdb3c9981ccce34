//! The groups of the chunk that stands.
ghost use Rattle.std.specs.Prelude.{◌≡◌, length, true, []};
ghost use Rattle.gq_pipe.specs.steps.Chunks.{AreStanding, CanStand, IsGroupAt, ShowsNumber};
ghost use Rattle.gq_pipe.specs.steps.Chunks.{StoodAt};
ghost use Rattle.gq_steps.specs.steps.Lists.{layout_in, EarlierStand};
ghost use Rattle.gq_pipe.specs.steps.Matches.{lists_in, HaveMatches};
ghost use Rattle.gq_steps.specs.Matches.{AreMatches};
ghost use Rattle.gq_steps.specs.Moves.{run_of};
ghost use Rattle.gq_search.specs.Running.{Runs, keys_of};

use crate::lists::Lists;
use gq_bits::{Marks, VECTOR};
use gq_group::Group;
use gq_plan::Assignment;
use gq_search::{Cursor, State, Walker};
use gq_steps::{GroupSteps, PlanRun};

/// Puts each group at the number at which the walker stands, if it stands. It is told whether the
/// groups stood before: the first of them then stay as they are, up to one with another number.
pub(crate) fn stand_groups<'g>(
    lists: &Lists<'g>,
    walker: &Walker,
    stood: bool,
    groups: &mut Vec<Group<'g>>,
)
    requires stands { walker.now.state ≡ State.Standing → EarlierStand
        (run_of lists.now.plan_run) lists.now.groups.items lists.now.row
        (keys_of walker.now.cursors.items) }
    requires matches { walker.now.state ≡ State.Standing → HaveMatches
        (run_of lists.now.plan_run) lists.now.groups.items lists.now.row
        (lists_in lists.now.matches.items) (length (keys_of walker.now.cursors.items)) }
    requires runs { walker.now.state ≡ State.Standing →
        Runs (layout_in (run_of lists.now.plan_run) lists.now.groups.items) []
        walker.now.cursors.items walker.now.marks.items }
    requires cursors { length walker.now.cursors.items ≡ length lists.now.groups.items }
    requires marks { length walker.now.marks.items ≡ length lists.now.groups.items }
    requires groups { length groups.old.items ≡ length lists.now.groups.items }
    requires stood { stood ≡ true →
        StoodAt (run_of lists.now.plan_run) lists.now.groups.items groups.old.items }
    ensures count { length groups.new.items ≡ length groups.old.items }
    ensures standing { walker.now.state ≡ State.Standing → AreStanding
        (run_of lists.now.plan_run) lists.now.groups.items lists.now.row
        walker.now.cursors.items walker.now.marks.items groups.new.items
        (length lists.now.groups.items) }
{
    match walker.state {
        State::Standing => put_groups(lists, walker, stood, groups),
        State::Fresh => {}
        State::Done => {}
    }
}

// Puts each group at the number of its cursor.
fn put_groups<'g>(lists: &Lists<'g>, walker: &Walker, stood: bool, groups: &mut Vec<Group<'g>>)
    requires stands { EarlierStand (run_of lists.now.plan_run) lists.now.groups.items lists.now.row
        (keys_of walker.now.cursors.items) }
    requires matches { HaveMatches (run_of lists.now.plan_run) lists.now.groups.items lists.now.row
        (lists_in lists.now.matches.items) (length (keys_of walker.now.cursors.items)) }
    requires runs { Runs (layout_in (run_of lists.now.plan_run) lists.now.groups.items) []
        walker.now.cursors.items walker.now.marks.items }
    requires cursors { length walker.now.cursors.items ≡ length lists.now.groups.items }
    requires marks { length walker.now.marks.items ≡ length lists.now.groups.items }
    requires groups { length groups.old.items ≡ length lists.now.groups.items }
    requires stood { stood ≡ true →
        StoodAt (run_of lists.now.plan_run) lists.now.groups.items groups.old.items }
    ensures count { length groups.new.items ≡ length groups.old.items }
    ensures standing { AreStanding (run_of lists.now.plan_run) lists.now.groups.items lists.now.row
        walker.now.cursors.items walker.now.marks.items groups.new.items
        (length lists.now.groups.items) }
{
    let mut same = stood;
    for depth in 0..groups.len() {
        let steps = lists.groups[depth];
        let cursor = walker.cursors[depth];
        same = same && shows_number(&groups[depth], steps.flat, cursor.key);
        if !same {
            let group = &mut groups[depth];
            let marks = &walker.marks[depth];
            let matches = lists.matches[depth];
            put_group(
                &lists.plan_run,
                steps,
                matches,
                &lists.row,
                cursor,
                marks,
                group,
            );
        }
    }
}

// Whether what a group shows of the number at which it stands is as for this one.
fn shows_number(group: &Group<'_>, flat: bool, key: u32) -> bool
    ensures { result ≡ true → ShowsNumber group.now flat key }
{
    let number = group.first() / VECTOR;
    if !flat {
        return number == key;
    }
    match group.current() {
        Some(current) => number == key / VECTOR && current == key % VECTOR,
        None => false,
    }
}

// Puts a group at the number of its cursor. It is written in place: its marks are most of it.
fn put_group<'g>(
    plan_run: &PlanRun<'g>,
    steps: GroupSteps,
    matches: &'g [u32],
    row: &Assignment,
    cursor: Cursor,
    marks: &Marks,
    group: &mut Group<'g>,
)
    requires stands { CanStand (run_of plan_run.now) row.now steps cursor }
    requires matches { AreMatches (run_of plan_run.now) steps.first row.now matches.now }
    requires marks { length marks.now ≡ VECTOR }
    ensures { IsGroupAt (run_of plan_run.now) row.now steps cursor marks.now group.new }
{
    let number = if steps.flat {
        cursor.key / VECTOR
    } else {
        cursor.key
    };
    let current = if steps.flat {
        Some(cursor.key % VECTOR)
    } else {
        None
    };
    let piece = plan_run.piece(steps, matches, VECTOR * number, row);
    group.put(piece, current, marks, plan_run.kept(steps.first));
}
