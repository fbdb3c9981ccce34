//! The places of a piece of a group's list that all its steps keep.
ghost use Rattle.std.specs.Prelude.{◌≡◌, ◌<◌, ◌≤◌, ◌+◌, ◌^◌, length};
ghost use Rattle.gq_chains.specs.Among.{IsAmong};
ghost use Rattle.gq_steps.specs.Keeps.{IsRange, IsSifted};
ghost use Rattle.gq_steps.specs.Levels.{before, built_at, known, step_at};
ghost use Rattle.gq_steps.specs.Matches.{AreMatches};
ghost use Rattle.gq_steps.specs.Moves.{run_of, IsRun, IsHeld};
ghost use Rattle.gq_steps.specs.Tries.{tries};

use crate::closing::candidates;
use crate::edge_tests::test_edges;
use crate::filtering::{filter, filters};
use crate::lists::{filter_list, filters_list};
use crate::places::keep_place;
use gq_bits::{Marks, VECTOR};
use gq_chains::sift_chain;
use gq_plan::Assignment;
use gq_steps::{GroupSteps, PlanRun};

/// Marks the places of a part of a group's list that all its steps keep, and no others. If it joins,
/// its matches are told.
pub fn sift(
    plan_run: &mut PlanRun<'_>,
    group: GroupSteps,
    matches: &[u32],
    first: u32,
    count: u32,
    row: &mut Assignment,
    marks: &mut Marks,
)
    requires run { IsRun (run_of plan_run.old) }
    requires steps { IsRange (run_of plan_run.old) group }
    requires held { IsHeld (run_of plan_run.old) row.old (known (run_of plan_run.old) group.first) }
    requires matches { AreMatches (run_of plan_run.old) group.first row.old matches.now }
    requires count { count ≤ VECTOR }
    requires fits { first + count < 2 ^ 32 }
    requires inside { let c = run_of plan_run.old in first + count ≤ length (tries c.graph c.typed
        (built_at c group.first) (step_at c group.first) (before c row.old group.first)) }
    ensures sifted { IsSifted (run_of plan_run.old) group first count row.old row.new marks.new }
    ensures same { plan_run.new ≡ plan_run.old }
{
    match filters(group) {
        Some(node) => filter(plan_run, group, node, first, count, row, marks),
        None => match filters_list(group) {
            Some(follow) => filter_list(plan_run, group, follow, first, count, row, marks),
            None => sift_each(plan_run, group, matches, first, count, row, marks),
        },
    }
}

// The same, place by place.
fn sift_each(
    plan_run: &PlanRun<'_>,
    group: GroupSteps,
    matches: &[u32],
    first: u32,
    count: u32,
    row: &mut Assignment,
    marks: &mut Marks,
)
    requires run { IsRun (run_of plan_run.now) }
    requires steps { IsRange (run_of plan_run.now) group }
    requires held { IsHeld (run_of plan_run.now) row.old (known (run_of plan_run.now) group.first) }
    requires matches { AreMatches (run_of plan_run.now) group.first row.old matches.now }
    requires count { count ≤ VECTOR }
    requires fits { first + count < 2 ^ 32 }
    requires inside { let c = run_of plan_run.now in first + count ≤ length (tries c.graph c.typed
        (built_at c group.first) (step_at c group.first) (before c row.old group.first)) }
    ensures { IsSifted (run_of plan_run.now) group first count row.old row.new marks.new }
{
    candidates(plan_run, group, first, count, row, marks);
    if test_edges(plan_run, group, first, count, row, marks) {
        return;
    }
    sift_among(plan_run, group, matches, first, count, row, marks);
}

/// The same, place by place, where places of the part are marked among which are all that its steps
/// keep.
pub fn sift_among(
    plan_run: &PlanRun<'_>,
    group: GroupSteps,
    matches: &[u32],
    first: u32,
    count: u32,
    row: &mut Assignment,
    marks: &mut Marks,
)
    requires run { IsRun (run_of plan_run.now) }
    requires steps { IsRange (run_of plan_run.now) group }
    requires held { IsHeld (run_of plan_run.now) row.old (known (run_of plan_run.now) group.first) }
    requires matches { AreMatches (run_of plan_run.now) group.first row.old matches.now }
    requires count { count ≤ VECTOR }
    requires fits { first + count < 2 ^ 32 }
    requires among { IsAmong (run_of plan_run.now) group first count row.old marks.old }
    ensures { IsSifted (run_of plan_run.now) group first count row.old row.new marks.new }
{
    if sift_chain(plan_run, group, first, count, row, marks) {
        return;
    }
    let mut place = 0;
    'places: while let Some(offset) = marks.next_from(place) {
        if !keep_place(plan_run, group, matches, first + offset, row) {
            marks.set(offset, false);
        }
        place = offset + 1;
    }
}
