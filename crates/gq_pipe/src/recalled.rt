//! What is remembered of the lists of groups that no group but earlier ones than the last moves.
ghost use Rattle.std.specs.Prelude.{◌≡◌, ◌≢◌, ◌+◌, ◌*◌, ◌<◌, ◌≤◌, ◌^◌, ℕ, length, slice_get, IfSome};
ghost use Rattle.gq_pipe.specs.steps.Recalled.{AreRemembered, AreTold, IsOwn};
ghost use Rattle.gq_sift.specs.Remembered.{IsRemembered};
ghost use Rattle.gq_steps.specs.Groups.{group_at};
ghost use Rattle.gq_steps.specs.Keeps.{IsRange, IsSifted};
ghost use Rattle.gq_steps.specs.Levels.{before, built_at, known, step_at};
ghost use Rattle.gq_steps.specs.Matches.{AreMatches};
ghost use Rattle.gq_steps.specs.Moves.{run_of, IsRun, IsHeld};
ghost use Rattle.gq_steps.specs.Tries.{tries};

use gq_bits::{Marks, VECTOR};
use gq_plan::Assignment;
use gq_sift::{Remembered, sift, sift_remembered};
use gq_steps::{GroupSteps, PlanRun};
use std::alloc::Global;

/// What is remembered of the list of each group that has one between two cuts of which only groups
/// move that its cut does not read: nothing yet. The memory is taken here; where there is none,
/// nothing is remembered.
pub(crate) fn remembered(
    alloc: Global,
    plan_run: &PlanRun<'_>,
    groups: &[GroupSteps],
) -> Vec<Option<Remembered>>
    requires run { IsRun (run_of plan_run.now) }
    requires told { AreTold (run_of plan_run.now) groups.now }
    ensures { AreRemembered (run_of plan_run.now) groups.now result.items }
{
    let mut all = Vec::new(alloc);
    for depth in 0..groups.len() {
        let one = remembered_at(alloc, plan_run, groups, depth);
        match all.push(one) {
            Ok(()) => {}
            Err(_) => return Vec::new(alloc),
        }
    }
    all
}

// That of the group at a depth, if it has one.
fn remembered_at(
    alloc: Global,
    plan_run: &PlanRun<'_>,
    groups: &[GroupSteps],
    depth: usize,
) -> Option<Remembered>
    requires run { IsRun (run_of plan_run.now) }
    requires told { AreTold (run_of plan_run.now) groups.now }
    requires depth { depth < length groups.now }
    ensures { IfSome result (IsRemembered (run_of plan_run.now) (group_at groups.now depth)) }
{
    if depth == 0 {
        return None;
    }
    Remembered::of(alloc, plan_run, groups[depth - 1], groups[depth])
}

/// As `sift`, of so many places of a piece. Where what is kept of the list of the group at a depth is
/// remembered, it is looked up.
pub(crate) fn sift_piece(
    remembered: &mut Vec<Option<Remembered>>,
    depth: usize,
    plan_run: &mut PlanRun<'_>,
    group: GroupSteps,
    matches: &[u32],
    piece: u32,
    count: u32,
    row: &mut Assignment,
    marks: &mut Marks,
)
    requires run { IsRun (run_of plan_run.old) }
    requires steps { IsRange (run_of plan_run.old) group }
    requires held { IsHeld (run_of plan_run.old) row.old (known (run_of plan_run.old) group.first) }
    requires matches { AreMatches (run_of plan_run.old) group.first row.old matches.now }
    requires count { count ≤ VECTOR }
    requires fits { piece * VECTOR + count < 2 ^ 32 }
    requires inside { let c = run_of plan_run.old in piece * VECTOR + count ≤ length (tries c.graph
        c.typed (built_at c group.first) (step_at c group.first) (before c row.old group.first)) }
    requires own { IsOwn (run_of plan_run.old) group remembered.old.items depth }
    ensures sifted { IsSifted (run_of plan_run.old) group (piece * VECTOR) count row.old row.new
        marks.new }
    ensures own { IsOwn (run_of plan_run.old) group remembered.new.items depth }
    ensures others { (d : ℕ) → d ≢ depth →
        slice_get remembered.new.items d ≡ slice_get remembered.old.items d }
    ensures same { plan_run.new ≡ plan_run.old }
{
    let first = piece * VECTOR;
    match remembered.get_mut(depth) {
        None => sift(plan_run, group, matches, first, count, row, marks),
        Some(found) => match found {
            None => sift(plan_run, group, matches, first, count, row, marks),
            Some(own) => sift_remembered(own, plan_run, group, matches, piece, count, row, marks),
        },
    }
}
