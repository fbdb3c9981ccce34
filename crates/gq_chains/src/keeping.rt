//! The places of a piece of a chain's list that all its steps keep.
ghost use Rattle.std.specs.Prelude.{◌≡◌, ◌<◌, ◌≤◌, ◌+◌, ◌^◌, false, true};
ghost use Rattle.gq_chains.specs.Among.{IsAmong};
ghost use Rattle.gq_chains.specs.steps.Chains.{IsChain};
ghost use Rattle.gq_steps.specs.Keeps.{IsRange, IsSifted};
ghost use Rattle.gq_steps.specs.Levels.{known};
ghost use Rattle.gq_steps.specs.Moves.{IsHeld, IsRun, run_of};

use crate::blocks::sift_together;
use crate::chain::{Beginning, chain_of, reach_place};
use gq_bits::{Marks, VECTOR};
use gq_plan::Assignment;
use gq_steps::{GroupSteps, PlanRun};

/// Of marked places of a part of a group's list, among which are all that its steps keep, marks those
/// that they keep, and no others, if it answers true: the group is a chain. Else nothing is done.
pub fn sift_chain(
    plan_run: &PlanRun<'_>,
    group: GroupSteps,
    first: u32,
    count: u32,
    row: &mut Assignment,
    marks: &mut Marks,
) -> bool
    requires run { IsRun (run_of plan_run.now) }
    requires steps { IsRange (run_of plan_run.now) group }
    requires held { IsHeld (run_of plan_run.now) row.old (known (run_of plan_run.now) group.first) }
    requires count { count ≤ VECTOR }
    requires fits { first + count < 2 ^ 32 }
    requires among { IsAmong (run_of plan_run.now) group first count row.old marks.old }
    ensures sifted { result ≡ true →
        IsSifted (run_of plan_run.now) group first count row.old row.new marks.new }
    ensures row { result ≡ false → row.new ≡ row.old }
    ensures marks { result ≡ false → marks.new ≡ marks.old }
{
    match chain_of(plan_run, group) {
        None => false,
        Some(beginning) => {
            sift_begun(plan_run, group, beginning, first, count, row, marks);
            true
        }
    }
}

// The same of a chain that begins so.
fn sift_begun(
    plan_run: &PlanRun<'_>,
    group: GroupSteps,
    beginning: Beginning,
    first: u32,
    count: u32,
    row: &mut Assignment,
    marks: &mut Marks,
)
    requires run { IsRun (run_of plan_run.now) }
    requires steps { IsRange (run_of plan_run.now) group }
    requires chain { IsChain (run_of plan_run.now) group beginning }
    requires held { IsHeld (run_of plan_run.now) row.old (known (run_of plan_run.now) group.first) }
    requires count { count ≤ VECTOR }
    requires fits { first + count < 2 ^ 32 }
    requires among { IsAmong (run_of plan_run.now) group first count row.old marks.old }
    ensures { IsSifted (run_of plan_run.now) group first count row.old row.new marks.new }
{
    if sift_together(plan_run, group, beginning, first, count, row, marks) {
        return;
    }
    let mut place = 0;
    'places: while let Some(offset) = marks.next_from(place) {
        if !reach_place(plan_run, group, beginning, first + offset, row) {
            marks.set(offset, false);
        }
        place = offset + 1;
    }
}
