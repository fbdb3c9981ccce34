//! What the tests of a group ask that rows alone decide, or the relationships that it follows.
ghost use Rattle.std.specs.Prelude.{◌<◌, length, IsTrue};
ghost use Rattle.gq_steps.specs.Moves.{run_of, steps_in, IsRun};
ghost use Rattle.gq_steps.specs.Tests.{IsListTest, RowsDecide};

use crate::differing::is_pair_test;
use crate::looping::is_loop_test;
use gq_chains::is_row_test;
use gq_plan::Follow;
use gq_steps::PlanRun;

/// Whether the step at a depth is a test that rows alone decide, or asks that a relationship that is
/// followed is no loop.
pub(crate) fn do_rows_decide(plan_run: &PlanRun<'_>, depth: usize, follow: Follow) -> bool
    requires run { IsRun (run_of plan_run.now) }
    requires depth { depth < length (steps_in plan_run.now) }
    ensures { IsTrue result → RowsDecide (run_of plan_run.now) depth follow }
{
    is_row_test(plan_run, depth) || is_loop_test(plan_run, depth, follow)
}

/// Whether the step at a depth is such a test, or asks that the relationship differs from another one.
pub(crate) fn is_list_test(plan_run: &PlanRun<'_>, depth: usize, follow: Follow) -> bool
    requires run { IsRun (run_of plan_run.now) }
    requires depth { depth < length (steps_in plan_run.now) }
    ensures { IsTrue result → IsListTest (run_of plan_run.now) depth follow }
{
    is_row_test(plan_run, depth)
        || is_pair_test(plan_run, depth, follow.rel)
        || is_loop_test(plan_run, depth, follow)
}
