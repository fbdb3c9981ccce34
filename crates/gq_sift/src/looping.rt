//! Lists that are followed by a relationship that has to be no loop.
ghost use Rattle.std.specs.Prelude.{◌≡◌, ◌⊎◌, ◌<◌, ◌≤◌, ◌&&◌, ◌==◌, ℕ, length, not, false, IfSome, IsTrue};
ghost use Rattle.std.specs.Prelude.{slice_index};
ghost use Rattle.gq_bits.specs.Places.{is_marked};
ghost use Rattle.gq_plan.specs.Rows.{node_table};
ghost use Rattle.gq_steps.specs.Levels.{step_at};
ghost use Rattle.gq_steps.specs.Tests.{IsLoopTest, IsWithinTable, loop_of};
ghost use Rattle.gq_steps.specs.Moves.{run_of, steps_in};

use gq_bits::{Marks, VECTOR};
use gq_lanes::keep_equal_id;
use gq_plan::{Follow, TypedRel};
use gq_steps::{Action, PlanRun};

// The relationship variable that the step at a depth asks to be no loop, if it asks for one.
fn loop_at(plan_run: &PlanRun<'_>, depth: usize) -> Option<u32>
    requires { depth < length (steps_in plan_run.now) }
    ensures { result ≡ loop_of (step_at (run_of plan_run.now) depth) }
{
    match plan_run.action(depth) {
        Action::NoLoop(rel) => Some(rel),
        _ => None,
    }
}

/// Whether the step at a depth asks that a relationship between nodes of one table is no loop.
pub(crate) fn is_loop_test(plan_run: &PlanRun<'_>, depth: usize, follow: Follow) -> bool
    requires { depth < length (steps_in plan_run.now) }
    ensures { IsTrue result → IsLoopTest (run_of plan_run.now) depth follow }
{
    match loop_at(plan_run, depth) {
        None => false,
        Some(rel) => rel == follow.rel && is_within_table(plan_run, follow),
    }
}

// Whether a relationship variable is followed between node variables of one table.
fn is_within_table(plan_run: &PlanRun<'_>, follow: Follow) -> bool
    ensures { IsTrue result → IsWithinTable plan_run.now.typed.now follow }
{
    match plan_run.typed.rels.get(follow.rel as usize) {
        None => false,
        Some(rel) => {
            if !are_ends(*rel, follow) {
                return false;
            }
            match (
                node_table(plan_run, follow.from),
                node_table(plan_run, follow.to),
            ) {
                (Some(one), Some(two)) => one == two,
                _ => false,
            }
        }
    }
}

// The table of a node variable.
fn node_table(plan_run: &PlanRun<'_>, node: u32) -> Option<u32>
    ensures { IfSome result (λ table. node_table plan_run.now.typed.now node ≡ table) }
{
    plan_run.typed.nodes.get(node as usize).copied()
}

// Whether a relationship leads between the nodes between which it is followed, one way or the other.
fn are_ends(rel: TypedRel, follow: Follow) -> bool
    ensures { IsTrue result → ((rel.source ≡ follow.from) × (rel.target ≡ follow.to))
        ⊎ ((rel.source ≡ follow.to) × (rel.target ≡ follow.from)) }
{
    (rel.source == follow.from && rel.target == follow.to)
        || (rel.source == follow.to && rel.target == follow.from)
}

/// Drops the marked places of a list that lead to a row.
pub(crate) fn drop_row(ids: &[u32], row: u32, marks: &mut Marks)
    requires few { length ids.now ≤ VECTOR }
    requires within { (j : ℕ) → length ids.now ≤ j → is_marked marks.old j ≡ false }
    ensures { (j : ℕ) → is_marked marks.new j
        ≡ (is_marked marks.old j && not (slice_index ids.now j == row)) }
{
    let mut same = Marks::first(ids.len() as u32);
    keep_equal_id(ids, row, &mut same);
    marks.and_not(&same);
}
