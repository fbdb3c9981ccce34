//! Lists that are followed to a relationship that has to differ from another one of its table.
ghost use Rattle.std.specs.Prelude.{◌≡◌, ◌<◌, ◌≤◌, ◌+◌, ◌^◌, ◌&&◌, ℕ, length, not, false, IfSome, IsTrue};
ghost use Rattle.std.specs.Prelude.{slice_index};
ghost use Rattle.gq_bits.specs.Places.{is_marked};
ghost use Rattle.gq_plan.specs.Rows.{rel_table};
ghost use Rattle.gq_store.specs.Neighbours.{neighbours, numbers};
ghost use Rattle.gq_sift.specs.steps.Candidates.{leads_to};
ghost use Rattle.gq_steps.specs.Tests.{IsPairTest, IsPairWith, other_of, pair_of};
ghost use Rattle.gq_steps.specs.Levels.{step_at};
ghost use Rattle.gq_steps.specs.Moves.{run_of, steps_in};
ghost use Rattle.gq_steps.specs.Follows.{CanFollow};

use crate::finding::{part_from, place_of_number};
use gq_bits::{Marks, VECTOR};
use gq_chains::{pair_at, rel_table};
use gq_plan::{Assignment, Follow, RelPair};
use gq_steps::PlanRun;

/// Whether the step at a depth asks that a relationship variable differs from another one of
/// the same table.
pub(crate) fn is_pair_test(plan_run: &PlanRun<'_>, depth: usize, rel: u32) -> bool
    requires { depth < length (steps_in plan_run.now) }
    ensures { IsTrue result → IsPairTest (run_of plan_run.now) depth rel }
{
    match pair_at(plan_run, depth) {
        None => false,
        Some(number) => match plan_run.typed.pairs.get(number as usize) {
            None => false,
            Some(pair) => is_pair_with(plan_run, *pair, rel),
        },
    }
}

// Whether a pair is of a relationship variable and of another one of the same table.
fn is_pair_with(plan_run: &PlanRun<'_>, pair: RelPair, rel: u32) -> bool
    ensures { IsTrue result → IsPairWith plan_run.now.typed.now rel pair }
{
    if pair.first != rel && pair.second != rel {
        return false;
    }
    let other = other_of(rel, pair);
    if other == rel {
        return false;
    }
    match (rel_table(plan_run, other), rel_table(plan_run, rel)) {
        (Some(one), Some(two)) => one == two,
        _ => false,
    }
}

/// Of so many places of a list, from one on, drops the one at which the relationship with a load
/// number is.
pub(crate) fn drop_number(
    plan_run: &PlanRun<'_>,
    follow: Follow,
    first: u32,
    count: u32,
    number: u32,
    row: &Assignment,
    marks: &mut Marks,
)
    requires can { CanFollow plan_run.now.graph.now plan_run.now.typed.now row.now follow }
    requires count { count ≤ VECTOR }
    requires fits { first + count < 2 ^ 32 }
    requires inside { let table = rel_table plan_run.now.typed.now follow.rel in first + count
        ≤ length (neighbours plan_run.now.graph.now table follow.direction
        (slice_index row.now.nodes follow.from)) }
    requires within { (j : ℕ) → count ≤ j → is_marked marks.old j ≡ false }
    ensures { let table = rel_table plan_run.now.typed.now follow.rel in let list = numbers
        plan_run.now.graph.now table follow.direction (slice_index row.now.nodes follow.from) in
        (j : ℕ) → is_marked marks.new j ≡ (is_marked marks.old j && not (leads_to list
        (first + j) number)) }
{
    let part = part_from(plan_run, follow, first, count, row);
    match place_of_number(plan_run.graph, part, number) {
        None => {}
        Some(place) => marks.set(place - first, false),
    }
}

/// The other relationship variable of a pair.
pub(crate) fn other_of(rel: u32, pair: RelPair) -> u32
    ensures { result ≡ other_of rel pair }
{
    if pair.first == rel {
        pair.second
    } else {
        pair.first
    }
}
