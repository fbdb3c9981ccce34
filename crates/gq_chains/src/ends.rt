//! Relationships of a table that have to differ: where each is the first one of the row from which it
//! is followed, they do where the rows at their ends do, and no load number is looked for.
ghost use Rattle.std.specs.Prelude.{◌≡◌, ◌<◌, length, slice_get, IfSome, IsTrue, Some};
ghost use Rattle.gq_plan.specs.Rows.{rel_table};
ghost use Rattle.gq_chains.specs.steps.Ends.{HaveEnds, are_apart, ends_differ};
ghost use Rattle.gq_chains.specs.steps.Ends.{source_of, source_row, target_of, target_row};
ghost use Rattle.gq_steps.specs.Levels.{step_at};
ghost use Rattle.gq_steps.specs.Moves.{run_of, steps_in};
ghost use Rattle.gq_steps.specs.Tests.{AreFollowed, IsEndsTest, IsFollowed, follow_of};

use crate::asked::{follow_at, pair_at, rel_table};
use gq_base::Direction;
use gq_plan::{Assignment, Follow, RelPair};
use gq_steps::PlanRun;

/// Whether the step at a depth asks two relationships of one table to differ that steps behind the
/// first one of a group follow in one direction.
pub(crate) fn is_ends_test(plan_run: &PlanRun<'_>, first: usize, depth: usize) -> bool
    requires depth { depth < length (steps_in plan_run.now) }
    requires above { first < depth }
    ensures { IsTrue result → IsEndsTest (run_of plan_run.now) first depth }
{
    match pair_at(plan_run, depth) {
        None => false,
        Some(number) => match plan_run.typed.pairs.get(number as usize) {
            None => false,
            Some(pair) => are_followed(plan_run, first, depth, *pair),
        },
    }
}

// Whether both relationships of a pair are of one table, and such steps follow them in one direction.
fn are_followed(plan_run: &PlanRun<'_>, first: usize, depth: usize, pair: RelPair) -> bool
    requires depth { depth < length (steps_in plan_run.now) }
    requires above { first < depth }
    ensures { IsTrue result → AreFollowed (run_of plan_run.now) first depth pair }
{
    match (
        followed(plan_run, first, depth, pair.first),
        followed(plan_run, first, depth, pair.second),
    ) {
        (Some(one), Some(other)) => {
            is_same_way(one.direction, other.direction) && are_of_table(plan_run, pair)
        }
        _ => false,
    }
}

// How a step behind the first one and before another follows a relationship variable, if one does.
fn followed(plan_run: &PlanRun<'_>, first: usize, depth: usize, rel: u32) -> Option<Follow>
    requires depth { depth < length (steps_in plan_run.now) }
    requires above { first < depth }
    ensures { IfSome result (IsFollowed (run_of plan_run.now) first depth rel) }
{
    for at in first + 1..depth {
        if let Some(follow) = follow_to(plan_run, at, rel) {
            return Some(follow);
        }
    }
    None
}

// How the step at a depth follows a relationship variable to a node that was not bound, if it does.
fn follow_to(plan_run: &PlanRun<'_>, depth: usize, rel: u32) -> Option<Follow>
    requires { depth < length (steps_in plan_run.now) }
    ensures { IfSome result (λ follow. (follow_of (step_at (run_of plan_run.now) depth) ≡ Some follow)
        × (follow.rel ≡ rel)) }
{
    match follow_at(plan_run, depth) {
        None => None,
        Some(follow) => {
            if follow.rel == rel {
                Some(follow)
            } else {
                None
            }
        }
    }
}

// Whether two directions are the same.
fn is_same_way(one: Direction, other: Direction) -> bool
    ensures { IsTrue result → one ≡ other }
{
    match (one, other) {
        (Direction::Forward, Direction::Forward) => true,
        (Direction::Backward, Direction::Backward) => true,
        _ => false,
    }
}

// Whether both relationships of a pair are of one table.
fn are_of_table(plan_run: &PlanRun<'_>, pair: RelPair) -> bool
    ensures { IsTrue result → rel_table plan_run.now.typed.now pair.first ≡ rel_table
        plan_run.now.typed.now pair.second }
{
    match (
        rel_table(plan_run, pair.first),
        rel_table(plan_run, pair.second),
    ) {
        (Some(one), Some(other)) => one == other,
        _ => false,
    }
}

/// Whether the rows at the ends of the two relationships of a pair are not the same ones.
#[inline(always)]
pub(crate) fn ends_differ(plan_run: &PlanRun<'_>, number: u32, row: &Assignment) -> bool
    requires { IfSome (slice_get plan_run.now.typed.now.pairs number) (HaveEnds
        plan_run.now.typed.now row.now) }
    ensures { result ≡ ends_differ plan_run.now.typed.now row.now number }
{
    match plan_run.typed.pairs.get(number as usize) {
        None => false,
        Some(pair) => are_apart(plan_run, *pair, row),
    }
}

// The same of a pair that is there.
#[inline(always)]
fn are_apart(plan_run: &PlanRun<'_>, pair: RelPair, row: &Assignment) -> bool
    requires { HaveEnds plan_run.now.typed.now row.now pair }
    ensures { result ≡ are_apart plan_run.now.typed.now row.now pair }
{
    source_row(plan_run, pair.first, row) != source_row(plan_run, pair.second, row)
        || target_row(plan_run, pair.first, row) != target_row(plan_run, pair.second, row)
}

// The row at the source of a relationship variable.
#[inline(always)]
fn source_row(plan_run: &PlanRun<'_>, rel: u32, row: &Assignment) -> u32
    requires rel { rel < length plan_run.now.typed.now.rels }
    requires source { source_of (slice_get plan_run.now.typed.now.rels rel) < length row.now.nodes }
    ensures { result ≡ source_row plan_run.now.typed.now row.now rel }
{
    let node = plan_run.typed.rels.as_slice()[rel as usize].source;
    row.nodes.as_slice()[node as usize]
}

// The row at its target.
#[inline(always)]
fn target_row(plan_run: &PlanRun<'_>, rel: u32, row: &Assignment) -> u32
    requires rel { rel < length plan_run.now.typed.now.rels }
    requires target { target_of (slice_get plan_run.now.typed.now.rels rel) < length row.now.nodes }
    ensures { result ≡ target_row plan_run.now.typed.now row.now rel }
{
    let node = plan_run.typed.rels.as_slice()[rel as usize].target;
    row.nodes.as_slice()[node as usize]
}
