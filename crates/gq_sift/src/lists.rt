//! The places of a list that a group's tests keep, a piece at a time: first those that rows decide, and
//! then those that load numbers do.
ghost use Rattle.std.specs.Prelude.{◌≡◌, ◌⊎◌, ◌+◌, ◌≤◌, ◌<◌, ◌^◌, ◌&&◌, ◌==◌, ℕ, length, false, IfSome};
ghost use Rattle.std.specs.Prelude.{None, Some, not, slice_get, slice_index, slice_range};
ghost use Rattle.gq_bits.specs.Places.{is_marked};
ghost use Rattle.gq_plan.specs.Rows.{rel_table};
ghost use Rattle.gq_plan.specs.declared.typed.RelPair.{RelPair};
ghost use Rattle.gq_store.specs.Neighbours.{neighbours, numbers};
ghost use Rattle.gq_sift.specs.steps.Candidates.{leads_to};
ghost use Rattle.gq_steps.specs.Tests.{loop_of, other_of, pair_of, test_of};
ghost use Rattle.gq_sift.specs.steps.Filters.{FiltersList, IsWithin};
ghost use Rattle.gq_sift.specs.Tested.{IsTested};
ghost use Rattle.gq_steps.specs.Keeps.{IsRange, IsSifted};
ghost use Rattle.gq_steps.specs.Actions.{action_of};
ghost use Rattle.gq_steps.specs.Levels.{known, step_at};
ghost use Rattle.gq_steps.specs.Moves.{run_of, steps_in, IsRun, IsHeld};
ghost use Rattle.gq_steps.specs.steps.Outcomes.{passes_at, with_row};
ghost use Rattle.gq_steps.specs.Follows.{CanFollow};

use crate::differing::{drop_number, other_of};
use crate::filtering::keep_test;
use crate::looping::drop_row;
use gq_bits::{Marks, VECTOR};
use gq_chains::pair_at;
use gq_filter::Rows;
use gq_plan::{Assignment, Follow};
use gq_steps::{Action, Cut, GroupSteps, PlanRun};

/// How a group follows relationships in a list to a node that was not bound, where rows alone or load
/// numbers decide its tests.
pub(crate) fn filters_list(group: GroupSteps) -> Option<Follow>
    ensures { IfSome result (λ follow. ((group.cut ≡ Cut.List) ⊎ (group.cut ≡ Cut.Pairs))
        × (group.action ≡ Action.List follow)) }
{
    match group.cut {
        Cut::List => listed(group.action),
        Cut::Pairs => listed(group.action),
        _ => None,
    }
}

/// How relationships are followed in a list to a node that was not bound, if they are.
pub(crate) fn listed(action: Action) -> Option<Follow>
    ensures { IfSome result (λ follow. action ≡ Action.List follow) }
{
    match action {
        Action::List(follow) => Some(follow),
        _ => None,
    }
}

/// Marks those of so many places of a list, from one on, that the group's steps keep, and no others.
pub(crate) fn filter_list(
    plan_run: &mut PlanRun<'_>,
    group: GroupSteps,
    follow: Follow,
    first: u32,
    count: u32,
    row: &mut Assignment,
    marks: &mut Marks,
)
    requires run { IsRun (run_of plan_run.old) }
    requires steps { IsRange (run_of plan_run.old) group }
    requires filters { FiltersList (run_of plan_run.old) group follow }
    requires held { IsHeld (run_of plan_run.old) row.old (known (run_of plan_run.old) group.first) }
    requires count { count ≤ VECTOR }
    requires inside { let table = rel_table plan_run.old.typed.now follow.rel in first + count
        ≤ length (neighbours plan_run.old.graph.now table follow.direction
        (slice_index row.old.nodes follow.from)) }
    requires fits { first + count < 2 ^ 32 }
    ensures sifted { IsSifted (run_of plan_run.old) group first count row.old row.new marks.new }
    ensures same { plan_run.new ≡ plan_run.old }
{
    test_list(plan_run, group, follow, first, count, row, marks);
    drop_pairs(plan_run, group, follow, first, count, row, marks);
}

/// Marks those of so many places of a list, from one on, that the group's steps keep that rows decide,
/// and no others.
pub(crate) fn test_list(
    plan_run: &mut PlanRun<'_>,
    group: GroupSteps,
    follow: Follow,
    first: u32,
    count: u32,
    row: &mut Assignment,
    marks: &mut Marks,
)
    requires run { IsRun (run_of plan_run.old) }
    requires steps { IsRange (run_of plan_run.old) group }
    requires filters { FiltersList (run_of plan_run.old) group follow }
    requires held { IsHeld (run_of plan_run.old) row.old (known (run_of plan_run.old) group.first) }
    requires count { count ≤ VECTOR }
    requires inside { let table = rel_table plan_run.old.typed.now follow.rel in first + count
        ≤ length (neighbours plan_run.old.graph.now table follow.direction
        (slice_index row.old.nodes follow.from)) }
    requires fits { first + count < 2 ^ 32 }
    ensures tested { IsTested (run_of plan_run.old) group follow first count row.old marks.new }
    ensures row { row.new ≡ row.old }
    ensures same { plan_run.new ≡ plan_run.old }
{
    *marks = Marks::first(count);
    let list = plan_run.list(follow, row);
    let ids = part_of(list, first, count);
    for depth in group.first + 1..group.end {
        keep_tested(plan_run, depth, follow, ids, row, marks);
    }
    let _whole = marks.word(0);
}

// Keeps the marked places of a part of a list that the step at a depth keeps by their rows: its
// condition is true there, or the relationship is no loop.
fn keep_tested(
    plan_run: &mut PlanRun<'_>,
    depth: usize,
    follow: Follow,
    ids: &[u32],
    row: &mut Assignment,
    marks: &mut Marks,
)
    requires run { IsRun (run_of plan_run.old) }
    requires depth { depth < length (steps_in plan_run.old) }
    requires can { CanFollow plan_run.old.graph.now plan_run.old.typed.now row.old follow }
    requires few { length ids.now ≤ VECTOR }
    requires within { (j : ℕ) → length ids.now ≤ j → is_marked marks.old j ≡ false }
    ensures tests { (i : ℕ) → test_of (step_at (run_of plan_run.old) depth) ≡ Some i → (j : ℕ)
        → is_marked marks.new j ≡ (is_marked marks.old j && passes_at plan_run.old.graph.now
        plan_run.old.typed.now (with_row follow.to (slice_index ids.now j) row.old) i) }
    ensures pairs { (number : ℕ) → pair_of (step_at (run_of plan_run.old) depth) ≡ Some number →
        marks.new ≡ marks.old }
    ensures loops { loop_of (step_at (run_of plan_run.old) depth) ≡ Some follow.rel → (j : ℕ) →
        is_marked marks.new j ≡ (is_marked marks.old j && not (slice_index ids.now j ==
        slice_index row.old.nodes follow.from)) }
    ensures row { row.new ≡ row.old }
    ensures same { plan_run.new ≡ plan_run.old }
{
    match plan_run.action(depth) {
        Action::Test(test) => keep_test(plan_run, test, follow.to, Rows::List(ids), row, marks),
        Action::NoLoop(_rel) => drop_row(ids, row.nodes.as_slice()[follow.from as usize], marks),
        _ => {}
    }
}

/// Of the marked places of a list, which those of a group's steps keep that rows decide, drops those
/// that the others do not keep: their relationships have to differ from others.
pub(crate) fn drop_pairs(
    plan_run: &PlanRun<'_>,
    group: GroupSteps,
    follow: Follow,
    first: u32,
    count: u32,
    row: &Assignment,
    marks: &mut Marks,
)
    requires run { IsRun (run_of plan_run.now) }
    requires steps { IsRange (run_of plan_run.now) group }
    requires filters { FiltersList (run_of plan_run.now) group follow }
    requires held { IsHeld (run_of plan_run.now) row.now (known (run_of plan_run.now) group.first) }
    requires count { count ≤ VECTOR }
    requires inside { let table = rel_table plan_run.now.typed.now follow.rel in first + count
        ≤ length (neighbours plan_run.now.graph.now table follow.direction
        (slice_index row.now.nodes follow.from)) }
    requires fits { first + count < 2 ^ 32 }
    requires tested { IsTested (run_of plan_run.now) group follow first count row.now marks.old }
    ensures { IsSifted (run_of plan_run.now) group first count row.now row.now marks.new }
{
    let _list = plan_run.list(follow, row);
    let end = asking_end(group);
    for depth in group.first + 1..end {
        drop_pair(plan_run, depth, follow, first, count, row, marks);
    }
    let _whole = marks.word(0);
}

// The end of those of a group's steps that may ask relationships to differ: where rows alone decide
// all of them, none does.
fn asking_end(group: GroupSteps) -> usize
    requires { group.first < group.end }
    ensures some { group.first < result }
    ensures within { result ≤ group.end }
    ensures all { (result ≡ group.end) ⊎ (group.cut ≡ Cut.List) }
{
    match group.cut {
        Cut::List => group.first + 1,
        _ => group.end,
    }
}

// Of so many places of a list, from one on, drops the one at which the relationship is from which the
// step at a depth asks to differ, if it asks for that.
fn drop_pair(
    plan_run: &PlanRun<'_>,
    depth: usize,
    follow: Follow,
    first: u32,
    count: u32,
    row: &Assignment,
    marks: &mut Marks,
)
    requires depth { depth < length (steps_in plan_run.now) }
    requires can { CanFollow plan_run.now.graph.now plan_run.now.typed.now row.now follow }
    requires count { count ≤ VECTOR }
    requires fits { first + count < 2 ^ 32 }
    requires inside { let table = rel_table plan_run.now.typed.now follow.rel in first + count
        ≤ length (neighbours plan_run.now.graph.now table follow.direction
        (slice_index row.now.nodes follow.from)) }
    requires others { (number : ℕ) → pair_of (step_at (run_of plan_run.now) depth) ≡ Some number →
        IfSome (slice_get plan_run.now.typed.now.pairs number) (λ pair. other_of follow.rel pair
        < length row.now.rels) }
    requires within { (j : ℕ) → count ≤ j → is_marked marks.old j ≡ false }
    ensures pairs { let table = rel_table plan_run.now.typed.now follow.rel in let list = numbers
        plan_run.now.graph.now table follow.direction (slice_index row.now.nodes follow.from) in
        (number : ℕ) → pair_of (step_at (run_of plan_run.now) depth) ≡ Some number →
        (pair : RelPair) → slice_get plan_run.now.typed.now.pairs number ≡ Some pair → (j : ℕ)
        → is_marked marks.new j ≡ (is_marked marks.old j && not (leads_to list (first + j)
        (slice_index row.now.rels (other_of follow.rel pair)))) }
    ensures others { pair_of (step_at (run_of plan_run.now) depth) ≡ None → marks.new ≡ marks.old }
{
    match pair_at(plan_run, depth) {
        None => {}
        Some(number) => match plan_run.typed.pairs.get(number as usize) {
            None => {}
            Some(pair) => {
                let other = row.rels.as_slice()[other_of(follow.rel, *pair) as usize];
                drop_number(plan_run, follow, first, count, other, row, marks);
            }
        },
    }
}

// So many items of a list, from a place on.
fn part_of(list: &[u32], first: u32, count: u32) -> &[u32]
    requires inside { first + count ≤ length list.now }
    requires fits { first + count < 2 ^ 32 }
    ensures { result.now ≡ slice_range list.now first (first + count) }
{
    &list[first as usize..(first + count) as usize]
}
