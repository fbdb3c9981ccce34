//! Conditions on the relationships of a list, decided by where these stand: no row is read for them,
//! and no load number.
ghost use Rattle.std.specs.Prelude.{◌≡◌, ◌⊎◌, ◌+◌, ◌<◌, ◌≤◌, ◌^◌, ℕ, length, true, false, slice_index};
ghost use Rattle.std.specs.Prelude.{IfSome, IsTrue};
ghost use Rattle.gq_bits.specs.Places.{is_marked};
ghost use Rattle.gq_chains.specs.Among.{IsAmong};
ghost use Rattle.gq_chains.specs.steps.Extends.{Extends};
ghost use Rattle.gq_filter.specs.Placed.{Passes, Refuses};
ghost use Rattle.gq_plan.specs.Rows.{rel_table};
ghost use Rattle.gq_sift.specs.steps.EdgeTests.{IsSpanEnd, IsTestedAs, StandsWhere};
ghost use Rattle.gq_sift.specs.steps.Parts.{AreIn, Drops, IsPart};
ghost use Rattle.gq_steps.specs.Keeps.{IsRange, IsSifted};
ghost use Rattle.gq_steps.specs.Levels.{before, built_at, known, step_at};
ghost use Rattle.gq_steps.specs.Moves.{IsHeld, IsRun, run_of};
ghost use Rattle.gq_steps.specs.Tries.{tries};
ghost use Rattle.gq_store.specs.Neighbours.{neighbours};

use crate::finding::{ListPart, part_from};
use crate::lists::listed;
use gq_base::Direction;
use gq_bits::{Marks, VECTOR};
use gq_chains::test_at;
use gq_filter::PlacedTest;
use gq_plan::{Assignment, Follow};
use gq_steps::{Action, Cut, GroupSteps, PlanRun};
use gq_store::Graph;

/// Of marked places of a part of a group's list, among which are all that its steps keep, drops those
/// whose relationships are refused by the conditions that come first, where the group asks for such.
/// If the answer is true, its steps keep the others: where these stand told it of each condition.
pub(crate) fn test_edges(
    plan_run: &PlanRun<'_>,
    group: GroupSteps,
    first: u32,
    count: u32,
    row: &Assignment,
    marks: &mut Marks,
) -> bool
    requires run { IsRun (run_of plan_run.now) }
    requires steps { IsRange (run_of plan_run.now) group }
    requires held { IsHeld (run_of plan_run.now) row.now (known (run_of plan_run.now) group.first) }
    requires count { count ≤ VECTOR }
    requires fits { first + count < 2 ^ 32 }
    requires inside { let c = run_of plan_run.now in first + count ≤ length (tries c.graph c.typed
        (built_at c group.first) (step_at c group.first) (before c row.now group.first)) }
    requires among { IsAmong (run_of plan_run.now) group first count row.now marks.old }
    ensures told { result ≡ true →
        IsSifted (run_of plan_run.now) group first count row.now row.now marks.new }
    ensures among { IsAmong (run_of plan_run.now) group first count row.now marks.new }
{
    match asked(group) {
        None => false,
        Some(follow) => test_part(plan_run, group, follow, first, count, row, marks),
    }
}

// How a group follows a list, if where its relationships stand may decide conditions.
fn asked(group: GroupSteps) -> Option<Follow>
    ensures { IfSome result (λ follow. group.action ≡ Action.List follow) }
{
    match group.cut {
        Cut::Told => listed(group.action),
        Cut::Refused => listed(group.action),
        _ => None,
    }
}

// Whether it may decide each of a group's conditions, of which there are some.
fn are_all(cut: Cut) -> bool
    ensures { IsTrue result → cut ≡ Cut.Told }
{
    match cut {
        Cut::Told => true,
        _ => false,
    }
}

// The same where it is known how the list is followed.
fn test_part(
    plan_run: &PlanRun<'_>,
    group: GroupSteps,
    follow: Follow,
    first: u32,
    count: u32,
    row: &Assignment,
    marks: &mut Marks,
) -> bool
    requires run { IsRun (run_of plan_run.now) }
    requires steps { IsRange (run_of plan_run.now) group }
    requires extends { Extends (run_of plan_run.now) group.first follow }
    requires held { IsHeld (run_of plan_run.now) row.now (known (run_of plan_run.now) group.first) }
    requires count { count ≤ VECTOR }
    requires fits { first + count < 2 ^ 32 }
    requires inside { let table = rel_table plan_run.now.typed.now follow.rel in first + count
        ≤ length (neighbours plan_run.now.graph.now table follow.direction
        (slice_index row.now.nodes follow.from)) }
    requires among { IsAmong (run_of plan_run.now) group first count row.now marks.old }
    ensures told { result ≡ true →
        IsSifted (run_of plan_run.now) group first count row.now row.now marks.new }
    ensures among { IsAmong (run_of plan_run.now) group first count row.now marks.new }
{
    let part = part_from(plan_run, follow, first, count, row);
    let mut told = are_all(group.cut);
    for depth in group.first + 1..group.end {
        match test_at(plan_run, depth) {
            None => return false,
            Some(test) => told = test_by(plan_run, test, follow.rel, part, told, marks),
        }
    }
    told
}

// Of the marked places of a part of a list, drops those whose relationships a condition refuses. The
// answer is whether all is told: the condition is true of the others, and so was it of those before.
fn test_by(
    plan_run: &PlanRun<'_>,
    test: u32,
    rel: u32,
    part: ListPart,
    told: bool,
    marks: &mut Marks,
) -> bool
    requires run { IsRun (run_of plan_run.now) }
    requires table { rel_table plan_run.now.typed.now rel ≡ part.table }
    requires part { IsPart plan_run.now.graph.now part }
    requires ordered { part.low ≤ part.high }
    requires few { part.high ≤ part.low + VECTOR }
    requires marks { AreIn part marks.old }
    ensures drops { Drops (λ j. IsTestedAs (run_of plan_run.now) rel part test false (part.low + j))
        marks.old marks.new }
    ensures passed { result ≡ true → (j : ℕ) → is_marked marks.new j ≡ true →
        IsTestedAs (run_of plan_run.now) rel part test true (part.low + j) }
    ensures before { result ≡ true → told ≡ true }
{
    match plan_run.tests.get(test as usize) {
        None => false,
        Some(test) => match test.placed(rel) {
            None => false,
            Some(placed) => test_places(plan_run.graph, part, placed, told, marks),
        },
    }
}

// The same of a condition that places decide.
fn test_places(
    graph: &Graph,
    part: ListPart,
    test: PlacedTest<'_>,
    told: bool,
    marks: &mut Marks,
) -> bool
    requires part { IsPart graph.now part }
    requires ordered { part.low ≤ part.high }
    requires few { part.high ≤ part.low + VECTOR }
    requires marks { AreIn part marks.old }
    ensures drops { Drops (λ j. StandsWhere graph.now part (Refuses test.entry) (part.low + j))
        marks.old marks.new }
    ensures passed { result ≡ true → (j : ℕ) → is_marked marks.new j ≡ true →
        StandsWhere graph.now part (Passes test.entry) (part.low + j) }
    ensures before { result ≡ true → told ≡ true }
{
    match span_end(graph, part, test) {
        None => test_each(graph, part, test, told, marks),
        Some(high) => {
            test.keep(high - (part.high - part.low), high, marks);
            told
        }
    }
}

// The end of the places at which the relationships of a part of a list stand, if these follow one
// another, and each tells whether it passes.
fn span_end(graph: &Graph, part: ListPart, test: PlacedTest<'_>) -> Option<u32>
    requires part { IsPart graph.now part }
    ensures { IfSome result (IsSpanEnd graph.now part test.entry) }
{
    match part.direction {
        Direction::Backward => None,
        Direction::Forward => match graph.first_place(part.table, part.row) {
            None => None,
            Some(first) => test.end_of(first, part.high),
        },
    }
}

// The same place by place. Where not all is told, and the first place is not refused, the others are
// not asked: what is not refused is tested once more.
fn test_each(
    graph: &Graph,
    part: ListPart,
    test: PlacedTest<'_>,
    told: bool,
    marks: &mut Marks,
) -> bool
    requires part { IsPart graph.now part }
    requires marks { AreIn part marks.old }
    ensures drops { Drops (λ j. StandsWhere graph.now part (Refuses test.entry) (part.low + j))
        marks.old marks.new }
    ensures passed { result ≡ true → (j : ℕ) → is_marked marks.new j ≡ true →
        StandsWhere graph.now part (Passes test.entry) (part.low + j) }
    ensures before { result ≡ true → told ≡ true }
{
    let mut all = told;
    let mut refused = false;
    let mut place = 0;
    'places: while let Some(offset) = marks.next_from(place) {
        let edge = graph.edge_place(part.table, part.direction, part.row, part.low + offset);
        if !test.may_pass(edge) {
            marks.set(offset, false);
            refused = true;
        }
        if !test.tells(edge) {
            all = false;
        }
        if !all && !refused {
            return false;
        }
        place = offset + 1;
    }
    all
}
