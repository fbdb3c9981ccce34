//! Groups that follow a chain of columns by rows alone: no load number is looked for on the way.
ghost use Rattle.std.specs.Prelude.{◌≡◌, ◌<◌, ◌≤◌, ℕ, IfSome, IsTrue, Some, length, true};
ghost use Rattle.std.specs.Prelude.{slice_get};
ghost use Rattle.gq_steps.specs.Tests.{GoesOn, follow_of, pair_of, test_of};
ghost use Rattle.gq_chains.specs.declared.chain.Beginning.TheVariants as Begin;
ghost use Rattle.gq_chains.specs.steps.Chains.{BeginsBy, CanBegin, HasBegun, IsChain};
ghost use Rattle.gq_chains.specs.steps.Ends.{HaveEnds, ends_differ};
ghost use Rattle.gq_chains.specs.steps.Judged.{IsJudged};
ghost use Rattle.gq_steps.specs.Follows.{CanFollow};
ghost use Rattle.gq_steps.specs.Keeps.{IsRange};
ghost use Rattle.gq_steps.specs.Levels.{known, step_at};
ghost use Rattle.gq_steps.specs.Matches.{AreMatches};
ghost use Rattle.gq_steps.specs.Moves.{IsHeld, IsRun, run_of, steps_in};
ghost use Rattle.gq_steps.specs.Reaching.{Reaches};
ghost use Rattle.gq_plan.specs.declared.follow.Follow.{Follow};
ghost use Rattle.gq_steps.specs.steps.Outcomes.{passes_at};

use crate::asked::{extended, follow_at, is_row_test, pair_at, scanned, test_at};
use crate::ends::{ends_differ, is_ends_test};
use gq_plan::{Assignment, Follow};
use gq_steps::{Action, Cut, GroupSteps, PlanRun};

/// How a chain begins: with the rows of a node variable, or with a list that is followed.
#[derive(Clone, Copy)]
pub(crate) enum Beginning {
    Rows(u32),
    List(Follow),
}

/// How a group begins that is a chain: rows alone say what its steps make.
pub(crate) fn chain_of(plan_run: &PlanRun<'_>, group: GroupSteps) -> Option<Beginning>
    requires { IsRange (run_of plan_run.now) group }
    ensures { IfSome result (IsChain (run_of plan_run.now) group) }
{
    match group.cut {
        Cut::Chain => begins(group.action),
        _ => None,
    }
}

// How a chain begins, if one may.
fn begins(action: Action) -> Option<Beginning>
    ensures { IfSome result (BeginsBy action) }
{
    match scanned(action) {
        Some(node) => Some(Beginning::Rows(node)),
        None => match extended(action) {
            Some(follow) => Some(Beginning::List(follow)),
            None => None,
        },
    }
}

/// Whether the steps of a group behind the first one, from one on up to another, go on with a chain:
/// each follows a relationship to a node that was not bound, or is a test that rows alone decide.
pub fn are_chained(plan_run: &PlanRun<'_>, first: usize, end: usize) -> bool
    requires run { IsRun (run_of plan_run.now) }
    requires some { first < end }
    requires inside { end ≤ length (steps_in plan_run.now) }
    ensures { IsTrue result → (d : ℕ) → first < d → d < end →
        GoesOn (run_of plan_run.now) first d }
{
    for depth in first + 1..end {
        if !goes_on(plan_run, first, depth) {
            return false;
        }
    }
    true
}

// Whether a chain goes on with the step at a depth, behind the first one of its group: it follows a
// relationship to a node that was not bound, or is a test that rows alone decide.
fn goes_on(plan_run: &PlanRun<'_>, first: usize, depth: usize) -> bool
    requires run { IsRun (run_of plan_run.now) }
    requires depth { depth < length (steps_in plan_run.now) }
    requires above { first < depth }
    ensures { result ≡ true → GoesOn (run_of plan_run.now) first depth }
{
    match follow_at(plan_run, depth) {
        Some(_follow) => true,
        None => is_row_test(plan_run, depth) || is_ends_test(plan_run, first, depth),
    }
}

/// Whether all steps of a chain make something of a place of its whole list: the rows to which it
/// leads are written.
pub(crate) fn reach_place(
    plan_run: &PlanRun<'_>,
    group: GroupSteps,
    beginning: Beginning,
    place: u32,
    row: &mut Assignment,
) -> bool
    requires run { IsRun (run_of plan_run.now) }
    requires steps { IsRange (run_of plan_run.now) group }
    requires chain { IsChain (run_of plan_run.now) group beginning }
    requires held { IsHeld (run_of plan_run.now) row.old (known (run_of plan_run.now) group.first) }
    ensures { IsJudged (run_of plan_run.now) group place row.old result row.new }
{
    if !begin(plan_run, beginning, place, row) {
        return false;
    }
    for depth in group.first + 1..group.end {
        if !go_on(plan_run, depth, row) {
            return false;
        }
    }
    true
}

// Writes the row at a place of the list with which a chain begins, if there is such a place.
fn begin(plan_run: &PlanRun<'_>, beginning: Beginning, place: u32, row: &mut Assignment) -> bool
    requires run { IsRun (run_of plan_run.now) }
    requires can { CanBegin (run_of plan_run.now) row.old beginning }
    ensures { HasBegun (run_of plan_run.now) beginning place row.old result row.new }
{
    match beginning {
        Beginning::Rows(node) => scan(plan_run, node, place, row),
        Beginning::List(follow) => plan_run.reach(follow, place, row),
    }
}

// Writes the row of a node variable at a place, if there is one.
fn scan(plan_run: &PlanRun<'_>, node: u32, place: u32, row: &mut Assignment) -> bool
    requires run { IsRun (run_of plan_run.now) }
    requires can { CanBegin (run_of plan_run.now) row.old (Begin.Rows node) }
    ensures { HasBegun (run_of plan_run.now) (Begin.Rows node) place row.old result row.new }
{
    if place >= plan_run.row_count(node) {
        return false;
    }
    row.nodes.set(node as usize, place);
    true
}

// What the step at a depth of a chain makes of the rows: it writes the one to which it leads, or says
// whether they pass.
fn go_on(plan_run: &PlanRun<'_>, depth: usize, row: &mut Assignment) -> bool
    requires run { IsRun (run_of plan_run.now) }
    requires depth { depth < length (steps_in plan_run.now) }
    requires can { (f : Follow) → follow_of (step_at (run_of plan_run.now) depth) ≡ Some f →
        CanFollow plan_run.now.graph.now plan_run.now.typed.now row.old f }
    requires ends { (p : ℕ) → pair_of (step_at (run_of plan_run.now) depth) ≡ Some p → IfSome
        (slice_get plan_run.now.typed.now.pairs p) (HaveEnds plan_run.now.typed.now row.old) }
    ensures follows { (f : Follow) → follow_of (step_at (run_of plan_run.now) depth) ≡ Some f →
        Reaches plan_run.now.graph.now plan_run.now.typed.now f 0 row.old result row.new }
    ensures tests { (i : ℕ) → test_of (step_at (run_of plan_run.now) depth) ≡ Some i →
        (row.new ≡ row.old) × (result ≡ passes_at plan_run.now.graph.now plan_run.now.typed.now
        row.old i) }
    ensures pairs { (p : ℕ) → pair_of (step_at (run_of plan_run.now) depth) ≡ Some p →
        (row.new ≡ row.old) × (result ≡ ends_differ plan_run.now.typed.now row.old p) }
{
    match follow_at(plan_run, depth) {
        Some(follow) => plan_run.reach(follow, 0, row),
        None => match test_at(plan_run, depth) {
            Some(test) => plan_run.keep(test, row),
            None => match pair_at(plan_run, depth) {
                Some(pair) => ends_differ(plan_run, pair, row),
                None => false,
            },
        },
    }
}
