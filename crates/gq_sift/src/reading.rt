//! What the tests of a group read.
ghost use Rattle.std.specs.Prelude.{◌≡◌, ◌<◌, ℕ, false, length, IsTrue, Some, slice_get, true};
ghost use Rattle.gq_plan.specs.Covers.{test_bound};
ghost use Rattle.gq_plan.specs.Known.{known_of, set_of};
ghost use Rattle.gq_plan.specs.Meaning.{holds};
ghost use Rattle.gq_sift.specs.Remembered.{TestsRead};
ghost use Rattle.gq_sift.specs.steps.Filters.{IsWithin};
ghost use Rattle.gq_steps.specs.Tests.{test_of};
ghost use Rattle.gq_steps.specs.Levels.{step_at};
ghost use Rattle.gq_steps.specs.Moves.{run_of, steps_in};

use gq_chains::test_at;
use gq_join::Sealed;
use gq_plan::{Follow, Known};
use gq_steps::{Action, GroupSteps, PlanRun, join_keys};

// The most node variables of a query.
const NODES: u32 = 24;

/// The node variables that the tests of a group read, and the one from which its list leads.
pub(crate) fn read_by(plan_run: &PlanRun<'_>, group: GroupSteps, follow: Follow) -> Known
    requires { IsWithin (run_of plan_run.now) group }
    ensures { (x : ℕ) → set_of result.rels x ≡ false }
{
    let mut reads = Known::none();
    for node in 0..NODES {
        if node == follow.from || !reads_alone(plan_run, group, all_but(node)) {
            reads.nodes.insert(node);
        }
    }
    reads
}

// All node variables but one, and no relationship.
fn all_but(node: u32) -> Known {
    let mut known = Known::none();
    for other in 0..NODES {
        if other != node {
            known.nodes.insert(other);
        }
    }
    known
}

/// Whether the tests of a group read these variables alone.
pub(crate) fn reads_alone(plan_run: &PlanRun<'_>, group: GroupSteps, reads: Known) -> bool
    requires { IsWithin (run_of plan_run.now) group }
    ensures { IsTrue result → TestsRead (run_of plan_run.now) group (known_of reads) }
{
    for depth in group.first + 1..group.end {
        if !reads_at(plan_run, depth, reads) {
            return false;
        }
    }
    true
}

// Whether the step at a depth reads these variables alone, if it is a test.
fn reads_at(plan_run: &PlanRun<'_>, depth: usize, reads: Known) -> bool
    requires { depth < length (steps_in plan_run.now) }
    ensures { IsTrue result → (i : ℕ) → test_of (step_at (run_of plan_run.now) depth) ≡ Some i →
        holds (test_bound (known_of reads)) (slice_get plan_run.now.typed.now.tests i) ≡ true }
{
    match test_at(plan_run, depth) {
        None => true,
        Some(test) => match plan_run.typed.tests.get(test as usize) {
            None => false,
            Some(test) => reads.binds_all(&test.expr),
        },
    }
}

/// Whether a group has a test.
pub(crate) fn has_test(plan_run: &PlanRun<'_>, group: GroupSteps) -> bool
    requires { IsWithin (run_of plan_run.now) group }
{
    for depth in group.first + 1..group.end {
        if test_at(plan_run, depth).is_some() {
            return true;
        }
    }
    false
}

/// Whether a group binds one of these node variables.
pub(crate) fn binds_some(plan_run: &PlanRun<'_>, group: GroupSteps, reads: Known) -> bool {
    for depth in group.first..group.end {
        if binds_one(plan_run, depth, reads) {
            return true;
        }
    }
    false
}

// Whether the step at a depth binds one of these node variables.
fn binds_one(plan_run: &PlanRun<'_>, depth: usize, reads: Known) -> bool {
    if depth >= plan_run.steps.len() || depth >= plan_run.builds.len() {
        return false;
    }
    match plan_run.action(depth) {
        Action::Scan(node) => reads.nodes.has(node),
        Action::List(follow) => reads.nodes.has(follow.to),
        Action::Column(follow) => reads.nodes.has(follow.to),
        Action::Join => match plan_run.build_at(depth) {
            None => true,
            Some(build) => joins_one(build, join_keys(plan_run.step(depth)), reads),
        },
        _ => false,
    }
}

// Whether a build brings one of these node variables that is no key.
fn joins_one(build: &Sealed, keys: &[u32], reads: Known) -> bool {
    for node in build.nodes() {
        if reads.nodes.has(*node) && !is_key(keys, *node) {
            return true;
        }
    }
    false
}

// Whether a node variable is a key.
fn is_key(keys: &[u32], node: u32) -> bool {
    for key in keys {
        if *key == node {
            return true;
        }
    }
    false
}

/// How long the list that is followed is at most.
pub(crate) fn longest(plan_run: &PlanRun<'_>, follow: Follow) -> u32 {
    match plan_run.typed.rels.get(follow.rel as usize) {
        None => 0,
        Some(rel) => {
            if rel.table >= plan_run.graph.catalog().rel_tables() {
                return 0;
            }
            plan_run.graph.rel_count(rel.table)
        }
    }
}
