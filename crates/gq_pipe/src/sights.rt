//! What groups that bind nodes are told by later ones that follow lists from these.
ghost use Rattle.std.specs.Prelude.{◌≡◌, ◌<◌, length, false, true, IfSome};
ghost use Rattle.gq_base.specs.Directions.{opposite};
ghost use Rattle.gq_law_masks.specs.Alone.{reads_alone};
ghost use Rattle.gq_pipe.specs.steps.Sights.{IsAsked, IsLead, IsSight};
ghost use Rattle.gq_pipe.specs.steps.Told.{BindsNode};
ghost use Rattle.gq_plan.specs.Rows.{rel_table};
ghost use Rattle.gq_steps.specs.Levels.{step_at};
ghost use Rattle.gq_steps.specs.Moves.{run_of, IsRun};

use crate::ahead::Ahead;
use crate::chain::sight_at;
use crate::closings::extends;
use crate::sight::Sight;
use crate::value_joins::test_at;
use gq_masks::Mask;
use gq_plan::{Follow, Known};
use gq_steps::{Action, GroupSteps, PlanRun};
use std::alloc::Global;

/// What a flat group is told by the first later one that follows a list from its node to one of
/// which a test is asked that reads nothing else, and that columns decide, or that is itself told
/// so by a later group.
pub(crate) fn sight_of<'g>(
    alloc: Global,
    plan_run: &PlanRun<'g>,
    groups: &[GroupSteps],
    depth: usize,
    aheads: &[Option<Ahead<'g>>],
) -> Option<Sight<'g>>
    requires run { IsRun (run_of plan_run.now) }
    requires depth { depth < length groups.now }
    ensures { IfSome result (IsSight (run_of plan_run.now) groups.now depth) }
{
    let group = groups[depth];
    if !group.flat {
        return None;
    }
    let node = node_of(plan_run, group.first)?;
    for later in depth + 1..groups.len() {
        let next = groups[later];
        match lead_of(plan_run, next, node) {
            None => {}
            Some(follow) => {
                if thins(plan_run, next, follow.to, aheads, later) {
                    return sight_by(alloc, plan_run, follow, next, later);
                }
            }
        }
    }
    None
}

// Whether a group leads to rows of a node of which nothing may come: a test is asked of them, or the
// group has a mask.
fn thins(
    plan_run: &PlanRun<'_>,
    group: GroupSteps,
    node: u32,
    aheads: &[Option<Ahead<'_>>],
    later: usize,
) -> bool
    requires { IsRun (run_of plan_run.now) }
{
    if is_asked(plan_run, group, node) {
        return true;
    }
    match sight_at(aheads, later) {
        None => false,
        Some(next) => next.node == node,
    }
}

// Whether a group asks a test that reads one node alone and that columns decide.
fn is_asked(plan_run: &PlanRun<'_>, group: GroupSteps, node: u32) -> bool
    requires { IsRun (run_of plan_run.now) }
{
    if group.first >= group.end {
        return false;
    }
    for depth in group.first + 1..group.end {
        match asked_at(plan_run, depth, node) {
            None => {}
            Some(_) => return true,
        }
    }
    false
}

// The node that the step at a depth binds, if it scans or follows a list.
fn node_of(plan_run: &PlanRun<'_>, depth: usize) -> Option<u32>
    ensures { IfSome result (λ v. BindsNode v (step_at (run_of plan_run.now) depth)) }
{
    if depth >= plan_run.steps.len() {
        return None;
    }
    match plan_run.action(depth) {
        Action::Scan(node) => Some(node),
        Action::List(follow) => Some(follow.to),
        _ => None,
    }
}

// How a group follows a list from a node to another one, if it does.
fn lead_of(plan_run: &PlanRun<'_>, group: GroupSteps, node: u32) -> Option<Follow>
    ensures { IfSome result (IsLead (run_of plan_run.now) group node) }
{
    let follow = extends(plan_run, group.first)?;
    if follow.from == node {
        Some(follow)
    } else {
        None
    }
}

/// The test that the step at a depth asks for, if it reads one node alone and columns decide it.
pub(crate) fn asked_at(plan_run: &PlanRun<'_>, depth: usize, node: u32) -> Option<u32>
    requires { IsRun (run_of plan_run.now) }
    ensures { IfSome result (IsAsked (run_of plan_run.now) depth node) }
{
    let test = test_at(plan_run, depth)?;
    if reads_alone(plan_run, test, node) && is_decided(plan_run, test) {
        Some(test)
    } else {
        None
    }
}

// Whether columns decide a test.
fn is_decided(plan_run: &PlanRun<'_>, test: u32) -> bool {
    match plan_run.tests.get(test as usize) {
        None => false,
        Some(test) => test.reads_rows(),
    }
}

// Whether a test reads one node alone.
fn reads_alone(plan_run: &PlanRun<'_>, test: u32, node: u32) -> bool
    requires { IsRun (run_of plan_run.now) }
    ensures { result ≡ true → reads_alone plan_run.now.typed.now node test ≡ true }
{
    if node as usize >= plan_run.typed.nodes.len() {
        return false;
    }
    let mut known = Known::none();
    known.nodes.insert(node);
    match plan_run.typed.tests.get(test as usize) {
        None => false,
        Some(test) => known.binds_all(&test.expr),
    }
}

// What a group is told by one that follows a list from its node so.
fn sight_by<'g>(
    alloc: Global,
    plan_run: &PlanRun<'g>,
    follow: Follow,
    group: GroupSteps,
    later: usize,
) -> Option<Sight<'g>>
    ensures node { IfSome result (λ t. t.node ≡ follow.from) }
    ensures later { IfSome result (λ t. t.later ≡ later) }
    ensures group { IfSome result (λ t. t.group ≡ group) }
    ensures far { IfSome result (λ t. t.far ≡ follow.to) }
    ensures far_in { IfSome result (λ t. t.far < length plan_run.now.typed.now.nodes) }
    ensures graph { IfSome result (λ t. t.mask.graph ≡ plan_run.now.graph.now) }
    ensures table { IfSome result (λ t. t.mask.table ≡ rel_table plan_run.now.typed.now
        follow.rel) }
    ensures direction { IfSome result (λ t. t.mask.direction ≡ opposite follow.direction) }
    ensures told { IfSome result (λ t. t.mask.told ≡ 0) }
{
    if follow.to as usize >= plan_run.typed.nodes.len() {
        return None;
    }
    let table = plan_run.typed.rels.get(follow.rel as usize)?.table;
    if table >= plan_run.graph.catalog().rel_tables() {
        return None;
    }
    let mask = Mask::over(alloc, plan_run.graph, table, follow.direction.opposite())?;
    Some(Sight {
        node: follow.from,
        later,
        group,
        far: follow.to,
        mask,
    })
}
