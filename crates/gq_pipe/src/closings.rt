//! What groups are told by later ones: those that follow lists by ones that close at their nodes, and
//! others by ones that follow lists from theirs.
ghost use Rattle.std.specs.Prelude.{◌≡◌, ◌<◌, length, false, true, IfSome};
ghost use Rattle.gq_pipe.specs.steps.Ahead.{AreAhead, ArePut, AreUntold, IsAhead};
ghost use Rattle.gq_pipe.specs.steps.Closings.{IsClosing};
ghost use Rattle.gq_pipe.specs.steps.Told.{BindsNode, Closes, IsBoundBefore};
ghost use Rattle.gq_plan.specs.Plans.{Close, Extend};
ghost use Rattle.gq_plan.specs.Rows.{rel_table};
ghost use Rattle.gq_steps.specs.Levels.{step_at};
ghost use Rattle.gq_steps.specs.Moves.{run_of, IsRun};

use crate::ahead::Ahead;
use crate::closing::Closing;
use crate::sights::sight_of;
use gq_near::NearSet;
use gq_plan::{Follow, following};
use gq_steps::{Action, GroupSteps, PlanRun};
use std::alloc::Global;

/// What each group is told by later ones, from the last one to the first. The memory for it is taken
/// here; where there is none, no group is told anything.
pub(crate) fn aheads<'g>(
    alloc: Global,
    plan_run: &PlanRun<'g>,
    groups: &[GroupSteps],
) -> Vec<Option<Ahead<'g>>>
    requires { IsRun (run_of plan_run.now) }
    ensures { AreAhead (run_of plan_run.now) groups.now result.items }
{
    let count = groups.len();
    let mut aheads = untold(alloc, count);
    for behind in 0..count {
        let depth = count - 1 - behind;
        let ahead = ahead_of(alloc, plan_run, groups, depth, aheads.as_slice());
        put_ahead(&mut aheads, depth, ahead);
    }
    aheads
}

// So many groups that are told nothing, or none where there is no memory for them.
fn untold<'g>(alloc: Global, count: usize) -> Vec<Option<Ahead<'g>>>
    ensures { AreUntold result.items }
{
    let mut aheads = Vec::new(alloc);
    for _ in 0..count {
        match aheads.push(None) {
            Ok(()) => {}
            Err(_) => return Vec::new(alloc),
        }
    }
    aheads
}

// A group is told this.
fn put_ahead<'g>(aheads: &mut Vec<Option<Ahead<'g>>>, depth: usize, ahead: Option<Ahead<'g>>)
    ensures { ArePut depth ahead.entry aheads.old.items aheads.new.items }
{
    match aheads.get_mut(depth) {
        None => {}
        Some(told) => *told = ahead,
    }
}

// What a group is told by a later one: by one that closes at its node, or else by one that follows
// a list from it. What later groups are told stands.
fn ahead_of<'g>(
    alloc: Global,
    plan_run: &PlanRun<'g>,
    groups: &[GroupSteps],
    depth: usize,
    aheads: &[Option<Ahead<'g>>],
) -> Option<Ahead<'g>>
    requires run { IsRun (run_of plan_run.now) }
    requires depth { depth < length groups.now }
    ensures { IfSome result (IsAhead (run_of plan_run.now) groups.now depth) }
{
    match closing_of(alloc, plan_run, groups, depth) {
        Some(closing) => Some(Ahead::Near(closing)),
        None => match sight_of(alloc, plan_run, groups, depth, aheads) {
            Some(sight) => Some(Ahead::Far(sight)),
            None => None,
        },
    }
}

// What a group is told by the first later one that closes at its node.
fn closing_of<'g>(
    alloc: Global,
    plan_run: &PlanRun<'g>,
    groups: &[GroupSteps],
    depth: usize,
) -> Option<Closing<'g>>
    requires { depth < length groups.now }
    ensures { IfSome result (IsClosing (run_of plan_run.now) groups.now depth) }
{
    let follow = extends(plan_run, groups[depth].first)?;
    for later in depth + 1..groups.len() {
        match closes_at(plan_run, groups[later].first, follow.to) {
            None => {}
            Some(back) => {
                if is_bound(plan_run, groups, depth, back.from) {
                    return told_by(alloc, plan_run, back);
                }
            }
        }
    }
    None
}

// What a group is told by a relationship that is closed, as it is followed to the group's node.
fn told_by<'g>(alloc: Global, plan_run: &PlanRun<'g>, back: Follow) -> Option<Closing<'g>>
    ensures node { IfSome result (λ t. t.node ≡ back.to) }
    ensures other { IfSome result (λ t. t.other ≡ back.from) }
    ensures graph { IfSome result (λ t. t.near.graph ≡ plan_run.now.graph.now) }
    ensures table { IfSome result (λ t. t.near.table ≡ rel_table plan_run.now.typed.now back.rel) }
    ensures direction { IfSome result (λ t. t.near.direction ≡ back.direction) }
{
    let table = plan_run.typed.rels.get(back.rel as usize)?.table;
    if table >= plan_run.graph.catalog().rel_tables() {
        return None;
    }
    let near = NearSet::over(alloc, plan_run.graph, table, back.direction)?;
    Some(Closing {
        node: back.to,
        other: back.from,
        near,
    })
}

/// How the step at a depth follows a list to a node that was not bound, if it does.
pub(crate) fn extends(plan_run: &PlanRun<'_>, depth: usize) -> Option<Follow>
    ensures { IfSome result (λ f. step_at (run_of plan_run.now) depth
        ≡ Extend false f.rel f.from f.to f.direction) }
{
    if depth >= plan_run.steps.len() {
        return None;
    }
    match plan_run.action(depth) {
        Action::List(follow) => Some(follow),
        _ => None,
    }
}

// The relationship that the step at a depth closes between a node and another one, as it is followed
// to the node, if the step closes a list at it.
fn closes_at(plan_run: &PlanRun<'_>, depth: usize, node: u32) -> Option<Follow>
    ensures closes { IfSome result (λ f. Closes f (step_at (run_of plan_run.now) depth)) }
    ensures to { IfSome result (λ f. f.to ≡ node) }
{
    let close = closes(plan_run, depth)?;
    if close.to == node {
        Some(close)
    } else if close.from == node {
        let direction = close.direction.opposite();
        Some(following(close.rel, close.to, close.from, direction))
    } else {
        None
    }
}

// How the step at a depth follows a list that it closes, if it does.
fn closes(plan_run: &PlanRun<'_>, depth: usize) -> Option<Follow>
    ensures { IfSome result (λ f. step_at (run_of plan_run.now) depth
        ≡ Close false f.rel f.from f.to f.direction) }
{
    if depth >= plan_run.steps.len() {
        return None;
    }
    match plan_run.action(depth) {
        Action::Close(follow) => Some(follow),
        _ => None,
    }
}

// Whether a flat group before one binds a node.
fn is_bound(plan_run: &PlanRun<'_>, groups: &[GroupSteps], depth: usize, node: u32) -> bool
    requires { depth < length groups.now }
    ensures { result ≡ true → IsBoundBefore (run_of plan_run.now) groups.now depth node }
{
    for group in 0..depth {
        if groups[group].flat && binds(plan_run, groups[group].first, node) {
            return true;
        }
    }
    false
}

// Whether the step at a depth binds a node.
fn binds(plan_run: &PlanRun<'_>, depth: usize, node: u32) -> bool
    ensures { result ≡ true → BindsNode node (step_at (run_of plan_run.now) depth) }
{
    if depth >= plan_run.steps.len() {
        return false;
    }
    match plan_run.action(depth) {
        Action::Scan(own) => own == node,
        Action::List(follow) => follow.to == node,
        _ => false,
    }
}
