//! The matches of an optional clause, gathered alternative by alternative.
ghost use Rattle.std.specs.Prelude.{◌≡◌, ◌++◌, ◌∷◌, ◌<◌, ◌≤◌, ◌^◌, [], length, map};
ghost use Rattle.std.specs.Prelude.{All, IfOk, IfErr, OnOk};
ghost use Rattle.std.specs.List.{AllZip};
ghost use Rattle.gq_optional.specs.Made.{IsFew};
ghost use Rattle.gq_optional.specs.steps.Looked.{places_of};
ghost use Rattle.gq_optional.specs.steps.Making.{AddsMatches, HasSpentEach, HasSpentOne};
ghost use Rattle.gq_optional.specs.steps.Making.{IsEachRefusal, IsMatches, IsOneRefusal};
ghost use Rattle.gq_plan.specs.Covers.{Covers};
ghost use Rattle.gq_plan.specs.Plans.{plan_of};
ghost use Rattle.gq_plan.specs.Soundness.{IsSound, has_number};
ghost use Rattle.gq_pool.specs.Pool.{spare_of};

use crate::clause::Matches;
use gq_base::{List, Memory};
use gq_join::JoinRefusal;
use gq_pipe::{Filled, Spent, make_build, make_builds};
use gq_plan::{Plan, Typed, has_number};
use gq_pool::VectorPool;
use gq_store::Graph;
use std::alloc::Global;

/// Whether each of some variables is known.
pub(crate) fn shared_of(alloc: Global, known: &[u32], nodes: &[u32]) -> Result<List<bool>, Memory>
    ensures { IfOk result (λ shared. shared ≡ map (has_number known.now) nodes.now) }
{
    let mut shared = List::new(alloc);
    'nodes: for node in nodes {
        shared.push(has_number(known, *node as usize))?;
    }
    Ok(shared)
}

/// The places of the variables that are shared.
pub(crate) fn places_of(alloc: Global, shared: &[bool]) -> Result<Vec<u32>, Memory>
    requires { length shared.now < 2 ^ 32 }
    ensures { IfOk result (λ places. places.items ≡ places_of 0 shared.now) }
{
    let mut places = Vec::new(alloc);
    'places: for place in 0..shared.len() {
        if shared[place] {
            places.push(place as u32)?;
        }
    }
    Ok(places)
}

// Appends what some pipelines spent, and one more behind them.
fn append(spent: &mut List<Spent>, more: List<Spent>, own: Spent) -> Result<(), Memory>
    ensures { OnOk result (spent.new ≡ (spent.old ++ more) ++ own ∷ []) }
{
    for one in more.into_vec() {
        spent.push(one)?;
    }
    spent.push(own)?;
    Ok(())
}

// The matches that a plan makes of an alternative, to be found by the nodes of these variables.
fn list_one<'b>(
    spent: &mut List<Spent>,
    alloc: Global,
    graph: &Graph,
    typed: &'b Typed,
    plan: &Plan,
    keys: &[u32],
    pool: &mut VectorPool,
    limit: u32,
) -> Result<Matches<'b>, JoinRefusal>
    requires sound { IsSound graph.now.catalog typed.now }
    requires covers { Covers graph.now.catalog typed.now (plan_of plan.now) }
    requires keys { All (λ v. v < length typed.now.nodes) keys.now }
    requires room { 112 ≤ spare_of pool.old }
    ensures matches { let p = plan_of plan.now in
        IfOk result (IsMatches graph.now typed.now p keys.now) }
    ensures spent { let p = plan_of plan.now in
        OnOk result (HasSpentOne graph.now typed.now p spent.old spent.new) }
    ensures few { OnOk result (IsFew graph.now limit typed.now (plan_of plan.now)) }
    ensures refused { IfErr result (IsOneRefusal graph.now limit typed.now (plan_of plan.now)) }
    ensures pool { pool.new.out ≡ pool.old.out }
{
    graph.stands_valid();
    let builds = match make_builds(alloc, graph, plan, typed, pool, limit) {
        Ok(builds) => builds,
        Err(refusal) => return Err(refusal),
    };
    let filled = match make_build(alloc, graph, &builds, plan, typed, keys, pool, limit) {
        Ok(filled) => filled,
        Err(refusal) => return Err(refusal),
    };
    let Filled { build, spent: own } = filled;
    append(spent, builds.into_spent(), own)?;
    Ok(Matches { typed, build })
}

/// The matches that plans make of alternatives, behind those of others.
pub(crate) fn list_each<'b>(
    matches: &mut List<Matches<'b>>,
    spent: &mut List<Spent>,
    alloc: Global,
    graph: &Graph,
    alternatives: &'b [Typed],
    plans: &[Plan],
    keys: &[u32],
    pool: &mut VectorPool,
    limit: u32,
) -> Result<(), JoinRefusal>
    requires sound { All (IsSound graph.now.catalog) alternatives.now }
    requires covers { let ps = map plan_of plans.now in
        AllZip (Covers graph.now.catalog) alternatives.now ps }
    requires keys { All (λ y. All (λ v. v < length y.nodes) keys.now) alternatives.now }
    requires room { 112 ≤ spare_of pool.old }
    ensures adds { let ps = map plan_of plans.now in
        OnOk result (AddsMatches graph.now alternatives.now ps keys.now
        matches.old matches.new) }
    ensures spent { let ps = map plan_of plans.now in
        OnOk result (HasSpentEach graph.now alternatives.now ps spent.old spent.new) }
    ensures few { let ps = map plan_of plans.now in
        OnOk result (AllZip (IsFew graph.now limit) alternatives.now ps) }
    ensures refused { let ps = map plan_of plans.now in
        IfErr result (IsEachRefusal graph.now limit alternatives.now ps) }
    ensures pool { pool.new.out ≡ pool.old.out }
{
    let Some((typed, alternatives)) = alternatives.split_first() else {
        return Ok(());
    };
    let Some((plan, plans)) = plans.split_first() else {
        return Ok(());
    };
    let one = match list_one(spent, alloc, graph, typed, plan, keys, pool, limit) {
        Ok(one) => one,
        Err(refusal) => return Err(refusal),
    };
    matches.push(one)?;
    list_each(
        matches,
        spent,
        alloc,
        graph,
        alternatives,
        plans,
        keys,
        pool,
        limit,
    )
}
