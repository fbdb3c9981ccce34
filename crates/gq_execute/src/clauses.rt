//! The matches of the optional clauses of a query, listed once.
ghost use Rattle.std.specs.Prelude.{◌≡◌, ◌≤◌, false, All, IfOk, IfErr, OnOk};
ghost use Rattle.std.specs.List.{AllZip};
ghost use Rattle.gq_execute.specs.Planned.{sizes};
ghost use Rattle.gq_execute.specs.steps.Clauses.{AreOfPlans, AreSpentOn, IsPlannedClause};
ghost use Rattle.gq_execute.specs.steps.Clauses.{RefusesClauses, some_heavy_clause};
ghost use Rattle.gq_pool.specs.Pool.{spare_of};
ghost use Rattle.gq_outer.specs.Placed.{IsPlaced};

use crate::planning::plans_in;
use crate::refusal::AnswerRefusal;
use crate::settings::Settings;
use gq_base::{List, Memory};
use gq_optional::{Optionals, RowShape};
use gq_order::{Order, Stats};
use gq_plan::{OptionalPart, Plan};
use gq_pool::VectorPool;
use gq_store::Graph;
use std::alloc::Global;

// The plans of the alternatives of optional clauses, clause by clause.
fn clause_plans(
    alloc: Global,
    graph: &Graph,
    stats: &Stats,
    parts: &[OptionalPart],
    order: Order,
    shape: RowShape,
) -> Result<List<List<Plan>>, Memory>
    requires placed { All (IsPlaced shape.nodes shape.rels graph.now.catalog) parts.now }
    requires stats { stats.now ≡ sizes graph.now }
    ensures { IfOk result (λ plans. AllZip (IsPlannedClause order graph.now) parts.now plans) }
{
    let mut plans = List::new(alloc);
    'parts: for part in parts {
        let alternatives = part.alternatives.as_slice();
        let planned = plans_in(alloc, order, graph, stats, alternatives)?;
        plans.push(planned.plans)?;
    }
    Ok(plans)
}

/// Lists the matches of optional clauses of a query whose rows have this shape, by plans of their
/// alternatives. `TooManyRows` comes where a clause is heavy. All pipelines take their slots from
/// the pool, of which the same are out afterwards, at a refusal too.
pub(crate) fn list_clauses<'q>(
    alloc: Global,
    graph: &'q Graph,
    stats: &Stats,
    parts: &'q [OptionalPart],
    shape: RowShape,
    pool: &mut VectorPool,
    settings: &Settings,
) -> Result<Optionals<'q>, AnswerRefusal>
    requires placed { All (IsPlaced shape.nodes shape.rels graph.now.catalog) parts.now }
    requires stats { stats.now ≡ sizes graph.now }
    requires slots { 112 ≤ spare_of pool.old }
    ensures graph { IfOk result (λ o. o.held.graph ≡ graph.now) }
    ensures shape { IfOk result (λ o. o.held.shape ≡ shape) }
    ensures parts { IfOk result (λ o. o.held.parts ≡ parts.now) }
    ensures listed { IfOk result (λ o. AreOfPlans graph.now parts.now o.held.lists) }
    ensures light { let heavy = some_heavy_clause graph.now settings.now.order settings.now.rows in
        OnOk result (heavy parts.now ≡ false) }
    ensures spent { IfOk result (λ o.
        AreSpentOn graph.now settings.now.order parts.now o.spent) }
    ensures refused { IfErr result
        (RefusesClauses graph.now settings.now.order settings.now.rows parts.now) }
    ensures slots { pool.new.out ≡ pool.old.out }
{
    graph.stands_valid();
    let plans = clause_plans(alloc, graph, stats, parts, settings.order, shape)?;
    let plans = plans.as_slice();
    match Optionals::make(alloc, graph, parts, plans, shape, pool, settings.rows) {
        Ok(optionals) => Ok(optionals),
        Err(refusal) => Err(AnswerRefusal::from(refusal)),
    }
}
