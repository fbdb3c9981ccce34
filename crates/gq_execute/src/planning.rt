//! The plans of alternatives, in the order that the settings name, and what they cost.
ghost use Rattle.std.specs.Prelude.{◌≡◌, ◌<◌, [], length, map, All, IfOk, IsTrue};
ghost use Rattle.std.specs.List.{AllZip, list_all};
ghost use Rattle.gq_execute.specs.Planned.{ArePlansIn, IsPlanIn, Means, sizes};
ghost use Rattle.gq_execute.specs.Replies.{parts_by};
ghost use Rattle.gq_execute.specs.steps.Clauses.{IsPlanned};
ghost use Rattle.gq_execute.specs.steps.Costing.{last_cost};
ghost use Rattle.gq_plan.specs.Covers.{Covers};
ghost use Rattle.gq_plan.specs.Flat.{is_flat};
ghost use Rattle.gq_plan.specs.Parts.{IsSide, sides};
ghost use Rattle.gq_plan.specs.Soundness.{IsSound};
ghost use Rattle.gq_plan.specs.Plans.{plan_of};

use gq_base::{List, Memory};
use gq_least::{Chosen, ComponentOrder, least};
use gq_order::{Order, Stats, given, greedy};
use gq_plan::{Bound, Plan, Typed};
use gq_store::Graph;
use std::alloc::Global;

/// How many rows the tables of a graph have.
pub(crate) fn stats_of(alloc: Global, graph: &Graph) -> Result<Stats, Memory>
    ensures nodes { IfOk result (λ s. length s.nodes ≡ length graph.now.catalog.nodes) }
    ensures rels { IfOk result (λ s. length s.rels ≡ length graph.now.catalog.rels) }
    ensures sizes { IfOk result (λ s. s ≡ sizes graph.now) }
{
    let nodes = node_counts(alloc, graph)?;
    let rels = rel_counts(alloc, graph)?;
    Ok(Stats { nodes, rels })
}

fn node_counts(alloc: Global, graph: &Graph) -> Result<List<u64>, Memory>
    ensures { IfOk result (λ counts. counts ≡ (sizes graph.now).nodes) }
{
    let mut counts = List::new(alloc);
    'tables: for table in 0..graph.catalog().node_tables() {
        counts.push(u64::from(graph.node_count(table)))?;
    }
    Ok(counts)
}

fn rel_counts(alloc: Global, graph: &Graph) -> Result<List<u64>, Memory>
    ensures { IfOk result (λ counts. counts ≡ (sizes graph.now).rels) }
{
    let mut counts = List::new(alloc);
    'tables: for table in 0..graph.catalog().rel_tables() {
        counts.push(u64::from(graph.rel_count(table)))?;
    }
    Ok(counts)
}

/// The plan of an alternative, and the cost of each of its components in the order of least cost.
#[derive(Drop)]
pub(crate) struct Planned {
    pub(crate) plan: Plan,
    pub(crate) costs: List<Option<u128>>,
}

/// The plan of each alternative of a query, and the costs of each of these plans: of each component
/// in the order of least cost, where it has at most 12 variables. In the other orders there are no
/// costs.
#[derive(Drop)]
pub struct QueryPlans {
    pub plans: List<Plan>,
    pub costs: List<List<Option<u128>>>,
}

// A plan of an order that states no costs.
fn uncosted(alloc: Global, plan: Plan) -> Planned
    ensures plan { result.plan ≡ plan }
    ensures costs { result.costs ≡ [] }
{
    Planned {
        plan,
        costs: List::new(alloc),
    }
}

// The last entry of a component's cost table, if it has one.
fn cost_of(order: &ComponentOrder) -> Option<u128>
    ensures { result ≡ last_cost order.now }
{
    match &order.table {
        None => None,
        Some(table) => match table.costs.as_slice() {
            [.., last] => *last,
            [] => None,
        },
    }
}

// The costs of a plan's components.
fn costs_of(alloc: Global, orders: &[ComponentOrder]) -> Result<List<Option<u128>>, Memory>
    ensures { IfOk result (λ costs. costs ≡ map last_cost orders.now) }
{
    let mut costs = List::new(alloc);
    for order in orders {
        costs.push(cost_of(order))?;
    }
    Ok(costs)
}

// The plan of least cost.
fn costed(alloc: Global, chosen: Chosen) -> Result<Planned, Memory>
    ensures plan { IfOk result (λ p. p.plan ≡ chosen.plan) }
    ensures costs { IfOk result (λ p. p.costs ≡ map last_cost chosen.orders) }
{
    let Chosen { plan, orders } = chosen;
    let costs = costs_of(alloc, orders.as_slice())?;
    Ok(Planned { plan, costs })
}

/// The plan of an alternative in this order. It covers the alternative, and joins one side plan
/// without joins for each part.
pub(crate) fn plan_for(
    alloc: Global,
    order: Order,
    graph: &Graph,
    stats: &Stats,
    typed: &Typed,
) -> Result<Planned, Memory>
    requires sound { IsSound graph.now.catalog typed.now }
    requires begins { 0 < length typed.now.nodes }
    requires nodes { length stats.now.nodes ≡ length graph.now.catalog.nodes }
    requires rels { length stats.now.rels ≡ length graph.now.catalog.rels }
    ensures covers { IfOk result (λ p. Covers graph.now.catalog typed.now (plan_of p.plan)) }
    ensures parts { IfOk result (λ p.
        AllZip (IsSide graph.now.catalog typed.now)
        (parts_by order typed.now) (sides (plan_of p.plan))) }
    ensures alone { IfOk result (λ p. IsTrue (list_all is_flat (sides (plan_of p.plan)))) }
    ensures plan { IfOk result (λ p.
        IsPlanIn order graph.now.catalog stats.now typed.now (plan_of p.plan) p.costs) }
{
    match order {
        Order::Given => Ok(uncosted(alloc, given(alloc, typed, graph.catalog())?)),
        Order::Greedy => Ok(uncosted(alloc, greedy(alloc, typed, graph.catalog(), stats)?)),
        Order::Least => costed(alloc, least(alloc, typed, graph.catalog(), stats)?),
    }
}

/// The plan of each alternative of a bound query, in this order and by the sizes of the graph's
/// tables, with its costs; each covers its alternative, and means all of its matches. After `Memory` there is none.
pub fn plans(
    alloc: Global,
    graph: &Graph,
    bound: &Bound,
    order: Order,
) -> Result<QueryPlans, Memory>
    requires sound { All (IsSound graph.now.catalog) bound.now.alternatives }
    requires begins { All (λ y. 0 < length y.nodes) bound.now.alternatives }
    ensures plans { IfOk result (λ made.
        ArePlansIn order graph.now bound.now.alternatives (map plan_of made.plans) made.costs) }
    ensures covers { IfOk result (λ made.
        AllZip (Covers graph.now.catalog) bound.now.alternatives (map plan_of made.plans)) }
    ensures mean { IfOk result (λ made.
        AllZip (Means graph.now) bound.now.alternatives (map plan_of made.plans)) }
{
    let stats = stats_of(alloc, graph)?;
    plans_in(alloc, order, graph, &stats, bound.alternatives.as_slice())
}

/// The same of any alternatives.
pub(crate) fn plans_in(
    alloc: Global,
    order: Order,
    graph: &Graph,
    stats: &Stats,
    alternatives: &[Typed],
) -> Result<QueryPlans, Memory>
    requires sound { All (IsSound graph.now.catalog) alternatives.now }
    requires begins { All (λ y. 0 < length y.nodes) alternatives.now }
    requires stats { stats.now ≡ sizes graph.now }
    ensures plans { IfOk result (λ made.
        ArePlansIn order graph.now alternatives.now (map plan_of made.plans) made.costs) }
    ensures covers { IfOk result (λ made.
        AllZip (Covers graph.now.catalog) alternatives.now (map plan_of made.plans)) }
    ensures mean { IfOk result (λ made.
        AllZip (Means graph.now) alternatives.now (map plan_of made.plans)) }
    ensures each { IfOk result (λ made.
        AllZip (IsPlanned order graph.now) alternatives.now (map plan_of made.plans)) }
{
    graph.stands_valid();
    let mut plans = List::new(alloc);
    let mut costs = List::new(alloc);
    'alternatives: for typed in alternatives {
        let planned = plan_for(alloc, order, graph, stats, typed)?;
        plans.push(planned.plan)?;
        costs.push(planned.costs)?;
    }
    Ok(QueryPlans { plans, costs })
}
