//! Whether a plan covers a typed alternative.
ghost use Rattle.std.specs.Prelude.{◌≡◌, ◌↔◌, ◌&&◌, ◌+◌, IsTrue, false, length};
ghost use Rattle.std.specs.Prelude.{filter, min, slice_get};
ghost use Rattle.std.specs.List.{list_all, range_with_len};
ghost use Rattle.gq_plan.specs.Covers as cover;
ghost use Rattle.gq_plan.specs.Covers.{Covers, placed, placed_step, demands, leaves_loops_out};
ghost use Rattle.gq_plan.specs.Meaning.{holds};
ghost use Rattle.gq_plan.specs.Soundness.{IsSound, has_number};
ghost use Rattle.gq_plan.specs.Plans.{plan_of, step_of};
ghost use Rattle.gq_plan.specs.steps.Times.{times, one, is_once, same_demand};

use crate::demand::Demand;
use crate::fitting::fits;
use crate::numbers::has_number;
use crate::plan::{Plan, Step};
use crate::typed::Typed;
use gq_base::Catalog;

/// Whether a plan covers a typed alternative: it fits, binds every variable, once each but for the
/// keys of joins, and has each relationship, test, pair and loop exclusion exactly once, side plans
/// included. It takes no memory, and goes through the plan once for each thing that the alternative
/// demands.
pub fn covers(plan: &Plan, typed: &Typed, catalog: &Catalog) -> bool
    requires { IsSound catalog.now typed.now }
    ensures { IsTrue result ↔ Covers catalog.now typed.now (plan_of plan.now) }
{
    fits(plan, typed, catalog) && meets_all(plan, typed)
}

// Whether a plan meets each demand of an alternative once.
#[tactic(auto, using(crate::proofs::Demands::demands_once))]
fn meets_all(plan: &Plan, typed: &Typed) -> bool
    ensures { result ≡ list_all (is_once (plan_of plan.now)) (demands typed.now) }
{
    meets_variables(plan, typed) && meets_conditions(plan, typed) && meets_loops(plan, typed)
}

fn meets_variables(plan: &Plan, typed: &Typed) -> bool
    ensures { result ≡ (list_all (λ v. is_once (plan_of plan.now) (Demand.InTable v))
        (range_with_len 0 (length typed.now.nodes))
        && list_all (λ x. is_once (plan_of plan.now) (Demand.Joins x))
        (range_with_len 0 (length typed.now.rels))) }
{
    meets_nodes(plan, typed.nodes.len()) && meets_rels(plan, typed.rels.len())
}

fn meets_conditions(plan: &Plan, typed: &Typed) -> bool
    ensures { result ≡ (list_all (λ i. is_once (plan_of plan.now) (Demand.Passes i))
        (range_with_len 0 (length typed.now.tests))
        && list_all (λ p. is_once (plan_of plan.now) (Demand.Differs p))
        (range_with_len 0 (length typed.now.pairs))) }
{
    meets_tests(plan, typed.tests.len()) && meets_pairs(plan, typed.pairs.len())
}

fn meets_nodes(plan: &Plan, count: usize) -> bool
    ensures { result
        ≡ list_all (λ v. is_once (plan_of plan.now) (Demand.InTable v)) (range_with_len 0 count) }
{
    (0..count).all(|node| meets(plan, Demand::InTable(node)))
}

fn meets_rels(plan: &Plan, count: usize) -> bool
    ensures { result
        ≡ list_all (λ x. is_once (plan_of plan.now) (Demand.Joins x)) (range_with_len 0 count) }
{
    (0..count).all(|rel| meets(plan, Demand::Joins(rel)))
}

fn meets_tests(plan: &Plan, count: usize) -> bool
    ensures { result
        ≡ list_all (λ i. is_once (plan_of plan.now) (Demand.Passes i)) (range_with_len 0 count) }
{
    (0..count).all(|test| meets(plan, Demand::Passes(test)))
}

fn meets_pairs(plan: &Plan, count: usize) -> bool
    ensures { result
        ≡ list_all (λ p. is_once (plan_of plan.now) (Demand.Differs p)) (range_with_len 0 count) }
{
    (0..count).all(|pair| meets(plan, Demand::Differs(pair)))
}

fn meets_loops(plan: &Plan, typed: &Typed) -> bool
    ensures { result ≡ list_all (λ x. is_once (plan_of plan.now) (Demand.IsNoLoop x))
        (filter (λ x. holds leaves_loops_out (slice_get typed.now.rels x))
        (range_with_len 0 (length typed.now.rels))) }
{
    (0..typed.rels.len())
        .filter(|rel| leaves_loops_out(typed, *rel))
        .all(|rel| meets(plan, Demand::IsNoLoop(rel)))
}

fn leaves_loops_out(typed: &Typed, rel: usize) -> bool
    ensures { result ≡ holds cover.leaves_loops_out (slice_get typed.now.rels rel) }
{
    match typed.rels.get(rel) {
        None => false,
        Some(found) => found.no_loop,
    }
}

// Whether a plan meets a demand exactly once.
fn meets(plan: &Plan, demand: Demand) -> bool
    ensures { result ≡ is_once (plan_of plan.now) demand }
{
    times(plan, demand) == 1
}

// How often a plan meets a demand, counted no further than 2.
#[cycle(times)]
fn times(plan: &Plan, demand: Demand) -> u32
    ensures { result ≡ min 2 (times demand (placed (plan_of plan.now))) }
{
    let mut count = 0;
    for step in plan.steps.as_slice() {
        let own = times_in_step(step, demand);
        count = (count + own).min(2);
    }
    count
}

#[cycle(times)]
#[tactic(auto, using(crate::proofs::StepEquations::equations), unfolding(crate::specs::Covers::placed_step))]
fn times_in_step(step: &Step, demand: Demand) -> u32
    ensures { result ≡ min 2 (times demand (placed_step (step_of step.now))) }
{
    match step {
        Step::Scan { node } => once(demand, Demand::InTable(*node as usize)),
        Step::Extend { rel, to, .. } => once_of_two(demand, *rel, *to),
        Step::ColumnExtend { rel, to, .. } => once_of_two(demand, *rel, *to),
        Step::Close { rel, .. } => once(demand, Demand::Joins(*rel as usize)),
        Step::ColumnClose { rel, .. } => once(demand, Demand::Joins(*rel as usize)),
        Step::Join { side, keys } => {
            if is_key(demand, keys.as_slice()) {
                0
            } else {
                times(side.get(), demand)
            }
        }
        Step::Keep { test } => once(demand, Demand::Passes(*test as usize)),
        Step::Differ { pair } => once(demand, Demand::Differs(*pair as usize)),
        Step::NoLoop { rel } => once(demand, Demand::IsNoLoop(*rel as usize)),
    }
}

fn once(demand: Demand, met: Demand) -> u32
    ensures { result ≡ one (same_demand demand met) }
{
    if is_same(demand, met) { 1 } else { 0 }
}

fn once_of_two(demand: Demand, rel: u32, to: u32) -> u32
    ensures { result ≡ one (same_demand demand (Demand.Joins rel))
        + one (same_demand demand (Demand.InTable to)) }
{
    once(demand, Demand::Joins(rel as usize)) + once(demand, Demand::InTable(to as usize))
}

fn is_same(demand: Demand, other: Demand) -> bool
    ensures { result ≡ same_demand demand other }
{
    match (demand, other) {
        (Demand::InTable(node), Demand::InTable(other)) => node == other,
        (Demand::Joins(rel), Demand::Joins(other)) => rel == other,
        (Demand::Passes(test), Demand::Passes(other)) => test == other,
        (Demand::Differs(pair), Demand::Differs(other)) => pair == other,
        (Demand::IsNoLoop(rel), Demand::IsNoLoop(other)) => rel == other,
        _ => false,
    }
}

fn is_key(demand: Demand, keys: &[u32]) -> bool
    ensures { result ≡ cover.is_key keys.now demand }
{
    match demand {
        Demand::InTable(node) => has_number(keys, node),
        _ => false,
    }
}
