//! Cost tables that the check accepts, and others that it refuses, worked out by hand.
ghost use Rattle.std.specs.Prelude.{All};
ghost use Rattle.gq_plan.specs.Soundness.{IsSound};

use crate::graph::{KNOWS, LIVES, people};
use crate::made::Test;
use crate::queries::bound;
use gq_base::{Catalog, List, Mult};
use gq_least::{CostTable, check};
use gq_order::Stats;
use gq_plan::{Bound, Typed};

// Of three persons and five acquaintances `a` alone is estimated to have 2 assignments, `b` alone 1, since its key is given,
// and both together 2. So the order from `b` costs 3, and the one from `a` costs 4.
const ASKED: &str = "MATCH (a)-[:KNOWS]->(b {id: 3}) RETURN a.id";

fn numbers(rt: &impl Test, items: &[u64]) -> List<u64> {
    let mut list = List::new(rt.alloc());
    for item in items {
        list.push(*item).expect(rt, "memory");
    }
    list
}

fn stats(rt: &impl Test) -> Stats {
    Stats {
        nodes: numbers(rt, &[3, 2]),
        rels: numbers(rt, &[5, 2]),
    }
}

fn cost_table(rt: &impl Test, nodes: &[u32], costs: &[Option<u128>]) -> CostTable {
    let mut table = CostTable {
        nodes: List::new(rt.alloc()),
        costs: List::new(rt.alloc()),
    };
    for node in nodes {
        table.nodes.push(*node).expect(rt, "memory");
    }
    for cost in costs {
        table.costs.push(*cost).expect(rt, "memory");
    }
    table
}

// An alternative over its catalogue, and the sizes of its tables.
#[derive(Drop)]
struct Asked<'a> {
    typed: &'a Typed,
    catalog: &'a Catalog,
    stats: &'a Stats,
}

fn is_right(rt: &impl Test, asked: &Asked<'_>, nodes: &[u32], costs: &[Option<u128>]) -> bool
    requires { IsSound asked.now.catalog.now asked.now.typed.now }
{
    let table = cost_table(rt, nodes, costs);
    check(&table, asked.typed, asked.catalog, asked.stats)
}

// The entry of a number is that of the set of the variables at the places of its binary digits.
fn are_checked(rt: &impl Test, asked: &Asked<'_>)
    requires { IsSound asked.now.catalog.now asked.now.typed.now }
{
    let right = [None, Some(2), Some(1), Some(3)];
    let turned = [None, Some(1), Some(2), Some(3)];
    assert!(rt; is_right(rt, asked, &[0, 1], &right));
    assert!(rt; is_right(rt, asked, &[1, 0], &turned));
    assert!(rt; !is_right(rt, asked, &[1, 0], &right));
    assert!(rt; !is_right(rt, asked, &[0, 1], &[None, Some(2), Some(1), Some(4)]));
    assert!(rt; !is_right(rt, asked, &[0, 1], &[Some(0), Some(2), Some(1), Some(3)]));
    assert!(rt; !is_right(rt, asked, &[0, 1], &[None, Some(2), Some(1)]));
    assert!(rt; !is_right(rt, asked, &[0, 0], &[None, Some(2), Some(2), None]));
    assert!(rt; !is_right(rt, asked, &[0], &[None, Some(2)]));
    assert!(rt; !is_right(rt, asked, &[0, 2], &right));
    assert!(rt; !is_right(rt, asked, &[], &[None]));
}

fn check_each(rt: &impl Test, bound: &Bound, catalog: &Catalog, stats: &Stats)
    requires { All (IsSound catalog.now) bound.now.alternatives }
{
    assert!(rt; bound.alternatives.len() == 1);
    for typed in bound.alternatives.as_slice() {
        let asked = Asked {
            typed,
            catalog,
            stats,
        };
        are_checked(rt, &asked);
    }
}

#[test]
fn tables_of_costs_are_checked_in_any_order_of_variables(rt: HostRuntime) {
    let graph = people(&rt, KNOWS, Mult::ManyOne, LIVES);
    let bound = bound(&rt, ASKED, graph.catalog());
    check_each(&rt, &bound, graph.catalog(), &stats(&rt));
}
