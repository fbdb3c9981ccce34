//! The keys of a path, asked for by their nodes.
ghost use Rattle.std.specs.Prelude.{◌≡◌, ◌≤◌, All, map};
ghost use Rattle.std.specs.List.{AllZip};
ghost use Rattle.gq_plan.specs.Covers.{Covers};
ghost use Rattle.gq_plan.specs.Plans.{plan_of};
ghost use Rattle.gq_plan.specs.Soundness.{IsSound};
ghost use Rattle.gq_pool.specs.Pool.{spare_of};

use crate::made::{Test, one};
use crate::queries::bound;
use crate::store::example;
use gq_base::NodeId;
use gq_exists::KeySet;
use gq_order::given;
use gq_plan::{Bound, ExistsPart, Plan};
use gq_pool::VectorPool;
use gq_store::Graph;

// The first and the last of the three persons know the last.
const LAST: &str = "MATCH (a)-[:KNOWS]->(b {id: 3}) RETURN a.id";

fn person(row: u32) -> NodeId {
    NodeId { table: 0, row }
}

// The path of a query, which shares its first node.
fn part_of(rt: &impl Test, bound: Bound) -> ExistsPart
    ensures { result.alternatives ≡ bound.alternatives }
{
    let mut columns = bound.columns.into_vec();
    let column = columns.pop().expect(rt, "a column");
    ExistsPart {
        text: column,
        wanted: true,
        nodes: one(rt, 0),
        alternatives: bound.alternatives,
    }
}

fn tells_keys(
    rt: &impl Test,
    graph: &Graph,
    part: &ExistsPart,
    plans: &[Plan],
    pool: &mut VectorPool,
) -> bool
    requires sound { All (IsSound graph.now.catalog) part.now.alternatives }
    requires covers { let ps = map plan_of plans.now in
        AllZip (Covers graph.now.catalog) part.now.alternatives ps }
    requires room { 112 ≤ spare_of pool.old }
{
    match KeySet::make(rt.alloc(), graph, part, plans, pool, 16) {
        Ok(keys) => {
            keys.holds(&[person(0)]) && !keys.holds(&[person(1)]) && keys.holds(&[person(2)])
        }
        Err(_) => false,
    }
}

fn has_keys(rt: &impl Test, graph: &Graph, part: &ExistsPart) -> bool
    requires { All (IsSound graph.now.catalog) part.now.alternatives }
{
    match part.alternatives.as_slice() {
        [typed] => {
            assert!(rt; !typed.nodes.is_empty());
            let plan = given(rt.alloc(), typed, graph.catalog()).expect(rt, "memory");
            let plans = one(rt, plan);
            let mut pool = VectorPool::new(rt.alloc(), 112).expect(rt, "memory");
            assert!(rt; pool.spare() == 112);
            tells_keys(rt, graph, part, plans.as_slice(), &mut pool)
        }
        _ => false,
    }
}

fn knows_last(rt: &impl Test, graph: &Graph) -> bool {
    let part = part_of(rt, bound(rt, LAST, graph.catalog()));
    has_keys(rt, graph, &part)
}

#[test]
fn a_path_holds_the_nodes_of_its_matches(rt: HostRuntime) {
    let graph = example(&rt);
    assert!(rt; knows_last(&rt, &graph));
}
