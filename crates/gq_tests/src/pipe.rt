//! Pipelines in a pool of just as many slots as their plans have columns, worked out by hand.
ghost use Rattle.std.specs.Prelude.{◌≤◌, All};
ghost use Rattle.gq_pipe.specs.Serving.{Serves};
ghost use Rattle.gq_plan.specs.Columns.{columns_of};
ghost use Rattle.gq_plan.specs.Covers.{Fits};
ghost use Rattle.gq_plan.specs.Plans.{plan_of};
ghost use Rattle.gq_plan.specs.Soundness.{IsSound};
ghost use Rattle.gq_pool.specs.Pool.{spare_of};
ghost use Rattle.gq_steps.specs.Built.{AreBuilds};

use crate::made::{Test, one};
use crate::plans::JOINED;
use crate::queries::bound;
use crate::store::example;
use gq_base::List;
use gq_order::given;
use gq_pipe::{Builds, Pipeline, Spent, make_builds};
use gq_plan::{Bound, Plan, Step, Typed, columns, fits};
use gq_pool::VectorPool;
use gq_store::Graph;

// A column has since when somebody knows another, and each of the three persons has a chunk: somebody knows him since 2011 or
// later.
const BACKWARD: &str = "MATCH (b)<-[r:KNOWS]-(a) WHERE r.since >= 2011 RETURN r";

// Conjuncts that read no variable.
const PASSES: &str = "MATCH (a:Person) WHERE 1 < 2 RETURN a.id";

const FAILS: &str = "MATCH (a:Person) WHERE 2 < 1 RETURN a.id";

// Hands out all chunks, while so many slots of the pool are free.
fn hand_out(rt: &impl Test, pipeline: &mut Pipeline<'_>, free: u32, pool: &mut VectorPool)
    requires { Serves pipeline.old pool.old }
    ensures { Serves pipeline.new pool.new }
{
    'chunks: while pipeline.advance(pool) {
        assert!(rt; pool.spare() == free);
    }
}

// What the pipeline of a plan spends, which takes all slots of a pool but so many.
fn spend(
    rt: &impl Test,
    graph: &Graph,
    builds: &Builds,
    plan: &Plan,
    typed: &Typed,
    free: u32,
    pool: &mut VectorPool,
) -> Spent
    requires sound { IsSound graph.now.catalog typed.now }
    requires fits { Fits graph.now.catalog typed.now (plan_of plan.now) }
    requires builds { AreBuilds graph.now typed.now (plan_of plan.now) builds.now.levels }
    requires room { columns_of typed.now (plan_of plan.now) ≤ spare_of pool.old }
{
    let started = Pipeline::start(rt.alloc(), graph, builds, plan, typed, pool);
    let mut pipeline = started.expect(rt, "memory");
    assert!(rt; pool.spare() == free);
    hand_out(rt, &mut pipeline, free, pool);
    pipeline.finish(pool)
}

// Whether a pool of so many slots more than a plan has columns serves it, whose other slots are free
// again afterwards, in so many chunks.
fn is_served(
    rt: &impl Test,
    graph: &Graph,
    builds: &Builds,
    plan: &Plan,
    typed: &Typed,
    free: u32,
    chunks: u64,
) -> bool
    requires free { free ≤ 1 }
    requires sound { IsSound graph.now.catalog typed.now }
    requires fits { Fits graph.now.catalog typed.now (plan_of plan.now) }
    requires builds { AreBuilds graph.now typed.now (plan_of plan.now) builds.now.levels }
{
    let few = columns(plan, typed);
    assert!(rt; few <= 112);
    let slots = few + free;
    assert!(rt; slots > 0);
    let mut pool = VectorPool::new(rt.alloc(), slots).expect(rt, "memory");
    assert!(rt; pool.spare() == slots);
    let spent = spend(rt, graph, builds, plan, typed, free, &mut pool);
    pool.spare() == slots && spent.columns() == few && spent.chunks() == chunks
}

// The same, with the builds that another pool of 112 slots serves.
fn is_built(
    rt: &impl Test,
    graph: &Graph,
    plan: &Plan,
    typed: &Typed,
    pool: &mut VectorPool,
    free: u32,
    chunks: u64,
) -> bool
    requires free { free ≤ 1 }
    requires sound { IsSound graph.now.catalog typed.now }
    requires fits { Fits graph.now.catalog typed.now (plan_of plan.now) }
    requires slots { 112 ≤ spare_of pool.old }
{
    match make_builds(rt.alloc(), graph, plan, typed, pool, 16) {
        Ok(builds) => is_served(rt, graph, &builds, plan, typed, free, chunks),
        Err(_) => false,
    }
}

fn is_run(rt: &impl Test, graph: &Graph, plan: &Plan, typed: &Typed, free: u32, chunks: u64) -> bool
    requires free { free ≤ 1 }
    requires sound { IsSound graph.now.catalog typed.now }
    requires fits { Fits graph.now.catalog typed.now (plan_of plan.now) }
{
    let mut pool = VectorPool::new(rt.alloc(), 112).expect(rt, "memory");
    assert!(rt; pool.spare() == 112);
    is_built(rt, graph, plan, typed, &mut pool, free, chunks)
}

// The same of the plan of an alternative in text order.
fn is_planned(rt: &impl Test, graph: &Graph, typed: &Typed, chunks: u64) -> bool
    requires { IsSound graph.now.catalog typed.now }
{
    assert!(rt; !typed.nodes.is_empty());
    let plan = given(rt.alloc(), typed, graph.catalog()).expect(rt, "memory");
    is_run(rt, graph, &plan, typed, 0, chunks)
}

fn are_planned(rt: &impl Test, graph: &Graph, bound: &Bound, chunks: u64) -> bool
    requires { All (IsSound graph.now.catalog) bound.now.alternatives }
{
    for typed in bound.alternatives.as_slice() {
        assert!(rt; is_planned(rt, graph, typed, chunks));
    }
    bound.alternatives.len() == 1
}

fn serves(rt: &impl Test, graph: &Graph, query: &str, chunks: u64) -> bool {
    let bound = bound(rt, query, graph.catalog());
    are_planned(rt, graph, &bound, chunks)
}

#[test]
fn a_pool_of_as_many_slots_as_columns_serves_a_plan(rt: HostRuntime) {
    let graph = example(&rt);
    assert!(rt; serves(&rt, &graph, BACKWARD, 3));
    assert!(rt; serves(&rt, &graph, JOINED, 4));
}

// Whether these steps, which bind nothing, are served without a slot: the one of their pool stays
// free.
fn is_groupless(
    rt: &impl Test,
    graph: &Graph,
    typed: &Typed,
    steps: List<Step>,
    chunks: u64,
) -> bool
    requires { IsSound graph.now.catalog typed.now }
{
    let plan = Plan { steps };
    assert!(rt; fits(&plan, typed, graph.catalog()));
    assert!(rt; columns(&plan, typed) == 0);
    is_run(rt, graph, &plan, typed, 1, chunks)
}

// The same of the first test of each alternative, and of no step, after which nothing is bound once.
fn are_groupless(rt: &impl Test, graph: &Graph, bound: &Bound, chunks: u64) -> bool
    requires { All (IsSound graph.now.catalog) bound.now.alternatives }
{
    for typed in bound.alternatives.as_slice() {
        let tests = one(rt, Step::Keep { test: 0 });
        assert!(rt; is_groupless(rt, graph, typed, tests, chunks));
        assert!(rt; is_groupless(rt, graph, typed, List::new(rt.alloc()), 1));
    }
    bound.alternatives.len() == 1
}

fn serves_groupless(rt: &impl Test, graph: &Graph, query: &str, chunks: u64) -> bool {
    let bound = bound(rt, query, graph.catalog());
    are_groupless(rt, graph, &bound, chunks)
}

#[test]
fn a_plan_without_groups_takes_no_slot(rt: HostRuntime) {
    let graph = example(&rt);
    assert!(rt; serves_groupless(&rt, &graph, PASSES, 1));
    assert!(rt; serves_groupless(&rt, &graph, FAILS, 0));
}
