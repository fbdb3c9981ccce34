//! The keys of a path: what the plans of its alternatives make, by the nodes of the variables that
//! it shares with a query.
ghost use Rattle.std.specs.Prelude.{◌≡◌, ◌≤◌, true, List, length, map, All, IfOk, IfErr, OnOk};
ghost use Rattle.std.specs.List.{AllZip};
ghost use Rattle.gq_base.specs.declared.NodeId.{NodeId};
ghost use Rattle.gq_exists.specs.Made.{IsRefusal, keys_of, some_stand_on};
ghost use Rattle.gq_exists.specs.Different.{HasNoMore};
ghost use Rattle.gq_exists.specs.steps.Gathered.{Gathers, IsGathering};
ghost use Rattle.gq_exists.specs.Spending.{HasSpentEach};
ghost use Rattle.gq_exists.specs.steps.Running.{HasRun, HasSpentMore, HasSpentOne, is_full_at};
ghost use Rattle.gq_exists.specs.steps.Running.{made_keys, owed_keys};
ghost use Rattle.gq_pipe.specs.Bound.{binds_all};
ghost use Rattle.gq_pipe.specs.Progress.{plan_in};
ghost use Rattle.gq_pipe.specs.Serving.{Serves};
ghost use Rattle.gq_plan.specs.Covers.{Covers};
ghost use Rattle.gq_law_answers.specs.Answered.{meanings};
ghost use Rattle.gq_plan.specs.Keys.{has_key, key_of};
ghost use Rattle.gq_plan.specs.Plans.{plan_of};
ghost use Rattle.gq_plan.specs.Soundness.{IsSound};
ghost use Rattle.gq_pool.specs.Pool.{spare_of};

use crate::gathering::Gathering;
use crate::keys::Keys;
use gq_base::{List, Memory, NodeId};
use gq_expr::Assigned;
use gq_group::Choice;
use gq_join::JoinRefusal;
use gq_pipe::{Pipeline, Spent, make_builds};
use gq_plan::{ExistsPart, Plan, Typed};
use gq_pool::VectorPool;
use gq_store::Graph;
use std::alloc::Global;
use std::marker::Model;

/// Which nodes the matches of a path have at the variables that it shares with a query. It is seen
/// as the lists of these nodes, of which the calls tell only which there are and in no order, and
/// what was spent to find them.
#[derive(Drop)]
pub struct KeySet {
    keys: Keys,
    spent: List<Spent>,
}

impl Model for KeySet {
    ghost use Rattle.gq_exists.specs.Made.{Found};

    ghost Value = { Found };

    ghost use Rattle.gq_exists.specs.steps.Inner.{found_in, HasKeys};

    ghost view = { found_in };

    ghost invariant = { HasKeys };
}

impl KeySet {
    /// The keys of what these plans make of the alternatives of a path. `TooManyRows` comes exactly
    /// where more keys differ than the limit; want of memory comes also where an alternative has
    /// fewer variables than the path shares with its query, as none has. Without a shared variable
    /// it ends at the first chunk. The slots of the pool that are out afterwards are those that were
    /// before, after a refusal too.
    pub fn make(
        alloc: Global,
        graph: &Graph,
        part: &ExistsPart,
        plans: &[Plan],
        pool: &mut VectorPool,
        limit: u32,
    ) -> Result<KeySet, JoinRefusal>
        requires sound { All (IsSound graph.now.catalog) part.now.alternatives }
        requires covers { let ps = map plan_of plans.now in
            AllZip (Covers graph.now.catalog) part.now.alternatives ps }
        requires room { 112 ≤ spare_of pool.old }
        ensures keys { let all = keys_of graph.now part.now (map plan_of plans.now) in
            IfOk result (λ s. (key : List NodeId) → has_key key s.keys ≡ has_key key all) }
        ensures few { let all = keys_of graph.now part.now (map plan_of plans.now) in
            OnOk result (HasNoMore limit all) }
        ensures refused { let all = keys_of graph.now part.now (map plan_of plans.now) in
            IfErr result (IsRefusal limit all) }
        ensures spent { let shared = length part.now.nodes in
            IfOk result (λ s. HasSpentEach shared graph.now part.now.alternatives
            (map plan_of plans.now) s.spent) }
        ensures pool { pool.new.out ≡ pool.old.out }
    {
        graph.stands_valid();
        if part.nodes.len() > u32::MAX as usize {
            return Err(JoinRefusal::Memory(Memory::Limit));
        }
        let mut gathering = Gathering::new(alloc, part.nodes.len() as u32, limit)?;
        let mut spent = List::new(alloc);
        let alternatives = part.alternatives.as_slice();
        match run_each(
            &mut gathering,
            &mut spent,
            alloc,
            graph,
            alternatives,
            plans,
            pool,
        ) {
            Ok(()) => {}
            Err(refusal) => return Err(refusal),
        }
        let Gathering { keys, .. } = gathering;
        Ok(KeySet { keys, spent })
    }

    /// Whether some match of the path has these nodes at the shared variables. It takes no memory.
    pub fn holds(&self, key: &[NodeId]) -> bool
        ensures { result ≡ has_key key.now self.now.keys }
    {
        self.keys.has(key)
    }

    /// Whether some match of the path has, at the shared variables, the nodes that a row has at
    /// these. It takes no memory.
    pub fn holds_at<R: Assigned>(&self, nodes: &[u32], row: &R) -> bool
        ensures { result ≡ some_stand_on nodes.now (R.assignment row.now) self.now.keys }
    {
        self.keys.has_at(nodes, row)
    }

    /// What the pipelines spent that ran, one for each alternative.
    pub fn spent(&self) -> &List<Spent>
        ensures { result.now ≡ self.now.spent }
    {
        &self.spent
    }

    /// The same, moved out of the set, which is given up.
    pub fn into_spent(self) -> List<Spent>
        ensures { result ≡ self.spent }
    {
        let KeySet { keys: _, spent } = self;
        spent
    }
}

// Takes the keys of the chunks that a pipeline owes, one after another.
fn fill(
    gathering: &mut Gathering,
    alloc: Global,
    typed: &Typed,
    pipeline: &mut Pipeline<'_>,
    pool: &mut VectorPool,
) -> Result<(), JoinRefusal>
    requires typed { pipeline.old.source.typed ≡ typed.now }
    requires complete { binds_all typed.now (plan_in pipeline.old.source) ≡ true }
    requires is { IsGathering gathering.old }
    requires wide { gathering.old.width ≤ length typed.now.nodes }
    requires fresh { pipeline.old.chunks ≡ 0 }
    requires serves { Serves pipeline.old pool.old }
    ensures gathers { let all = owed_keys typed.now gathering.old.width pipeline.old in
        Gathers all gathering.old gathering.new result }
    ensures ran { OnOk result (HasRun gathering.old.width pipeline.old pipeline.new) }
    ensures columns { pipeline.new.columns ≡ pipeline.old.columns }
    ensures held { pipeline.new.slots ≡ pipeline.old.slots }
    ensures serves { Serves pipeline.new pool.new }
    ensures slots { pool.new.out ≡ pool.old.out }
{
    let mut key = Vec::new(alloc);
    let mut choice = Choice::new(alloc);
    'chunks: while pipeline.advance(pool) {
        let chunk = pipeline.chunk(pool);
        match gathering.take_chunk(&mut key, &mut choice, &chunk, typed) {
            Ok(()) => {}
            Err(refusal) => return Err(refusal),
        }
        if gathering.width == 0 {
            return Ok(());
        }
    }
    Ok(())
}

// Takes the keys of what a plan makes of an alternative. It has no joins and so no builds: of these
// nothing but memory can be wanting.
fn run(
    gathering: &mut Gathering,
    spent: &mut List<Spent>,
    alloc: Global,
    graph: &Graph,
    typed: &Typed,
    plan: &Plan,
    pool: &mut VectorPool,
) -> Result<(), JoinRefusal>
    requires sound { IsSound graph.now.catalog typed.now }
    requires covers { Covers graph.now.catalog typed.now (plan_of plan.now) }
    requires is { IsGathering gathering.old }
    requires room { 112 ≤ spare_of pool.old }
    ensures gathers { let all = made_keys graph.now typed.now gathering.old.width plan.now in
        Gathers all gathering.old gathering.new result }
    ensures spent { OnOk result (HasSpentOne gathering.old.width
        graph.now typed.now (plan_of plan.now) spent.old spent.new) }
    ensures pool { pool.new.out ≡ pool.old.out }
{
    graph.stands_valid();
    if gathering.width as usize > typed.nodes.len() {
        return Err(JoinRefusal::Memory(Memory::Limit));
    }
    let builds = match make_builds(alloc, graph, plan, typed, pool, gathering.limit) {
        Ok(builds) => builds,
        Err(JoinRefusal::Memory(memory)) => return Err(JoinRefusal::Memory(memory)),
        // A plan without joins has no side plan that could make too many assignments.
        Err(JoinRefusal::TooManyRows { .. }) => return Err(JoinRefusal::Memory(Memory::Limit)),
    };
    let mut pipeline = Pipeline::start(alloc, graph, &builds, plan, typed, pool)?;
    let filled = fill(gathering, alloc, typed, &mut pipeline, pool);
    let own = pipeline.finish(pool);
    match filled {
        Ok(()) => {}
        Err(refusal) => return Err(refusal),
    }
    spent.push(own)?;
    Ok(())
}

// Takes the keys of what plans make of alternatives, until no further key can differ.
fn run_each(
    gathering: &mut Gathering,
    spent: &mut List<Spent>,
    alloc: Global,
    graph: &Graph,
    alternatives: &[Typed],
    plans: &[Plan],
    pool: &mut VectorPool,
) -> Result<(), JoinRefusal>
    requires sound { All (IsSound graph.now.catalog) alternatives.now }
    requires covers { let ps = map plan_of plans.now in
        AllZip (Covers graph.now.catalog) alternatives.now ps }
    requires is { IsGathering gathering.old }
    requires room { 112 ≤ spare_of pool.old }
    ensures gathers { let made = meanings graph.now alternatives.now (map plan_of plans.now) in
        let all = map (key_of gathering.old.width) made in
        Gathers all gathering.old gathering.new result }
    ensures spent { let full = is_full_at gathering.old in
        OnOk result (HasSpentMore full gathering.old.width
        graph.now alternatives.now (map plan_of plans.now) spent.old spent.new) }
    ensures pool { pool.new.out ≡ pool.old.out }
{
    let Some((typed, alternatives)) = alternatives.split_first() else {
        return Ok(());
    };
    let Some((plan, plans)) = plans.split_first() else {
        return Ok(());
    };
    if gathering.is_full() {
        return Ok(());
    }
    match run(gathering, spent, alloc, graph, typed, plan, pool) {
        Ok(()) => {}
        Err(refusal) => return Err(refusal),
    }
    run_each(gathering, spent, alloc, graph, alternatives, plans, pool)
}
