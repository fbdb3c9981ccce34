//! Answers a query alternative by alternative: the pipelines of the plan of each one run, and what
//! its own hands out goes into one table of rows, behind the optional clauses where there are some,
//! or continued by the trails.
ghost use Rattle.std.specs.Prelude.{◌≡◌, ◌≤◌, ◌<◌, [], false, length, All, IfOk, OnOk};
ghost use Rattle.gq_drain.specs.Becoming.{given_on};
ghost use Rattle.gq_drain.specs.Prepared.{CanWalk, later_by};
ghost use Rattle.gq_execute.specs.Answering.{RepliesToEach, lines_in};
ghost use Rattle.gq_execute.specs.Planned.{sizes};
ghost use Rattle.gq_execute.specs.Ready.{IsReady};
ghost use Rattle.gq_execute.specs.Spending.{SpendsToEach};
ghost use Rattle.gq_execute.specs.steps.Answering.{AnswersAll, Drains, Fills, IsFresh, SpendsTurn};
ghost use Rattle.gq_execute.specs.steps.Prepared.{IsPrepared};
ghost use Rattle.gq_kept.specs.Tables.{StandsForSome, is_full_table};
ghost use Rattle.gq_plan.specs.Soundness.{IsSound};
ghost use Rattle.gq_pool.specs.Pool.{spare_of};
ghost use Rattle.gq_outer.specs.Placed.{IsPlaced};

use crate::found::Answer;
use crate::planning::{plan_for, stats_of};
use crate::prepared::{prepare, spent_before};
use crate::refusal::AnswerRefusal;
use crate::settings::Settings;
use crate::testing::append;
use gq_base::List;
use gq_drain::{Prepared, drain_all};
use gq_order::Stats;
use gq_pipe::{Pipeline, Spent, make_builds};
use gq_plan::{Bound, Typed};
use gq_pool::VectorPool;
use gq_rows::RowTable;
use gq_store::Graph;
use std::alloc::Global;

// Takes the turn of an alternative: runs its plan, and pushes what the plan makes. Answers what its
// pipelines spent. The builds of its joins are dropped here.
fn take_turn<'g>(
    alloc: Global,
    graph: &'g Graph,
    stats: &Stats,
    typed: &'g Typed,
    prepared: &Prepared<'_>,
    table: &mut RowTable<'g>,
    pool: &mut VectorPool,
    settings: &Settings,
) -> Result<List<Spent>, AnswerRefusal>
    requires sound { IsSound graph.now.catalog typed.now }
    requires begins { 0 < length typed.now.nodes }
    requires prepared { IsPrepared graph.now table.old.most table.old.bound prepared.now }
    requires apart { (table.old.bound.optionals ≡ [] → ⊥) → table.old.bound.trails ≡ [] }
    requires walks { CanWalk table.old.bound typed.now }
    requires nodes { length typed.now.nodes ≤ length table.old.bound.node_names }
    requires rels { length typed.now.rels ≤ length table.old.bound.rel_names }
    requires stats { stats.now ≡ sizes graph.now }
    requires stands { StandsForSome table.old }
    requires room { is_full_table table.old ≡ false }
    requires most { settings.now.rows ≡ table.old.most }
    requires graph { table.old.graph ≡ graph.now }
    requires slots { 112 ≤ spare_of pool.old }
    ensures drains { let later = later_by graph.now prepared.now in
        Drains (given_on later) graph.now table.old.bound settings.now.order typed.now
        table.old table.new result }
    ensures spends { IfOk result
        (SpendsTurn graph.now settings.now.order typed.now table.old table.new) }
    ensures graph { OnOk result (table.new.graph ≡ table.old.graph) }
    ensures slots { pool.new.out ≡ pool.old.out }
{
    graph.stands_valid();
    let planned = plan_for(alloc, settings.order, graph, stats, typed)?;
    let plan = &planned.plan;
    let builds = match make_builds(alloc, graph, plan, typed, pool, settings.rows) {
        Ok(builds) => builds,
        Err(refusal) => return Err(AnswerRefusal::from(refusal)),
    };
    let mut pipeline = Pipeline::start(alloc, graph, &builds, plan, typed, pool)?;
    table.start_alternative(typed);
    let drained = drain_all(alloc, graph, prepared, typed, &mut pipeline, pool, table);
    let own = pipeline.finish(pool);
    match drained {
        Ok(()) => {}
        Err(refusal) => return Err(AnswerRefusal::from(refusal)),
    }
    let mut spent = builds.into_spent();
    spent.push(own)?;
    Ok(spent)
}

// Takes the turns of the alternatives, until all were taken or the table has enough. Answers what
// their pipelines spent.
fn take_turns<'g>(
    alloc: Global,
    graph: &'g Graph,
    stats: &Stats,
    bound: &'g Bound,
    prepared: &Prepared<'_>,
    table: &mut RowTable<'g>,
    pool: &mut VectorPool,
    settings: &Settings,
) -> Result<List<Spent>, AnswerRefusal>
    requires sound { All (IsSound graph.now.catalog) bound.now.alternatives }
    requires begins { All (λ y. 0 < length y.nodes) bound.now.alternatives }
    requires stats { stats.now ≡ sizes graph.now }
    requires prepared { IsPrepared graph.now settings.now.rows bound.now prepared.now }
    requires nodes { let few = length bound.now.node_names in
        All (λ y. length y.nodes ≤ few) bound.now.alternatives }
    requires rels { let few = length bound.now.rel_names in
        All (λ y. length y.rels ≤ few) bound.now.alternatives }
    requires apart { (bound.now.optionals ≡ [] → ⊥) → bound.now.trails ≡ [] }
    requires walks { All (CanWalk bound.now) bound.now.alternatives }
    requires fresh { IsFresh bound.now settings.now table.old }
    requires graph { table.old.graph ≡ graph.now }
    requires slots { 112 ≤ spare_of pool.old }
    ensures fills { Fills graph.now bound.now settings.now table.new result }
    ensures stands { OnOk result (StandsForSome table.new) }
    ensures bound { OnOk result (table.new.bound ≡ bound.now) }
    ensures slots { pool.new.out ≡ pool.old.out }
{
    graph.stands_valid();
    let mut spent = List::new(alloc);
    'alternatives: for typed in bound.alternatives.as_slice() {
        if table.enough() {
            return Ok(spent);
        }
        match take_turn(alloc, graph, stats, typed, prepared, table, pool, settings) {
            Ok(turn) => append(&mut spent, turn)?,
            Err(refusal) => return Err(refusal),
        }
    }
    Ok(spent)
}

// Makes the tests, lists the matches of the optional clauses, and takes the turns of the
// alternatives; where no turn comes, it does nothing of this. Answers what the pipelines spent.
fn fill<'g>(
    alloc: Global,
    graph: &'g Graph,
    bound: &'g Bound,
    table: &mut RowTable<'g>,
    pool: &mut VectorPool,
    settings: &Settings,
) -> Result<List<Spent>, AnswerRefusal>
    requires sound { All (IsSound graph.now.catalog) bound.now.alternatives }
    requires begins { All (λ y. 0 < length y.nodes) bound.now.alternatives }
    requires tests_sound { let sound = All (IsSound graph.now.catalog) in
        All (λ p. sound p.alternatives) bound.now.patterns }
    requires tests_begin { let begin = All (λ y. 0 < length y.nodes) in
        All (λ p. begin p.alternatives) bound.now.patterns }
    requires placed { let placed = IsPlaced (length bound.now.node_names) (length bound.now.rel_names) in
        All (placed graph.now.catalog) bound.now.optionals }
    requires nodes { let few = length bound.now.node_names in
        All (λ y. length y.nodes ≤ few) bound.now.alternatives }
    requires rels { let few = length bound.now.rel_names in
        All (λ y. length y.rels ≤ few) bound.now.alternatives }
    requires apart { (bound.now.optionals ≡ [] → ⊥) → bound.now.trails ≡ [] }
    requires walks { All (CanWalk bound.now) bound.now.alternatives }
    requires fresh { IsFresh bound.now settings.now table.old }
    requires graph { table.old.graph ≡ graph.now }
    requires slots { 112 ≤ spare_of pool.old }
    ensures answers { AnswersAll graph.now bound.now settings.now table.new result }
    ensures stands { OnOk result (StandsForSome table.new) }
    ensures bound { OnOk result (table.new.bound ≡ bound.now) }
    ensures slots { pool.new.out ≡ pool.old.out }
{
    graph.stands_valid();
    if bound.alternatives.is_empty() || table.enough() {
        return Ok(List::new(alloc));
    }
    let stats = stats_of(alloc, graph)?;
    let prepared = match prepare(alloc, graph, &stats, bound, pool, settings) {
        Ok(prepared) => prepared,
        Err(refusal) => return Err(refusal),
    };
    let turns = match take_turns(
        alloc, graph, &stats, bound, &prepared, table, pool, settings,
    ) {
        Ok(turns) => turns,
        Err(refusal) => return Err(refusal),
    };
    let mut spent = spent_before(alloc, prepared)?;
    append(&mut spent, turns)?;
    Ok(spent)
}

/// Answers a bound query over a graph: its rows and what the pipelines spent that made them, or why
/// there are no rows. The alternatives are taken in order; after enough rows none is begun.
///
/// The answer is permitted by openCypher's meaning of each query that is bound so: the lines are a
/// window of an arrangement of its rows; a fault is one of an outcome that is looked at;
/// `TooManyRows` comes where more rows than `settings.rows` would be kept, or where a part of an
/// alternative whose turn comes has more assignments, or the path of a test more different nodes
/// that it shares with the query, or an alternative of an optional clause more matches, or a part of
/// it more assignments. `Memory` may come at any time.
///
/// The rows are made of the chunks that the pipelines hand out, and of no others; behind optional
/// clauses, or where there are trails, of what these make of the assignments of the chunks. All
/// pipelines take their slots from the pool, of which the same are out afterwards, at a refusal too.
pub fn answer<'g>(
    alloc: Global,
    graph: &'g Graph,
    bound: &'g Bound,
    pool: &mut VectorPool,
    settings: &Settings,
) -> Result<Answer<'g>, AnswerRefusal>
    requires ready { IsReady graph.now.catalog bound.now }
    requires slots { 112 ≤ spare_of pool.old }
    ensures permitted { RepliesToEach graph.now bound.now settings.now (lines_in result) }
    ensures spends { SpendsToEach graph.now bound.now settings.now result }
    ensures columns { IfOk result (λ found.
        found.listing.columns ≡ length bound.now.columns) }
    ensures slots { pool.new.out ≡ pool.old.out }
{
    graph.stands_valid();
    let mut table = RowTable::new(alloc, bound, graph, settings.rows);
    let spent = match fill(alloc, graph, bound, &mut table, pool, settings) {
        Ok(spent) => spent,
        Err(refusal) => return Err(refusal),
    };
    match table.finish() {
        Ok(listing) => Ok(Answer { listing, spent }),
        Err(memory) => Err(AnswerRefusal::Memory(memory)),
    }
}
