//! What is made before the first alternative whose turn comes: the conjuncts over the graph, the tests
//! of paths by their keys, and the matches of the optional clauses.
ghost use Rattle.std.specs.Prelude.{◌≡◌, ◌≤◌, ◌<◌, ◌++◌, false, flat_map, length, All, IfOk, IfErr};
ghost use Rattle.std.specs.Prelude.{OnOk};
ghost use Rattle.gq_drain.specs.Prepared.{AreAsked};
ghost use Rattle.gq_execute.specs.Planned.{sizes};
ghost use Rattle.gq_execute.specs.steps.Clauses.{AreSpentOn, some_heavy_clause};
ghost use Rattle.gq_execute.specs.steps.Prepared.{AreSpentOnTests, IsPrepared, RefusesBefore};
ghost use Rattle.gq_execute.specs.steps.Prepared.{first_nodes};
ghost use Rattle.gq_execute.specs.steps.Testing.{spent_on};
ghost use Rattle.gq_plan.specs.Soundness.{IsSound};
ghost use Rattle.gq_pool.specs.Pool.{spare_of};
ghost use Rattle.gq_outer.specs.Placed.{IsPlaced};

use crate::clauses::list_clauses;
use crate::refusal::AnswerRefusal;
use crate::settings::Settings;
use crate::testing::{append, spent_of_tests, tests_of};
use gq_base::{List, Memory};
use gq_drain::Prepared;
use gq_optional::RowShape;
use gq_order::Stats;
use gq_pipe::Spent;
use gq_plan::Bound;
use gq_pool::VectorPool;
use gq_project::{Conjunct, conjuncts};
use gq_store::Graph;
use std::alloc::Global;

/// What was spent before the first alternative: on the tests, and behind them on the optional
/// clauses.
pub(crate) fn spent_before(alloc: Global, prepared: Prepared<'_>) -> Result<List<Spent>, Memory>
    ensures { let tested = flat_map (λ s. s) (spent_on prepared.entry.tests.all) in
        IfOk result (λ spent. spent ≡ tested ++ prepared.entry.optionals.spent) }
{
    let Prepared {
        graph: _,
        bound: _,
        conjuncts: _,
        shape: _,
        tests,
        optionals,
    } = prepared;
    let mut spent = spent_of_tests(alloc, tests)?;
    append(&mut spent, optionals.into_spent())?;
    Ok(spent)
}

// How many node variables the first alternative has.
fn first_nodes(bound: &Bound) -> usize
    ensures { result ≡ first_nodes bound.now.alternatives }
{
    match bound.alternatives.as_slice() {
        [] => 0,
        [typed, ..] => typed.nodes.len(),
    }
}

// The conjuncts of a query over a graph, where optional clauses or trails ask them of rows; else the
// table of rows asks them itself.
fn conjuncts_for<'q>(
    alloc: Global,
    bound: &'q Bound,
    graph: &'q Graph,
) -> Result<List<Conjunct<'q>>, Memory>
    ensures { IfOk result (AreAsked graph.now bound.now) }
{
    if bound.optionals.is_empty() && bound.trails.is_empty() {
        return Ok(List::new(alloc));
    }
    let first = bound.alternatives.get(0);
    conjuncts(alloc, bound.conjuncts.as_slice(), first, graph)
}

/// Makes the tests of a query, and lists the matches of its optional clauses.
pub(crate) fn prepare<'q>(
    alloc: Global,
    graph: &'q Graph,
    stats: &Stats,
    bound: &'q Bound,
    pool: &mut VectorPool,
    settings: &Settings,
) -> Result<Prepared<'q>, AnswerRefusal>
    requires tests_sound { let sound = All (IsSound graph.now.catalog) in
        All (λ p. sound p.alternatives) bound.now.patterns }
    requires tests_begin { let begin = All (λ y. 0 < length y.nodes) in
        All (λ p. begin p.alternatives) bound.now.patterns }
    requires placed { let placed = IsPlaced (length bound.now.node_names) (length bound.now.rel_names) in
        All (placed graph.now.catalog) bound.now.optionals }
    requires stats { stats.now ≡ sizes graph.now }
    requires slots { 112 ≤ spare_of pool.old }
    ensures prepared { IfOk result (IsPrepared graph.now settings.now.rows bound.now) }
    ensures light { let heavy = some_heavy_clause graph.now settings.now.order settings.now.rows in
        OnOk result (heavy bound.now.optionals ≡ false) }
    ensures tested { IfOk result (λ p.
        AreSpentOnTests graph.now settings.now.order bound.now.patterns p.tests.all) }
    ensures spent { IfOk result (λ p.
        AreSpentOn graph.now settings.now.order bound.now.optionals p.optionals.spent) }
    ensures refused { IfErr result (RefusesBefore graph.now settings.now bound.now) }
    ensures slots { pool.new.out ≡ pool.old.out }
{
    let nodes = bound.node_names.len();
    let rels = bound.rel_names.len();
    let first = first_nodes(bound);
    let most = u32::MAX as usize;
    if nodes > most || rels > most || first > most {
        return Err(AnswerRefusal::Memory(Memory::Limit));
    }
    let conjuncts = conjuncts_for(alloc, bound, graph)?;
    let patterns = bound.patterns.as_slice();
    let tests = match tests_of(alloc, graph, stats, patterns, pool, settings) {
        Ok(tests) => tests,
        Err(refusal) => return Err(refusal),
    };
    let parts = bound.optionals.as_slice();
    let shape = RowShape {
        nodes: nodes as u32,
        rels: rels as u32,
        first: first as u32,
    };
    match list_clauses(alloc, graph, stats, parts, shape, pool, settings) {
        Ok(optionals) => Ok(Prepared {
            graph,
            bound,
            conjuncts,
            shape,
            tests,
            optionals,
        }),
        Err(refusal) => Err(refusal),
    }
}
