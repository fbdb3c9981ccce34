//! Drains a pipeline into a table of rows: by its chunks, or row by row behind the optional clauses or
//! with the trails.
ghost use Rattle.std.specs.Prelude.{◌≡◌, ◌≤◌, [], false, length, OnOk};
ghost use Rattle.std.specs.List.{AllByRecursion};
ghost use Rattle.gq_drain.specs.Becoming.{given_on, owed_by, owed_outcomes};
ghost use Rattle.gq_drain.specs.Prepared.{CanWalk, IsPreparedFor, later_by};
ghost use Rattle.gq_drain.specs.Taking.{HasRun, IsRunOf, TakesAll};
ghost use Rattle.gq_kept.specs.Tables.{StandsForSome, is_full_table};
ghost use Rattle.gq_law_plans.specs.Safe.{IsMade};
ghost use Rattle.gq_pipe.specs.Serving.{Serves};
ghost use Rattle.gq_rows.specs.Growing.{IsTested};

use crate::behind::Behind;
use crate::chunks::{RowByRow, TakesChunks, Whole};
use crate::prepared::Prepared;
use crate::trailing::Walking;
use gq_group::Choice;
use gq_pipe::Pipeline;
use gq_plan::Typed;
use gq_pool::VectorPool;
use gq_rows::{More, RowRefusal, RowTable};
use gq_store::Graph;
use std::alloc::Global;

// Pushes what a pipeline owes, chunk by chunk, until nothing is owed or the table has enough.
fn drain<P: TakesChunks>(
    taker: &mut P,
    pipeline: &mut Pipeline<'_>,
    pool: &mut VectorPool,
    table: &mut RowTable<'_>,
) -> Result<(), RowRefusal>
    requires ready { let t = table.old in P.ready taker.old t.graph t.bound t.alternative }
    requires made { let y = pipeline.old.source.typed in
        AllByRecursion (IsMade table.old.graph y) (owed_by y pipeline.old) }
    requires run { IsRunOf table.old.graph table.old pipeline.old }
    requires fresh { pipeline.old.chunks ≡ 0 }
    requires serves { Serves pipeline.old pool.old }
    requires stands { StandsForSome table.old }
    requires room { is_full_table table.old ≡ false }
    ensures takes { let t = table.old in let becomes = P.becomes taker.old in
        TakesAll (owed_outcomes becomes t.graph t pipeline.old) t table.new result }
    ensures ran { OnOk result (HasRun table.old table.new pipeline.old pipeline.new) }
    ensures graph { OnOk result (table.new.graph ≡ table.old.graph) }
    ensures columns { pipeline.new.columns ≡ pipeline.old.columns }
    ensures held { pipeline.new.slots ≡ pipeline.old.slots }
    ensures serves { Serves pipeline.new pool.new }
    ensures slots { pool.new.out ≡ pool.old.out }
{
    'chunks: while pipeline.advance(pool) {
        let chunk = pipeline.chunk(pool);
        match taker.push(table, &chunk) {
            Ok(More::Go) => {}
            Ok(More::Enough) => return Ok(()),
            Err(refusal) => return Err(refusal),
        }
    }
    Ok(())
}

/// Pushes what a pipeline owes into a table of rows, until nothing is owed or the table has enough:
/// the outcomes of its assignments, those that the tests admit, each behind the optional clauses or
/// continued by the trails.
///
/// Where the query has neither optional clauses nor trails, its chunks are pushed as they are handed
/// out, and the table counts them; other rows are made of their assignments, one after another.
pub fn drain_all<'w>(
    alloc: Global,
    graph: &'w Graph,
    prepared: &'w Prepared<'_>,
    typed: &'w Typed,
    pipeline: &mut Pipeline<'_>,
    pool: &mut VectorPool,
    table: &mut RowTable<'_>,
) -> Result<(), RowRefusal>
    requires prepared { IsPreparedFor graph.now table.old.bound prepared.now }
    requires tested { (prepared.now.tests.all ≡ [] → ⊥) → IsTested table.old.bound }
    requires apart { (table.old.bound.optionals ≡ [] → ⊥) → table.old.bound.trails ≡ [] }
    requires walks { CanWalk table.old.bound typed.now }
    requires made { AllByRecursion (IsMade graph.now typed.now) (owed_by typed.now pipeline.old) }
    requires run { IsRunOf graph.now table.old pipeline.old }
    requires typed { pipeline.old.source.typed ≡ typed.now }
    requires nodes { length typed.now.nodes ≤ length table.old.bound.node_names }
    requires rels { length typed.now.rels ≤ length table.old.bound.rel_names }
    requires fresh { pipeline.old.chunks ≡ 0 }
    requires serves { Serves pipeline.old pool.old }
    requires stands { StandsForSome table.old }
    requires room { is_full_table table.old ≡ false }
    ensures takes { let later = later_by graph.now prepared.now in
        TakesAll (owed_outcomes (given_on later) graph.now table.old pipeline.old)
        table.old table.new result }
    ensures ran { OnOk result (HasRun table.old table.new pipeline.old pipeline.new) }
    ensures graph { OnOk result (table.new.graph ≡ table.old.graph) }
    ensures columns { pipeline.new.columns ≡ pipeline.old.columns }
    ensures held { pipeline.new.slots ≡ pipeline.old.slots }
    ensures serves { Serves pipeline.new pool.new }
    ensures slots { pool.new.out ≡ pool.old.out }
{
    if !prepared.bound.trails.is_empty() {
        let walking = Walking::new(alloc, prepared, typed)?;
        let choice = Choice::new(alloc);
        let mut taker = RowByRow {
            graph,
            typed,
            choice,
            rows: walking,
        };
        return drain(&mut taker, pipeline, pool, table);
    }
    if prepared.bound.optionals.is_empty() {
        let tests = &prepared.tests;
        let mut taker = Whole { tests };
        return drain(&mut taker, pipeline, pool, table);
    }
    let behind = Behind::new(alloc, prepared, typed)?;
    let choice = Choice::new(alloc);
    let mut taker = RowByRow {
        graph,
        typed,
        choice,
        rows: behind,
    };
    drain(&mut taker, pipeline, pool, table)
}
