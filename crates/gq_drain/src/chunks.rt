//! How the assignments of a chunk go into a table of rows: the chunk whole, or row by row as they
//! are continued.
ghost use Rattle.std.specs.Prelude.{◌≡◌, [], Option, Some, false, IsSome, OnOk};
ghost use Rattle.std.specs.List.{AllByRecursion};
ghost use Rattle.gq_base.specs.Plain.{Graph as Plain};
ghost use Rattle.gq_drain.specs.Becoming.{Becomes, outcomes_by};
ghost use Rattle.gq_drain.specs.Taking.{IsPlain};
ghost use Rattle.gq_drain.specs.steps.Continued.{ended_by};
ghost use Rattle.gq_group.specs.Chunks.{IsChunkOf};
ghost use Rattle.gq_group.specs.Groups.{choices};
ghost use Rattle.gq_kept.specs.Chunks.{IsChunkIn, PushesAll, assignments_of, counted};
ghost use Rattle.gq_kept.specs.Tables.{IsSameQuery, StandsForSome, is_full_table};
ghost use Rattle.gq_law_plans.specs.Safe.{IsMade};
ghost use Rattle.gq_plan.specs.declared.Bound.{Bound as Query};
ghost use Rattle.gq_plan.specs.declared.Typed.{Typed as Alternative};
ghost use Rattle.gq_rows.specs.Growing.{IsContinued};

use crate::continues::{Continues, push_owed};
use crate::testing::Tests;
use gq_group::{Choice, Chunk, ChunkRow};
use gq_plan::Typed;
use gq_rows::{More, RowRefusal, RowTable};
use gq_store::Graph;

/// What pushes the chunks of a pipeline into a table.
pub(crate) trait TakesChunks {
    /// It can push chunks of such an alternative of a query over a graph.
    ghost ready: { Self → Plain → Query → Option Alternative → Type 0 };

    /// The outcomes of an assignment.
    ghost becomes: { Self → Becomes };

    /// Pushes the outcomes of the assignments of a chunk, until all were taken or the table has
    /// enough. After a refusal the table may only be dropped.
    fn push(&mut self, table: &mut RowTable<'_>, chunk: &Chunk<'_, '_>) -> Result<More, RowRefusal>
        requires ready { let t = table.old in ready self.old t.graph t.bound t.alternative }
        requires chunk { IsChunkIn table.old.graph table.old.alternative chunk.now }
        requires made { (y : Alternative) → table.old.alternative ≡ Some y
            → AllByRecursion (IsMade table.old.graph y)
            (assignments_of table.old.graph y chunk.now) }
        requires started { IsSome table.old.alternative }
        requires stands { StandsForSome table.old }
        requires room { is_full_table table.old ≡ false }
        ensures pushes { (y : Alternative) → table.old.alternative ≡ Some y
            → let t = table.old in let ts = assignments_of t.graph y chunk.now in
            PushesAll (outcomes_by (becomes self.old) t.graph t.bound y ts) t table.new result }
        ensures query { OnOk result (IsSameQuery table.old table.new) }
        ensures counted { IsPlain table.old.bound → let all = choices chunk.now.groups.now in
            OnOk result (table.new.pushed ≡ counted table.old.pushed all) }
        ensures ready { let t = table.old in ready self.new t.graph t.bound t.alternative }
        ensures becomes { becomes self.new ≡ becomes self.old };
}

/// Each chunk is pushed whole, without what the tests do not admit.
#[derive(Drop)]
pub(crate) struct Whole<'t, 'q> {
    pub(crate) tests: &'t Tests<'q>,
}

impl<'t, 'q> TakesChunks for Whole<'t, 'q> {
    ghost use Rattle.gq_drain.specs.Testing.{admitted_by};
    ghost use Rattle.gq_drain.specs.steps.Given.{given_by, if_admitted};
    ghost use Rattle.gq_rows.specs.Growing.{IsTested};

    ghost ready = { λ w g b o. (w.tests.now.all ≡ [] → ⊥) → IsTested b };

    ghost becomes = { λ w g. given_by (if_admitted (admitted_by w.tests.now.all) g) g };

    fn push(
        &mut self,
        table: &mut RowTable<'_>,
        chunk: &Chunk<'_, '_>,
    ) -> Result<More, RowRefusal> {
        if self.tests.is_empty() {
            return table.push_chunk(chunk);
        }
        table.push_admitted(chunk, self.tests)
    }
}

/// The assignments are gone through, and each is continued.
#[derive(Drop)]
pub(crate) struct RowByRow<'w, C: Continues + Drop> {
    pub(crate) graph: &'w Graph,
    pub(crate) typed: &'w Typed,
    pub(crate) choice: Choice,
    pub(crate) rows: C,
}

// Pushes the outcomes of the rows by which the assignments of a chunk are continued.
fn push_rows<C: Continues>(
    table: &mut RowTable<'_>,
    chunk: &Chunk<'_, '_>,
    choice: &mut Choice,
    rows: &mut C,
    graph: &Graph,
    typed: &Typed,
) -> Result<More, RowRefusal>
    requires continued { IsContinued table.old.bound }
    requires ready { C.ready rows.old }
    requires graph { (C.continuation rows.old).graph ≡ graph.now }
    requires typed { (C.continuation rows.old).typed ≡ typed.now }
    requires over { table.old.graph ≡ graph.now }
    requires chunk { IsChunkOf graph.now typed.now chunk.now }
    requires made { let ts = assignments_of graph.now typed.now chunk.now in
        AllByRecursion (IsMade graph.now typed.now) ts }
    requires started { IsSome table.old.alternative }
    requires stands { StandsForSome table.old }
    requires room { is_full_table table.old ≡ false }
    ensures pushes { let ts = assignments_of graph.now typed.now chunk.now in
        let becomes = ended_by (C.continuation rows.old).rows in
        PushesAll (outcomes_by becomes graph.now table.old.bound typed.now ts)
        table.old table.new result }
    ensures query { OnOk result (IsSameQuery table.old table.new) }
    ensures ready { C.ready rows.new }
    ensures same { C.continuation rows.new ≡ C.continuation rows.old }
{
    let mut found = choice.first(chunk)?;
    'choices: while found {
        let row = ChunkRow::new(graph, typed, chunk, choice.positions());
        rows.begin(&row);
        match push_owed(table, rows) {
            Ok(More::Go) => {}
            Ok(More::Enough) => return Ok(More::Enough),
            Err(refusal) => return Err(refusal),
        }
        found = choice.next(chunk);
    }
    Ok(More::Go)
}

impl<'w, C: Continues + Drop> TakesChunks for RowByRow<'w, C> {
    ghost use Rattle.gq_drain.specs.steps.Continued.{IsByRows, ended_by};

    ghost ready = { λ h g b o. C.ready h.rows
        × IsByRows (C.continuation h.rows) h.graph.now h.typed.now g b o };

    ghost becomes = { λ h. ended_by (C.continuation h.rows).rows };

    fn push(
        &mut self,
        table: &mut RowTable<'_>,
        chunk: &Chunk<'_, '_>,
    ) -> Result<More, RowRefusal> {
        push_rows(
            table,
            chunk,
            &mut self.choice,
            &mut self.rows,
            self.graph,
            self.typed,
        )
    }
}
