//! The assignments of a chunk, taken one after another into a sink.
ghost use Rattle.std.specs.Prelude.{◌≡◌, ◌<◌, ◌^◌, IfOk, IfSome, Some, false, true};
ghost use Rattle.gq_group.specs.Choices.{Begins};
ghost use Rattle.gq_group.specs.Chunks.{IsChunkOf};
ghost use Rattle.gq_group.specs.Groups.{AreSelected};
ghost use Rattle.gq_kept.specs.Chunks.{PushesAll, admitted_outcomes};
ghost use Rattle.gq_kept.specs.Tables.{Pushes, StandsForSome};
ghost use Rattle.gq_kept.specs.Tables.{is_full_table, outcome_admitted};
ghost use Rattle.gq_plan.specs.Assignments.{row_of};
ghost use Rattle.gq_project.specs.Judged.{IsRead};
ghost use Rattle.gq_rows.specs.steps.Keyed.{FindsFirst, IsLeading};
ghost use Rattle.gq_rows.specs.steps.Sinks.{IsSink, held_by, table_by};
ghost use Rattle.gq_values.specs.Sure.{AreSure};

use crate::behind::{begin, pass_behind, recall};
use crate::sink::Sink;
use gq_base::Memory;
use gq_group::{Choice, Chunk, ChunkRow};
use gq_kept::{More, RowRefusal};
use gq_listed::{Finder, KeyFinder, hold_key};
use gq_plan::Typed;
use gq_project::{Admits, Question};
use gq_store::Graph;
use std::alloc::Global;

/// Takes the admitted assignments of the choices from the one that stands on, as the rows of the
/// sink are held.
pub(crate) fn push_choices<'g, A: Admits>(
    sink: &mut Sink<'g>,
    first: &mut KeyFinder<'g>,
    alloc: Global,
    question: &Question<'_, 'g>,
    typed: &Typed,
    choice: &mut Choice,
    chunk: &Chunk<'_, '_>,
    admits: &A,
) -> Result<More, RowRefusal>
    requires late { question.now.late.now ≡ typed.now.late }
    requires chunk { IsChunkOf question.now.graph.now typed.now chunk.now }
    requires first { FindsFirst question.now.graph.now question.now.bound.now first.old }
    requires sink { IsSink question.now.graph.now question.now.bound.now sink.old }
    requires sure { question.now.sure ≡ true → AreSure question.now.bound.now }
    requires reading { IsRead question.now }
    requires small { question.now.limit < 2 ^ 32 }
    requires stands { StandsForSome (table_by question.now (held_by sink.old)) }
    requires room { is_full_table (table_by question.now (held_by sink.old)) ≡ false }
    requires begins { Begins chunk.now.groups.now true choice.old }
    ensures pushes { let q = question.now in
        let admitted = A.admitted admits.now in
        let os = admitted_outcomes admitted q.graph.now q.bound.now (Some typed.now) chunk.now in
        PushesAll os (table_by q (held_by sink.old)) (table_by q (held_by sink.new)) result }
    ensures sink { IsSink question.now.graph.now question.now.bound.now sink.new }
    ensures first { FindsFirst question.now.graph.now question.now.bound.now first.new }
{
    if let Sink::Listed(rows) = sink {
        return rows.push_choices(question, typed, choice, chunk, admits);
    }
    let lead = lead_first(sink, first, question, typed, chunk, choice.positions())?;
    push_each(
        sink, alloc, question, typed, first, lead, choice, chunk, admits,
    )
}

// What finds the first key in a chunk, where it may tell that a row comes behind the bar: there is
// one, each row has its values, and no conjunct is left.
fn lead_first<'g>(
    sink: &Sink<'g>,
    first: &mut KeyFinder<'g>,
    question: &Question<'_, 'g>,
    typed: &Typed,
    chunk: &Chunk<'_, '_>,
    positions: &[u32],
) -> Result<Option<Finder>, Memory>
    requires chunk { IsChunkOf question.now.graph.now typed.now chunk.now }
    requires selected { AreSelected chunk.now.groups.now positions.now }
    requires sure { question.now.sure ≡ true → AreSure question.now.bound.now }
    requires ready { FindsFirst question.now.graph.now question.now.bound.now first.old }
    ensures leads { let q = question.now in
        let leads = IsLeading q.graph.now q.bound.now typed.now chunk.now in
        IfOk result (λ lead. IfSome lead (leads first.new.cells.sources)) }
    ensures ready { FindsFirst question.now.graph.now question.now.bound.now first.new }
{
    if !question.sure {
        return Ok(None);
    }
    if !sink.has_bar() {
        return Ok(None);
    }
    if !typed.late.is_empty() {
        return Ok(None);
    }
    let Some(sort) = question.bound.keys.get(0) else {
        return Ok(None);
    };
    let key = sort.expr.get();
    let finder = first.prepare(key, question.bound, typed, question.graph)?;
    Ok(hold_key(finder, question.graph, typed, chunk, positions))
}

// Takes the admitted assignments of the choices from the one that stands on, one after another. The
// lead finds the value of the first key, where there is one.
fn push_each<'g, A: Admits>(
    sink: &mut Sink<'g>,
    alloc: Global,
    question: &Question<'_, 'g>,
    typed: &Typed,
    first: &KeyFinder<'g>,
    lead: Option<Finder>,
    choice: &mut Choice,
    chunk: &Chunk<'_, '_>,
    admits: &A,
) -> Result<More, RowRefusal>
    requires late { question.now.late.now ≡ typed.now.late }
    requires chunk { IsChunkOf question.now.graph.now typed.now chunk.now }
    requires lead { let q = question.now in
        let leads = IsLeading q.graph.now q.bound.now typed.now chunk.now in
        IfSome lead (leads first.now.cells.sources) }
    requires sink { IsSink question.now.graph.now question.now.bound.now sink.old }
    requires sure { question.now.sure ≡ true → AreSure question.now.bound.now }
    requires reading { IsRead question.now }
    requires small { question.now.limit < 2 ^ 32 }
    requires stands { StandsForSome (table_by question.now (held_by sink.old)) }
    requires room { is_full_table (table_by question.now (held_by sink.old)) ≡ false }
    requires begins { Begins chunk.now.groups.now true choice.old }
    ensures pushes { let q = question.now in
        let admitted = A.admitted admits.now in
        let os = admitted_outcomes admitted q.graph.now q.bound.now (Some typed.now) chunk.now in
        PushesAll os (table_by q (held_by sink.old)) (table_by q (held_by sink.new)) result }
    ensures sink { IsSink question.now.graph.now question.now.bound.now sink.new }
{
    let mut past = begin(sink, question, first, &lead, chunk);
    let mut found = true;
    'choices: while found {
        found = pass_behind(
            &mut past, sink, question, typed, first, &lead, choice, chunk,
        );
        if !found {
            return Ok(More::Go);
        }
        let positions = choice.positions();
        let row = ChunkRow::new(question.graph, typed, chunk, positions);
        match push_row(sink, alloc, question, typed, &row, admits) {
            Ok(More::Go) => {}
            Ok(More::Enough) => return Ok(More::Enough),
            Err(refusal) => return Err(refusal),
        }
        recall(&mut past, sink, question);
        found = choice.next(chunk);
    }
    Ok(More::Go)
}

// Takes an assignment, if it is admitted.
fn push_row<'g, A: Admits>(
    sink: &mut Sink<'g>,
    alloc: Global,
    question: &Question<'_, 'g>,
    typed: &Typed,
    row: &ChunkRow<'_, '_, '_, '_, '_>,
    admits: &A,
) -> Result<More, RowRefusal>
    requires late { question.now.late.now ≡ typed.now.late }
    requires sink { IsSink question.now.graph.now question.now.bound.now sink.old }
    requires sure { question.now.sure ≡ true → AreSure question.now.bound.now }
    requires reading { IsRead question.now }
    requires small { question.now.limit < 2 ^ 32 }
    requires stands { StandsForSome (table_by question.now (held_by sink.old)) }
    requires room { is_full_table (table_by question.now (held_by sink.old)) ≡ false }
    ensures pushes { let q = question.now in
        let admitted = A.admitted admits.now in
        Pushes (outcome_admitted admitted q.graph.now q.bound.now typed.now (row_of row.now))
        (table_by q (held_by sink.old)) (table_by q (held_by sink.new)) result }
    ensures sink { IsSink question.now.graph.now question.now.bound.now sink.new }
{
    if !admits.admits(row) {
        return Ok(More::Go);
    }
    sink.push(alloc, question, typed, row)
}
