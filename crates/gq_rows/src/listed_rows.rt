//! Rows that are listed as they come, and what finds their values.
ghost use Rattle.std.specs.Prelude.{◌≡◌, ◌^◌, ◌<◌, Some, false, true};
ghost use Rattle.gq_group.specs.Choices.{Begins};
ghost use Rattle.gq_group.specs.Chunks.{IsChunkOf};
ghost use Rattle.gq_kept.specs.Answers.{cut_of};
ghost use Rattle.gq_kept.specs.Chunks.{PushesAll, admitted_outcomes};
ghost use Rattle.gq_kept.specs.Forms.{HasForm};
ghost use Rattle.gq_kept.specs.Tables.{Pushes, StandsForSome, is_full, is_full_table};
ghost use Rattle.gq_listed.specs.Listed.{held_in, is_listing};
ghost use Rattle.gq_plan.specs.declared.bound.Bound.{Bound as Query};
ghost use Rattle.gq_project.specs.Judged.{IsRead, asked_outcome};
ghost use Rattle.gq_rows.specs.steps.Sinks.{IsDone, no_rows, table_by};

use gq_cells::Cells;
use gq_expr::Assigned;
use gq_group::{Choice, Chunk};
use gq_kept::{Form, More, RowRefusal};
use gq_listed::{Asked, Finder, Listed, find_columns, hold_columns};
use gq_plan::Typed;
use gq_project::{Admits, Question};
use std::alloc::Global;

/// The rows of a query without DISTINCT and without ORDER BY.
#[derive(Drop)]
pub(crate) struct ListedRows<'g> {
    pub(crate) form: Form,
    pub(crate) listed: Listed<'g>,
    // Whether the finders of the alternative stand here, which find the values of the columns.
    pub(crate) done: bool,
    pub(crate) finders: Vec<Finder>,
    // The finders as they were for the last chunk.
    pub(crate) held: Vec<Finder>,
}

impl<'g> ListedRows<'g> {
    /// None yet. It takes no memory.
    pub(crate) fn new(alloc: Global, form: Form) -> ListedRows<'g>
        ensures form { result.form ≡ form }
        ensures done { result.done ≡ false }
        ensures none { held_in result.listed ≡ no_rows }
    {
        ListedRows {
            form,
            listed: Listed {
                cells: Cells::new(alloc),
                count: 0,
            },
            done: false,
            finders: Vec::new(alloc),
            held: Vec::new(alloc),
        }
    }

    /// Takes what expressions read of a row.
    pub(crate) fn push<R: Assigned>(
        &mut self,
        question: &Question<'_, 'g>,
        typed: &Typed,
        row: &R,
    ) -> Result<More, RowRefusal>
        requires listing { is_listing question.now.bound.now ≡ true }
        requires form { HasForm question.now.bound.now self.old.form }
        requires ready { IsDone question.now.graph.now question.now.bound.now self.old }
        requires reading { IsRead question.now }
        requires small { question.now.limit < 2 ^ 32 }
        requires stands { StandsForSome (table_by question.now (held_in self.old.listed)) }
        requires room { is_full_table (table_by question.now (held_in self.old.listed)) ≡ false }
        ensures pushes { let q = question.now in
            Pushes (asked_outcome q (R.assignment row.now))
            (table_by q (held_in self.old.listed)) (table_by q (held_in self.new.listed)) result }
        ensures form { self.new.form ≡ self.old.form }
        ensures ready { IsDone question.now.graph.now question.now.bound.now self.new }
    {
        let done = self.done;
        self.done = false;
        let cells = &mut self.listed.cells;
        find_columns(
            done,
            cells,
            &mut self.finders,
            question.bound,
            typed,
            question.graph,
        )?;
        let asked = Asked {
            graph: question.graph,
            bound: question.bound,
            late: question.late,
            limit: question.limit,
            form: self.form,
            reading: question.reading,
        };
        match self.listed.push(self.finders.as_slice(), &asked, row) {
            Ok(more) => {
                self.done = true;
                Ok(more)
            }
            Err(refusal) => Err(refusal),
        }
    }

    /// Takes the admitted assignments of the choices of a chunk from the one that stands on.
    pub(crate) fn push_choices<A: Admits>(
        &mut self,
        question: &Question<'_, 'g>,
        typed: &Typed,
        choice: &mut Choice,
        chunk: &Chunk<'_, '_>,
        admits: &A,
    ) -> Result<More, RowRefusal>
        requires late { question.now.late.now ≡ typed.now.late }
        requires chunk { IsChunkOf question.now.graph.now typed.now chunk.now }
        requires listing { is_listing question.now.bound.now ≡ true }
        requires form { HasForm question.now.bound.now self.old.form }
        requires ready { IsDone question.now.graph.now question.now.bound.now self.old }
        requires reading { IsRead question.now }
        requires small { question.now.limit < 2 ^ 32 }
        requires stands { StandsForSome (table_by question.now (held_in self.old.listed)) }
        requires room { is_full_table (table_by question.now (held_in self.old.listed)) ≡ false }
        requires begins { Begins chunk.now.groups.now true choice.old }
        ensures pushes { let q = question.now in
            let admitted = A.admitted admits.now in
            let os = admitted_outcomes admitted q.graph.now q.bound.now (Some typed.now) chunk.now in
            PushesAll os
            (table_by q (held_in self.old.listed)) (table_by q (held_in self.new.listed)) result }
        ensures form { self.new.form ≡ self.old.form }
        ensures ready { IsDone question.now.graph.now question.now.bound.now self.new }
    {
        let graph = question.graph;
        let done = self.done;
        self.done = false;
        let cells = &mut self.listed.cells;
        find_columns(done, cells, &mut self.finders, question.bound, typed, graph)?;
        let held = &mut self.held;
        let finders = self.finders.as_slice();
        hold_columns(held, finders, graph, typed, chunk, choice.positions())?;
        let held = self.held.as_slice();
        let asked = Asked {
            graph,
            bound: question.bound,
            late: question.late,
            limit: question.limit,
            form: self.form,
            reading: question.reading,
        };
        match self
            .listed
            .push_choices(held, &asked, choice, chunk, typed, admits)
        {
            Ok(more) => {
                self.done = true;
                Ok(more)
            }
            Err(refusal) => Err(refusal),
        }
    }

    /// Whether as many rows are listed as are looked at.
    pub(crate) fn is_full(&self) -> bool
        ensures { (b : Query) → HasForm b self.now.form → is_listing b ≡ true
            → self.now.listed.count < 2 ^ 64 → result ≡ is_full (cut_of b) (held_in self.now.listed) }
    {
        match self.form {
            Form::First(n) => self.listed.count >= n,
            Form::All | Form::Top(_) | Form::Classes => false,
        }
    }
}
