//! The rows that come first by their keys.
ghost use Rattle.std.specs.Prelude.{◌≡◌, ◌<◌, ◌^◌, IfSome, Ok, false, true};
ghost use Rattle.gq_expr.specs.Reading as reads;
ghost use Rattle.gq_kept.specs.Forms.{HasForm};
ghost use Rattle.gq_kept.specs.Tables.{Pushes, StandsForSome};
ghost use Rattle.gq_kept.specs.Tables.{is_full_table, outcome_numbered};
ghost use Rattle.gq_kept.specs.declared.form.Form.TheVariants.{Top};
ghost use Rattle.gq_kept.specs.declared.refusal.More.TheVariants.{Go};
ghost use Rattle.gq_plan.specs.declared.typed.Typed.{Typed as Alternative};
ghost use Rattle.gq_project.specs.Judged.{IsRead, asked_outcome};
ghost use Rattle.gq_rows.specs.steps.Keyed.{IsLedValue, IsPastBar};
ghost use Rattle.gq_rows.specs.steps.Sinks.{table_by};
ghost use Rattle.gq_values.specs.Keeping.{held_of};
ghost use Rattle.gq_values.specs.Sure.{AreSure};

use gq_base::Value;
use gq_expr::Assigned;
use gq_kept::{More, RowRefusal};
use gq_project::Question;
use gq_values::{FirstBar, Rows};
use std::alloc::Global;

/// The rows that come first by their keys, and how many they are to be.
#[derive(Drop)]
pub(crate) struct TopRows<'g> {
    pub(crate) most: usize,
    pub(crate) rows: Rows<'g>,
}

impl<'g> TopRows<'g> {
    /// Takes what expressions read of a row.
    pub(crate) fn push<R: Assigned>(
        &mut self,
        alloc: Global,
        question: &Question<'_, 'g>,
        row: &R,
    ) -> Result<More, RowRefusal>
        requires form { HasForm question.now.bound.now (Top self.old.most) }
        requires sure { question.now.sure ≡ true → AreSure question.now.bound.now }
        requires reading { IsRead question.now }
        requires small { question.now.limit < 2 ^ 32 }
        requires stands { StandsForSome (table_by question.now (held_of self.old.rows)) }
        requires room { is_full_table (table_by question.now (held_of self.old.rows)) ≡ false }
        ensures pushes { let q = question.now in
            Pushes (asked_outcome q (R.assignment row.now))
            (table_by q (held_of self.old.rows)) (table_by q (held_of self.new.rows)) result }
        ensures most { self.new.most ≡ self.old.most }
    {
        self.rows.push_top(alloc, self.most, question, row)
    }

    /// Whether nothing changes with an assignment of this value of the first key.
    #[inline(always)]
    pub(crate) fn passes_over(&self, question: &Question<'_, 'g>, value: &Option<Value<'g>>) -> bool
        requires form { HasForm question.now.bound.now (Top self.now.most) }
        requires small { question.now.limit < 2 ^ 32 }
        requires stands { StandsForSome (table_by question.now (held_of self.now.rows)) }
        requires room { is_full_table (table_by question.now (held_of self.now.rows)) ≡ false }
        ensures { (y : Alternative) (here : reads.Assignment) → let q = question.now in
            let table = table_by q (held_of self.now.rows) in
            let o = outcome_numbered q.graph.now q.bound.now y.late here in
            result ≡ true → IfSome value.now (IsLedValue q.graph.now q.bound.now y here)
            → Pushes o table table (Ok Go) }
    {
        match value {
            None => false,
            Some(value) => self.rows.passes_over(question.bound, value),
        }
    }

    /// The first key of the bar, where there is one.
    pub(crate) fn first_bar(&self, question: &Question<'_, 'g>) -> Option<FirstBar<'g>>
        requires form { HasForm question.now.bound.now (Top self.now.most) }
        requires small { question.now.limit < 2 ^ 32 }
        requires stands { StandsForSome (table_by question.now (held_of self.now.rows)) }
        requires room { is_full_table (table_by question.now (held_of self.now.rows)) ≡ false }
        ensures { (y : Alternative) (here : reads.Assignment) → let q = question.now in
            let table = table_by q (held_of self.now.rows) in
            let o = outcome_numbered q.graph.now q.bound.now y.late here in
            IfSome result (λ bar. IsPastBar q.graph.now q.bound.now y here bar
            → Pushes o table table (Ok Go)) }
    {
        self.rows.first_bar(question.bound)
    }
}
