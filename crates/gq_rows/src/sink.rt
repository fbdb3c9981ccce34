//! Where the rows of a query go.
ghost use Rattle.std.specs.Prelude.{◌≡◌, [], ◌<◌, ◌^◌, IfSome, Ok, false, true, ℕ};
ghost use Rattle.gq_base.specs.Plain.{Graph as Plain};
ghost use Rattle.gq_expr.specs.Reading as reads;
ghost use Rattle.gq_kept.specs.Answers.{cut_of};
ghost use Rattle.gq_kept.specs.Tables.{Pushes, StandsFor, StandsForSome};
ghost use Rattle.gq_kept.specs.Tables.{is_full, is_full_table, outcome_numbered};
ghost use Rattle.gq_kept.specs.declared.refusal.More.TheVariants.{Go};
ghost use Rattle.gq_plan.specs.declared.bound.Bound.{Bound as Query};
ghost use Rattle.gq_plan.specs.declared.typed.Typed.{Typed as Alternative};
ghost use Rattle.gq_project.specs.Judged.{IsRead, asked_outcome};
ghost use Rattle.gq_rows.specs.steps.Keyed.{IsLedValue, IsPastBar};
ghost use Rattle.gq_rows.specs.steps.Sinks.{IsSink, has_bar, held_by, table_by};
ghost use Rattle.gq_values.specs.Sure.{AreSure};

use crate::listed_rows::ListedRows;
use crate::top_rows::TopRows;
use gq_base::Value;
use gq_classes::Classes;
use gq_expr::Assigned;
use gq_kept::{Form, More, RowRefusal, form_of};
use gq_listed::is_listing;
use gq_plan::{Bound, Typed};
use gq_project::Question;
use gq_store::Graph;
use gq_values::{FirstBar, Rows};
use std::alloc::Global;

/// The rows of a query, as those are held that count.
#[derive(Drop)]
pub(crate) enum Sink<'g> {
    /// They are listed as they come, without DISTINCT and without ORDER BY.
    Listed(ListedRows<'g>),
    /// All are kept, with their keys.
    Kept(Rows<'g>),
    /// Those that come first by their keys are kept.
    Top(TopRows<'g>),
    /// The first row of each class is kept.
    Classes(Rows<'g>),
}

impl<'g> Sink<'g> {
    /// That of a query, without rows. It takes no memory.
    pub(crate) fn new(alloc: Global, bound: &Bound, graph: &Graph) -> Sink<'g>
        ensures sink { IsSink graph.now bound.now result }
        ensures none { (most : ℕ) → most < 2 ^ 32 → StandsFor bound.now most [] (held_by result) }
    {
        let form = form_of(bound);
        if is_listing(bound) {
            return Sink::Listed(ListedRows::new(alloc, form));
        }
        let rows = Rows {
            columns: Vec::new(alloc),
            keys: Vec::new(alloc),
            count: 0,
            seen: Classes::new(alloc),
            bar: None,
        };
        match form {
            Form::All | Form::First(_) => Sink::Kept(rows),
            Form::Top(most) => Sink::Top(TopRows { most, rows }),
            Form::Classes => Sink::Classes(rows),
        }
    }

    /// The rows that follow are of another alternative.
    pub(crate) fn start_alternative(&mut self)
        ensures held { held_by self.new ≡ held_by self.old }
        ensures sink { (g : Plain) (b : Query) → IsSink g b self.old → IsSink g b self.new }
    {
        match self {
            Sink::Listed(rows) => rows.done = false,
            Sink::Kept(_) | Sink::Top(_) | Sink::Classes(_) => {}
        }
    }

    /// Takes what expressions read of a row. Of the conjuncts those with the numbers of the question
    /// are left.
    pub(crate) fn push<R: Assigned>(
        &mut self,
        alloc: Global,
        question: &Question<'_, 'g>,
        typed: &Typed,
        row: &R,
    ) -> Result<More, RowRefusal>
        requires sink { IsSink question.now.graph.now question.now.bound.now self.old }
        requires sure { question.now.sure ≡ true → AreSure question.now.bound.now }
        requires reading { IsRead question.now }
        requires small { question.now.limit < 2 ^ 32 }
        requires stands { StandsForSome (table_by question.now (held_by self.old)) }
        requires room { is_full_table (table_by question.now (held_by self.old)) ≡ false }
        ensures pushes { let q = question.now in
            Pushes (asked_outcome q (R.assignment row.now))
            (table_by q (held_by self.old)) (table_by q (held_by self.new)) result }
        ensures sink { IsSink question.now.graph.now question.now.bound.now self.new }
    {
        match self {
            Sink::Listed(rows) => rows.push(question, typed, row),
            Sink::Kept(rows) => rows.push_all(question, row),
            Sink::Top(top) => top.push(alloc, question, row),
            Sink::Classes(rows) => rows.push_class(question, row),
        }
    }

    /// Whether nothing changes with an assignment of this value of the first key.
    #[inline(always)]
    pub(crate) fn passes_over(&self, question: &Question<'_, 'g>, value: &Option<Value<'g>>) -> bool
        requires sink { IsSink question.now.graph.now question.now.bound.now self.now }
        requires small { question.now.limit < 2 ^ 32 }
        requires stands { StandsForSome (table_by question.now (held_by self.now)) }
        requires room { is_full_table (table_by question.now (held_by self.now)) ≡ false }
        ensures { (y : Alternative) (here : reads.Assignment) → let q = question.now in
            let table = table_by q (held_by self.now) in
            let o = outcome_numbered q.graph.now q.bound.now y.late here in
            result ≡ true → IfSome value.now (IsLedValue q.graph.now q.bound.now y here)
            → Pushes o table table (Ok Go) }
    {
        match self {
            Sink::Top(top) => top.passes_over(question, value),
            Sink::Listed(_) | Sink::Kept(_) | Sink::Classes(_) => false,
        }
    }

    /// The first key of the bar, where there is one.
    pub(crate) fn first_bar(&self, question: &Question<'_, 'g>) -> Option<FirstBar<'g>>
        requires sink { IsSink question.now.graph.now question.now.bound.now self.now }
        requires small { question.now.limit < 2 ^ 32 }
        requires stands { StandsForSome (table_by question.now (held_by self.now)) }
        requires room { is_full_table (table_by question.now (held_by self.now)) ≡ false }
        ensures { (y : Alternative) (here : reads.Assignment) → let q = question.now in
            let table = table_by q (held_by self.now) in
            let o = outcome_numbered q.graph.now q.bound.now y.late here in
            IfSome result (λ bar. IsPastBar q.graph.now q.bound.now y here bar
            → Pushes o table table (Ok Go)) }
    {
        match self {
            Sink::Top(top) => top.first_bar(question),
            Sink::Listed(_) | Sink::Kept(_) | Sink::Classes(_) => None,
        }
    }

    /// Whether it knows keys behind which rows do not count.
    pub(crate) fn has_bar(&self) -> bool
        ensures { result ≡ has_bar self.now }
    {
        match self {
            Sink::Top(top) => top.rows.bar.is_some(),
            Sink::Listed(_) | Sink::Kept(_) | Sink::Classes(_) => false,
        }
    }

    /// How many rows are held.
    pub(crate) fn count(&self) -> usize
        ensures { result ≡ (held_by self.now).count }
    {
        match self {
            Sink::Listed(rows) => rows.listed.count,
            Sink::Kept(rows) => rows.count,
            Sink::Top(top) => top.rows.count,
            Sink::Classes(rows) => rows.count,
        }
    }

    /// Whether it holds as many rows as are looked at.
    pub(crate) fn is_full(&self) -> bool
        ensures { (g : Plain) (b : Query) → IsSink g b self.now → (held_by self.now).count < 2 ^ 64
            → result ≡ is_full (cut_of b) (held_by self.now) }
    {
        match self {
            Sink::Listed(rows) => rows.is_full(),
            Sink::Kept(_) | Sink::Top(_) | Sink::Classes(_) => false,
        }
    }
}
