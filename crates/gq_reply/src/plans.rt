//! The reply to a statement that asks for the plans of a query.

ghost use Rattle.std.specs.Prelude.{◌≡◌, ◌<◌, ◌++◌, All, IfOk, length};
ghost use Rattle.std.specs.List.{AllZip};
ghost use Rattle.gq_io.specs.Causes.{HasCause};
ghost use Rattle.gq_io.specs.Outside.{Writes};
ghost use Rattle.gq_plan.specs.Columns.{FitsSound};
ghost use Rattle.gq_plan.specs.Soundness.{IsSound};
ghost use Rattle.gq_plan.specs.Plans.{plan_of};
ghost use Rattle.gq_reply.specs.Replies.{context_of};
ghost use Rattle.gq_explain.specs.Plans.{plan_text};
ghost use Rattle.gq_reply.specs.Arrows.{trail_arrows};
ghost use Rattle.gq_reply.specs.ReplyTexts.{columns_each, costs_shown};
ghost use Rattle.gq_reply.specs.steps.Steps.{AreShown, MayShow, Replied};
ghost use Rattle.gq_session.specs.Sessions.{span_of};

use crate::arrows::trail_arrows;
use crate::replier::Replier;
use crate::tone::{reply_memory, toned};
use gq_base::{List, Memory};
use gq_execute::{QueryPlans, plans};
use gq_explain::{write_costs, write_plan};
use gq_io::{Failed, Sink};
use gq_order::Order;
use gq_plan::{Bound, Plan, Typed, columns};
use gq_session::Tone;
use gq_syntax::Query;
use std::alloc::Global;

/// What the text of a query's plans is made of.
#[derive(Drop)]
struct ShownPlans {
    /// The plans, and what they cost.
    made: QueryPlans,
    /// How many columns the pipeline of each plan fills.
    columns: List<u32>,
    /// Of each trail, whether its arrow leads right.
    arrows: List<bool>,
}

// How many columns the pipeline of each plan fills.
fn column_counts(alloc: Global, alternatives: &[Typed], plans: &[Plan]) -> Result<List<u32>, Memory>
    requires { AllZip (λ y p. FitsSound y (plan_of p)) alternatives.now plans.now }
    ensures { IfOk result (λ counts. counts ≡ columns_each alternatives.now plans.now) }
{
    let mut counts = List::new(alloc);
    for (typed, plan) in alternatives.iter().zip(plans) {
        counts.push(columns(plan, typed))?;
    }
    Ok(counts)
}

// Writes what plans cost, in an order that states it.
fn write_shown<O: Sink>(
    out: &mut O,
    order: Order,
    costs: &List<List<Option<u128>>>,
) -> Result<(), Failed>
    ensures bytes { Writes (O.taken out.old) (O.taken out.new) (costs_shown order costs.now) result }
    ensures cause { HasCause (O.faults out.old) (O.faults out.new) result }
{
    if order.has_costs() {
        return write_costs(out, costs);
    }
    Ok(())
}

impl Replier<'_> {
    // What is shown of a query's plans.
    fn shown_plans(&self, query: &Query, bound: &Bound) -> Result<ShownPlans, Memory>
        requires sound { All (IsSound self.now.graph.now.catalog) bound.now.alternatives }
        requires begins { All (λ y. 0 < length y.nodes) bound.now.alternatives }
        ensures { IfOk result (AreShown (context_of self.now) query.now bound.now) }
    {
        let made = plans(self.alloc, self.graph, bound, self.settings.order)?;
        let alternatives = bound.alternatives.as_slice();
        let columns = column_counts(self.alloc, alternatives, made.plans.as_slice())?;
        let arrows = trail_arrows(self.alloc, query.clauses.as_slice())?;
        Ok(ShownPlans {
            made,
            columns,
            arrows,
        })
    }

    // Writes the plans of a query, each with its number of columns, its trails, each by whether its
    // arrow leads right, and what the plans cost.
    fn write_plans<O: Sink>(
        &self,
        out: &mut O,
        bound: &Bound,
        shown: &ShownPlans,
    ) -> Result<(), Failed>
        requires plans { length shown.now.made.plans ≡ length bound.now.alternatives }
        requires columns { length shown.now.columns ≡ length bound.now.alternatives }
        requires arrows { length shown.now.arrows ≡ length bound.now.trails }
        ensures bytes { let tables = self.now.graph.now.catalog in
            let order = self.now.settings.order in
            let made = shown.now.made in
            Writes (O.taken out.old) (O.taken out.new)
            (plan_text bound.now tables made.plans shown.now.columns shown.now.arrows
            ++ costs_shown order made.costs) result }
        ensures cause { HasCause (O.faults out.old) (O.faults out.new) result }
    {
        let ShownPlans {
            made,
            columns,
            arrows,
        } = shown;
        match write_plan(out, self.graph, bound, &made.plans, columns, arrows) {
            Ok(()) => write_shown(out, self.settings.order, &made.costs),
            Err(Failed) => Err(Failed),
        }
    }

    /// Replies to a statement that asks for the plans of a bound query: with their text. The query is not run.
    pub(crate) fn reply_to_plan<O: Sink>(
        &self,
        out: &mut O,
        query: &Query,
        bound: &Bound,
    ) -> Result<Tone, Failed>
        requires sound { All (IsSound self.now.graph.now.catalog) bound.now.alternatives }
        requires begins { All (λ y. 0 < length y.nodes) bound.now.alternatives }
        requires arrows { length (trail_arrows query.now.clauses) ≡ length bound.now.trails }
        ensures { Replied (MayShow (context_of self.now) query.now bound.now)
            (span_of O.taken O.faults out.old out.new) result }
    {
        match self.shown_plans(query, bound) {
            Ok(shown) => toned(self.write_plans(out, bound, &shown), Tone::Good),
            Err(memory) => reply_memory(out, memory),
        }
    }
}
