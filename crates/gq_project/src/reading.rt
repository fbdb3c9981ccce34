//! The columns, the keys and the conjuncts of a query, each made once for many rows.
ghost use Rattle.std.specs.Prelude.{◌≡◌, IfOk, OnOk, false};
ghost use Rattle.gq_base.specs.Plain.{Graph as Plain};
ghost use Rattle.gq_plan.specs.declared.bound.Bound.{Bound as Query};
ghost use Rattle.gq_project.specs.Reading.{IsReading, IsReadyFor, asked_keys};

use crate::conjunct::{Conjunct, conjuncts, start_tests};
use gq_base::{List, Memory};
use gq_eval::{Evaluator, evaluators};
use gq_plan::{Bound, SortExpr, Typed};
use gq_store::Graph;
use std::alloc::Global;

/// The columns, the keys and the conjuncts of a query, as they are evaluated over a graph, once they
/// were made.
#[derive(Drop)]
pub struct Reading<'g> {
    /// All are made.
    pub made: bool,
    /// All are made, and what lanes decide of the conjuncts is of the alternative whose rows follow.
    pub ready: bool,
    pub columns: List<Evaluator<'g>>,
    pub keys: List<Evaluator<'g>>,
    pub conjuncts: List<Conjunct<'g>>,
}

impl<'g> Reading<'g> {
    /// Nothing is made. It takes no memory.
    pub fn new(alloc: Global) -> Reading<'g>
        ensures made { result.made ≡ false }
        ensures ready { result.ready ≡ false }
    {
        Reading {
            made: false,
            ready: false,
            columns: List::new(alloc),
            keys: List::new(alloc),
            conjuncts: List::new(alloc),
        }
    }

    /// Another alternative's rows follow: where it leaves conjuncts, what lanes decide of them is made
    /// anew, and nothing else.
    pub fn start_alternative(&mut self, typed: &Typed)
        ensures { (g : Plain) (b : Query) → IsReadyFor g b self.old → IsReadyFor g b self.new }
    {
        if !typed.late.is_empty() {
            self.ready = false;
        }
    }

    /// Makes those of a query over a graph ready, for rows of an alternative; where that was done,
    /// they stay. It is called for each row, and then mostly there is nothing to do.
    #[inline(always)]
    pub fn prepare(
        &mut self,
        alloc: Global,
        bound: &'g Bound,
        typed: &Typed,
        graph: &'g Graph,
    ) -> Result<(), Memory>
        requires { IsReadyFor graph.now bound.now self.old }
        ensures reads { OnOk result (IsReading graph.now bound.now self.new) }
        ensures ready { IsReadyFor graph.now bound.now self.new }
    {
        if self.ready {
            return Ok(());
        }
        self.make_ready(alloc, bound, typed, graph)
    }

    // Makes those of a query over a graph ready, for rows of an alternative.
    fn make_ready(
        &mut self,
        alloc: Global,
        bound: &'g Bound,
        typed: &Typed,
        graph: &'g Graph,
    ) -> Result<(), Memory>
        requires { IsReadyFor graph.now bound.now self.old }
        ensures reads { OnOk result (IsReading graph.now bound.now self.new) }
        ensures ready { IsReadyFor graph.now bound.now self.new }
    {
        if self.made {
            start_tests(alloc, typed, &mut self.conjuncts)?;
            self.ready = true;
            return Ok(());
        }
        *self = Reading {
            made: true,
            ready: true,
            columns: evaluators(alloc, bound.columns.as_slice(), graph)?,
            keys: key_evaluators(alloc, bound.keys.as_slice(), graph)?,
            conjuncts: conjuncts(alloc, bound.conjuncts.as_slice(), Some(typed), graph)?,
        };
        Ok(())
    }
}

fn key_evaluators<'g>(
    alloc: Global,
    keys: &'g [SortExpr],
    graph: &'g Graph,
) -> Result<List<Evaluator<'g>>, Memory>
    ensures { IfOk result (λ all. all ≡ asked_keys graph.now keys.now) }
{
    let mut all = List::new(alloc);
    'keys: for key in keys {
        all.push(Evaluator::new(alloc, &key.expr, graph)?)?;
    }
    Ok(all)
}
