//! Named expressions that are made ready for many rows.
ghost use Rattle.std.specs.Prelude.{◌≡◌, IfOk};
ghost use Rattle.gq_eval.specs.Asked.{asked_of};

use crate::evaluator::Evaluator;
use gq_base::{List, Memory};
use gq_plan::NamedExpr;
use gq_store::Graph;
use std::alloc::Global;

/// The evaluators of named expressions over a graph, in their order.
pub fn evaluators<'g>(
    alloc: Global,
    named: &'g [NamedExpr],
    graph: &'g Graph,
) -> Result<List<Evaluator<'g>>, Memory>
    ensures { IfOk result (λ all. all ≡ asked_of graph.now named.now) }
{
    let mut all = List::new(alloc);
    'named: for one in named {
        all.push(Evaluator::new(alloc, &one.expr, graph)?)?;
    }
    Ok(all)
}
