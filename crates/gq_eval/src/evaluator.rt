//! An expression over a graph, whose value is asked for in row after row.
ghost use Rattle.std.specs.Prelude.{◌≡◌, IfOk};
ghost use Rattle.gq_expr.specs.Meaning.{meaning};
ghost use Rattle.gq_expr.specs.Operators.{outcome};
ghost use Rattle.gq_eval.specs.Asked.{asked};

use crate::evaluate::evaluated;
use crate::places::add_places;
use gq_base::{List, Memory, Value};
use gq_expr::{Assigned, Expr, Fault};
use gq_plan::BoundExpr;
use gq_store::Graph;
use std::alloc::Global;
use std::marker::Model;

/// An expression over a graph, whose value is asked for in row after row. It is seen as the two.
///
/// Where the tables of the graph have the properties that the expression reads is found once, when
/// it is made: it holds a byte for each property and each table.
#[derive(Drop)]
pub struct Evaluator<'g> {
    expr: &'g Expr,
    graph: &'g Graph,
    places: List<u8>,
}

impl<'g> Model for Evaluator<'g> {
    ghost use Rattle.std.specs.Prelude.{◌≡◌};
    ghost use Rattle.std.specs.Coded.{codes};
    ghost use Rattle.gq_expr.specs.contracts.expr.Expr as expression;
    ghost use Rattle.gq_eval.specs.Asked.{Asked};

    ghost Value = { Asked };

    ghost coded = { Prim.hlevel (codes, expression.the_row.coded) };

    ghost use Rattle.gq_eval.specs.steps.Places.{expr_places};

    ghost view = { λ e. record { expr = e.expr.now; graph = e.graph.now } };

    ghost invariant = { λ e. e.places ≡ expr_places e.graph.now.catalog e.expr.now };
}

impl<'g> Evaluator<'g> {
    /// An expression over a graph; `Memory` where there is no memory to prepare it.
    pub fn new(
        alloc: Global,
        expr: &'g BoundExpr,
        graph: &'g Graph,
    ) -> Result<Evaluator<'g>, Memory>
        ensures { IfOk result (λ e. e ≡ asked expr.now graph.now) }
    {
        let mut places = List::new(alloc);
        add_places(&mut places, graph, expr)?;
        Ok(Evaluator {
            expr: expr.get(),
            graph,
            places,
        })
    }

    /// The value of the expression in a row, or the first fault met. Evaluation is strict, the left
    /// operand first. It takes no memory, and the value lives as long as the graph and the
    /// expression.
    #[inline(always)]
    pub fn value<R: Assigned>(&self, row: &R) -> Result<Value<'g>, Fault>
        ensures { outcome result ≡ meaning self.now.graph (R.assignment row.now) self.now.expr }
    {
        evaluated(self.expr, self.graph, row, self.places.as_slice())
    }
}
