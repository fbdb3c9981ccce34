//! The conjuncts of a query, as they are asked of rows.
ghost use Rattle.std.specs.Prelude.{◌≡◌, IfOk, IfSome, true};
ghost use Rattle.gq_eval.specs.Asked.{asked, asked_of};
ghost use Rattle.gq_eval.specs.Judged.{one_more};
ghost use Rattle.gq_expr.specs.Meaning.{meaning};
ghost use Rattle.gq_filter.specs.Deciding.{IsWanted};

use gq_base::{List, Memory};
use gq_eval::{Evaluator, Verdict, judge_more};
use gq_expr::Assigned;
use gq_filter::ReadTest;
use gq_plan::{BoundExpr, NamedExpr, Typed, has_number};
use gq_store::Graph;
use std::alloc::Global;
use std::marker::Model;
use std::mem;

/// A conjunct over a graph. It is seen as the two.
#[derive(Drop)]
pub struct Conjunct<'g> {
    condition: &'g BoundExpr,
    graph: &'g Graph,
    evaluator: Evaluator<'g>,
    // What decides it in most rows, if lanes can.
    test: Option<ReadTest<'g>>,
}

impl<'g> Model for Conjunct<'g> {
    ghost use Rattle.std.specs.Prelude.{◌≡◌, IfSome};
    ghost use Rattle.std.specs.Coded.{codes};
    ghost use Rattle.gq_expr.specs.contracts.expr.Expr as expression;
    ghost use Rattle.gq_eval.specs.Asked.{Asked, asked};

    ghost Value = { Asked };

    ghost coded = { Prim.hlevel (codes, expression.the_row.coded) };

    ghost view = { λ c. c.evaluator };

    ghost invariant = { λ c. (c.evaluator ≡ asked c.condition.now c.graph.now)
        × IfSome c.test (λ test. test ≡ c.evaluator) };
}

impl<'g> Conjunct<'g> {
    /// What was found so far, and the conjunct in a row: it drops the row where it is false or
    /// null. It takes no memory.
    #[inline(always)]
    pub fn judge_more<R: Assigned>(&self, verdict: Verdict, row: &R) -> Verdict
        ensures { let means = meaning self.now.graph (R.assignment row.now) self.now.expr in
            result ≡ one_more verdict means }
    {
        match self.told(row) {
            None => judge_more(verdict, self.evaluator.value(row)),
            Some(true) => verdict,
            Some(false) => Verdict::Dropped,
        }
    }

    // Has lanes decide it in the rows of an alternative, if they can. After a refusal it is asked as
    // before.
    fn start_test(&mut self, alloc: Global, typed: &Typed) -> Result<(), Memory>
        ensures { self.new ≡ self.old }
    {
        self.test = ReadTest::new(alloc, self.graph, typed, self.condition)?;
        Ok(())
    }

    // Whether it is true in a row, where lanes tell.
    #[inline(always)]
    fn told<R: Assigned>(&self, row: &R) -> Option<bool>
        ensures { let means = meaning self.now.graph (R.assignment row.now) self.now.expr in
            IfSome result (λ truth. IsWanted true truth means) }
    {
        match &self.test {
            None => None,
            Some(test) => test.told(row),
        }
    }
}

/// The conjuncts of a query over a graph. Those that an alternative leaves are asked by lanes in its
/// rows, where lanes can decide them.
pub fn conjuncts<'g>(
    alloc: Global,
    named: &'g [NamedExpr],
    typed: Option<&Typed>,
    graph: &'g Graph,
) -> Result<List<Conjunct<'g>>, Memory>
    ensures { IfOk result (λ all. all ≡ asked_of graph.now named.now) }
{
    let mut all = List::new(alloc);
    'named: for one in named {
        let test = test_for(alloc, all.len(), &one.expr, typed, graph)?;
        all.push(conjunct_of(alloc, &one.expr, test, graph)?)?;
    }
    Ok(all)
}

// A conjunct, and what decides it.
fn conjunct_of<'g>(
    alloc: Global,
    expr: &'g BoundExpr,
    test: Option<ReadTest<'g>>,
    graph: &'g Graph,
) -> Result<Conjunct<'g>, Memory>
    requires { IfSome test (λ decides. decides ≡ asked expr.now graph.now) }
    ensures { IfOk result (λ made. made ≡ asked expr.now graph.now) }
{
    match Evaluator::new(alloc, expr, graph) {
        Ok(evaluator) => Ok(Conjunct {
            condition: expr,
            graph,
            evaluator,
            test,
        }),
        Err(memory) => Err(memory),
    }
}

// What decides the conjunct of a number, where the alternative leaves it and lanes can.
fn test_for<'g>(
    alloc: Global,
    number: usize,
    expr: &'g BoundExpr,
    typed: Option<&Typed>,
    graph: &'g Graph,
) -> Result<Option<ReadTest<'g>>, Memory>
    ensures { IfOk result (λ found. IfSome found (λ test. test ≡ asked expr.now graph.now)) }
{
    match typed {
        None => Ok(None),
        Some(typed) => if has_number(typed.late.as_slice(), number) {
            ReadTest::new(alloc, graph, typed, expr)
        } else {
            Ok(None)
        },
    }
}

/// Has lanes decide the conjuncts that another alternative leaves, in its rows, where they can. After
/// a refusal they are asked as before.
pub(crate) fn start_tests(
    alloc: Global,
    typed: &Typed,
    conjuncts: &mut List<Conjunct<'_>>,
) -> Result<(), Memory>
    ensures { conjuncts.new ≡ conjuncts.old }
{
    let mut all = mem::replace(conjuncts, List::new(alloc)).into_vec();
    let answer = start_each(alloc, typed, &mut all);
    let _ = mem::replace(conjuncts, List::from_vec(all));
    answer
}

// Has lanes decide each of the conjuncts that an alternative leaves.
fn start_each(alloc: Global, typed: &Typed, conjuncts: &mut Vec<Conjunct<'_>>) -> Result<(), Memory>
    ensures { conjuncts.new.items ≡ conjuncts.old.items }
{
    'late: for number in typed.late.as_slice() {
        start_one(alloc, typed, *number, conjuncts)?;
    }
    Ok(())
}

// Has lanes decide the conjunct of a number.
fn start_one(
    alloc: Global,
    typed: &Typed,
    number: u32,
    conjuncts: &mut Vec<Conjunct<'_>>,
) -> Result<(), Memory>
    ensures { conjuncts.new.items ≡ conjuncts.old.items }
{
    match conjuncts.get_mut(number as usize) {
        None => Ok(()),
        Some(conjunct) => conjunct.start_test(alloc, typed),
    }
}
