//! What decides a condition: a test of lanes where these can, and else what evaluates it.
ghost use Rattle.std.specs.Prelude.{◌≡◌, IfOk};
ghost use Rattle.gq_filter.specs.steps.Evaluating.{Evaluates, is_true};
ghost use Rattle.gq_filter.specs.steps.RowCells.{AreFeedsIn, DecidesRows};

use crate::conditions::compile;
use crate::lane_test::LaneTest;
use crate::source::Feed;
use crate::text_test::PartTest;
use gq_base::{Memory, Value};
use gq_eval::Evaluator;
use gq_expr::Assigned;
use gq_plan::{NamedExpr, Typed};
use gq_store::Graph;
use std::alloc::Global;

/// The test of lanes with these feeds that decides a condition, where they can.
pub(crate) fn test_of(
    alloc: Global,
    graph: &Graph,
    typed: &Typed,
    condition: &NamedExpr,
    feeds: &[Feed<'_>],
) -> Result<Option<LaneTest>, Memory>
    requires { AreFeedsIn graph.now typed.now feeds.now }
    ensures { IfOk result (DecidesRows graph.now typed.now condition.now feeds.now) }
{
    if feeds.len() > u32::MAX as usize {
        return Ok(None);
    }
    let test = compile(alloc, condition.expr.get(), feeds)?;
    Ok(test)
}

/// What evaluates a condition, where neither lanes nor a text decide it.
pub(crate) fn evaluator_of<'g>(
    alloc: Global,
    graph: &'g Graph,
    condition: &'g NamedExpr,
    test: &Option<LaneTest>,
    text: &Option<PartTest<'g>>,
) -> Result<Option<Evaluator<'g>>, Memory>
    ensures { IfOk result (Evaluates graph.now condition.now test.now text.now) }
{
    match test {
        Some(_) => return Ok(None),
        None => {}
    }
    match text {
        Some(_) => return Ok(None),
        None => {}
    }
    let evaluator = Evaluator::new(alloc, &condition.expr, graph)?;
    Ok(Some(evaluator))
}

/// Whether a condition over a graph is true of a row. It takes no memory.
pub(crate) fn is_true<R: Assigned>(test: &Evaluator<'_>, row: &R) -> bool
    ensures { result ≡ is_true test.now (R.assignment row.now) }
{
    match test.value(row) {
        Ok(Value::Flag(truth)) => truth,
        _ => false,
    }
}
