//! Conditions that lanes decide, asked of rows as expressions read them.
ghost use Rattle.std.specs.Prelude.{◌≡◌, IfOk, IfSome, true};
ghost use Rattle.gq_eval.specs.Asked.{asked};
ghost use Rattle.gq_expr.specs.Meaning.{meaning};
ghost use Rattle.gq_filter.specs.Deciding.{IsWanted};

use crate::cells::holds_at;
use crate::conditions::compile;
use crate::lane_test::LaneTest;
use crate::read_cells::{LANES, read_cells};
use crate::row_feeds::add_feeds;
use crate::source::Feed;
use gq_base::Memory;
use gq_expr::{Assigned, Expr};
use gq_plan::{BoundExpr, Typed};
use gq_store::Graph;
use std::alloc::Global;
use std::marker::Model;

/// A condition over a graph that lanes decide. It is seen as the two.
#[derive(Drop)]
pub struct ReadTest<'g> {
    graph: &'g Graph,
    condition: &'g Expr,
    test: LaneTest,
    feeds: Vec<Feed<'g>>,
}

impl<'g> Model for ReadTest<'g> {
    ghost use Rattle.std.specs.Coded.{codes};
    ghost use Rattle.gq_expr.specs.contracts.expr.Expr as expr;
    ghost use Rattle.gq_eval.specs.Asked.{Asked};
    ghost use Rattle.gq_filter.specs.steps.ReadCells.{TellsBy};

    ghost Value = { Asked };

    ghost coded = { Prim.hlevel (codes, expr.the_row.coded) };

    ghost view = { λ t. record { expr = t.condition.now; graph = t.graph.now } };

    ghost invariant = { λ t. TellsBy t.graph.now t.condition.now t.feeds.items t.test };
}

impl<'g> ReadTest<'g> {
    /// What decides a condition, where lanes can. It tells of rows in which the variables that the
    /// condition reads are of the tables that they have in an alternative.
    pub fn new(
        alloc: Global,
        graph: &'g Graph,
        typed: &Typed,
        condition: &'g BoundExpr,
    ) -> Result<Option<ReadTest<'g>>, Memory>
        ensures { IfOk result (λ found.
            IfSome found (λ test. test ≡ asked condition.now graph.now)) }
    {
        let mut feeds = Vec::new(alloc);
        add_feeds(&mut feeds, graph, typed, condition)?;
        if feeds.len() > LANES {
            return Ok(None);
        }
        let condition = condition.get();
        match compile(alloc, condition, feeds.as_slice())? {
            None => Ok(None),
            Some(test) => Ok(Some(ReadTest {
                graph,
                condition,
                test,
                feeds,
            })),
        }
    }

    /// Whether the condition is true in a row, where lanes tell. It takes no memory.
    pub fn told<R: Assigned>(&self, row: &R) -> Option<bool>
        ensures { let means = meaning self.now.graph (R.assignment row.now) self.now.expr in
            IfSome result (λ truth. IsWanted true truth means) }
    {
        match read_cells(self.graph, self.feeds.as_slice(), row) {
            None => None,
            Some(cells) => Some(holds_at(&self.test, &cells)),
        }
    }
}
