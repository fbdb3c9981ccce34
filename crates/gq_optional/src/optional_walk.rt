//! The rows that optional clauses make of a row, one after another, as callers see them.
ghost use Rattle.std.specs.Prelude.{◌≡◌, ◌∷◌, [], All, IfOk, false, length, true};
ghost use Rattle.std.specs.List.{range_with_len};
ghost use Rattle.gq_optional.specs.Held.{row_reached, rows_behind, rows_owed};
ghost use Rattle.gq_optional.specs.steps.Asking.{AllAsk};
ghost use Rattle.gq_optional.specs.steps.Listed.{IsClause};
ghost use Rattle.gq_optional.specs.steps.Walks.{AreShared, held_of};

use crate::clause::Clause;
use crate::optionals::RowShape;
use crate::walk::Walk;
use gq_base::Memory;
use gq_expr::Fault;
use gq_outer::WideRow;
use gq_store::Graph;
use std::alloc::Global;
use std::marker::Model;

/// The rows that optional clauses make of a row, one after another, the last clause's deciding
/// last.
#[derive(Drop)]
pub struct OptionalWalk<'w> {
    walk: Walk<'w>,
}

impl<'w> Model for OptionalWalk<'w> {
    ghost use Rattle.std.specs.Coded.{codes};
    ghost use Rattle.gq_expr.specs.contracts.expr.Expr as expr;
    ghost use Rattle.gq_optional.specs.Held.{Walking};

    ghost Value = { Walking };

    ghost coded = { Prim.hlevel (codes, expr.the_row.coded) };

    ghost use Rattle.gq_optional.specs.steps.Walks.{walking_of, IsWalking};

    ghost view = { λ w. walking_of w.walk };

    ghost invariant = { λ w. IsWalking w.walk };
}

impl<'w> OptionalWalk<'w> {
    /// A walk over what clauses make of rows of this shape, which owes nothing yet.
    pub(crate) fn new(
        alloc: Global,
        graph: &'w Graph,
        shape: RowShape,
        clauses: &'w [Clause<'w>],
    ) -> Result<OptionalWalk<'w>, Memory>
        requires clauses { All (IsClause shape.nodes shape.rels) clauses.now }
        requires shared { AreShared (range_with_len 0 shape.first) clauses.now }
        requires asks { AllAsk graph.now clauses.now }
        ensures held { IfOk result (λ w. w.held ≡ held_of graph.now shape clauses.now) }
        ensures owed { IfOk result (λ w. rows_owed w ≡ []) }
    {
        let walk = Walk::new(alloc, graph, shape, clauses)?;
        Ok(OptionalWalk { walk })
    }

    /// Owes the rows that the clauses make of a row which no fault marks. It takes no memory.
    pub fn begin(&mut self, base: &WideRow)
        requires nodes { self.old.held.shape.nodes ≡ length base.now.nodes }
        requires rels { self.old.held.shape.rels ≡ length base.now.rels }
        ensures owed { rows_owed self.new ≡ rows_behind self.old.held base.now }
        ensures standing { self.new.standing ≡ false }
        ensures held { self.new.held ≡ self.old.held }
    {
        self.walk.begin(base);
    }

    /// Goes on to the next row that is owed, and answers whether there is one. It takes no memory.
    pub fn advance(&mut self) -> bool
        ensures next { result ≡ true →
            rows_owed self.old ≡ row_reached self.new ∷ rows_owed self.new }
        ensures none { result ≡ false → rows_owed self.old ≡ [] }
        ensures over { result ≡ false → rows_owed self.new ≡ [] }
        ensures standing { self.new.standing ≡ result }
        ensures held { self.new.held ≡ self.old.held }
    {
        self.walk.advance()
    }

    /// The row that stands.
    pub fn row(&self) -> &WideRow
        ensures { result.now ≡ self.now.row }
    {
        self.walk.row()
    }

    /// The fault that marks it, if one does.
    pub fn fault(&self) -> Option<Fault>
        ensures { result ≡ self.now.mark }
    {
        self.walk.fault()
    }
}
