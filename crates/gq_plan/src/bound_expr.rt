//! An expression and what it reads.
ghost use Rattle.std.specs.Prelude.{◌≡◌, IfOk};
ghost use Rattle.gq_plan.specs.Reads as read;

use crate::read::Read;
use crate::reading::add_reads;
use gq_base::{List, Memory};
use gq_expr::Expr;
use std::alloc::Global;
use std::marker::Model;

/// An expression with what it reads, from left to right. What it reads is found once, when it is
/// made.
#[derive(Drop)]
pub struct BoundExpr {
    expr: Expr,
    reads: List<Read>,
}

impl Model for BoundExpr {
    ghost use Rattle.std.specs.Prelude.{◌≡◌};
    ghost use Rattle.std.specs.Coded.{codes};
    ghost use Rattle.gq_expr.specs.contracts.expr.Expr as tree;
    ghost use Rattle.gq_expr.specs.declared.Expr.{Expr};
    ghost use Rattle.gq_plan.specs.Reads as read;

    ghost Value = { Expr };

    ghost coded = { Prim.hlevel (codes, tree.the_row.coded) };

    ghost view = { λ b. b.expr };

    ghost invariant = { λ b. b.reads ≡ read.reads b.expr };
}

impl BoundExpr {
    /// An expression with what it reads; `Memory` where there is no memory for that.
    pub fn new(alloc: Global, expr: Expr) -> Result<BoundExpr, Memory>
        ensures { IfOk result (λ bound. bound ≡ expr) }
    {
        let mut reads = List::new(alloc);
        add_reads(alloc, &mut reads, &expr)?;
        Ok(BoundExpr { expr, reads })
    }

    /// The expression.
    pub fn get(&self) -> &Expr
        ensures { result.now ≡ self.now }
    {
        &self.expr
    }

    /// What it reads, from left to right.
    pub fn reads(&self) -> &[Read]
        ensures { result.now ≡ read.reads self.now }
    {
        self.reads.as_slice()
    }
}
