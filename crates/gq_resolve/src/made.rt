//! When an expression is made of columns.
ghost use Rattle.std.specs.Prelude.{◌≡◌, ◌&&◌, ◌||◌, IfOk};
ghost use Rattle.std.specs.List.{list_all, list_any};
ghost use Rattle.gq_expr.specs.declared.Expr.{out-Expr};
ghost use Rattle.gq_expr.specs.declared.expr.Expr.TheVariants as variant;
ghost use Rattle.gq_resolve.specs.MadeOf as made;
ghost use Rattle.gq_resolve.specs.MadeOf.{column_exprs, is_made_of, same_expr};
ghost use Rattle.gq_resolve.specs.steps.Depths.{told_depth};

use crate::operands::{operand, place_count};
use crate::sameness::same;
use gq_base::{List, Memory};
use gq_expr::Expr;
use gq_scopes::Column;
use std::alloc::Global;
use std::marker::Model;

// The expression of a column, with its depth.
#[derive(Drop)]
struct Deep<'c> {
    expr: &'c Expr,
    depth: usize,
}

impl<'c> Model for Deep<'c> {
    ghost use Rattle.std.specs.Prelude.{◌≡◌};
    ghost use Rattle.std.specs.Coded.{codes};
    ghost use Rattle.gq_expr.specs.contracts.expr.Expr as tree;
    ghost use Rattle.gq_expr.specs.declared.Expr.{Expr};
    ghost use Rattle.gq_resolve.specs.steps.Depths.{told_depth};

    ghost Value = { Expr };

    ghost coded = { Prim.hlevel (codes, tree.the_row.coded) };

    ghost view = { λ d. d.expr.now };

    ghost invariant = { λ d. d.depth ≡ told_depth d.expr.now };
}

impl Deep<'_> {
    // Whether another expression, of this depth, is the same.
    fn is(&self, expr: &Expr, depth: usize) -> bool
        requires { depth ≡ told_depth expr.now }
        ensures { result ≡ same_expr expr.now self.now }
    {
        self.depth == depth && same(expr, self.expr)
    }
}

// What is told of an expression: whether it is made of columns, and how deep it is.
#[derive(Clone, Copy)]
struct Told {
    made: bool,
    depth: usize,
}

/// The expressions of columns, each with its depth: another is compared with those that are as deep
/// alone, and so a column with no more of it than it has levels, and each part of it once.
#[derive(Drop)]
pub struct ColumnExprs<'c> {
    deep: List<Deep<'c>>,
}

impl<'c> Model for ColumnExprs<'c> {
    ghost use Rattle.std.specs.Prelude.{List};
    ghost use Rattle.std.specs.Coded.{codes};
    ghost use Rattle.gq_expr.specs.contracts.expr.Expr as expr;
    ghost use Rattle.gq_expr.specs.declared.Expr.{Expr};

    ghost Value = { List Expr };

    ghost coded = { Prim.hlevel (codes, expr.the_row.coded) };

    ghost view = { λ c. c.deep };
}

impl<'c> ColumnExprs<'c> {
    /// Those of these columns, of which some have none.
    pub fn of(alloc: Global, columns: &'c [Column]) -> Result<ColumnExprs<'c>, Memory>
        ensures { IfOk result (λ c. c ≡ column_exprs columns.now) }
    {
        let plain = ColumnExprs {
            deep: List::new(alloc),
        };
        let mut deep = List::new(alloc);
        for column in columns {
            if let Some(expr) = &column.expr {
                let depth = plain.tell(expr).depth;
                deep.push(Deep { expr, depth })?;
            }
        }
        Ok(ColumnExprs { deep })
    }

    /// Whether an expression is made of them: it is one, or it is a literal, a property of a variable
    /// that is one, or else no variable and no property, with such parts alone.
    pub fn make(&self, expr: &Expr) -> bool
        ensures { result ≡ is_made_of self.now expr.now }
    {
        self.tell(expr).made
    }

    fn tell(&self, expr: &Expr) -> Told
        ensures made { result.made ≡ is_made_of self.now expr.now }
        ensures depth { result.depth ≡ told_depth expr.now }
    {
        let mut parts = true;
        let mut below = 0;
        for place in 0..place_count(expr) {
            if let Some(part) = operand(expr, place) {
                let told = self.tell(part);
                parts = parts && told.made;
                below = below.max(told.depth);
            }
        }
        let depth = below.saturating_add(1);
        let made = is_either(self.have(expr, depth), parts, self.make_alone(expr));
        Told { made, depth }
    }

    // Whether what an expression is besides its operands is made of them.
    fn make_alone(&self, expr: &Expr) -> bool
        ensures { result ≡ made.is_made_alone self.now (out-Expr expr.now) }
    {
        match expr {
            Expr::Node(_) | Expr::Rel(_) => false,
            Expr::NodeProperty(variable, _) => self.have_node(*variable),
            Expr::RelProperty(variable, _) => self.have_rel(*variable),
            _ => true,
        }
    }

    fn have_node(&self, variable: u32) -> bool
        ensures { result ≡ list_any (same_expr (variant.Node variable)) self.now }
    {
        self.have(&Expr::Node(variable), 1)
    }

    fn have_rel(&self, variable: u32) -> bool
        ensures { result ≡ list_any (same_expr (variant.Rel variable)) self.now }
    {
        self.have(&Expr::Rel(variable), 1)
    }

    // Whether an expression of this depth is one of them.
    fn have(&self, expr: &Expr, depth: usize) -> bool
        requires { depth ≡ told_depth expr.now }
        ensures { result ≡ list_any (same_expr expr.now) self.now }
    {
        for own in self.deep.as_slice() {
            if own.is(expr, depth) {
                return true;
            }
        }
        false
    }
}

// Whether an expression is a column, or its parts and what it is besides them are made of columns.
fn is_either(column: bool, parts: bool, alone: bool) -> bool
    ensures { result ≡ (column || (parts && alone)) }
{
    column || (parts && alone)
}
