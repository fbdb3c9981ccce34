//! From trees of expressions to bound expressions.
ghost use Rattle.std.specs.Prelude.{◌≡◌, map, IfOk, Some};
ghost use Rattle.std.specs.Option.{option_map};
ghost use Rattle.gq_expr.specs.declared.expr.Expr.TheVariants as variant;
ghost use Rattle.gq_expr.specs.declared.expr.Tester.TheVariants as tester;
ghost use Rattle.gq_resolve.specs.Resolving.{resolved, all_some, bound_term, bound_tester, calls_of};
ghost use Rattle.gq_resolve.specs.Resolving.{over_known};
ghost use Rattle.gq_resolve.specs.steps.Trees.{term_with, tester_with};

use crate::calls::{CallForm, call};
use gq_ast::{ArithTerm, Ast, AstNode, AstTester, CompareTerm, Tester as Tested};
use gq_base::{Boxed, List, Literal, Memory, TextTest, TryClone, copy_all};
use gq_expr::{ArithOperand, CompareOperand, Expr, ExprTester, Operand, Tester};
use gq_scopes::{Copying, Scope};
use std::alloc::Global;

/// The expression that a tree stands for, or `None` where it names what the scope does not have, or a call is none. An
/// EXISTS, whose value no expression has, stands for true.
pub fn resolve(
    alloc: Global,
    calls: CallForm,
    scope: &Scope<'_>,
    tree: &Ast,
) -> Result<Option<Expr>, Memory>
    ensures { IfOk result (λ e. e ≡ resolved (calls_of calls) scope.now tree.now) }
{
    resolve_part(alloc, &mut Copying::new(), calls, scope, tree)
}

/// The same, out of what may still be copied: each bare name that is a column copies the column's expression.
pub fn resolve_part(
    alloc: Global,
    copying: &mut Copying,
    calls: CallForm,
    scope: &Scope<'_>,
    tree: &Ast,
) -> Result<Option<Expr>, Memory>
    ensures { IfOk result (λ e. e ≡ resolved (calls_of calls) scope.now tree.now) }
{
    let resolver = Resolver {
        alloc,
        calls,
        scope,
    };
    resolver.part(copying, tree)
}

// What the trees of a statement are resolved with.
#[derive(Clone, Copy)]
struct Resolver<'r, 's> {
    alloc: Global,
    calls: CallForm,
    scope: &'r Scope<'s>,
}

impl<'r, 's> Resolver<'r, 's> {
    #[cycle(part)]
    #[tactic(auto, using(crate::proofs::Resolved::resolved_out))]
    fn part(&self, copying: &mut Copying, tree: &Ast) -> Result<Option<Expr>, Memory>
        ensures { let go = resolved (calls_of self.now.calls) self.now.scope.now in
            IfOk result (λ e. e ≡ go tree.now) }
    {
        match &tree.node {
            AstNode::Literal(literal) => Ok(Some(Expr::Literal(literal.try_clone(self.alloc)?))),
            AstNode::Variable(name) => self.scope.bare(self.alloc, copying, name),
            AstNode::Property(name, key) => self.scope.property(self.alloc, name, key),
            AstNode::Call(name, all) => match self.all(copying, all.as_slice())? {
                Some(all) => call(self.alloc, self.calls, name, all),
                None => Ok(None),
            },
            AstNode::Exists(_) => Ok(Some(Expr::Literal(Literal::Flag(true)))),
            AstNode::Paren(inner) => self.part(copying, inner.get()),
            AstNode::Negate(inner) => Ok(self.boxed(copying, inner.get())?.map(Expr::Negate)),
            AstNode::Plus(inner) => Ok(self.boxed(copying, inner.get())?.map(Expr::Plus)),
            AstNode::Not(inner) => Ok(self.boxed(copying, inner.get())?.map(Expr::Not)),
            AstNode::Or(all) => Ok(self.all(copying, all.as_slice())?.map(Expr::Or)),
            AstNode::Xor(all) => Ok(self.all(copying, all.as_slice())?.map(Expr::Xor)),
            AstNode::And(all) => Ok(self.all(copying, all.as_slice())?.map(Expr::And)),
            AstNode::Compare(first, terms) => match self.boxed(copying, first.get())? {
                Some(first) => Ok(compared(first, self.compares(copying, terms.as_slice())?)),
                None => Ok(None),
            },
            AstNode::Test(first, testers) => match self.boxed(copying, first.get())? {
                Some(first) => Ok(tested(first, self.testers(copying, testers.as_slice())?)),
                None => Ok(None),
            },
            AstNode::Sum(first, terms) | AstNode::Product(first, terms) => {
                match self.boxed(copying, first.get())? {
                    Some(first) => Ok(reckoned(first, self.ariths(copying, terms.as_slice())?)),
                    None => Ok(None),
                }
            }
        }
    }

    #[cycle(part)]
    fn boxed(&self, copying: &mut Copying, tree: &Ast) -> Result<Option<Boxed<Expr>>, Memory>
        ensures { let go = resolved (calls_of self.now.calls) self.now.scope.now in
            IfOk result (λ e. e ≡ go tree.now) }
    {
        match self.part(copying, tree)? {
            Some(expr) => Ok(Some(Boxed::new(self.alloc, expr)?)),
            None => Ok(None),
        }
    }

    #[cycle(part)]
    #[tactic(auto, using(crate::proofs::Resolved::gathering))]
    fn all(&self, copying: &mut Copying, trees: &[Ast]) -> Result<Option<List<Expr>>, Memory>
        ensures { let go = resolved (calls_of self.now.calls) self.now.scope.now in
            IfOk result (λ es. es ≡ all_some (map go trees.now)) }
    {
        let mut all = List::new(self.alloc);
        for tree in trees {
            match self.part(copying, tree)? {
                Some(expr) => all.push(expr)?,
                None => return Ok(None),
            }
        }
        Ok(Some(all))
    }

    #[cycle(part)]
    #[tactic(auto, using(crate::proofs::Resolved::gathering))]
    fn compares(
        &self,
        copying: &mut Copying,
        terms: &[CompareTerm],
    ) -> Result<Option<List<CompareOperand>>, Memory>
        ensures { let go = resolved (calls_of self.now.calls) self.now.scope.now in
            IfOk result (λ ts. ts ≡ all_some (map bound_term (map (term_with go) terms.now))) }
    {
        let mut all = List::new(self.alloc);
        for term in terms {
            match self.part(copying, &term.tree)? {
                Some(expr) => all.push(Operand { op: term.op, expr })?,
                None => return Ok(None),
            }
        }
        Ok(Some(all))
    }

    #[cycle(part)]
    #[tactic(auto, using(crate::proofs::Resolved::gathering))]
    fn ariths(
        &self,
        copying: &mut Copying,
        terms: &[ArithTerm],
    ) -> Result<Option<List<ArithOperand>>, Memory>
        ensures { let go = resolved (calls_of self.now.calls) self.now.scope.now in
            IfOk result (λ ts. ts ≡ all_some (map bound_term (map (term_with go) terms.now))) }
    {
        let mut all = List::new(self.alloc);
        for term in terms {
            match self.part(copying, &term.tree)? {
                Some(expr) => all.push(Operand { op: term.op, expr })?,
                None => return Ok(None),
            }
        }
        Ok(Some(all))
    }

    #[cycle(part)]
    #[tactic(auto, using(crate::proofs::Resolved::gathering))]
    fn testers(
        &self,
        copying: &mut Copying,
        testers: &[AstTester],
    ) -> Result<Option<List<ExprTester>>, Memory>
        ensures { let go = resolved (calls_of self.now.calls) self.now.scope.now in
            IfOk result (λ ts. ts
            ≡ all_some (map bound_tester (map (tester_with go) testers.now))) }
    {
        let mut all = List::new(self.alloc);
        for tester in testers {
            let found = match tester {
                Tested::IsNull => Some(Tester::IsNull),
                Tested::IsNotNull => Some(Tester::IsNotNull),
                Tested::Member(literals) => {
                    Some(Tester::Member(copy_all(self.alloc, literals.as_slice())?))
                }
                Tested::Text(test, part) => tested_text(*test, self.part(copying, part)?),
            };
            match found {
                Some(tester) => all.push(tester)?,
                None => return Ok(None),
            }
        }
        Ok(Some(all))
    }
}

// A test of a text by its part, where that is known.
fn tested_text(test: TextTest, part: Option<Expr>) -> Option<ExprTester>
    ensures { result ≡ option_map (tester.Text test) part }
{
    part.map(|part| Tester::Text(test, part))
}

// The three operators with operands behind the first one, where those are known.
fn compared(first: Boxed<Expr>, terms: Option<List<CompareOperand>>) -> Option<Expr>
    ensures { result ≡ over_known variant.Compare (Some first) terms }
{
    terms.map(|terms| Expr::Compare(first, terms))
}

fn tested(first: Boxed<Expr>, testers: Option<List<ExprTester>>) -> Option<Expr>
    ensures { result ≡ over_known variant.Test (Some first) testers }
{
    testers.map(|testers| Expr::Test(first, testers))
}

fn reckoned(first: Boxed<Expr>, terms: Option<List<ArithOperand>>) -> Option<Expr>
    ensures { result ≡ over_known variant.Arith (Some first) terms }
{
    terms.map(|terms| Expr::Arith(first, terms))
}
