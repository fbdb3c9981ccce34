//! Expressions with their variables numbered anew.
ghost use Rattle.std.specs.Prelude.{◌≡◌, map, IfOk, Ok};
ghost use Rattle.gq_base.specs.Results.{and_then};
ghost use Rattle.gq_expr.specs.declared.expr.Expr.TheVariants as variant;
ghost use Rattle.gq_expr.specs.steps.Parts.{operand_with, tester_with};
ghost use Rattle.gq_scopes.specs.Renumbering as specs;
ghost use Rattle.gq_scopes.specs.Renumbering.{node_number, rel_number, renumbered};

use crate::copying::Copying;
use crate::counts::next;
use gq_base::{Boxed, List, Memory, TryClone, copy_all};
use gq_expr::{ArithOperand, CompareOperand, Expr, ExprTester, Operand, Tester};
use std::alloc::Global;

/// Where variables of each kind stand.
#[derive(Clone, Copy)]
pub struct Orders<'o> {
    /// The node variables in order.
    pub nodes: &'o [u32],
    /// The relationship variables in order.
    pub rels: &'o [u32],
}

/// How variables are numbered anew.
#[derive(Clone, Copy)]
pub enum Numbering<'o> {
    /// Each keeps its number.
    Same,
    /// By their places in orders.
    Placed(Orders<'o>),
}

/// Where a variable stands in an order.
pub fn placed_in(order: &[u32], variable: u32) -> Result<u32, Memory>
    ensures { IfOk result (λ at. at ≡ specs.placed_in order.now variable) }
{
    let mut at = 0;
    for other in order {
        if variable == *other {
            return Ok(at);
        }
        at = next(at)?;
    }
    Ok(at)
}

fn new_node(numbering: Numbering<'_>, node: u32) -> Result<u32, Memory>
    ensures { IfOk result (λ v. v ≡ node_number numbering.entry node) }
{
    match numbering {
        Numbering::Same => Ok(node),
        Numbering::Placed(orders) => placed_in(orders.nodes, node),
    }
}

fn new_rel(numbering: Numbering<'_>, rel: u32) -> Result<u32, Memory>
    ensures { IfOk result (λ x. x ≡ rel_number numbering.entry rel) }
{
    match numbering {
        Numbering::Same => Ok(rel),
        Numbering::Placed(orders) => placed_in(orders.rels, rel),
    }
}

/// A copy of an expression, out of what may still be copied; `Memory` where that is too little.
#[tactic(auto, using(crate::proofs::Renumbered::stays))]
pub fn copy_expr(alloc: Global, copying: &mut Copying, expr: &Expr) -> Result<Expr, Memory>
    ensures { IfOk result (λ e. e ≡ expr.now) }
{
    renumber(alloc, copying, Numbering::Same, expr)
}

/// An expression whose variables are numbered anew. It is copied out of what may still be copied;
/// `Memory` where that is too little.
#[cycle(renumber)]
#[tactic(auto, using(crate::proofs::Renumbered::equations))]
pub fn renumber(
    alloc: Global,
    copying: &mut Copying,
    numbering: Numbering<'_>,
    expr: &Expr,
) -> Result<Expr, Memory>
    ensures { let nodes = node_number numbering.entry in
        let rels = rel_number numbering.entry in
        IfOk result (λ e. e ≡ renumbered nodes rels expr.now) }
{
    copying.take_part(expr)?;
    match expr {
        Expr::Literal(literal) => literal.try_clone(alloc).map(Expr::Literal),
        Expr::Node(node) => new_node(numbering, *node).map(Expr::Node),
        Expr::Rel(rel) => new_rel(numbering, *rel).map(Expr::Rel),
        Expr::NodeProperty(node, name) => {
            let node = new_node(numbering, *node)?;
            Ok(Expr::NodeProperty(node, name.try_clone(alloc)?))
        }
        Expr::RelProperty(rel, name) => {
            let rel = new_rel(numbering, *rel)?;
            Ok(Expr::RelProperty(rel, name.try_clone(alloc)?))
        }
        Expr::TypeName(inner) => boxed(alloc, copying, numbering, inner.get()).map(Expr::TypeName),
        Expr::Coalesce(all) => each(alloc, copying, numbering, all.as_slice()).map(Expr::Coalesce),
        Expr::Negate(inner) => boxed(alloc, copying, numbering, inner.get()).map(Expr::Negate),
        Expr::Plus(inner) => boxed(alloc, copying, numbering, inner.get()).map(Expr::Plus),
        Expr::Not(inner) => boxed(alloc, copying, numbering, inner.get()).map(Expr::Not),
        Expr::Or(all) => each(alloc, copying, numbering, all.as_slice()).map(Expr::Or),
        Expr::Xor(all) => each(alloc, copying, numbering, all.as_slice()).map(Expr::Xor),
        Expr::And(all) => each(alloc, copying, numbering, all.as_slice()).map(Expr::And),
        Expr::Compare(first, terms) => {
            let first = boxed(alloc, copying, numbering, first.get())?;
            compared(first, compares(alloc, copying, numbering, terms.as_slice()))
        }
        Expr::Test(first, all) => {
            let first = boxed(alloc, copying, numbering, first.get())?;
            tested(first, testers(alloc, copying, numbering, all.as_slice()))
        }
        Expr::Arith(first, terms) => {
            let first = boxed(alloc, copying, numbering, first.get())?;
            reckoned(first, ariths(alloc, copying, numbering, terms.as_slice()))
        }
    }
}

// The three operators with operands behind the first one, where those are copied.
fn compared(first: Boxed<Expr>, terms: Result<List<CompareOperand>, Memory>) -> Result<Expr, Memory>
    ensures { result ≡ and_then terms (λ ts. Ok (variant.Compare first ts)) }
{
    match terms {
        Ok(terms) => Ok(Expr::Compare(first, terms)),
        Err(memory) => Err(memory),
    }
}

fn tested(first: Boxed<Expr>, testers: Result<List<ExprTester>, Memory>) -> Result<Expr, Memory>
    ensures { result ≡ and_then testers (λ ts. Ok (variant.Test first ts)) }
{
    match testers {
        Ok(testers) => Ok(Expr::Test(first, testers)),
        Err(memory) => Err(memory),
    }
}

fn reckoned(first: Boxed<Expr>, terms: Result<List<ArithOperand>, Memory>) -> Result<Expr, Memory>
    ensures { result ≡ and_then terms (λ ts. Ok (variant.Arith first ts)) }
{
    match terms {
        Ok(terms) => Ok(Expr::Arith(first, terms)),
        Err(memory) => Err(memory),
    }
}

#[cycle(renumber)]
fn boxed(
    alloc: Global,
    copying: &mut Copying,
    numbering: Numbering<'_>,
    expr: &Expr,
) -> Result<Boxed<Expr>, Memory>
    ensures { let nodes = node_number numbering.entry in
        let rels = rel_number numbering.entry in
        IfOk result (λ e. e ≡ renumbered nodes rels expr.now) }
{
    let copied = renumber(alloc, copying, numbering, expr)?;
    Boxed::new(alloc, copied)
}

#[cycle(renumber)]
fn each(
    alloc: Global,
    copying: &mut Copying,
    numbering: Numbering<'_>,
    all: &[Expr],
) -> Result<List<Expr>, Memory>
    ensures { let nodes = node_number numbering.entry in
        let rels = rel_number numbering.entry in
        IfOk result (λ es. es ≡ map (renumbered nodes rels) all.now) }
{
    let mut copies = List::new(alloc);
    for part in all {
        let copied = renumber(alloc, copying, numbering, part)?;
        copies.push(copied)?;
    }
    Ok(copies)
}

#[cycle(renumber)]
fn compares(
    alloc: Global,
    copying: &mut Copying,
    numbering: Numbering<'_>,
    terms: &[CompareOperand],
) -> Result<List<CompareOperand>, Memory>
    ensures { let new = renumbered (node_number numbering.entry) (rel_number numbering.entry) in
        IfOk result (λ ts. ts ≡ map (operand_with new) terms.now) }
{
    let mut copies = List::new(alloc);
    for term in terms {
        let expr = renumber(alloc, copying, numbering, &term.expr)?;
        copies.push(Operand { op: term.op, expr })?;
    }
    Ok(copies)
}

#[cycle(renumber)]
fn ariths(
    alloc: Global,
    copying: &mut Copying,
    numbering: Numbering<'_>,
    terms: &[ArithOperand],
) -> Result<List<ArithOperand>, Memory>
    ensures { let new = renumbered (node_number numbering.entry) (rel_number numbering.entry) in
        IfOk result (λ ts. ts ≡ map (operand_with new) terms.now) }
{
    let mut copies = List::new(alloc);
    for term in terms {
        let expr = renumber(alloc, copying, numbering, &term.expr)?;
        copies.push(Operand { op: term.op, expr })?;
    }
    Ok(copies)
}

#[cycle(renumber)]
fn testers(
    alloc: Global,
    copying: &mut Copying,
    numbering: Numbering<'_>,
    all: &[ExprTester],
) -> Result<List<ExprTester>, Memory>
    ensures { let new = renumbered (node_number numbering.entry) (rel_number numbering.entry) in
        IfOk result (λ ts. ts ≡ map (tester_with new) all.now) }
{
    let mut copies = List::new(alloc);
    for tester in all {
        let copied = match tester {
            Tester::IsNull => Tester::IsNull,
            Tester::IsNotNull => Tester::IsNotNull,
            Tester::Member(literals) => {
                copying.take_literals(literals.as_slice())?;
                Tester::Member(copy_all(alloc, literals.as_slice())?)
            }
            Tester::Text(test, part) => {
                Tester::Text(*test, renumber(alloc, copying, numbering, part)?)
            }
        };
        copies.push(copied)?;
    }
    Ok(copies)
}
