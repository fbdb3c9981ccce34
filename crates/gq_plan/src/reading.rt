//! The walk that finds what an expression reads.
ghost use Rattle.std.specs.Prelude.{◌≡◌, [], ◌∷◌, ◌++◌, flat_map, IfOk};
ghost use Rattle.gq_expr.specs.steps.Parts.{tester_with};
ghost use Rattle.gq_plan.specs.Reads as read;
ghost use Rattle.gq_plan.specs.Reads.{property, tester_reads, whole};

use crate::read::Read;
use crate::variable::Variable;
use gq_base::{List, Memory, Text, TryClone};
use gq_expr::{ArithOperand, CompareOperand, Expr, ExprTester, Tester};
use std::alloc::Global;

fn add_whole(reads: &mut List<Read>, variable: Variable) -> Result<(), Memory>
    ensures { IfOk result (λ _. reads.new ≡ reads.old ++ whole variable ∷ []) }
{
    reads.push(Read {
        variable,
        property: None,
    })
}

fn add_property(
    alloc: Global,
    reads: &mut List<Read>,
    variable: Variable,
    name: &Text,
) -> Result<(), Memory>
    ensures { IfOk result (λ _. reads.new ≡ reads.old ++ property variable name.now ∷ []) }
{
    let name = name.try_clone(alloc)?;
    reads.push(Read {
        variable,
        property: Some(name),
    })
}

// Takes all that an expression reads, from left to right.
#[cycle(add_reads)]
#[tactic(auto, using(crate::proofs::ReadEquations::equations))]
pub(crate) fn add_reads(alloc: Global, reads: &mut List<Read>, expr: &Expr) -> Result<(), Memory>
    ensures { IfOk result (λ _. reads.new ≡ reads.old ++ read.reads expr.now) }
{
    match expr {
        Expr::Literal(_) => Ok(()),
        Expr::Node(node) => add_whole(reads, Variable::Node(*node)),
        Expr::Rel(rel) => add_whole(reads, Variable::Rel(*rel)),
        Expr::NodeProperty(node, name) => add_property(alloc, reads, Variable::Node(*node), name),
        Expr::RelProperty(rel, name) => add_property(alloc, reads, Variable::Rel(*rel), name),
        Expr::TypeName(inner) => add_reads(alloc, reads, inner.get()),
        Expr::Coalesce(all) => add_each(alloc, reads, all.as_slice()),
        Expr::Negate(inner) => add_reads(alloc, reads, inner.get()),
        Expr::Plus(inner) => add_reads(alloc, reads, inner.get()),
        Expr::Not(inner) => add_reads(alloc, reads, inner.get()),
        Expr::Or(all) => add_each(alloc, reads, all.as_slice()),
        Expr::Xor(all) => add_each(alloc, reads, all.as_slice()),
        Expr::And(all) => add_each(alloc, reads, all.as_slice()),
        Expr::Compare(first, terms) => {
            add_reads(alloc, reads, first.get())?;
            add_compares(alloc, reads, terms.as_slice())
        }
        Expr::Test(first, testers) => {
            add_reads(alloc, reads, first.get())?;
            add_testers(alloc, reads, testers.as_slice())
        }
        Expr::Arith(first, terms) => {
            add_reads(alloc, reads, first.get())?;
            add_ariths(alloc, reads, terms.as_slice())
        }
    }
}

#[cycle(add_reads)]
fn add_each(alloc: Global, reads: &mut List<Read>, all: &[Expr]) -> Result<(), Memory>
    ensures { IfOk result (λ _. reads.new ≡ reads.old ++ flat_map read.reads all.now) }
{
    for part in all {
        add_reads(alloc, reads, part)?;
    }
    Ok(())
}

#[cycle(add_reads)]
fn add_compares(
    alloc: Global,
    reads: &mut List<Read>,
    terms: &[CompareOperand],
) -> Result<(), Memory>
    ensures { IfOk result (λ _.
        reads.new ≡ reads.old ++ flat_map (λ t. read.reads t.expr) terms.now) }
{
    for term in terms {
        add_reads(alloc, reads, &term.expr)?;
    }
    Ok(())
}

#[cycle(add_reads)]
fn add_ariths(alloc: Global, reads: &mut List<Read>, terms: &[ArithOperand]) -> Result<(), Memory>
    ensures { IfOk result (λ _.
        reads.new ≡ reads.old ++ flat_map (λ t. read.reads t.expr) terms.now) }
{
    for term in terms {
        add_reads(alloc, reads, &term.expr)?;
    }
    Ok(())
}

#[cycle(add_reads)]
fn add_testers(alloc: Global, reads: &mut List<Read>, testers: &[ExprTester]) -> Result<(), Memory>
    ensures { IfOk result (λ _. reads.new
        ≡ reads.old ++ flat_map (λ t. tester_reads (tester_with read.reads t)) testers.now) }
{
    for tester in testers {
        match tester {
            Tester::IsNull => {}
            Tester::IsNotNull => {}
            Tester::Member(_) => {}
            Tester::Text(_, part) => add_reads(alloc, reads, part)?,
        }
    }
    Ok(())
}
