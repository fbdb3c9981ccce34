//! The paths of the EXISTS of an expression.
ghost use Rattle.std.specs.Prelude.{◌≡◌, ◌++◌, flat_map, OnOk};
ghost use Rattle.gq_resolve.specs.Places.{paths_in};
ghost use Rattle.gq_resolve.specs.steps.Places.{tester_paths};

use crate::path_tests::PathTest;
use gq_ast::{ArithTerm, Ast, AstNode, AstTester, CompareTerm, Tester};
use gq_base::{List, Memory};

/// Appends the path of each EXISTS of an expression, in text order, as a test whether it has a match.
#[cycle(push_paths)]
#[tactic(auto, using(crate::proofs::ExistsPaths::finding))]
pub fn push_paths<'t>(tree: &'t Ast, paths: &mut List<PathTest<'t>>) -> Result<(), Memory>
    ensures { OnOk result (paths.new ≡ paths.old ++ paths_in tree.now) }
{
    match &tree.node {
        AstNode::Literal(_) | AstNode::Variable(_) | AstNode::Property(_, _) => Ok(()),
        AstNode::Exists(path) => paths.push(PathTest { path, wanted: true }),
        AstNode::Call(_, all) | AstNode::Or(all) | AstNode::Xor(all) | AstNode::And(all) => {
            push_all_paths(all.as_slice(), paths)
        }
        AstNode::Paren(inner)
        | AstNode::Negate(inner)
        | AstNode::Plus(inner)
        | AstNode::Not(inner) => push_paths(inner.get(), paths),
        AstNode::Compare(first, terms) => {
            push_paths(first.get(), paths)?;
            push_compared_paths(terms.as_slice(), paths)
        }
        AstNode::Test(first, testers) => {
            push_paths(first.get(), paths)?;
            push_tester_paths(testers.as_slice(), paths)
        }
        AstNode::Sum(first, terms) | AstNode::Product(first, terms) => {
            push_paths(first.get(), paths)?;
            push_operand_paths(terms.as_slice(), paths)
        }
    }
}

#[cycle(push_paths)]
fn push_all_paths<'t>(trees: &'t [Ast], paths: &mut List<PathTest<'t>>) -> Result<(), Memory>
    ensures { OnOk result (paths.new ≡ paths.old ++ flat_map paths_in trees.now) }
{
    for tree in trees {
        push_paths(tree, paths)?;
    }
    Ok(())
}

#[cycle(push_paths)]
fn push_compared_paths<'t>(
    terms: &'t [CompareTerm],
    paths: &mut List<PathTest<'t>>,
) -> Result<(), Memory>
    ensures { OnOk result (paths.new
        ≡ paths.old ++ flat_map (λ t. paths_in t.tree) terms.now) }
{
    for term in terms {
        push_paths(&term.tree, paths)?;
    }
    Ok(())
}

#[cycle(push_paths)]
fn push_operand_paths<'t>(
    terms: &'t [ArithTerm],
    paths: &mut List<PathTest<'t>>,
) -> Result<(), Memory>
    ensures { OnOk result (paths.new
        ≡ paths.old ++ flat_map (λ t. paths_in t.tree) terms.now) }
{
    for term in terms {
        push_paths(&term.tree, paths)?;
    }
    Ok(())
}

#[cycle(push_paths)]
fn push_tester_paths<'t>(
    testers: &'t [AstTester],
    paths: &mut List<PathTest<'t>>,
) -> Result<(), Memory>
    ensures { OnOk result (paths.new ≡ paths.old ++ flat_map tester_paths testers.now) }
{
    for tester in testers {
        match tester {
            Tester::IsNull | Tester::IsNotNull | Tester::Member(_) => {}
            Tester::Text(_, part) => push_paths(part, paths)?,
        }
    }
    Ok(())
}
