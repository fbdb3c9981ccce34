//! The conjuncts of a condition.
ghost use Rattle.std.specs.Prelude.{◌≡◌, ◌∷◌, ◌++◌, [], All, IfOk};
ghost use Rattle.std.specs.Option.{option_map};
ghost use Rattle.gq_resolve.specs.Conjuncts.{tests_of, values_of};
ghost use Rattle.gq_resolve.specs.steps.Conjuncts.{conjuncts_in, listed_behind, whole_conjunct};
ghost use Rattle.gq_resolve.specs.Resolving as resolving;
ghost use Rattle.gq_resolve.specs.Resolving.{split, all_some};
ghost use Rattle.gq_ast.specs.Sources.{IsWhole};
ghost use Rattle.gq_ast.specs.Spans.{IsWholeTree};
ghost use Rattle.gq_ast.specs.declared.Ast.{out-Ast};

use crate::calls::CallForm;
use crate::path_tests::{NamedTest, test_of};
use crate::resolution::resolve;
use crate::source::source_text;
use gq_ast::{Ast, AstNode};
use gq_base::{List, Memory};
use gq_plan::{BoundExpr, NamedExpr};
use gq_scopes::Scope;
use std::alloc::Global;

/// The conjuncts of conditions in text order: those of values, and the tests of paths.
#[derive(Drop)]
pub struct Conjuncts<'t> {
    pub values: List<NamedExpr>,
    pub tests: List<NamedTest<'t>>,
}

/// The conjuncts of a condition, each called by its source text: those of the members of an AND, those within
/// parentheses, else the condition itself. `None` where the condition names what the scope does not have, or a call of
/// it is none. The parts of the condition begin and end between characters of the text.
pub fn conjuncts_of<'t>(
    alloc: Global,
    text: &[u8],
    scope: &Scope<'_>,
    tree: &'t Ast,
) -> Result<Option<Conjuncts<'t>>, Memory>
    requires { IsWholeTree text.now tree.now }
    ensures { let conjuncts = (split resolving.functions scope.now tree.now).conjuncts in
        IfOk result (λ found. found ≡ option_map
        (λ es. record { values = es; tests = tests_of text.now conjuncts })
        (all_some (values_of text.now conjuncts))) }
{
    let none = Conjuncts {
        values: List::new(alloc),
        tests: List::new(alloc),
    };
    with_conjuncts(alloc, text, scope, tree, none)
}

// The conjuncts of a condition, behind those that stand already.
#[cycle(with_conjuncts)]
#[tactic(auto, using(crate::proofs::Splits::opening))]
fn with_conjuncts<'t>(
    alloc: Global,
    text: &[u8],
    scope: &Scope<'_>,
    tree: &'t Ast,
    before: Conjuncts<'t>,
) -> Result<Option<Conjuncts<'t>>, Memory>
    ensures { let conjuncts = (split resolving.functions scope.now tree.now).conjuncts in
        IfOk result (λ cs. IsWholeTree text.now tree.now
        → cs ≡ listed_behind before.entry text.now conjuncts) }
{
    match &tree.node {
        AstNode::And(all) => with_all_conjuncts(alloc, text, scope, all.as_slice(), before),
        AstNode::Paren(inner) => with_conjuncts(alloc, text, scope, inner.get(), before),
        _ => with_whole(alloc, text, scope, tree, before),
    }
}

#[cycle(with_conjuncts)]
fn with_all_conjuncts<'t>(
    alloc: Global,
    text: &[u8],
    scope: &Scope<'_>,
    trees: &'t [Ast],
    before: Conjuncts<'t>,
) -> Result<Option<Conjuncts<'t>>, Memory>
    ensures { IfOk result (λ cs. All (IsWholeTree text.now) trees.now
        → cs ≡ listed_behind before.entry text.now (conjuncts_in scope.now trees.now)) }
{
    let mut all = before;
    for tree in trees {
        match with_conjuncts(alloc, text, scope, tree, all)? {
            Some(more) => all = more,
            None => return Ok(None),
        }
    }
    Ok(Some(all))
}

// A condition that is one conjunct, behind those that stand already.
fn with_whole<'t>(
    alloc: Global,
    text: &[u8],
    scope: &Scope<'_>,
    tree: &'t Ast,
    before: Conjuncts<'t>,
) -> Result<Option<Conjuncts<'t>>, Memory>
    ensures { IfOk result (λ cs. IsWhole text.now (out-Ast tree.now).span
        → cs ≡ listed_behind before.entry text.now (whole_conjunct scope.now tree.now ∷ [])) }
{
    let Conjuncts { values, tests } = before;
    let name = source_text(alloc, text, tree.span)?;
    if let Some(test) = test_of(tree) {
        let tests = appended(tests, NamedTest { name, test })?;
        return Ok(Some(Conjuncts { values, tests }));
    }
    match resolve(alloc, CallForm::Functions, scope, tree)? {
        Some(expr) => {
            let expr = BoundExpr::new(alloc, expr)?;
            let values = appended(values, NamedExpr { name, expr })?;
            Ok(Some(Conjuncts { values, tests }))
        }
        None => Ok(None),
    }
}

fn appended<T: Drop>(before: List<T>, item: T) -> Result<List<T>, Memory>
    ensures { IfOk result (λ all. all ≡ before ++ item ∷ []) }
{
    let mut all = before;
    all.push(item)?;
    Ok(all)
}
