//! Tests of paths.
ghost use Rattle.std.specs.Prelude.{◌≡◌, Some, not};
ghost use Rattle.gq_resolve.specs.PathTests as tests;

use gq_ast::{Ast, AstNode, Path};
use gq_base::Text;
use std::marker::Model;

/// A test whether a path has a match, or whether it has none.
#[derive(Drop)]
pub struct PathTest<'t> {
    pub path: &'t Path,
    pub wanted: bool,
}

impl<'t> Model for PathTest<'t> {
    ghost use Rattle.gq_resolve.specs.PathTests.{PathTest};

    ghost Value = { PathTest };

    ghost view = { λ t. record { path = t.path.now; wanted = t.wanted } };
}

/// A test and what it is called.
#[derive(Drop)]
pub struct NamedTest<'t> {
    pub name: Text,
    pub test: PathTest<'t>,
}

impl<'t> Model for NamedTest<'t> {
    ghost use Rattle.gq_resolve.specs.Conjuncts.{NamedTest};

    ghost Value = { NamedTest };

    ghost view = { λ t. record { name = t.name; test = t.test } };
}

/// The test that a condition is: an EXISTS, alone or inside parentheses and NOTs alone.
#[cycle(test_of)]
#[tactic(auto, using(crate::proofs::Tests::test_out))]
pub(crate) fn test_of<'t>(tree: &'t Ast) -> Option<PathTest<'t>>
    ensures { result ≡ tests.test_of tree.now }
{
    match &tree.node {
        AstNode::Exists(path) => Some(PathTest { path, wanted: true }),
        AstNode::Paren(inner) => test_of(inner.get()),
        AstNode::Not(inner) => match test_of(inner.get()) {
            Some(test) => Some(PathTest {
                path: test.path,
                wanted: !test.wanted,
            }),
            None => None,
        },
        _ => None,
    }
}
