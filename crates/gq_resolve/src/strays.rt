//! The paths of the EXISTS that stand in a condition elsewhere than as a whole conjunct.
ghost use Rattle.std.specs.Prelude.{◌≡◌, ◌++◌, flat_map, OnOk};
ghost use Rattle.gq_resolve.specs.Places as places;
ghost use Rattle.gq_resolve.specs.Places.{untested};

use crate::exists::push_paths;
use crate::path_tests::{PathTest, test_of};
use gq_ast::{Ast, AstNode};
use gq_base::{List, Memory};

/// Appends the path of each EXISTS that stands in a condition elsewhere than as a whole conjunct,
/// alone or inside parentheses and NOTs alone.
#[cycle(push_strays)]
#[tactic(auto, using(crate::proofs::ExistsPaths::straying))]
pub fn push_strays<'t>(tree: &'t Ast, paths: &mut List<PathTest<'t>>) -> Result<(), Memory>
    ensures { OnOk result (paths.new ≡ paths.old ++ places.strays tree.now) }
{
    match &tree.node {
        AstNode::And(all) => push_all_strays(all.as_slice(), paths),
        AstNode::Paren(inner) => push_strays(inner.get(), paths),
        _ => push_untested(tree, paths),
    }
}

// The paths of a condition that is one conjunct, unless it is a test.
fn push_untested<'t>(tree: &'t Ast, paths: &mut List<PathTest<'t>>) -> Result<(), Memory>
    ensures { OnOk result (paths.new ≡ paths.old ++ untested tree.now) }
{
    if test_of(tree).is_some() {
        return Ok(());
    }
    push_paths(tree, paths)
}

#[cycle(push_strays)]
fn push_all_strays<'t>(trees: &'t [Ast], paths: &mut List<PathTest<'t>>) -> Result<(), Memory>
    ensures { OnOk result (paths.new ≡ paths.old ++ flat_map places.strays trees.now) }
{
    for tree in trees {
        push_strays(tree, paths)?;
    }
    Ok(())
}
