//! Lists that are put into what is lent.
ghost use Rattle.std.specs.Prelude.{◌≡◌, ◌++◌, map, All, OnOk};
ghost use Rattle.gq_ast.specs.Spans.{IsWholeEntry};
ghost use Rattle.gq_core.specs.Entries.{entry_test};

use gq_base::{List, Memory};
use gq_core::entry_tests;
use gq_plan::NamedExpr;
use gq_scopes::Pattern;
use std::alloc::Global;

/// Appends expressions.
pub fn push_all(all: &mut List<NamedExpr>, more: List<NamedExpr>) -> Result<(), Memory>
    ensures { OnOk result (all.new ≡ all.old ++ more) }
{
    for expr in more.into_vec() {
        all.push(expr)?;
    }
    Ok(())
}

/// Puts the tests of the maps of patterns in the place of others.
pub fn put_entry_tests(
    alloc: Global,
    text: &[u8],
    pattern: &Pattern<'_>,
    tests: &mut List<NamedExpr>,
) -> Result<(), Memory>
    requires { All (λ e. IsWholeEntry text.now e.entry) pattern.now.entries }
    ensures { OnOk result (tests.new ≡ map (entry_test text.now) pattern.now.entries) }
{
    *tests = entry_tests(alloc, text, pattern.entries())?;
    Ok(())
}
