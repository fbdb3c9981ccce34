//! The EXISTS of a query, and the parts of its bound form that those give which are tests.
ghost use Rattle.std.specs.Prelude.{◌≡◌, ◌++◌, ◌∷◌, [], All, filter_map, flat_map, map, IfOk};
ghost use Rattle.std.specs.Prelude.{IfSome, OnOk, ◌+◌, length};
ghost use Rattle.gq_alternatives.specs.Alternatives.{pattern_alternatives, typed_of};
ghost use Rattle.gq_bound.specs.Refusals.{alternatives_in, over_limit, paths_of};
ghost use Rattle.gq_bound.specs.declared.refusal.BindRefusal.TheVariants as refusal;
ghost use Rattle.gq_bound.specs.Checks.{Checks};
ghost use Rattle.gq_bound.specs.steps.Parts as steps;
ghost use Rattle.gq_bound.specs.steps.Parts.{shared_in};
ghost use Rattle.gq_bound.specs.Refusals.{items_in, sorts_in};
ghost use Rattle.gq_bound.specs.Tested.{seen_elsewhere, stray_test};
ghost use Rattle.gq_core.specs.Entries.{entry_test};
ghost use Rattle.gq_scopes.specs.PathPatterns.{path_pattern};
ghost use Rattle.gq_ast.specs.Spans.{IsWholeEntry};
ghost use Rattle.gq_ast.specs.steps.Spans.{IsWholePath};
ghost use Rattle.gq_resolve.specs.Places.{strays};

use crate::bound::{MOST_TESTS, push_typed};
use gq_alternatives::Choice;
use gq_ast::{Ast, Item, Sort};
use gq_base::{Catalog, List, Literal, Memory, Text, TryClone};
use gq_bound::{BindRefusal, SharedTest};
use gq_choices::choices_of;
use gq_core::entry_tests;
use gq_expr::Expr;
use gq_plan::{BoundExpr, ExistsPart, NamedExpr, Typed};
use gq_resolve::{NamedTest, PathTest, push_paths, push_strays};
use gq_scopes::{Copying, Pattern, Scope, shared_variables};
use std::alloc::Global;

/// Appends tests, with the variables that their paths share with a scope.
pub fn push_tests<'q>(
    alloc: Global,
    scope: &Scope<'_>,
    all: &mut List<SharedTest<'q>>,
    more: List<NamedTest<'q>>,
) -> Result<(), Memory>
    ensures { OnOk result (all.new ≡ all.old ++ map (shared_in scope.now.nodes) more.entry) }
{
    for named in more.into_vec() {
        let NamedTest { name, test } = named;
        let nodes = shared_variables(alloc, scope, test.path)?;
        all.push(SharedTest::of(alloc, Some(name), test, nodes)?)?;
    }
    Ok(())
}

// Appends what is no test, with the variables that its paths share with a scope.
fn push_untested<'q>(
    alloc: Global,
    scope: &Scope<'_>,
    all: &mut List<SharedTest<'q>>,
    more: List<PathTest<'q>>,
) -> Result<(), Memory>
    ensures { OnOk result (all.new ≡ all.old ++ map (stray_test scope.now.nodes) more.entry) }
{
    for test in more.into_vec() {
        let nodes = shared_variables(alloc, scope, test.path)?;
        all.push(SharedTest::of(alloc, None, test, nodes)?)?;
    }
    Ok(())
}

/// Appends the EXISTS of a condition that are no whole conjuncts of it.
pub fn push_strays_of<'q>(
    alloc: Global,
    scope: &Scope<'_>,
    all: &mut List<SharedTest<'q>>,
    tree: &'q Ast,
) -> Result<(), Memory>
    ensures { OnOk result (all.new
        ≡ all.old ++ map (stray_test scope.now.nodes) (strays tree.now)) }
{
    let mut found = List::new(alloc);
    push_strays(tree, &mut found)?;
    push_untested(alloc, scope, all, found)
}

/// Appends the EXISTS of an expression that is no condition of a MATCH clause.
pub fn push_all_of<'q>(
    alloc: Global,
    scope: &Scope<'_>,
    all: &mut List<SharedTest<'q>>,
    tree: &'q Ast,
) -> Result<(), Memory>
    ensures { OnOk result (all.new ≡ all.old
        ++ seen_elsewhere (record { scope = scope.now; tree = tree.now })) }
{
    let mut found = List::new(alloc);
    push_paths(tree, &mut found)?;
    push_untested(alloc, scope, all, found)
}

/// Appends the EXISTS of items.
pub fn push_in_items<'q>(
    alloc: Global,
    scope: &Scope<'_>,
    all: &mut List<SharedTest<'q>>,
    items: &'q [Item],
) -> Result<(), Memory>
    ensures { OnOk result (all.new ≡ all.old
        ++ flat_map seen_elsewhere (items_in scope.now items.now)) }
{
    for item in items {
        push_all_of(alloc, scope, all, &item.tree)?;
    }
    Ok(())
}

/// Appends the EXISTS of sort items.
pub fn push_in_sorts<'q>(
    alloc: Global,
    scope: &Scope<'_>,
    all: &mut List<SharedTest<'q>>,
    order: &'q [Sort],
) -> Result<(), Memory>
    ensures { OnOk result (all.new ≡ all.old
        ++ flat_map seen_elsewhere (sorts_in scope.now order.now)) }
{
    for sort in order {
        push_all_of(alloc, scope, all, &sort.tree)?;
    }
    Ok(())
}

/// The parts of a bound query that tests give, unless the paths of all EXISTS have more alternatives
/// than so many.
pub fn exists_parts(
    alloc: Global,
    text: &[u8],
    catalog: &Catalog,
    tests: &[SharedTest<'_>],
    most: usize,
) -> Result<List<ExistsPart>, BindRefusal>
    requires { All (λ t. IfSome t.name (λ _. IsWholePath text.now t.test.path)) tests.now }
    ensures few { Checks (over_limit most (alternatives_in catalog.now (paths_of tests.now))
        refusal.TooManyAlternatives) result }
    ensures parts { IfOk result (λ parts. parts
        ≡ filter_map (steps.exists_part text.now catalog.now) tests.now) }
{
    let mut read = PathParts {
        left: most,
        copying: Copying::of(MOST_TESTS),
        parts: List::new(alloc),
    };
    for test in tests {
        read.push(alloc, text, catalog, test)?;
    }
    Ok(read.parts)
}

// The parts that EXISTS gave, how many alternatives the paths of the others may have, and how much these
// may copy.
#[derive(Drop)]
struct PathParts {
    left: usize,
    copying: Copying,
    parts: List<ExistsPart>,
}

impl PathParts {
    // Appends the part that one more EXISTS gives which is a test, unless its path has more alternatives
    // than are left; these are taken from what is left.
    fn push(
        &mut self,
        alloc: Global,
        text: &[u8],
        catalog: &Catalog,
        test: &SharedTest<'_>,
    ) -> Result<(), BindRefusal>
        requires { IfSome test.now.name (λ _. IsWholePath text.now test.now.test.path) }
        ensures few { Checks (over_limit self.old.left
            (length (pattern_alternatives catalog.now (path_pattern test.now.test.path)))
            refusal.TooManyAlternatives) result }
        ensures left { OnOk result (self.old.left
            ≡ length (pattern_alternatives catalog.now (path_pattern test.now.test.path))
            + self.new.left) }
        ensures parts { OnOk result (self.new.parts ≡ self.old.parts
            ++ filter_map (steps.exists_part text.now catalog.now) (test.now ∷ [])) }
    {
        self.push_path(alloc, text, catalog, test, test.pattern())
    }

    // The same, where this is the pattern of its path.
    fn push_path(
        &mut self,
        alloc: Global,
        text: &[u8],
        catalog: &Catalog,
        test: &SharedTest<'_>,
        pattern: &Pattern<'_>,
    ) -> Result<(), BindRefusal>
        requires entries { IfSome test.now.name
            (λ _. All (λ e. IsWholeEntry text.now e.entry) pattern.now.entries) }
        requires pattern { pattern.now ≡ path_pattern test.now.test.path }
        ensures few { Checks (over_limit self.old.left
            (length (pattern_alternatives catalog.now pattern.now))
            refusal.TooManyAlternatives) result }
        ensures left { OnOk result (self.old.left
            ≡ length (pattern_alternatives catalog.now pattern.now) + self.new.left) }
        ensures parts { OnOk result (self.new.parts ≡ self.old.parts
            ++ filter_map (steps.exists_part text.now catalog.now) (test.now ∷ [])) }
    {
        let Some(choices) = choices_of(alloc, catalog, pattern, self.left)? else {
            return Err(BindRefusal::TooManyAlternatives);
        };
        self.left -= choices.len();
        push_part(
            alloc,
            text,
            catalog,
            test,
            pattern,
            choices.as_slice(),
            &mut self.copying,
            &mut self.parts,
        )?;
        Ok(())
    }
}

// Appends the part that an EXISTS gives which is a test.
fn push_part(
    alloc: Global,
    text: &[u8],
    catalog: &Catalog,
    test: &SharedTest<'_>,
    pattern: &Pattern<'_>,
    choices: &[Choice],
    copying: &mut Copying,
    parts: &mut List<ExistsPart>,
) -> Result<(), Memory>
    requires entries { IfSome test.now.name
        (λ _. All (λ e. IsWholeEntry text.now e.entry) pattern.now.entries) }
    requires pattern { pattern.now ≡ path_pattern test.now.test.path }
    requires choices { choices.now ≡ pattern_alternatives catalog.now pattern.now }
    ensures { OnOk result (parts.new ≡ parts.old
        ++ filter_map (steps.exists_part text.now catalog.now) (test.now ∷ [])) }
{
    match &test.name {
        Some(name) => {
            let part = named_part(alloc, text, catalog, test, name, pattern, choices, copying)?;
            parts.push(part)
        }
        None => Ok(()),
    }
}

fn named_part(
    alloc: Global,
    text: &[u8],
    catalog: &Catalog,
    test: &SharedTest<'_>,
    name: &Text,
    pattern: &Pattern<'_>,
    choices: &[Choice],
    copying: &mut Copying,
) -> Result<ExistsPart, Memory>
    requires entries { All (λ e. IsWholeEntry text.now e.entry) pattern.now.entries }
    requires pattern { pattern.now ≡ path_pattern test.now.test.path }
    requires choices { choices.now ≡ pattern_alternatives catalog.now pattern.now }
    ensures { IfOk result (λ part.
        part ≡ steps.named_part text.now catalog.now test.now name.now) }
{
    let nodes = test.nodes.try_clone(alloc)?;
    let alternatives = path_alternatives(alloc, text, catalog, pattern, choices, copying)?;
    let name = name.try_clone(alloc)?;
    let expr = BoundExpr::new(alloc, Expr::Literal(Literal::Flag(true)))?;
    Ok(ExistsPart {
        text: NamedExpr { name, expr },
        wanted: test.test.wanted,
        nodes,
        alternatives,
    })
}

// The alternatives of a path, with the tests of its maps.
fn path_alternatives(
    alloc: Global,
    text: &[u8],
    catalog: &Catalog,
    pattern: &Pattern<'_>,
    choices: &[Choice],
    copying: &mut Copying,
) -> Result<List<Typed>, Memory>
    requires { All (λ e. IsWholeEntry text.now e.entry) pattern.now.entries }
    ensures { let entries = map (entry_test text.now) pattern.now.entries in
        IfOk result (λ ys. ys
        ≡ map (typed_of catalog.now pattern.now entries []) choices.now) }
{
    let entries = entry_tests(alloc, text, pattern.entries())?;
    let entries = entries.as_slice();
    let mut all = List::new(alloc);
    push_typed(
        alloc,
        copying,
        catalog,
        pattern,
        entries,
        &[],
        choices,
        &mut all,
    )?;
    Ok(all)
}
