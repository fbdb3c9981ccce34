//! The parts of a query that its checks and its bound form share, each made once.
ghost use Rattle.std.specs.Prelude.{◌≡◌, ◌++◌, ◌∷◌, [], flat_map, map, All, IfSome};
ghost use Rattle.std.specs.Prelude.{OnOk, length};
ghost use Rattle.gq_bound.specs.Columns.{columns_in, conditions_from};
ghost use Rattle.gq_core.specs.Entries.{entry_test};
ghost use Rattle.gq_bound.specs.Columns.{optional_conditions, scoped_in, whole_pattern};
ghost use Rattle.gq_bound.specs.steps.Names.{with_clauses_names};
ghost use Rattle.gq_bound.specs.Names.{with_expression};
ghost use Rattle.gq_bound.specs.Names.{with_expressions};
ghost use Rattle.gq_bound.specs.steps.Parts.{clauses_parts, known_conjuncts, known_seen};
ghost use Rattle.gq_bound.specs.steps.Parts.{known_seen_in, known_tests_of, parts_of};
ghost use Rattle.gq_bound.specs.Fresh.{no_parts};
ghost use Rattle.gq_bound.specs.Refusals.{items_in, sorts_in};
ghost use Rattle.gq_bound.specs.Tested.{seen_elsewhere};
ghost use Rattle.gq_scopes.specs.Patterns.{no_pattern, pattern_of, with_clauses};
ghost use Rattle.gq_resolve.specs.Resolving.{functions};
ghost use Rattle.gq_scopes.specs.Scopes.{scope_of};
ghost use Rattle.gq_ast.specs.Spans.{IsWholeEntry, IsWholeTree};
ghost use Rattle.gq_ast.specs.steps.Spans.{IsWholeClause, StandsIn};

use crate::columns::push_columns;
use crate::lists::{push_all, put_entry_tests};
use crate::optionals::read_optionals;
use crate::path_tests::{push_in_items, push_in_sorts, push_strays_of, push_tests};
use gq_ast::{Ast, Clause, Query};
use gq_base::{List, Memory};
use gq_bound::{ClauseParts, FirstNames, QueryParts, SharedTest};
use gq_plan::NamedExpr;
use gq_resolve::{CallForm, conjuncts_of};
use gq_scopes::{Column, Pattern, Scope, next, number};
use std::alloc::Global;

/// Reads the parts of a query that stands in a text into parts that are lent, so that nothing of them
/// is owned where memory may end.
pub fn read_query<'q>(
    alloc: Global,
    text: &[u8],
    query: &'q Query,
    parts: &mut QueryParts<'q>,
) -> Result<(), Memory>
    requires whole { StandsIn text.now query.now }
    requires fresh { parts.old ≡ no_parts }
    ensures { OnOk result (parts.new ≡ parts_of text.now query.now) }
{
    let clauses = query.clauses.as_slice();
    read_clauses(
        alloc,
        text,
        clauses,
        &mut parts.matched,
        &mut parts.names,
        &mut parts.conjuncts,
        &mut parts.exists,
    )?;
    read_behind(
        alloc,
        text,
        query,
        &mut parts.pattern,
        &mut parts.names,
        &mut parts.exists,
        &mut parts.optionals,
    )?;
    read_lists(
        alloc,
        text,
        query,
        &parts.pattern,
        &parts.matched,
        &mut parts.names,
        &mut parts.exists,
        &mut parts.columns,
        &mut parts.tests,
    )?;
    Ok(())
}

// Reads the OPTIONAL MATCH clauses of a query, whose MATCH clauses were read, and the patterns of all its clauses.
fn read_behind<'q>(
    alloc: Global,
    text: &[u8],
    query: &'q Query,
    pattern: &mut Pattern<'q>,
    names: &mut FirstNames<'q>,
    exists: &mut List<SharedTest<'q>>,
    all: &mut List<ClauseParts<'q>>,
) -> Result<(), Memory>
    requires whole { All (IsWholeClause text.now) query.now.optionals }
    requires fresh { pattern.old ≡ no_pattern }
    ensures pattern { OnOk result (pattern.new ≡ whole_pattern query.now) }
    ensures names { OnOk result (names.new
        ≡ with_clauses_names (length query.now.clauses) query.now.optionals
        (pattern_of query.now.clauses) names.old) }
    ensures exists { OnOk result (exists.new
        ≡ exists.old ++ flat_map seen_elsewhere (optional_conditions query.now)) }
    ensures clauses { OnOk result (all.new ≡ all.old
        ++ clauses_parts text.now (length query.now.clauses) (pattern_of query.now.clauses)
        query.now.optionals) }
{
    push_clauses(alloc, query.clauses.as_slice(), pattern)?;
    let first = number(query.clauses.len())?;
    let optionals = query.optionals.as_slice();
    read_optionals(alloc, text, optionals, first, pattern, names, exists, all)
}

// Reads the patterns of MATCH clauses.
#[tactic(auto, unfolding(gq_scopes::specs::Patterns::pattern_of))]
fn push_clauses<'q>(
    alloc: Global,
    clauses: &'q [Clause],
    pattern: &mut Pattern<'q>,
) -> Result<(), Memory>
    requires { pattern.old ≡ no_pattern }
    ensures { OnOk result (pattern.new ≡ pattern_of clauses.now) }
{
    let mut number = 0;
    for clause in clauses {
        pattern.push_paths(alloc, number, clause.paths.as_slice())?;
        number = next(number)?;
    }
    Ok(())
}

// Reads the columns of a query with these patterns, the tests of the maps of its MATCH clauses, and the
// names and the EXISTS of its items and sort items.
fn read_lists<'q>(
    alloc: Global,
    text: &[u8],
    query: &'q Query,
    pattern: &Pattern<'_>,
    matched: &Pattern<'_>,
    names: &mut FirstNames<'q>,
    exists: &mut List<SharedTest<'q>>,
    columns: &mut List<Column>,
    tests: &mut List<NamedExpr>,
) -> Result<(), Memory>
    requires items { All (λ item. IsWholeTree text.now item.tree) query.now.items }
    requires entries { All (λ e. IsWholeEntry text.now e.entry) matched.now.entries }
    requires fresh { columns.old ≡ [] }
    ensures columns { OnOk result (columns.new
        ≡ columns_in functions text.now pattern.now query.now) }
    ensures tests { OnOk result (tests.new ≡ map (entry_test text.now) matched.now.entries) }
    ensures names { OnOk result (names.new
        ≡ with_expressions (with_expressions names.old
        (items_in (scope_of pattern.now) query.now.items))
        (sorts_in (record (scope_of pattern.now) {
          columns = columns_in functions text.now pattern.now query.now;
        }) query.now.order)) }
    ensures exists { OnOk result (exists.new ≡ exists.old ++ (
        flat_map seen_elsewhere (items_in (scope_of pattern.now) query.now.items)
        ++ flat_map seen_elsewhere (sorts_in (scope_of pattern.now) query.now.order))) }
{
    push_columns(alloc, CallForm::Functions, text, pattern, query, columns)?;
    put_entry_tests(alloc, text, matched, tests)?;
    read_items(alloc, query, pattern, names, exists)?;
    read_sorts(query, pattern, columns.as_slice(), names)
}

// Reads the names of items, and appends the EXISTS of items and sort items.
fn read_items<'q>(
    alloc: Global,
    query: &'q Query,
    pattern: &Pattern<'_>,
    names: &mut FirstNames<'q>,
    exists: &mut List<SharedTest<'q>>,
) -> Result<(), Memory>
    ensures names { OnOk result (names.new
        ≡ with_expressions names.old (items_in (scope_of pattern.now) query.now.items)) }
    ensures exists { OnOk result (exists.new ≡ exists.old ++ (
        flat_map seen_elsewhere (items_in (scope_of pattern.now) query.now.items)
        ++ flat_map seen_elsewhere (sorts_in (scope_of pattern.now) query.now.order))) }
{
    let scope = pattern.scope(&[])?;
    names.read_items(&scope, query.items.as_slice());
    push_elsewhere(alloc, query, &scope, exists)
}

// Appends the EXISTS of items and sort items.
fn push_elsewhere<'q>(
    alloc: Global,
    query: &'q Query,
    scope: &Scope<'_>,
    exists: &mut List<SharedTest<'q>>,
) -> Result<(), Memory>
    ensures { OnOk result (exists.new ≡ exists.old ++ (
        flat_map seen_elsewhere (items_in scope.now query.now.items)
        ++ flat_map seen_elsewhere (sorts_in scope.now query.now.order))) }
{
    push_in_items(alloc, scope, exists, query.items.as_slice())?;
    push_in_sorts(alloc, scope, exists, query.order.as_slice())
}

// Reads the names of sort items, which see the columns.
fn read_sorts<'q>(
    query: &'q Query,
    pattern: &Pattern<'_>,
    columns: &[Column],
    names: &mut FirstNames<'q>,
) -> Result<(), Memory>
    ensures { let scope = record (scope_of pattern.now) { columns = columns.now } in
        OnOk result (names.new ≡ with_expressions names.old (sorts_in scope query.now.order)) }
{
    let scope = pattern.scope(columns)?;
    names.read_sorts(&scope, query.order.as_slice());
    Ok(())
}

// Reads clauses behind those that were read. Each condition sees the variables of its clause and of
// earlier ones.
#[tactic(auto, using(gq_bound::proofs::PartLemmas::known_conjuncts_append, gq_bound::proofs::PartLemmas::known_seen_append))]
fn read_clauses<'q>(
    alloc: Global,
    text: &[u8],
    clauses: &'q [Clause],
    pattern: &mut Pattern<'q>,
    names: &mut FirstNames<'q>,
    conjuncts: &mut List<NamedExpr>,
    exists: &mut List<SharedTest<'q>>,
) -> Result<(), Memory>
    requires { All (IsWholeClause text.now) clauses.now }
    ensures pattern { OnOk result (pattern.new ≡ with_clauses 0 clauses.now pattern.old) }
    ensures names { OnOk result (names.new
        ≡ with_clauses_names 0 clauses.now pattern.old names.old) }
    ensures conjuncts { OnOk result (conjuncts.new ≡ conjuncts.old
        ++ known_conjuncts text.now (conditions_from 0 pattern.old clauses.now)) }
    ensures exists { OnOk result (exists.new ≡ exists.old
        ++ known_seen text.now (conditions_from 0 pattern.old clauses.now)) }
{
    let mut number = 0;
    for clause in clauses {
        names.push_paths(alloc, number, clause.paths.as_slice(), pattern)?;
        read_condition(
            alloc,
            text,
            pattern,
            &clause.filter,
            names,
            conjuncts,
            exists,
        )?;
        number = next(number)?;
    }
    Ok(())
}

// Reads the condition of a clause. One that stands for no expression has no conjuncts: a check
// refuses it.
fn read_condition<'q>(
    alloc: Global,
    text: &[u8],
    pattern: &Pattern<'_>,
    filter: &'q Option<Ast>,
    names: &mut FirstNames<'q>,
    conjuncts: &mut List<NamedExpr>,
    exists: &mut List<SharedTest<'q>>,
) -> Result<(), Memory>
    requires { IfSome filter.now (IsWholeTree text.now) }
    ensures names { OnOk result (names.new
        ≡ with_expressions names.old (scoped_in (scope_of pattern.now) filter.now)) }
    ensures conjuncts { OnOk result (conjuncts.new
        ≡ conjuncts.old ++ known_conjuncts text.now (scoped_in (scope_of pattern.now) filter.now)) }
    ensures exists { OnOk result (exists.new
        ≡ exists.old ++ known_seen text.now (scoped_in (scope_of pattern.now) filter.now)) }
{
    match filter {
        Some(tree) => {
            let scope = pattern.scope(&[])?;
            read_tree(alloc, text, &scope, tree, names, conjuncts, exists)
        }
        None => Ok(()),
    }
}

fn read_tree<'q>(
    alloc: Global,
    text: &[u8],
    scope: &Scope<'_>,
    tree: &'q Ast,
    names: &mut FirstNames<'q>,
    conjuncts: &mut List<NamedExpr>,
    exists: &mut List<SharedTest<'q>>,
) -> Result<(), Memory>
    requires { IsWholeTree text.now tree.now }
    ensures names { OnOk result (names.new
        ≡ with_expression names.old (record { scope = scope.now; tree = tree.now })) }
    ensures conjuncts { OnOk result (conjuncts.new ≡ conjuncts.old
        ++ known_conjuncts text.now (record { scope = scope.now; tree = tree.now } ∷ [])) }
    ensures exists { OnOk result (exists.new ≡ exists.old
        ++ known_seen_in text.now (record { scope = scope.now; tree = tree.now })) }
{
    names.read(scope, tree);
    read_conjuncts(alloc, text, scope, tree, conjuncts, exists)?;
    push_strays_of(alloc, scope, exists, tree)
}

// The conjuncts of a condition, if all of those of values stand for an expression.
fn read_conjuncts<'q>(
    alloc: Global,
    text: &[u8],
    scope: &Scope<'_>,
    tree: &'q Ast,
    conjuncts: &mut List<NamedExpr>,
    exists: &mut List<SharedTest<'q>>,
) -> Result<(), Memory>
    requires { IsWholeTree text.now tree.now }
    ensures conjuncts { OnOk result (conjuncts.new ≡ conjuncts.old
        ++ known_conjuncts text.now (record { scope = scope.now; tree = tree.now } ∷ [])) }
    ensures exists { OnOk result (exists.new ≡ exists.old
        ++ known_tests_of text.now (record { scope = scope.now; tree = tree.now })) }
{
    match conjuncts_of(alloc, text, scope, tree)? {
        Some(more) => {
            push_all(conjuncts, more.values)?;
            push_tests(alloc, scope, exists, more.tests)
        }
        None => Ok(()),
    }
}
