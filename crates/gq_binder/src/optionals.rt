//! The OPTIONAL MATCH clauses of a query: what its checks and its bound form share of each, and the parts that they give.
ghost use Rattle.std.specs.Prelude.{◌≡◌, ◌++◌, ◌∷◌, ◌+◌, [], flat_map, map, length, unwrap_or, All};
ghost use Rattle.std.specs.Prelude.{IfOk};
ghost use Rattle.std.specs.Prelude.{IfSome, OnOk};
ghost use Rattle.std.specs.List.{range_with_len};
ghost use Rattle.gq_alternatives.specs.Alternatives.{pattern_alternatives};
ghost use Rattle.gq_bound.specs.Columns.{conditions_from, scoped_in};
ghost use Rattle.gq_bound.specs.Optionals as optionals;
ghost use Rattle.gq_bound.specs.Optionals.{next_behind, seats};
ghost use Rattle.gq_bound.specs.Refusals.{alternatives_of, over_limit};
ghost use Rattle.gq_bound.specs.Tested.{seen_elsewhere};
ghost use Rattle.gq_bound.specs.declared.refusal.BindRefusal.TheVariants as refusal;
ghost use Rattle.gq_bound.specs.Checks.{Checks};
ghost use Rattle.gq_bound.specs.steps.Names.{with_clause_names, with_clauses_names};
ghost use Rattle.gq_bound.specs.Names.{with_expression, with_expressions};
ghost use Rattle.gq_bound.specs.steps.Parts as steps;
ghost use Rattle.gq_bound.specs.steps.Parts.{clause_parts, clauses_parts, known_conjuncts};
ghost use Rattle.gq_bound.specs.steps.Parts.{own_patterns};
ghost use Rattle.gq_bound.specs.Fresh.{no_clause_parts};
ghost use Rattle.gq_scopes.specs.Patterns.{known_as, no_pattern, with_clauses, with_paths};
ghost use Rattle.gq_scopes.specs.Scopes.{scope_of};
ghost use Rattle.gq_ast.specs.Spans.{IsWholeEntry, IsWholeTree};
ghost use Rattle.gq_ast.specs.steps.Spans.{IsWholeClause};

use crate::bound::{MOST_TESTS, push_typed};
use crate::lists::{push_all, put_entry_tests};
use crate::path_tests::push_all_of;
use gq_alternatives::Choice;
use gq_ast::{Ast, Clause};
use gq_base::{Catalog, List, Memory, Text};
use gq_bound::{BindRefusal, ClauseParts, FirstNames, SharedTest};
use gq_choices::choices_of;
use gq_plan::{NamedExpr, OptionalPart};
use gq_resolve::conjuncts_of;
use gq_scopes::{Copying, Pattern, Scope, next, number};
use std::alloc::Global;
use std::mem;

/// Reads OPTIONAL MATCH clauses, numbered from the first one's number on, behind the clauses that
/// were read, and appends what is shared of each. Each condition sees the variables of its clause and
/// of earlier ones.
pub fn read_optionals<'q>(
    alloc: Global,
    text: &[u8],
    clauses: &'q [Clause],
    first: u32,
    pattern: &mut Pattern<'q>,
    names: &mut FirstNames<'q>,
    exists: &mut List<SharedTest<'q>>,
    all: &mut List<ClauseParts<'q>>,
) -> Result<(), Memory>
    requires { All (IsWholeClause text.now) clauses.now }
    ensures pattern { OnOk result (pattern.new ≡ with_clauses first clauses.now pattern.old) }
    ensures names { OnOk result (names.new
        ≡ with_clauses_names first clauses.now pattern.old names.old) }
    ensures exists { OnOk result (exists.new ≡ exists.old
        ++ flat_map seen_elsewhere (conditions_from first pattern.old clauses.now)) }
    ensures parts { OnOk result (all.new
        ≡ all.old ++ clauses_parts text.now first pattern.old clauses.now) }
{
    let mut number = first;
    for clause in clauses {
        push_optional(alloc, text, clause, number, pattern, names, exists, all)?;
        number = next(number)?;
    }
    Ok(())
}

fn push_optional<'q>(
    alloc: Global,
    text: &[u8],
    clause: &'q Clause,
    number: u32,
    pattern: &mut Pattern<'q>,
    names: &mut FirstNames<'q>,
    exists: &mut List<SharedTest<'q>>,
    all: &mut List<ClauseParts<'q>>,
) -> Result<(), Memory>
    requires { IsWholeClause text.now clause.now }
    ensures pattern { OnOk result (pattern.new ≡ with_paths number clause.now.paths pattern.old) }
    ensures names { OnOk result (names.new
        ≡ with_clause_names number clause.now pattern.old names.old) }
    ensures exists { let after = with_paths number clause.now.paths pattern.old in
        OnOk result (exists.new ≡ exists.old
        ++ flat_map seen_elsewhere (scoped_in (scope_of after) clause.now.filter)) }
    ensures parts { OnOk result (all.new
        ≡ all.old ++ clause_parts text.now number pattern.old clause.now ∷ []) }
{
    let mut parts = ClauseParts::new(alloc);
    read_optional(
        alloc, text, clause, number, pattern, names, exists, &mut parts,
    )?;
    all.push(parts)
}

// Reads one clause into parts that are lent, so that nothing of them is owned where memory may end.
fn read_optional<'q>(
    alloc: Global,
    text: &[u8],
    clause: &'q Clause,
    number: u32,
    pattern: &mut Pattern<'q>,
    names: &mut FirstNames<'q>,
    exists: &mut List<SharedTest<'q>>,
    parts: &mut ClauseParts<'q>,
) -> Result<(), Memory>
    requires whole { IsWholeClause text.now clause.now }
    requires fresh { parts.old ≡ no_clause_parts }
    ensures pattern { OnOk result (pattern.new ≡ with_paths number clause.now.paths pattern.old) }
    ensures names { OnOk result (names.new
        ≡ with_clause_names number clause.now pattern.old names.old) }
    ensures exists { let after = with_paths number clause.now.paths pattern.old in
        OnOk result (exists.new ≡ exists.old
        ++ flat_map seen_elsewhere (scoped_in (scope_of after) clause.now.filter)) }
    ensures parts { OnOk result (parts.new
        ≡ clause_parts text.now number pattern.old clause.now) }
{
    push_alone(alloc, text, clause, &mut parts.pattern)?;
    push_node_seats(pattern, &parts.pattern, &mut parts.nodes)?;
    push_rel_seats(pattern, &parts.pattern, &mut parts.rels)?;
    put_entry_tests(alloc, text, &parts.pattern, &mut parts.tests)?;
    names.push_paths(alloc, number, clause.paths.as_slice(), pattern)?;
    let conjuncts = &mut parts.conjuncts;
    read_filter(
        alloc,
        text,
        pattern,
        &clause.filter,
        names,
        exists,
        conjuncts,
    )
}

// Reads the patterns of a clause by itself.
#[tactic(auto, unfolding(gq_scopes::specs::Patterns::pattern_of))]
fn push_alone<'q>(
    alloc: Global,
    text: &[u8],
    clause: &'q Clause,
    own: &mut Pattern<'q>,
) -> Result<(), Memory>
    requires whole { IsWholeClause text.now clause.now }
    requires fresh { own.old ≡ no_pattern }
    ensures own { OnOk result (own.new ≡ optionals.alone clause.now) }
    ensures whole { OnOk result (All (λ e. IsWholeEntry text.now e.entry) own.new.entries) }
{
    own.push_paths(alloc, 0, clause.paths.as_slice())?;
    Ok(())
}

// Appends which variables the node variables of a clause are, behind these patterns.
fn push_node_seats(
    before: &Pattern<'_>,
    own: &Pattern<'_>,
    nodes: &mut List<u32>,
) -> Result<(), Memory>
    ensures { OnOk result (nodes.new ≡ nodes.old
        ++ seats before.now.names (length before.now.names) own.now.names) }
{
    let scope = before.scope(&[])?;
    push_seats(&scope, before.names().len(), own.names(), nodes)
}

// Appends the variables of names: those that a scope has are there, and the others are the next ones.
fn push_seats(
    scope: &Scope<'_>,
    first: usize,
    names: &[Option<Text>],
    all: &mut List<u32>,
) -> Result<(), Memory>
    ensures { OnOk result (all.new ≡ all.old ++ seats scope.now.nodes first names.now) }
{
    let mut free = number(first)?;
    for name in names {
        let standing = known_as(scope, name);
        all.push(seat(standing, free)?)?;
        free = free_behind(standing, free)?;
    }
    Ok(())
}

fn known_as(scope: &Scope<'_>, name: &Option<Text>) -> Option<usize>
    ensures { result ≡ known_as scope.now.nodes name.now }
{
    match name {
        None => None,
        Some(name) => scope.node(name),
    }
}

fn seat(standing: Option<usize>, free: u32) -> Result<u32, Memory>
    ensures { IfOk result (λ v. v ≡ unwrap_or standing free) }
{
    match standing {
        Some(at) => number(at),
        None => Ok(free),
    }
}

fn free_behind(standing: Option<usize>, free: u32) -> Result<u32, Memory>
    ensures { IfOk result (λ v. v ≡ next_behind standing free) }
{
    match standing {
        Some(_) => Ok(free),
        None => next(free),
    }
}

// Appends which variables the relationship variables of a clause are, behind these patterns.
fn push_rel_seats(
    before: &Pattern<'_>,
    own: &Pattern<'_>,
    rels: &mut List<u32>,
) -> Result<(), Memory>
    ensures { OnOk result (rels.new ≡ rels.old
        ++ range_with_len (length before.now.rels) (length own.now.rels)) }
{
    push_numbers(before.rels().len(), own.rels().len(), rels)
}

#[tactic(auto, using(gq_scopes::proofs::RangeLemmas::range_more))]
fn push_numbers(start: usize, count: usize, numbers: &mut List<u32>) -> Result<(), Memory>
    ensures { OnOk result (numbers.new ≡ numbers.old ++ range_with_len start count) }
{
    let mut at = number(start)?;
    for _ in 0..count {
        numbers.push(at)?;
        at = next(at)?;
    }
    Ok(())
}

// Reads the condition of a clause, and appends its conjuncts. One that stands for no expression has
// none: a check refuses it. An EXISTS in it is no test.
fn read_filter<'q>(
    alloc: Global,
    text: &[u8],
    pattern: &Pattern<'_>,
    filter: &'q Option<Ast>,
    names: &mut FirstNames<'q>,
    exists: &mut List<SharedTest<'q>>,
    conjuncts: &mut List<NamedExpr>,
) -> Result<(), Memory>
    requires { IfSome filter.now (IsWholeTree text.now) }
    ensures names { OnOk result (names.new
        ≡ with_expressions names.old (scoped_in (scope_of pattern.now) filter.now)) }
    ensures exists { OnOk result (exists.new ≡ exists.old
        ++ flat_map seen_elsewhere (scoped_in (scope_of pattern.now) filter.now)) }
    ensures conjuncts { OnOk result (conjuncts.new ≡ conjuncts.old
        ++ known_conjuncts text.now (scoped_in (scope_of pattern.now) filter.now)) }
{
    match filter {
        Some(tree) => {
            let scope = pattern.scope(&[])?;
            read_tree(alloc, text, &scope, tree, names, exists, conjuncts)
        }
        None => Ok(()),
    }
}

fn read_tree<'q>(
    alloc: Global,
    text: &[u8],
    scope: &Scope<'_>,
    tree: &'q Ast,
    names: &mut FirstNames<'q>,
    exists: &mut List<SharedTest<'q>>,
    conjuncts: &mut List<NamedExpr>,
) -> Result<(), Memory>
    requires { IsWholeTree text.now tree.now }
    ensures names { OnOk result (names.new
        ≡ with_expression names.old (record { scope = scope.now; tree = tree.now })) }
    ensures exists { OnOk result (exists.new ≡ exists.old
        ++ seen_elsewhere (record { scope = scope.now; tree = tree.now })) }
    ensures conjuncts { OnOk result (conjuncts.new ≡ conjuncts.old
        ++ known_conjuncts text.now (record { scope = scope.now; tree = tree.now } ∷ [])) }
{
    names.read(scope, tree);
    push_all_of(alloc, scope, exists, tree)?;
    push_values(alloc, text, scope, tree, conjuncts)
}

fn push_values(
    alloc: Global,
    text: &[u8],
    scope: &Scope<'_>,
    tree: &Ast,
    conjuncts: &mut List<NamedExpr>,
) -> Result<(), Memory>
    requires { IsWholeTree text.now tree.now }
    ensures { OnOk result (conjuncts.new ≡ conjuncts.old
        ++ known_conjuncts text.now (record { scope = scope.now; tree = tree.now } ∷ [])) }
{
    match conjuncts_of(alloc, text, scope, tree)? {
        Some(found) => push_all(conjuncts, found.values),
        None => Ok(()),
    }
}

/// The alternatives of each clause by itself, unless they are more than so many together; these are
/// taken from what is left.
pub fn clause_choices(
    alloc: Global,
    catalog: &Catalog,
    clauses: &[ClauseParts<'_>],
    left: &mut usize,
) -> Result<List<List<Choice>>, BindRefusal>
    ensures few { Checks (over_limit left.old
        (alternatives_of catalog.now (own_patterns clauses.now)) refusal.TooManyAlternatives)
        result }
    ensures left { OnOk result (left.old
        ≡ alternatives_of catalog.now (own_patterns clauses.now) + left.new) }
    ensures choices { IfOk result (λ all.
        all ≡ map (pattern_alternatives catalog.now) (own_patterns clauses.now)) }
{
    let mut all = List::new(alloc);
    for clause in clauses {
        let Some(choices) = choices_of(alloc, catalog, &clause.pattern, *left)? else {
            return Err(BindRefusal::TooManyAlternatives);
        };
        *left -= choices.len();
        all.push(choices)?;
    }
    Ok(all)
}

/// Appends the parts of a bound query that clauses give, with the alternatives of each. These copy
/// their tests out of one store. The lists of the clauses are taken from them.
pub fn push_parts(
    alloc: Global,
    catalog: &Catalog,
    clauses: &mut List<ClauseParts<'_>>,
    choices: &[List<Choice>],
    all: &mut List<OptionalPart>,
) -> Result<(), Memory>
    requires { choices.now ≡ map (pattern_alternatives catalog.now) (own_patterns clauses.old) }
    ensures { OnOk result (all.new
        ≡ all.old ++ map (steps.optional_part catalog.now) clauses.old) }
{
    let mut copying = Copying::of(MOST_TESTS);
    let mut at = 0;
    let mut taken = mem::replace(clauses, List::new(alloc)).into_vec();
    for clause in taken.iter_mut() {
        let own = choices[at].as_slice();
        push_part(alloc, &mut copying, catalog, clause, own, all)?;
        at += 1;
    }
    Ok(())
}

// Appends the part that a clause gives, whose lists are taken from it.
fn push_part(
    alloc: Global,
    copying: &mut Copying,
    catalog: &Catalog,
    clause: &mut ClauseParts<'_>,
    choices: &[Choice],
    all: &mut List<OptionalPart>,
) -> Result<(), Memory>
    requires { choices.now ≡ pattern_alternatives catalog.now clause.old.pattern }
    ensures { OnOk result (all.new
        ≡ all.old ++ steps.optional_part catalog.now clause.old ∷ []) }
{
    let mut alternatives = List::new(alloc);
    push_typed(
        alloc,
        copying,
        catalog,
        &clause.pattern,
        clause.tests.as_slice(),
        &[],
        choices,
        &mut alternatives,
    )?;
    all.push(OptionalPart {
        nodes: mem::replace(&mut clause.nodes, List::new(alloc)),
        rels: mem::replace(&mut clause.rels, List::new(alloc)),
        conjuncts: mem::replace(&mut clause.conjuncts, List::new(alloc)),
        alternatives,
    })
}
