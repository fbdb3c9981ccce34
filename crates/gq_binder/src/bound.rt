//! The bound form of a query, or why it has none.
ghost use Rattle.std.specs.Prelude.{◌≡◌, ◌++◌, None, [], map, filter_map, IfOk, IfSome, OnOk};
ghost use Rattle.gq_alternatives.specs.Alternatives.{pattern_alternatives, typed_of};
ghost use Rattle.gq_binder.specs.Parted.{PartMatches};
ghost use Rattle.gq_bound.specs.Binding.{Answers};
ghost use Rattle.gq_bound.specs.Columns.{column_expr, sort_expr};
ghost use Rattle.gq_bound.specs.Refusals.{first_of_all};
ghost use Rattle.gq_bound.specs.steps.Parts.{bound_by, bound_in, checks_in, exists_part, no_lists};
ghost use Rattle.gq_bound.specs.steps.Parts.{optional_part, own_patterns, parts_of};
ghost use Rattle.gq_bound.specs.Fresh.{no_parts};
ghost use Rattle.gq_bound.specs.steps.Parts.{IsWholeCore};
ghost use Rattle.gq_core.specs.Cored.{HasCore};
ghost use Rattle.gq_scopes.specs.Scopes.{scope_of};
ghost use Rattle.gq_syntax.specs.Spans.{SpelledQuery};

use crate::checks::check;
use crate::columns::push_known;
use crate::last_checks::{Alternatives, check_last};
use crate::optionals::push_parts;
use crate::parts::read_query;
use crate::trails::put_cored;
use gq_alternatives::{Choice, typed};
use gq_ast::{Query, Sort};
use gq_base::{Catalog, List, Memory};
use gq_bound::{BindRefusal, QueryParts};
use gq_core::{Core, core_of, push_texts};
use gq_plan::{Bound, BoundExpr, NamedExpr, SortExpr, Typed};
use gq_resolve::{CallForm, resolve_part};
use gq_scopes::{Copying, Pattern, Scope};
use std::alloc::Global;
use std::mem;

/// Binds a query, which a text spells, over a catalogue. The answer is the bound query, whose
/// alternatives are sound for the catalogue, or the first refusal that applies, or want of memory.
/// In each valid graph the alternatives part the matches of the MATCH clauses, with trails those of
/// their core.
pub fn bind(
    alloc: Global,
    query: &Query,
    text: &[u8],
    catalog: &Catalog,
) -> Result<Bound, BindRefusal>
    requires { SpelledQuery text.now query.now }
    ensures answers { Answers query.now text.now catalog.now result }
    ensures parted { IfOk result (PartMatches query.now catalog.now) }
{
    let mut parts = QueryParts::new(alloc);
    bind_parts(alloc, text, catalog, query, &mut parts)
}

// The same, by parts that are lent, so that nothing of them is owned where binding may stop.
fn bind_parts<'q>(
    alloc: Global,
    text: &[u8],
    catalog: &Catalog,
    query: &'q Query,
    parts: &mut QueryParts<'q>,
) -> Result<Bound, BindRefusal>
    requires spelled { SpelledQuery text.now query.now }
    requires fresh { parts.old ≡ no_parts }
    ensures { Answers query.now text.now catalog.now result }
{
    read_query(alloc, text, query, parts)?;
    check(alloc, text, query, parts)?;
    let core = core_of(alloc, query.clauses.as_slice())?;
    bind_cored(alloc, text, catalog, query, &core, parts)
}

// The same, where the first checks passed and this is the core of the query, where it has trails.
fn bind_cored(
    alloc: Global,
    text: &[u8],
    catalog: &Catalog,
    query: &Query,
    core: &Option<Core<'_>>,
    parts: &mut QueryParts<'_>,
) -> Result<Bound, BindRefusal>
    requires spelled { SpelledQuery text.now query.now }
    requires parts { parts.old ≡ parts_of text.now query.now }
    requires passed { first_of_all (checks_in text.now query.now parts.old) ≡ None }
    requires core { HasCore query.now.clauses core.now }
    ensures { Answers query.now text.now catalog.now result }
{
    let mut all = check_last(alloc, text, catalog, query, parts, core)?;
    Ok(bound_by(alloc, text, catalog, query, core, parts, &mut all)?)
}

// The bound form that the parts of a query and its core give, where it has trails.
fn bound_by(
    alloc: Global,
    text: &[u8],
    catalog: &Catalog,
    query: &Query,
    core: &Option<Core<'_>>,
    parts: &mut QueryParts<'_>,
    all: &mut Alternatives,
) -> Result<Bound, Memory>
    requires whole { IfSome core.now (IsWholeCore text.now) }
    requires patterns { all.old.patterns
        ≡ filter_map (exists_part text.now catalog.now) parts.old.exists }
    requires optionals { all.old.optionals
        ≡ map (pattern_alternatives catalog.now) (own_patterns parts.old.optionals) }
    ensures { IfOk result (λ b.
        b ≡ bound_by text.now catalog.now query.now parts.old core.now all.old.choices) }
{
    let mut bound = no_lists(alloc, query);
    put_parts(alloc, text, catalog, query, core, parts, all, &mut bound)?;
    Ok(bound)
}

// The bound form of a query before its lists.
fn no_lists(alloc: Global, query: &Query) -> Bound
    ensures { result ≡ no_lists query.now }
{
    Bound {
        node_names: List::new(alloc),
        rel_names: List::new(alloc),
        columns: List::new(alloc),
        conjuncts: List::new(alloc),
        patterns: List::new(alloc),
        optionals: List::new(alloc),
        trails: List::new(alloc),
        trail_names: List::new(alloc),
        keys: List::new(alloc),
        distinct: query.distinct,
        skip: query.skip.unwrap_or(0),
        limit: query.limit,
        alternatives: List::new(alloc),
    }
}

// Puts what the parts of a query and its core give into its bound form.
fn put_parts(
    alloc: Global,
    text: &[u8],
    catalog: &Catalog,
    query: &Query,
    core: &Option<Core<'_>>,
    parts: &mut QueryParts<'_>,
    all: &mut Alternatives,
    bound: &mut Bound,
) -> Result<(), Memory>
    requires whole { IfSome core.now (IsWholeCore text.now) }
    requires patterns { all.old.patterns
        ≡ filter_map (exists_part text.now catalog.now) parts.old.exists }
    requires optionals { all.old.optionals
        ≡ map (pattern_alternatives catalog.now) (own_patterns parts.old.optionals) }
    requires fresh { bound.old ≡ no_lists query.now }
    ensures { OnOk result (bound.new
        ≡ bound_by text.now catalog.now query.now parts.old core.now all.old.choices) }
{
    match core {
        None => put_plain(alloc, text, catalog, query, parts, all, bound),
        Some(core) => put_cored(alloc, text, catalog, query, core, parts, all, bound),
    }
}

// The same of a query without trails, with what stands for an expression: where no check refuses the
// query, all does.
fn put_plain(
    alloc: Global,
    text: &[u8],
    catalog: &Catalog,
    query: &Query,
    parts: &mut QueryParts<'_>,
    all: &mut Alternatives,
    bound: &mut Bound,
) -> Result<(), Memory>
    requires patterns { all.old.patterns
        ≡ filter_map (exists_part text.now catalog.now) parts.old.exists }
    requires optionals { all.old.optionals
        ≡ map (pattern_alternatives catalog.now) (own_patterns parts.old.optionals) }
    requires fresh { bound.old ≡ no_lists query.now }
    ensures { OnOk result (bound.new
        ≡ bound_in text.now catalog.now query.now parts.old all.old.choices) }
{
    push_made(alloc, catalog, query, parts, all.choices.as_slice(), bound)?;
    take_lists(alloc, catalog, parts, all, bound)
}

// Appends names, keys and alternatives.
fn push_made(
    alloc: Global,
    catalog: &Catalog,
    query: &Query,
    parts: &QueryParts<'_>,
    choices: &[Choice],
    bound: &mut Bound,
) -> Result<(), Memory>
    ensures { let scope = record (scope_of parts.now.pattern) { columns = parts.now.columns } in
        let typed = typed_of catalog.now parts.now.matched parts.now.tests parts.now.conjuncts in
        OnOk result (bound.new ≡ record bound.old {
          node_names = bound.old.node_names ++ parts.now.pattern.node_names;
          rel_names = bound.old.rel_names ++ parts.now.pattern.rel_names;
          keys = bound.old.keys ++ filter_map (sort_expr scope) query.now.order;
          alternatives = bound.old.alternatives ++ map typed choices.now;
        }) }
{
    push_texts(alloc, parts.pattern.node_names(), &mut bound.node_names)?;
    push_texts(alloc, parts.pattern.rel_names(), &mut bound.rel_names)?;
    push_keys(alloc, query, parts, &mut bound.keys)?;
    push_alternatives(alloc, catalog, parts, choices, &mut bound.alternatives)
}

// Takes the tests of paths and the conjuncts, and appends the columns and the OPTIONAL MATCH clauses.
fn take_lists(
    alloc: Global,
    catalog: &Catalog,
    parts: &mut QueryParts<'_>,
    all: &mut Alternatives,
    bound: &mut Bound,
) -> Result<(), Memory>
    requires { all.old.optionals
        ≡ map (pattern_alternatives catalog.now) (own_patterns parts.old.optionals) }
    ensures { OnOk result (bound.new ≡ record bound.old {
      columns = bound.old.columns ++ filter_map column_expr parts.old.columns;
      conjuncts = parts.old.conjuncts;
      patterns = all.old.patterns;
      optionals = bound.old.optionals ++ map (optional_part catalog.now) parts.old.optionals;
    }) }
{
    mem::swap(&mut bound.conjuncts, &mut parts.conjuncts);
    mem::swap(&mut bound.patterns, &mut all.patterns);
    let choices = all.optionals.as_slice();
    push_parts(
        alloc,
        catalog,
        &mut parts.optionals,
        choices,
        &mut bound.optionals,
    )?;
    push_known(alloc, &mut parts.columns, &mut bound.columns)
}

/// Appends the keys of ORDER BY, of those that stand for an expression.
pub fn push_keys(
    alloc: Global,
    query: &Query,
    parts: &QueryParts<'_>,
    keys: &mut List<SortExpr>,
) -> Result<(), Memory>
    ensures { let scope = record (scope_of parts.now.pattern) { columns = parts.now.columns } in
        OnOk result (keys.new ≡ keys.old ++ filter_map (sort_expr scope) query.now.order) }
{
    let scope = parts.pattern.scope(parts.columns.as_slice())?;
    push_known_keys(alloc, &scope, query.order.as_slice(), keys)
}

fn push_known_keys(
    alloc: Global,
    scope: &Scope<'_>,
    order: &[Sort],
    keys: &mut List<SortExpr>,
) -> Result<(), Memory>
    ensures { OnOk result (keys.new ≡ keys.old ++ filter_map (sort_expr scope.now) order.now) }
{
    let mut copying = Copying::new();
    for sort in order {
        let known = resolve_part(alloc, &mut copying, CallForm::Functions, scope, &sort.tree)?;
        let Some(expr) = known else {
            continue;
        };
        keys.push(SortExpr {
            expr: BoundExpr::new(alloc, expr)?,
            down: sort.down,
        })?;
    }
    Ok(())
}

// Each alternative has its own copies of its tests: so many parts of expressions and bytes of texts in them, for all
// alternatives of the MATCH clauses together, of all optional clauses, and of the paths of all EXISTS. With 512 alternatives
// it is 2,048 for each.
pub const MOST_TESTS: usize = 1_048_576;

// Appends the typed forms of choices for the patterns of MATCH clauses, with the tests of their maps and the conjuncts.
fn push_alternatives(
    alloc: Global,
    catalog: &Catalog,
    parts: &QueryParts<'_>,
    choices: &[Choice],
    all: &mut List<Typed>,
) -> Result<(), Memory>
    ensures { let matched = parts.now.matched in
        let typed = typed_of catalog.now matched parts.now.tests parts.now.conjuncts in
        OnOk result (all.new ≡ all.old ++ map typed choices.now) }
{
    let mut copying = Copying::of(MOST_TESTS);
    let tests = parts.tests.as_slice();
    let conjuncts = parts.conjuncts.as_slice();
    push_typed(
        alloc,
        &mut copying,
        catalog,
        &parts.matched,
        tests,
        conjuncts,
        choices,
        all,
    )
}

/// Appends the typed forms of choices for these patterns, with these tests of maps and these conjuncts, out of what
/// may still be copied.
pub fn push_typed(
    alloc: Global,
    copying: &mut Copying,
    catalog: &Catalog,
    pattern: &Pattern<'_>,
    entries: &[NamedExpr],
    conjuncts: &[NamedExpr],
    choices: &[Choice],
    all: &mut List<Typed>,
) -> Result<(), Memory>
    ensures { let typed = typed_of catalog.now pattern.now entries.now conjuncts.now in
        OnOk result (all.new ≡ all.old ++ map typed choices.now) }
{
    for choice in choices {
        let alternative = typed(alloc, copying, catalog, pattern, entries, conjuncts, choice)?;
        all.push(alternative)?;
    }
    Ok(())
}
