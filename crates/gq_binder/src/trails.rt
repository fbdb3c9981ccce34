//! The bound form of a query with trails: its node variables are numbered anew, those of its core
//! first, and no trail has a variable.
ghost use Rattle.std.specs.Prelude.{◌≡◌, ◌∷◌, ◌++◌, [], filter_map, if◌then◌else◌, is_some, map};
ghost use Rattle.std.specs.Prelude.{IfOk, OnOk};
ghost use Rattle.gq_bound.specs.Columns as columns;
ghost use Rattle.gq_bound.specs.Columns.{column_expr, sort_expr, trail_name};
ghost use Rattle.gq_bound.specs.steps.Parts as steps;
ghost use Rattle.gq_bound.specs.steps.Parts.{alternatives_of_core, cored_in, cored_names};
ghost use Rattle.gq_bound.specs.steps.Parts.{exists_part, no_lists, renumbered_all};
ghost use Rattle.gq_bound.specs.steps.Parts.{renumbered_keys};
ghost use Rattle.gq_bound.specs.steps.Parts.{IsWholeCore};
ghost use Rattle.gq_core.specs.Entries.{entry_test};
ghost use Rattle.gq_law_reaches.specs.Core.{trail_parts};
ghost use Rattle.gq_scopes.specs.Renumbering.{placed_in};
ghost use Rattle.gq_scopes.specs.Scopes.{scope_of};

use crate::bound::{MOST_TESTS, push_keys};
use crate::last_checks::Alternatives;
use gq_alternatives::Choice;
use gq_ast::Query;
use gq_base::{Catalog, List, Memory, Text, TryClone};
use gq_bound::QueryParts;
use gq_core::{Core, core_typed, entry_tests, plain_rels, push_texts, text_at, trail_parts};
use gq_plan::{Bound, BoundExpr, ExistsPart, NamedExpr, SortExpr, TrailPart, Typed};
use gq_scopes::{
    Column, Copying, Numbering, Orders, Pattern, RelPattern, next, placed_in, renumber,
};
use std::alloc::Global;
use std::mem;

/// Puts what the parts of a query with trails and its core give into its bound form.
pub fn put_cored(
    alloc: Global,
    text: &[u8],
    catalog: &Catalog,
    query: &Query,
    core: &Core<'_>,
    parts: &QueryParts<'_>,
    all: &mut Alternatives,
    bound: &mut Bound,
) -> Result<(), Memory>
    requires whole { IsWholeCore text.now core.now }
    requires patterns { all.old.patterns
        ≡ filter_map (exists_part text.now catalog.now) parts.now.exists }
    requires fresh { bound.old ≡ no_lists query.now }
    ensures { OnOk result (bound.new
        ≡ cored_in text.now catalog.now query.now parts.now core.now all.old.choices) }
{
    let rels = plain_rels(alloc, parts.matched.rels())?;
    let orders = Orders {
        nodes: core.order.as_slice(),
        rels: rels.as_slice(),
    };
    put_names(alloc, text, query, orders, parts, core, bound)?;
    put_lists(alloc, text, catalog, orders, core, parts, all, bound)
}

// Puts names, trails and keys into a bound form.
fn put_names(
    alloc: Global,
    text: &[u8],
    query: &Query,
    orders: Orders<'_>,
    parts: &QueryParts<'_>,
    core: &Core<'_>,
    bound: &mut Bound,
) -> Result<(), Memory>
    requires whole { IsWholeCore text.now core.now }
    requires fresh { bound.old ≡ no_lists query.now }
    ensures { let nodes = orders.entry.nodes.now in
        let rels = orders.entry.rels.now in
        OnOk result (bound.new
        ≡ cored_names text.now nodes rels query.now parts.now core.now) }
{
    let whole = &core.whole.pattern;
    push_texts(alloc, whole.node_names(), &mut bound.node_names)?;
    push_texts(alloc, whole.rel_names(), &mut bound.rel_names)?;
    put_trails(alloc, text, core, &mut bound.trails)?;
    push_trail_names(alloc, &parts.matched, &mut bound.trail_names)?;
    push_renumbered_keys(alloc, orders, query, parts, &mut bound.keys)
}

fn put_trails(
    alloc: Global,
    text: &[u8],
    core: &Core<'_>,
    trails: &mut List<TrailPart>,
) -> Result<(), Memory>
    requires { IsWholeCore text.now core.now }
    ensures { OnOk result (trails.new ≡ trail_parts (entry_test text.now) core.now.whole) }
{
    *trails = trail_parts(alloc, text, core)?;
    Ok(())
}

// Appends columns, conjuncts, tests of paths and alternatives to those of a bound form.
fn put_lists(
    alloc: Global,
    text: &[u8],
    catalog: &Catalog,
    orders: Orders<'_>,
    core: &Core<'_>,
    parts: &QueryParts<'_>,
    all: &mut Alternatives,
    bound: &mut Bound,
) -> Result<(), Memory>
    requires whole { IsWholeCore text.now core.now }
    requires fresh { bound.old.conjuncts ≡ [] }
    ensures { let nodes = orders.entry.nodes.now in
        let numbered = renumbered_all nodes orders.entry.rels.now in
        let conjuncts = numbered parts.now.conjuncts in
        let cored = alternatives_of_core text.now catalog.now core.now conjuncts in
        OnOk result (bound.new ≡ record bound.old {
          columns = bound.old.columns ++ numbered (filter_map column_expr parts.now.columns);
          conjuncts = conjuncts;
          patterns = bound.old.patterns ++ map (steps.placed_part nodes) all.old.patterns;
          alternatives = cored all.old.choices;
        }) }
{
    push_renumbered(
        alloc,
        orders,
        parts.conjuncts.as_slice(),
        &mut bound.conjuncts,
    )?;
    push_renumbered_columns(alloc, orders, parts.columns.as_slice(), &mut bound.columns)?;
    push_placed(alloc, orders.nodes, &mut all.patterns, &mut bound.patterns)?;
    let conjuncts = bound.conjuncts.as_slice();
    let choices = all.choices.as_slice();
    put_alternatives(
        alloc,
        text,
        catalog,
        core,
        conjuncts,
        choices,
        &mut bound.alternatives,
    )
}

// Puts the alternatives of the core, with the tests of its maps, in the place of others.
fn put_alternatives(
    alloc: Global,
    text: &[u8],
    catalog: &Catalog,
    core: &Core<'_>,
    conjuncts: &[NamedExpr],
    choices: &[Choice],
    all: &mut List<Typed>,
) -> Result<(), Memory>
    requires { IsWholeCore text.now core.now }
    ensures { OnOk result (all.new
        ≡ alternatives_of_core text.now catalog.now core.now conjuncts.now choices.now) }
{
    let mut copying = Copying::of(MOST_TESTS);
    let pattern = &core.pattern;
    let entries = entry_tests(alloc, text, pattern.entries())?;
    let entries = entries.as_slice();
    let nodes = core.nodes;
    *all = core_typed(
        alloc,
        &mut copying,
        catalog,
        pattern,
        nodes,
        entries,
        conjuncts,
        choices,
    )?;
    Ok(())
}

// Appends expressions, numbered anew.
fn push_renumbered(
    alloc: Global,
    orders: Orders<'_>,
    exprs: &[NamedExpr],
    all: &mut List<NamedExpr>,
) -> Result<(), Memory>
    ensures { let numbered = renumbered_all orders.entry.nodes.now orders.entry.rels.now in
        OnOk result (all.new ≡ all.old ++ numbered exprs.now) }
{
    let mut copying = Copying::of(MOST_TESTS);
    let numbering = Numbering::Placed(orders);
    for named in exprs {
        let name = named.name.try_clone(alloc)?;
        let expr = renumber(alloc, &mut copying, numbering, named.expr.get())?;
        let expr = BoundExpr::new(alloc, expr)?;
        all.push(NamedExpr { name, expr })?;
    }
    Ok(())
}

// Appends columns with their expressions, of those that have one, numbered anew.
fn push_renumbered_columns(
    alloc: Global,
    orders: Orders<'_>,
    columns: &[Column],
    all: &mut List<NamedExpr>,
) -> Result<(), Memory>
    ensures { let numbered = renumbered_all orders.entry.nodes.now orders.entry.rels.now in
        OnOk result (all.new ≡ all.old ++ numbered (filter_map column_expr columns.now)) }
{
    let mut copying = Copying::of(MOST_TESTS);
    let numbering = Numbering::Placed(orders);
    for column in columns {
        let Some(expr) = &column.expr else {
            continue;
        };
        let name = column.name.try_clone(alloc)?;
        let expr = renumber(alloc, &mut copying, numbering, expr)?;
        let expr = BoundExpr::new(alloc, expr)?;
        all.push(NamedExpr { name, expr })?;
    }
    Ok(())
}

// Appends the keys of ORDER BY, numbered anew.
fn push_renumbered_keys(
    alloc: Global,
    orders: Orders<'_>,
    query: &Query,
    parts: &QueryParts<'_>,
    all: &mut List<SortExpr>,
) -> Result<(), Memory>
    ensures { let scope = record (scope_of parts.now.pattern) { columns = parts.now.columns } in
        let numbered = renumbered_keys orders.entry.nodes.now orders.entry.rels.now in
        OnOk result (all.new
        ≡ all.old ++ numbered (filter_map (sort_expr scope) query.now.order)) }
{
    let mut keys = List::new(alloc);
    push_keys(alloc, query, parts, &mut keys)?;
    push_numbered(alloc, orders, keys.as_slice(), all)
}

fn push_numbered(
    alloc: Global,
    orders: Orders<'_>,
    keys: &[SortExpr],
    all: &mut List<SortExpr>,
) -> Result<(), Memory>
    ensures { let numbered = renumbered_keys orders.entry.nodes.now orders.entry.rels.now in
        OnOk result (all.new ≡ all.old ++ numbered keys.now) }
{
    let mut copying = Copying::of(MOST_TESTS);
    let numbering = Numbering::Placed(orders);
    for key in keys {
        let expr = renumber(alloc, &mut copying, numbering, key.expr.get())?;
        all.push(SortExpr {
            expr: BoundExpr::new(alloc, expr)?,
            down: key.down,
        })?;
    }
    Ok(())
}

// Appends tests of paths, with the variables of the query numbered anew. The tests are taken.
fn push_placed(
    alloc: Global,
    order: &[u32],
    parts: &mut List<ExistsPart>,
    all: &mut List<ExistsPart>,
) -> Result<(), Memory>
    ensures { OnOk result (all.new
        ≡ all.old ++ map (steps.placed_part order.now) parts.old) }
{
    let taken = mem::replace(parts, List::new(alloc));
    for part in taken.into_vec() {
        push_part(alloc, order, part, all)?;
    }
    Ok(())
}

fn push_part(
    alloc: Global,
    order: &[u32],
    part: ExistsPart,
    all: &mut List<ExistsPart>,
) -> Result<(), Memory>
    ensures { OnOk result (all.new ≡ all.old ++ steps.placed_part order.now part ∷ []) }
{
    let mut part = part;
    place(alloc, order, &mut part.nodes)?;
    all.push(part)
}

// Numbers node variables anew.
fn place(alloc: Global, order: &[u32], nodes: &mut List<u32>) -> Result<(), Memory>
    ensures { OnOk result (nodes.new ≡ map (placed_in order.now) nodes.old) }
{
    let mut placed = List::new(alloc);
    for node in nodes.as_slice() {
        placed.push(placed_in(order, *node)?)?;
    }
    *nodes = placed;
    Ok(())
}

// Appends what the trails of patterns are called.
fn push_trail_names(
    alloc: Global,
    pattern: &Pattern<'_>,
    names: &mut List<Text>,
) -> Result<(), Memory>
    ensures { OnOk result (names.new ≡ names.old ++ columns.trail_names pattern.now) }
{
    let mut number = 0;
    for rel in pattern.rels() {
        push_trail_name(alloc, names, pattern.rel_names(), number, rel)?;
        number = next(number)?;
    }
    Ok(())
}

fn push_trail_name(
    alloc: Global,
    all: &mut List<Text>,
    names: &[Text],
    number: u32,
    rel: &RelPattern<'_>,
) -> Result<(), Memory>
    ensures { IfOk result (λ _. all.new ≡ all.old ++ trail_name names.now number rel.now) }
{
    if !is_trail(rel) {
        return Ok(());
    }
    all.push(text_at(alloc, names, number)?)
}

fn is_trail(rel: &RelPattern<'_>) -> bool
    ensures { result ≡ is_some rel.now.part.trail }
{
    rel.part.trail.is_some()
}
