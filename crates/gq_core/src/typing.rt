//! The alternatives of a core: conjuncts that read its variables alone and cannot fault are tests,
//! and all others are late.
ghost use Rattle.std.specs.Prelude.{◌≡◌, filter, map, IfOk};
ghost use Rattle.gq_core.specs.steps.Staying.{below};
ghost use Rattle.gq_law_cuts.specs.Typing as typing;
ghost use Rattle.gq_law_cuts.specs.Typing.{is_early, others_from, stays_in};
ghost use Rattle.gq_plan.specs.Known.{is_bound};

use gq_alternatives::{Choice, kinds_for, typed};
use gq_base::{Catalog, List, Memory};
use gq_expr::{Kinds, can_fault};
use gq_plan::{NamedExpr, Read, Typed, Variable};
use gq_scopes::{Copying, Pattern, copy_named, next};
use std::alloc::Global;

/// The alternatives of a core of so many node variables, with the tests of its maps and the
/// conjuncts of the query. Their tests are copied out of what may still be copied; `Memory` where
/// that is too little.
pub fn core_typed(
    alloc: Global,
    copying: &mut Copying,
    catalog: &Catalog,
    pattern: &Pattern<'_>,
    count: u32,
    entries: &[NamedExpr],
    conjuncts: &[NamedExpr],
    choices: &[Choice],
) -> Result<List<Typed>, Memory>
    ensures { let stays = stays_in count in
        IfOk result (λ ys. ys
        ≡ map (typing.core_typed catalog.now pattern.now stays entries.now conjuncts.now)
        choices.now) }
{
    let staying = staying(alloc, copying, count, conjuncts)?;
    let conditions = Conditions {
        count,
        entries,
        conjuncts,
        staying: staying.as_slice(),
    };
    let mut all = List::new(alloc);
    for choice in choices {
        let alternative = one_typed(alloc, copying, catalog, pattern, &conditions, choice)?;
        all.push(alternative)?;
    }
    Ok(all)
}

// What the alternatives of a core test: the tests of maps, and of all conjuncts those that stay.
#[derive(Clone, Copy)]
struct Conditions<'c> {
    count: u32,
    entries: &'c [NamedExpr],
    conjuncts: &'c [NamedExpr],
    staying: &'c [NamedExpr],
}

#[tactic(auto, unfolding(gq_law_cuts::specs::Typing::core_typed, gq_alternatives::specs::Alternatives::typed_of))]
fn one_typed(
    alloc: Global,
    copying: &mut Copying,
    catalog: &Catalog,
    pattern: &Pattern<'_>,
    conditions: &Conditions<'_>,
    choice: &Choice,
) -> Result<Typed, Memory>
    requires { conditions.now.staying.now
        ≡ filter (stays_in conditions.now.count) conditions.now.conjuncts.now }
    ensures { let stays = stays_in conditions.now.count in
        let entries = conditions.now.entries.now in
        let conjuncts = conditions.now.conjuncts.now in
        IfOk result (λ y. y
        ≡ typing.core_typed catalog.now pattern.now stays entries conjuncts choice.now) }
{
    let entries = conditions.entries;
    let staying = conditions.staying;
    let mut typed = typed(alloc, copying, catalog, pattern, entries, staying, choice)?;
    let kinds = kinds_for(
        alloc,
        catalog,
        typed.nodes.as_slice(),
        typed.rels.as_slice(),
    )?;
    typed.late = others_of(alloc, conditions.count, &kinds, conditions.conjuncts)?;
    Ok(typed)
}

// The conjuncts that stay.
fn staying(
    alloc: Global,
    copying: &mut Copying,
    count: u32,
    conjuncts: &[NamedExpr],
) -> Result<List<NamedExpr>, Memory>
    ensures { IfOk result (λ es. es ≡ filter (stays_in count) conjuncts.now) }
{
    let mut copies = List::new(alloc);
    for conjunct in conjuncts {
        if stays(count, conjunct) {
            let copied = copy_named(alloc, copying, conjunct)?;
            copies.push(copied)?;
        }
    }
    Ok(copies)
}

// The numbers of the conjuncts that are no tests.
fn others_of(
    alloc: Global,
    count: u32,
    kinds: &Kinds,
    conjuncts: &[NamedExpr],
) -> Result<List<u32>, Memory>
    ensures { IfOk result (λ ns.
        ns ≡ others_from (is_early (stays_in count) kinds.now) 0 conjuncts.now) }
{
    let mut others = List::new(alloc);
    let mut number = 0;
    for conjunct in conjuncts {
        if !is_early(count, kinds, conjunct) {
            others.push(number)?;
        }
        number = next(number)?;
    }
    Ok(others)
}

fn is_early(count: u32, kinds: &Kinds, conjunct: &NamedExpr) -> bool
    ensures { result ≡ is_early (stays_in count) kinds.now conjunct.now }
{
    stays(count, conjunct) && !can_fault(conjunct.expr.get(), kinds)
}

// Whether a conjunct reads of the node variables the first ones alone, so many.
fn stays(count: u32, conjunct: &NamedExpr) -> bool
    ensures { result ≡ stays_in count conjunct.now }
{
    conjunct
        .expr
        .reads()
        .iter()
        .all(|read| is_below(count, read))
}

fn is_below(count: u32, read: &Read) -> bool
    ensures { result ≡ is_bound (below count) read.now.variable }
{
    match read.variable {
        Variable::Node(node) => node < count,
        Variable::Rel(_) => true,
    }
}
