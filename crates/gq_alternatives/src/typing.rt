//! Typed alternatives: a choice with its tests, its late conjuncts and its pairs.
ghost use Rattle.std.specs.Prelude.{◌≡◌, ◌++◌, suc, filter, not, IfOk};
ghost use Rattle.gq_expr.specs.Kinds.{can_fault};
ghost use Rattle.gq_alternatives.specs.Alternatives as alternatives;
ghost use Rattle.gq_alternatives.specs.Alternatives.{typed_of, late_from};
ghost use Rattle.gq_alternatives.specs.Matches.{pairs_from, pairs_with};

use crate::choice::{Choice, Reading};
use crate::kinds::kinds_for;
use gq_ast::Arrow;
use gq_base::{Catalog, List, Memory, TryClone, copy_all};
use gq_expr::{Kinds, can_fault};
use gq_plan::{NamedExpr, RelPair, Typed, TypedRel};
use gq_scopes::{Copying, Pattern, RelPattern, copy_named, next};
use std::alloc::Global;

/// An alternative of patterns with its tests, late conjuncts and pairs: the entries of the
/// patterns' maps and the conjuncts that cannot fault are its tests, the other conjuncts are late.
/// Its tests are copied out of what may still be copied; `Memory` where that is too little.
#[tactic(auto, unfolding(crate::specs::Alternatives::typed_of))]
pub fn typed(
    alloc: Global,
    copying: &mut Copying,
    catalog: &Catalog,
    pattern: &Pattern<'_>,
    entries: &[NamedExpr],
    conjuncts: &[NamedExpr],
    choice: &Choice,
) -> Result<Typed, Memory>
    ensures { IfOk result (λ y.
        y ≡ typed_of catalog.now pattern.now entries.now conjuncts.now choice.now) }
{
    let rels = typed_rels(alloc, pattern.rels(), choice.readings.as_slice())?;
    let kinds = kinds_for(alloc, catalog, choice.tables.as_slice(), rels.as_slice())?;
    let conditions = conditions_of(alloc, copying, &kinds, entries, conjuncts)?;
    typed_with(alloc, pattern, choice, rels, conditions)
}

// The tests of an alternative, and the numbers of its late conjuncts.
#[derive(Drop)]
struct Conditions {
    tests: List<NamedExpr>,
    late: List<u32>,
}

fn conditions_of(
    alloc: Global,
    copying: &mut Copying,
    kinds: &Kinds,
    entries: &[NamedExpr],
    conjuncts: &[NamedExpr],
) -> Result<Conditions, Memory>
    ensures tests { IfOk result (λ c. c.tests
        ≡ entries.now ++ filter (λ e. not (can_fault kinds.now e.expr)) conjuncts.now) }
    ensures late { IfOk result (λ c. c.late ≡ late_from kinds.now 0 conjuncts.now) }
{
    let late = late_of(alloc, kinds, conjuncts)?;
    let tests = tests_of(alloc, copying, kinds, entries, conjuncts)?;
    Ok(Conditions { tests, late })
}

fn typed_with(
    alloc: Global,
    pattern: &Pattern<'_>,
    choice: &Choice,
    rels: List<TypedRel>,
    conditions: Conditions,
) -> Result<Typed, Memory>
    ensures { let readings = choice.now.readings in
        IfOk result (λ y. y ≡ record {
          nodes = choice.now.tables;
          rels = rels;
          paths = pattern.now.paths;
          tests = conditions.tests;
          late = conditions.late;
          pairs = filter (alternatives.one_table readings) (pairs_from 0 pattern.now.rels);
        }) }
{
    let nodes = choice.tables.try_clone(alloc)?;
    let paths = copy_all(alloc, pattern.paths())?;
    let pairs = pairs_of(alloc, pattern.rels(), choice.readings.as_slice())?;
    let Conditions { tests, late } = conditions;
    Ok(Typed {
        nodes,
        rels,
        paths,
        tests,
        late,
        pairs,
    })
}

fn typed_rel(pattern: &RelPattern<'_>, reading: Reading) -> TypedRel
    ensures { result ≡ alternatives.typed_rel pattern.now reading }
{
    TypedRel {
        table: reading.table,
        source: source_of(pattern, reading),
        target: target_of(pattern, reading),
        clause: pattern.clause,
        reversed: reading.reversed,
        no_loop: reading.reversed && is_either(pattern.part.arrow),
    }
}

/// The node variable at the source of a pattern's relationship.
pub fn source_of(pattern: &RelPattern<'_>, reading: Reading) -> u32
    ensures { result ≡ alternatives.source_of pattern.now reading }
{
    if reading.reversed {
        pattern.right
    } else {
        pattern.left
    }
}

/// The node variable at the target of a pattern's relationship.
pub fn target_of(pattern: &RelPattern<'_>, reading: Reading) -> u32
    ensures { result ≡ alternatives.target_of pattern.now reading }
{
    if reading.reversed {
        pattern.left
    } else {
        pattern.right
    }
}

fn is_either(arrow: Arrow) -> bool
    ensures { result ≡ alternatives.is_either arrow }
{
    match arrow {
        Arrow::Right => false,
        Arrow::Left => false,
        Arrow::Either => true,
    }
}

fn typed_rels(
    alloc: Global,
    patterns: &[RelPattern<'_>],
    readings: &[Reading],
) -> Result<List<TypedRel>, Memory>
    ensures { IfOk result (λ rs. rs ≡ alternatives.typed_rels patterns.now readings.now) }
{
    let mut rels = List::new(alloc);
    for (pattern, reading) in patterns.iter().zip(readings) {
        rels.push(typed_rel(pattern, *reading))?;
    }
    Ok(rels)
}

fn copy_all_named(
    alloc: Global,
    copying: &mut Copying,
    all: &[NamedExpr],
) -> Result<List<NamedExpr>, Memory>
    ensures { IfOk result (λ ns. ns ≡ all.now) }
{
    let mut copies = List::new(alloc);
    for named in all {
        let copied = copy_named(alloc, copying, named)?;
        copies.push(copied)?;
    }
    Ok(copies)
}

// The map entries, and then the conjuncts that cannot fault.
fn tests_of(
    alloc: Global,
    copying: &mut Copying,
    kinds: &Kinds,
    entries: &[NamedExpr],
    conjuncts: &[NamedExpr],
) -> Result<List<NamedExpr>, Memory>
    ensures { IfOk result (λ ts.
        ts ≡ entries.now ++ filter (λ e. not (can_fault kinds.now e.expr)) conjuncts.now) }
{
    let mut tests = copy_all_named(alloc, copying, entries)?;
    for conjunct in conjuncts {
        if !can_fault(conjunct.expr.get(), kinds) {
            let copied = copy_named(alloc, copying, conjunct)?;
            tests.push(copied)?;
        }
    }
    Ok(tests)
}

// The numbers of the conjuncts that may fault.
fn late_of(alloc: Global, kinds: &Kinds, conjuncts: &[NamedExpr]) -> Result<List<u32>, Memory>
    ensures { IfOk result (λ ns. ns ≡ late_from kinds.now 0 conjuncts.now) }
{
    let mut late = List::new(alloc);
    let mut number = 0;
    for conjunct in conjuncts {
        if can_fault(conjunct.expr.get(), kinds) {
            late.push(number)?;
        }
        number = next(number)?;
    }
    Ok(late)
}

// The pairs of relationships of one clause and one table.
fn pairs_of(
    alloc: Global,
    patterns: &[RelPattern<'_>],
    readings: &[Reading],
) -> Result<List<RelPair>, Memory>
    ensures { IfOk result (λ ps.
        ps ≡ filter (alternatives.one_table readings.now) (pairs_from 0 patterns.now)) }
{
    let mut pairs = List::new(alloc);
    let mut first = 0;
    for (at, pattern) in patterns.iter().enumerate() {
        push_pairs(
            &mut pairs,
            readings,
            pattern.clause,
            first,
            &patterns[at + 1..],
        )?;
        first = next(first)?;
    }
    Ok(pairs)
}

// The pairs of a relationship with those that follow it.
fn push_pairs(
    pairs: &mut List<RelPair>,
    readings: &[Reading],
    clause: u32,
    first: u32,
    rest: &[RelPattern<'_>],
) -> Result<(), Memory>
    ensures { IfOk result (λ _. pairs.new ≡ pairs.old
        ++ filter (alternatives.one_table readings.now)
        (pairs_with clause first (suc first) rest.now)) }
{
    let mut second = next(first)?;
    for pattern in rest {
        let pair = RelPair { first, second };
        if pattern.clause == clause && is_one_table(readings, pair) {
            pairs.push(pair)?;
        }
        second = next(second)?;
    }
    Ok(())
}

fn is_one_table(readings: &[Reading], pair: RelPair) -> bool
    ensures { result ≡ alternatives.one_table readings.now pair }
{
    match (
        readings.get(pair.first as usize),
        readings.get(pair.second as usize),
    ) {
        (Some(one), Some(other)) => one.table == other.table,
        _ => false,
    }
}
