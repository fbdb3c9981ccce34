//! Narrowing: candidates that can stand in no choice are dropped before the search.
ghost use Rattle.std.specs.Prelude.{◌≡◌, ◌||◌, [], true, filter, slice_get, Some, IfOk, OnOk, ℕ};
ghost use Rattle.gq_alternatives.specs.Alternatives.{same_table};
ghost use Rattle.gq_choices.specs.steps.Branching.{unknown};
ghost use Rattle.gq_choices.specs.steps.Narrowing.{ends_in, has, restricting, those_of, touches};
ghost use Rattle.gq_choices.specs.steps.Searching.{agreeing};
ghost use Rattle.gq_choices.specs.steps.Searching as searching;

use crate::alternatives::some_without_table;
use crate::budget::Budget;
use crate::number_set::NumberSet;
use gq_alternatives::{Reading, Step, source_of, target_of};
use gq_base::{Catalog, List, Memory};
use gq_scopes::RelPattern;
use std::alloc::Global;

/// The relationship patterns with candidates for their readings, and candidates for the table of
/// each node variable.
#[derive(Drop)]
pub struct Candidates<'s> {
    pub steps: List<Step<'s>>,
    pub tables: List<List<u32>>,
    /// The node variables by whose patterns these may be narrowed.
    pub changed: NumberSet,
}

impl<'s> Candidates<'s> {
    /// Candidates that were never narrowed.
    pub fn new(
        alloc: Global,
        steps: List<Step<'s>>,
        tables: List<List<u32>>,
    ) -> Result<Candidates<'s>, Memory>
        ensures steps { IfOk result (λ c. c.steps ≡ steps.entry) }
        ensures tables { IfOk result (λ c. c.tables ≡ tables) }
    {
        let changed = ends_of(alloc, steps.as_slice())?;
        Ok(Candidates {
            steps,
            tables,
            changed,
        })
    }
}

// The node variables at the ends of relationship patterns.
fn ends_of(alloc: Global, steps: &[Step<'_>]) -> Result<NumberSet, Memory> {
    let mut ends = NumberSet::new(alloc, 0)?;
    for step in steps {
        insert_ends(&mut ends, step.pattern)?;
    }
    Ok(ends)
}

/// Adds the node variables at the ends of a relationship pattern.
pub fn insert_ends(ends: &mut NumberSet, pattern: &RelPattern<'_>) -> Result<(), Memory> {
    ends.insert(pattern.left)?;
    ends.insert(pattern.right)
}

// As many rounds as a query has relationship patterns: enough for each that has no cycle.
const ROUNDS: usize = 24;

// The steps of narrowing a pattern, beside one for each of its readings.
const VISIT: usize = 64;

/// Fewer candidates with the same choices that agree.
pub fn narrowed<'s>(
    alloc: Global,
    catalog: &Catalog,
    budget: &mut Budget,
    first: Candidates<'s>,
) -> Result<Candidates<'s>, Memory>
    ensures agree { IfOk result (λ c. agreeing catalog.now c.steps c.tables
        ≡ agreeing catalog.now first.entry.steps first.entry.tables) }
    ensures unknown { IfOk result (λ c. unknown c.tables ≡ unknown first.entry.tables) }
{
    let mut candidates = first;
    for _ in 0..ROUNDS {
        narrow_each(alloc, catalog, budget, &mut candidates)?;
        if !candidates.changed.has_some() || some_without_table(candidates.tables.as_slice()) {
            break;
        }
    }
    Ok(candidates)
}

// Narrows by each relationship pattern in turn that has a changed node variable.
fn narrow_each(
    alloc: Global,
    catalog: &Catalog,
    budget: &mut Budget,
    candidates: &mut Candidates<'_>,
) -> Result<(), Memory>
    ensures agree { OnOk result (agreeing catalog.now candidates.new.steps candidates.new.tables
        ≡ agreeing catalog.now candidates.old.steps candidates.old.tables) }
    ensures unknown { OnOk result (unknown candidates.new.tables ≡ unknown candidates.old.tables) }
{
    let mut fallen = NumberSet::new(alloc, 0)?;
    for at in 0..candidates.steps.len() {
        if is_due(candidates, at, &fallen) {
            narrow_at(alloc, catalog, budget, candidates, at, &mut fallen)?;
        }
    }
    candidates.changed = fallen;
    Ok(())
}

// Whether a node variable of the pattern at a place has changed, before this round or in it.
fn is_due(candidates: &Candidates<'_>, at: usize, fallen: &NumberSet) -> bool {
    let Some(step) = candidates.steps.get(at) else {
        return false;
    };
    let pattern = step.pattern;
    [pattern.left, pattern.right].iter().any(|end| candidates.changed.contains(*end)
        || fallen.contains(*end))
}

// Narrows by the relationship pattern at a place: its readings by the tables at its ends, and these
// by the readings that are left. What falls shows at once in the patterns that follow, so that a
// path in text order is narrowed in one round.
fn narrow_at(
    alloc: Global,
    catalog: &Catalog,
    budget: &mut Budget,
    candidates: &mut Candidates<'_>,
    at: usize,
    fallen: &mut NumberSet,
) -> Result<(), Memory>
    ensures agree { OnOk result (agreeing catalog.now candidates.new.steps candidates.new.tables
        ≡ agreeing catalog.now candidates.old.steps candidates.old.tables) }
    ensures unknown { OnOk result (unknown candidates.new.tables ≡ unknown candidates.old.tables) }
{
    let Some(step) = candidates.steps.get(at) else {
        return Ok(());
    };
    budget.take(VISIT)?;
    budget.take(step.readings.len())?;
    let pattern = step.pattern;
    let narrowed = standing_step(alloc, catalog, candidates.tables.as_slice(), step)?;
    let left = supported(alloc, catalog, pattern.left, &narrowed)?;
    let right = supported(alloc, catalog, pattern.right, &narrowed)?;
    candidates.steps.set(at, narrowed);
    restrict(alloc, &mut candidates.tables, pattern.left, &left, fallen)?;
    restrict(alloc, &mut candidates.tables, pattern.right, &right, fallen)?;
    Ok(())
}

// A relationship pattern with those of its readings whose ends have tables that the node variables
// may have.
fn standing_step<'s>(
    alloc: Global,
    catalog: &Catalog,
    tables: &[List<u32>],
    step: &Step<'s>,
) -> Result<Step<'s>, Memory>
    ensures { IfOk result (λ s. s ≡ searching.standing catalog.now tables.now step.now) }
{
    let pattern = step.pattern;
    let left = tables_at(alloc, catalog, tables, pattern.left)?;
    let right = tables_at(alloc, catalog, tables, pattern.right)?;
    let readings = standing(alloc, catalog, &left, &right, step.readings.as_slice())?;
    Ok(Step { pattern, readings })
}

// The tables that a node variable may have.
fn tables_at(
    alloc: Global,
    catalog: &Catalog,
    tables: &[List<u32>],
    variable: u32,
) -> Result<NumberSet, Memory>
    ensures { IfOk result (λ set. has set ≡ those_of (slice_get tables.now variable)) }
{
    match tables.get(variable as usize) {
        None => NumberSet::new(alloc, 0),
        Some(tables) => NumberSet::of(alloc, catalog.node_tables(), tables.as_slice()),
    }
}

fn standing(
    alloc: Global,
    catalog: &Catalog,
    left: &NumberSet,
    right: &NumberSet,
    readings: &[Reading],
) -> Result<List<Reading>, Memory>
    ensures { IfOk result (λ cs.
        cs ≡ filter (ends_in catalog.now (has left.now) (has right.now)) readings.now) }
{
    let mut kept = with_room(alloc, readings.len())?;
    for reading in readings {
        if stands(catalog, left, right, *reading) {
            kept.push(*reading)?;
        }
    }
    Ok(kept)
}

// Whether the tables at the ends of a reading are among those of the node variables there.
fn stands(catalog: &Catalog, left: &NumberSet, right: &NumberSet, reading: Reading) -> bool
    ensures { result ≡ ends_in catalog.now (has left.now) (has right.now) reading }
{
    if reading.table >= catalog.rel_tables() {
        return false;
    }
    let ends = catalog.rel_table(reading.table);
    if reading.reversed {
        right.contains(ends.from) && left.contains(ends.to)
    } else {
        left.contains(ends.from) && right.contains(ends.to)
    }
}

// The tables that some reading of a pattern leaves to a node variable at its ends.
fn supported(
    alloc: Global,
    catalog: &Catalog,
    variable: u32,
    step: &Step<'_>,
) -> Result<NumberSet, Memory>
    requires { touches step.now.pattern variable ≡ true }
    ensures { IfOk result (λ set.
        has set ≡ (λ t. searching.supports catalog.now variable t step.now)) }
{
    let mut tables = NumberSet::new(alloc, catalog.node_tables())?;
    for reading in step.readings.as_slice() {
        add_table(&mut tables, catalog, variable, step.pattern, *reading)?;
    }
    Ok(tables)
}

// Adds the table that a reading leaves to a node variable at its ends, if there is one.
fn add_table(
    tables: &mut NumberSet,
    catalog: &Catalog,
    variable: u32,
    pattern: &RelPattern<'_>,
    reading: Reading,
) -> Result<(), Memory>
    requires { touches pattern.now variable ≡ true }
    ensures { OnOk result (has tables.new ≡ (λ t.
        has tables.old t || searching.suits catalog.now variable t pattern.now reading)) }
{
    match table_for(catalog, variable, pattern, reading) {
        None => Ok(()),
        Some(table) => tables.insert(table),
    }
}

// The table that a reading leaves to a node variable at its ends.
fn table_for(
    catalog: &Catalog,
    variable: u32,
    pattern: &RelPattern<'_>,
    reading: Reading,
) -> Option<u32>
    requires { touches pattern.now variable ≡ true }
    ensures { (t : ℕ) → searching.suits catalog.now variable t pattern.now reading
        ≡ same_table result (Some t) }
{
    if reading.table >= catalog.rel_tables() {
        return None;
    }
    let ends = catalog.rel_table(reading.table);
    if source_of(pattern, reading) != variable {
        return Some(ends.to);
    }
    if target_of(pattern, reading) == variable && ends.from != ends.to {
        return None;
    }
    Some(ends.from)
}

// Keeps of the tables of a node variable those of a set, and notes the variable where some fell.
fn restrict(
    alloc: Global,
    lists: &mut List<List<u32>>,
    variable: u32,
    set: &NumberSet,
    fallen: &mut NumberSet,
) -> Result<(), Memory>
    ensures { OnOk result (lists.new ≡ restricting (has set.now) variable lists.old) }
{
    let place = variable as usize;
    let Some(tables) = lists.get(place) else {
        return Ok(());
    };
    let fewer = among(alloc, set, tables.as_slice())?;
    if fewer.len() < tables.len() {
        fallen.insert(variable)?;
    }
    lists.set(place, fewer);
    Ok(())
}

fn among(alloc: Global, set: &NumberSet, tables: &[u32]) -> Result<List<u32>, Memory>
    ensures { IfOk result (λ ts. ts ≡ filter (has set.now) tables.now) }
{
    let mut fewer = with_room(alloc, tables.len())?;
    for table in tables {
        if set.contains(*table) {
            fewer.push(*table)?;
        }
    }
    Ok(fewer)
}

// The empty list, with room for so many items.
fn with_room<T>(alloc: Global, items: usize) -> Result<List<T>, Memory>
    ensures { IfOk result (λ list. list ≡ []) }
{
    match Vec::with_capacity(alloc, items) {
        Ok(vec) => Ok(List::from_vec(vec)),
        Err(_) => Err(Memory::Exhausted),
    }
}
