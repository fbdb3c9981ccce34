//! The alternatives of patterns: the choices of tables and directions that the catalogue allows.
ghost use Rattle.std.specs.Prelude.{◌≡◌, suc, take, IfOk, IfSome};
ghost use Rattle.std.specs.List.{list_any};
ghost use Rattle.gq_alternatives.specs.Alternatives.{pattern_alternatives};
ghost use Rattle.gq_choices.specs.steps.Searching as searching;
ghost use Rattle.gq_alternatives.specs.Searching.{at_most};
ghost use Rattle.gq_choices.specs.steps.Searching.{agreeing};

use crate::branching::{MOST_DEPTH, branch};
use crate::budget::Budget;
use crate::found::Found;
use crate::narrowing::{Candidates, narrowed};
use crate::search::{Space, search};
use gq_alternatives::{Choice, Step, all_within, steps_of, tables_of};
use gq_base::{Catalog, List, Memory};
use gq_scopes::Pattern;
use std::alloc::Global;

// The steps that a search in text order may take. A step gives a relationship pattern a reading or a
// node variable a table. Many more steps than there are choices come where patterns that are far
// apart in the text do not fit one another, as round a cycle that cannot close: then dead ends are
// met again and again, and the search is given up for one by branches.
const FEW_STEPS: usize = 262_144;

// The steps that narrowing and a search by branches may take, which is less than half a second.
const MOST_STEPS: usize = 120_000_000;

/// The alternatives of patterns, in lexicographic order, or `None` where there are more than
/// `most`: for each relationship pattern, in text order, a table and a direction, by table number
/// and forward before backward, and for each node variable a table, by number.
pub fn choices_of(
    alloc: Global,
    catalog: &Catalog,
    pattern: &Pattern<'_>,
    most: usize,
) -> Result<Option<List<Choice>>, Memory>
    ensures { IfOk result (λ found.
        found ≡ at_most most (pattern_alternatives catalog.now pattern.now)) }
{
    let count = pattern.names().len();
    if !all_within(pattern.nodes(), count) {
        return Ok(Some(List::new(alloc)));
    }
    let tables = tables_of(alloc, catalog, pattern.nodes(), count)?;
    let steps = steps_of(alloc, catalog, pattern.rels())?;
    let first = Candidates::new(alloc, steps, tables)?;
    let mut budget = Budget::new(MOST_STEPS);
    let candidates = narrowed(alloc, catalog, &mut budget, first)?;
    let steps = candidates.steps.as_slice();
    if let Some(found) = choices_among(alloc, catalog, steps, candidates.tables.as_slice(), most)? {
        return Ok(limited(found, most));
    }
    let found = choices_by_branches(alloc, catalog, candidates, most, budget)?;
    Ok(limited(found, most))
}

// The choices among candidates that agree, found in text order: at most one more than are wanted,
// or `None` where that takes too many steps.
fn choices_among(
    alloc: Global,
    catalog: &Catalog,
    steps: &[Step<'_>],
    tables: &[List<u32>],
    most: usize,
) -> Result<Option<List<Choice>>, Memory>
    ensures { IfOk result (λ found. IfSome found (λ choices.
        choices ≡ take (suc most) (agreeing catalog.now steps.now tables.now))) }
{
    if some_without_table(tables) {
        return Ok(Some(List::new(alloc)));
    }
    if some_without_reading(steps) {
        return Ok(Some(List::new(alloc)));
    }
    let space = Space {
        catalog,
        tables,
        most,
    };
    let mut found = Found::new(alloc, tables, Budget::new(FEW_STEPS))?;
    let searched = search(alloc, &space, steps, &mut found);
    match searched {
        Ok(()) => Ok(Some(found.into_choices())),
        Err(_) if found.is_out_of_steps() => Ok(None),
        Err(memory) => Err(memory),
    }
}

// The same choices, found by branches.
fn choices_by_branches(
    alloc: Global,
    catalog: &Catalog,
    candidates: Candidates<'_>,
    most: usize,
    budget: Budget,
) -> Result<List<Choice>, Memory>
    ensures { IfOk result (λ choices. choices
        ≡ take (suc most) (agreeing catalog.now candidates.entry.steps candidates.entry.tables)) }
{
    let mut found = Found::new(alloc, candidates.tables.as_slice(), budget)?;
    branch(alloc, catalog, most, MOST_DEPTH, candidates, &mut found)?;
    Ok(found.into_choices())
}

fn limited(choices: List<Choice>, most: usize) -> Option<List<Choice>>
    ensures { result ≡ at_most most choices }
{
    if choices.len() > most {
        None
    } else {
        Some(choices)
    }
}

/// Whether a node variable has no table.
pub(crate) fn some_without_table(tables: &[List<u32>]) -> bool
    ensures { result ≡ list_any searching.is_nil tables.now }
{
    tables.iter().any(|tables| has_no_table(tables.as_slice()))
}

fn has_no_table(tables: &[u32]) -> bool
    ensures { result ≡ searching.is_nil tables.now }
{
    match tables {
        [] => true,
        [_, ..] => false,
    }
}

/// Whether a relationship pattern has no reading.
pub(crate) fn some_without_reading(steps: &[Step<'_>]) -> bool
    ensures { result ≡ list_any searching.no_reading steps.now }
{
    steps.iter().any(|step| has_no_reading(step))
}

fn has_no_reading(step: &Step<'_>) -> bool
    ensures { result ≡ searching.no_reading step.now }
{
    match step.readings.as_slice() {
        [] => true,
        [_, ..] => false,
    }
}
