//! Branching: the search for patterns whose candidates contradict one another far apart in the text.
ghost use Rattle.std.specs.Prelude.{◌≡◌, ◌<◌, ◌≤◌, suc, length, IfOk, IfSome, OnOk};
ghost use Rattle.gq_choices.specs.steps.Branching as branching;
ghost use Rattle.gq_choices.specs.steps.Branching.{IsBlank, IsOpen};
ghost use Rattle.gq_choices.specs.steps.Searching.{adding, agreeing};

use crate::alternatives::{some_without_reading, some_without_table};
use crate::found::Found;
use crate::narrowing::{Candidates, insert_ends};
use crate::number_set::NumberSet;
use crate::search::{Space, search};
use gq_alternatives::{Reading, Step};
use gq_base::{Catalog, List, Memory, copy_all};
use std::alloc::Global;

/// As many relationship patterns as a query has at most: each branching gives one of them a single
/// reading.
pub const MOST_DEPTH: u32 = 24;

/// Adds the choices among candidates that agree to what is found, until there are more than are
/// wanted. After each reading that is chosen the candidates are narrowed again, so that where the
/// patterns have no cycle each branch ends in a choice.
#[cycle(branch)]
pub fn branch(
    alloc: Global,
    catalog: &Catalog,
    most: usize,
    depth: u32,
    first: Candidates<'_>,
    found: &mut Found,
) -> Result<(), Memory>
    requires few { length found.old.choices ≤ suc most }
    requires blank { IsBlank first.tables found.old }
    ensures { OnOk result (found.new ≡ adding most
        (agreeing catalog.now first.entry.steps first.entry.tables) found.old) }
{
    if found.is_full(most) {
        return Ok(());
    }
    let candidates = found.narrowed(alloc, catalog, first)?;
    branch_among(alloc, catalog, most, depth, &candidates, found)
}

// The same of candidates that were narrowed.
#[cycle(branch)]
fn branch_among(
    alloc: Global,
    catalog: &Catalog,
    most: usize,
    depth: u32,
    candidates: &Candidates<'_>,
    found: &mut Found,
) -> Result<(), Memory>
    requires few { length found.old.choices ≤ suc most }
    requires blank { IsBlank candidates.now.tables found.old }
    ensures { OnOk result (found.new ≡ adding most
        (agreeing catalog.now candidates.now.steps candidates.now.tables) found.old) }
{
    let steps = candidates.steps.as_slice();
    let tables = candidates.tables.as_slice();
    if some_without_table(tables) {
        return Ok(());
    }
    if some_without_reading(steps) {
        return Ok(());
    }
    let Some(at) = first_open(steps) else {
        let space = Space {
            catalog,
            tables,
            most,
        };
        return search(alloc, &space, steps, found);
    };
    if depth == 0 {
        return Err(Memory::Limit);
    }
    branch_at(alloc, catalog, most, depth - 1, candidates, at, found)
}

// By each reading of the pattern at this place.
#[cycle(branch)]
fn branch_at(
    alloc: Global,
    catalog: &Catalog,
    most: usize,
    depth: u32,
    candidates: &Candidates<'_>,
    at: usize,
    found: &mut Found,
) -> Result<(), Memory>
    requires few { length found.old.choices ≤ suc most }
    requires blank { IsBlank candidates.now.tables found.old }
    requires open { IsOpen at candidates.now.steps }
    ensures { OnOk result (found.new ≡ adding most
        (agreeing catalog.now candidates.now.steps candidates.now.tables) found.old) }
{
    let readings = readings_at(candidates.steps.as_slice(), at);
    for reading in readings {
        let next = decided(alloc, candidates, at, *reading)?;
        branch(alloc, catalog, most, depth, next, found)?;
    }
    Ok(())
}

// The readings of the pattern at a place.
fn readings_at<'c>(steps: &'c [Step<'_>], at: usize) -> &'c [Reading]
    ensures { result.now ≡ branching.readings_at steps.now at }
{
    match steps.get(at) {
        Some(step) => step.readings.as_slice(),
        None => &[],
    }
}

// The place of the first pattern that has several readings.
fn first_open(steps: &[Step<'_>]) -> Option<usize>
    ensures { IfSome result (λ at. IsOpen at steps.now) }
{
    for (at, step) in steps.iter().enumerate() {
        if !is_decided(step) {
            return Some(at);
        }
    }
    None
}

fn is_decided(step: &Step<'_>) -> bool
    ensures { result ≡ branching.is_decided step.now }
{
    step.readings.len() <= 1
}

// The candidates, of which the pattern at a place has this reading alone.
fn decided<'s>(
    alloc: Global,
    candidates: &Candidates<'s>,
    at: usize,
    reading: Reading,
) -> Result<Candidates<'s>, Memory>
    ensures steps { IfOk result (λ c.
        c.steps ≡ branching.deciding at reading candidates.now.steps) }
    ensures tables { IfOk result (λ c. c.tables ≡ candidates.now.tables) }
{
    Ok(Candidates {
        steps: decided_steps(alloc, candidates.steps.as_slice(), at, reading)?,
        tables: copy_all(alloc, candidates.tables.as_slice())?,
        changed: changed_at(alloc, candidates.steps.as_slice(), at)?,
    })
}

// The node variables at the ends of the pattern at a place.
fn changed_at(alloc: Global, steps: &[Step<'_>], at: usize) -> Result<NumberSet, Memory> {
    let mut ends = NumberSet::new(alloc, 0)?;
    if let Some(step) = steps.get(at) {
        insert_ends(&mut ends, step.pattern)?;
    }
    Ok(ends)
}

fn decided_steps<'s>(
    alloc: Global,
    steps: &[Step<'s>],
    at: usize,
    reading: Reading,
) -> Result<List<Step<'s>>, Memory>
    ensures { IfOk result (λ ss. ss ≡ branching.deciding at reading steps.now) }
{
    let mut copies = copy_all(alloc, steps)?;
    let Some(step) = steps.get(at) else {
        return Ok(copies);
    };
    let pattern = step.pattern;
    let mut readings = List::new(alloc);
    readings.push(reading)?;
    copies.set(at, Step { pattern, readings });
    Ok(copies)
}
