//! The search of alternatives: depth first over the relationship patterns, and then over the node
//! variables.
ghost use Rattle.std.specs.Prelude.{◌≡◌, ◌≤◌, [], ◌++◌, suc, map, flat_map};
ghost use Rattle.std.specs.Prelude.{drop, length, None, OnOk};
ghost use Rattle.gq_choices.specs.steps.Searching as searching;
ghost use Rattle.gq_choices.specs.steps.Searching.{adding, filled, following, knowing};
ghost use Rattle.gq_choices.specs.steps.Searching.{searched};
ghost use Rattle.gq_choices.specs.steps.Searching.{taking};

use crate::found::Found;
use gq_alternatives::{Reading, Step, source_of, target_of};
use gq_base::{Catalog, List, Memory};
use gq_scopes::RelPattern;
use std::alloc::Global;
use std::marker::Model;

/// What a search goes through: the tables of each node variable, and at most how many choices are
/// wanted.
#[derive(Drop)]
pub struct Space<'s> {
    pub catalog: &'s Catalog,
    pub tables: &'s [List<u32>],
    pub most: usize,
}

impl<'s> Model for Space<'s> {
    ghost use Rattle.gq_choices.specs.steps.Searching.{Space};

    ghost Value = { Space };

    ghost view = { λ s. record { catalog = s.catalog.now; tables = s.tables.now; most = s.most } };
}

// Whether what is known of a variable allows a table.
fn may_be(known: Option<u32>, table: u32) -> bool
    ensures { result ≡ searching.may_be known table }
{
    match known {
        None => true,
        Some(other) => other == table,
    }
}

/// Adds the choices by these steps to what is found, until there are more than are wanted.
#[cycle(search)]
pub fn search(
    alloc: Global,
    space: &Space<'_>,
    steps: &[Step<'_>],
    found: &mut Found,
) -> Result<(), Memory>
    requires few { length found.old.choices ≤ suc space.now.most }
    requires begun { found.old.tables ≡ [] }
    ensures { OnOk result (found.new ≡ adding space.now.most
        (searched space.now.catalog space.now.tables steps.now found.old.known found.old.readings)
        found.old) }
{
    match steps {
        [] => fill(alloc, space.most, space.tables, found),
        [step, rest @ ..] => {
            follow_each(
                alloc,
                space,
                step.pattern,
                step.readings.as_slice(),
                rest,
                found,
            )
        }
    }
}

#[cycle(search)]
fn follow_each(
    alloc: Global,
    space: &Space<'_>,
    pattern: &RelPattern<'_>,
    readings: &[Reading],
    rest: &[Step<'_>],
    found: &mut Found,
) -> Result<(), Memory>
    requires few { length found.old.choices ≤ suc space.now.most }
    requires begun { found.old.tables ≡ [] }
    ensures { OnOk result (found.new ≡ adding space.now.most
        (flat_map (λ c. following space.now.catalog space.now.tables rest.now pattern.now
        found.old.known found.old.readings c) readings.now) found.old) }
{
    for reading in readings {
        follow(alloc, space, pattern, *reading, rest, found)?;
    }
    Ok(())
}

// One reading of a relationship pattern.
#[cycle(search)]
fn follow(
    alloc: Global,
    space: &Space<'_>,
    pattern: &RelPattern<'_>,
    reading: Reading,
    rest: &[Step<'_>],
    found: &mut Found,
) -> Result<(), Memory>
    requires few { length found.old.choices ≤ suc space.now.most }
    requires begun { found.old.tables ≡ [] }
    ensures { OnOk result (found.new ≡ adding space.now.most
        (following space.now.catalog space.now.tables rest.now pattern.now
        found.old.known found.old.readings reading) found.old) }
{
    if found.is_full(space.most) {
        return Ok(());
    }
    if reading.table >= space.catalog.rel_tables() {
        return Ok(());
    }
    let table = space.catalog.rel_table(reading.table);
    let source = End {
        variable: source_of(pattern, reading),
        table: table.from,
    };
    let target = End {
        variable: target_of(pattern, reading),
        table: table.to,
    };
    found.push_reading(reading)?;
    enter_source(alloc, space, source, target, rest, found)?;
    found.pop_reading();
    Ok(())
}

/// A node variable at an end of a relationship, and the table that it has there.
#[derive(Clone, Copy)]
struct End {
    variable: u32,
    table: u32,
}

#[cycle(search)]
fn enter_source(
    alloc: Global,
    space: &Space<'_>,
    source: End,
    target: End,
    rest: &[Step<'_>],
    found: &mut Found,
) -> Result<(), Memory>
    requires few { length found.old.choices ≤ suc space.now.most }
    requires begun { found.old.tables ≡ [] }
    ensures { OnOk result (found.new ≡ adding space.now.most
        (knowing source.variable source.table found.old.known (λ one.
        knowing target.variable target.table one (λ ks.
        searched space.now.catalog space.now.tables rest.now ks found.old.readings))) found.old) }
{
    let place = source.variable as usize;
    match found.known_of(place) {
        Some(before) if may_be(before, source.table) => {
            found.know(place, Some(source.table));
            enter_target(alloc, space, target, rest, found)?;
            found.know(place, before);
            Ok(())
        }
        _ => Ok(()),
    }
}

#[cycle(search)]
fn enter_target(
    alloc: Global,
    space: &Space<'_>,
    target: End,
    rest: &[Step<'_>],
    found: &mut Found,
) -> Result<(), Memory>
    requires few { length found.old.choices ≤ suc space.now.most }
    requires begun { found.old.tables ≡ [] }
    ensures { OnOk result (found.new ≡ adding space.now.most
        (knowing target.variable target.table found.old.known (λ ks.
        searched space.now.catalog space.now.tables rest.now ks found.old.readings)) found.old) }
{
    let place = target.variable as usize;
    match found.known_of(place) {
        Some(before) if may_be(before, target.table) => {
            found.know(place, Some(target.table));
            search(alloc, space, rest, found)?;
            found.know(place, before);
            Ok(())
        }
        _ => Ok(()),
    }
}

// The choices of tables for the node variables that have none yet.
#[cycle(fill)]
fn fill(alloc: Global, most: usize, lists: &[List<u32>], found: &mut Found) -> Result<(), Memory>
    requires { length found.old.choices ≤ suc most }
    ensures { OnOk result (found.new ≡ adding most
        (map (λ ts. record { readings = found.old.readings; tables = found.old.tables ++ ts })
        (filled (drop (length found.old.tables) found.old.known) lists.now)) found.old) }
{
    match lists {
        [] => found.push_choice(alloc, most),
        [tables, rest @ ..] => match found.known_of(found.tables_len()) {
            None => Ok(()),
            Some(known) => fill_from(alloc, most, known, tables.as_slice(), rest, found),
        },
    }
}

#[cycle(fill)]
fn fill_from(
    alloc: Global,
    most: usize,
    known: Option<u32>,
    tables: &[u32],
    rest: &[List<u32>],
    found: &mut Found,
) -> Result<(), Memory>
    requires { length found.old.choices ≤ suc most }
    ensures { OnOk result (found.new ≡ adding most (flat_map (λ t.
        taking found.old.known found.old.readings found.old.tables rest.now known t)
        tables.now) found.old) }
{
    for table in tables {
        fill_with(alloc, most, known, *table, rest, found)?;
    }
    Ok(())
}

#[cycle(fill)]
fn fill_with(
    alloc: Global,
    most: usize,
    known: Option<u32>,
    table: u32,
    rest: &[List<u32>],
    found: &mut Found,
) -> Result<(), Memory>
    requires { length found.old.choices ≤ suc most }
    ensures { OnOk result (found.new ≡ adding most
        (taking found.old.known found.old.readings found.old.tables rest.now known table)
        found.old) }
{
    if found.is_full(most) {
        return Ok(());
    }
    if !may_be(known, table) {
        return Ok(());
    }
    found.push_table(table)?;
    fill(alloc, most, rest, found)?;
    found.pop_table();
    Ok(())
}
