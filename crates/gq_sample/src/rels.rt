//! Who knows whom in the sample graph, and who lives where.
ghost use Rattle.std.specs.Prelude.{◌≡◌, ◌≤◌, ◌++◌, IfOk, OnOk};
ghost use Rattle.gq_sample.specs.Sample.{has_home, homes_of, known_by, knows, knows_of, lives_in};
ghost use Rattle.gq_sample.specs.Sample.{since};

use crate::nodes::city_count;
use gq_base::{Cell, List, Memory, PlainRel, RelRows};
use std::alloc::Global;

/// Whom each of so many persons knows.
pub(crate) fn knows(alloc: Global, size: u32) -> Result<RelRows, Memory>
    requires { size ≤ 1000000 }
    ensures { IfOk result (λ rels. rels ≡ knows_of size) }
{
    let mut rels = RelRows::new(alloc);
    for row in 0..size {
        push_known(alloc, &mut rels, size, row + 1)?;
    }
    Ok(rels)
}

/// Where each of so many persons lives.
pub(crate) fn homes(alloc: Global, size: u32) -> Result<RelRows, Memory>
    requires { size ≤ 1000000 }
    ensures { IfOk result (λ rels. rels ≡ homes_of size) }
{
    let mut rels = RelRows::new(alloc);
    for row in 0..size {
        let person = row + 1;
        if has_home(person) {
            rels.push(home(alloc, size, person))?;
        }
    }
    Ok(rels)
}

// Appends whom this person knows, of so many.
fn push_known(alloc: Global, rels: &mut RelRows, size: u32, person: u32) -> Result<(), Memory>
    requires least { 1 ≤ person }
    requires within { person ≤ size }
    requires most { size ≤ 1000000 }
    ensures { OnOk result (rels.new ≡ rels.old ++ known_by size person) }
{
    for before in 0..person % 4 {
        rels.push(known(alloc, size, person, before + 1)?)?;
    }
    Ok(())
}

// The relationship to the person that this person knows as the one of this number, from 1 to 3.
fn known(alloc: Global, size: u32, person: u32, number: u32) -> Result<PlainRel, Memory>
    requires least { 1 ≤ person }
    requires within { person ≤ size }
    requires most { size ≤ 1000000 }
    requires number { number ≤ 3 }
    ensures { IfOk result (λ rel. rel ≡ knows size person number) }
{
    let mut cells = List::new(alloc);
    cells.push(since(person, number))?;
    Ok(PlainRel {
        source: person - 1,
        target: number * (person + 1) % size,
        cells,
    })
}

fn since(person: u32, number: u32) -> Option<Cell>
    requires person { person ≤ 1000000 }
    requires number { number ≤ 3 }
    ensures { result ≡ since person number }
{
    if number == 2 {
        None
    } else {
        Some(Cell::Int(i64::from(2000 + (person + number) % 25)))
    }
}

// Whether this person lives in a city.
fn has_home(person: u32) -> bool
    ensures { result ≡ has_home person }
{
    person % 10 != 0
}

// The relationship of this person, of so many, to a city.
fn home(alloc: Global, size: u32, person: u32) -> PlainRel
    requires least { 1 ≤ person }
    requires within { person ≤ size }
    requires most { size ≤ 1000000 }
    ensures { result ≡ lives_in size person }
{
    PlainRel {
        source: person - 1,
        target: person % city_count(size),
        cells: List::new(alloc),
    }
}
