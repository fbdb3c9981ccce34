//! The persons and the cities of the sample graph.
ghost use Rattle.std.specs.Prelude.{◌≡◌, ◌≤◌, IfOk};
ghost use Rattle.gq_sample.specs.Sample.{age, cities_of, city, city_count, person, persons_of, pop};

use gq_base::{Cell, List, Memory, NodeRows, Row, Text};
use std::alloc::Global;

/// The rows of so many persons.
pub(crate) fn persons(alloc: Global, size: u32) -> Result<NodeRows, Memory>
    requires { size ≤ 1000000 }
    ensures { IfOk result (λ rows. rows ≡ persons_of size) }
{
    let mut rows = NodeRows::new(alloc);
    for row in 0..size {
        rows.push(person(alloc, row + 1)?)?;
    }
    Ok(rows)
}

/// The rows of the cities that there are for so many persons.
pub(crate) fn cities(alloc: Global, size: u32) -> Result<NodeRows, Memory>
    requires { size ≤ 1000000 }
    ensures { IfOk result (λ rows. rows ≡ cities_of size) }
{
    let count = city_count(size);
    let mut rows = NodeRows::new(alloc);
    for row in 0..count {
        rows.push(city(alloc, row)?)?;
    }
    Ok(rows)
}

/// How many cities there are for so many persons.
pub(crate) fn city_count(size: u32) -> u32
    requires { size ≤ 1000000 }
    ensures { result ≡ city_count size }
{
    1 + size / 100
}

// The row of the person of this number.
fn person(alloc: Global, number: u32) -> Result<Row, Memory>
    requires { number ≤ 1000000 }
    ensures { IfOk result (λ row. row ≡ person number) }
{
    let name = format!(in alloc; "p{}", number % 1000)?;
    let mut cells = Vec::with_capacity(alloc, 3)?;
    cells.push(Some(Cell::Int(i64::from(number))))?;
    cells.push(Some(Cell::Str(Text::from_string(name))))?;
    cells.push(age(number))?;
    Ok(List::from_vec(cells))
}

fn age(number: u32) -> Option<Cell>
    requires { number ≤ 1000000 }
    ensures { result ≡ age number }
{
    if number % 3 == 0 {
        None
    } else {
        Some(Cell::Int(i64::from(number * 7 % 90)))
    }
}

// The row of the city of this number.
fn city(alloc: Global, number: u32) -> Result<Row, Memory>
    requires { number ≤ 10000 }
    ensures { IfOk result (λ row. row ≡ city number) }
{
    let code = format!(in alloc; "c{number}")?;
    let mut cells = Vec::with_capacity(alloc, 2)?;
    cells.push(Some(Cell::Str(Text::from_string(code))))?;
    cells.push(pop(number))?;
    Ok(List::from_vec(cells))
}

fn pop(number: u32) -> Option<Cell>
    requires { number ≤ 10000 }
    ensures { result ≡ pop number }
{
    if number % 5 == 0 {
        None
    } else {
        Some(Cell::Int(i64::from(number * 1000)))
    }
}
