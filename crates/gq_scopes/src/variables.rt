//! A variable of a pattern: its number, what it is called, its name, and the entries of its map.
ghost use Rattle.std.specs.Prelude.{◌≡◌, ◌++◌, IfOk};
ghost use Rattle.std.specs.List.{range_with_len};
ghost use Rattle.gq_scopes.specs.Patterns as patterns;
ghost use Rattle.gq_scopes.specs.Patterns.{entries_of, naming};

use crate::counts::{next, number};
use crate::elements::{MapEntry, NamedVariable};
use crate::naming::Names;
use gq_ast::Entry;
use gq_base::{List, Memory, Text, TryClone};
use gq_plan::Variable;
use std::alloc::Global;

/// So many numbers from this one on.
#[tactic(auto, using(crate::proofs::RangeLemmas::range_more))]
pub(crate) fn numbers_from(alloc: Global, start: usize, count: usize) -> Result<List<u32>, Memory>
    ensures { IfOk result (λ ns. ns ≡ range_with_len start count) }
{
    let mut numbers = List::new(alloc);
    let mut at = number(start)?;
    for _ in 0..count {
        numbers.push(at)?;
        at = next(at)?;
    }
    Ok(numbers)
}

/// The variable that a name has, if it has one.
pub(crate) fn known_as(names: &Names, name: &Option<Text>) -> Option<usize>
    ensures { result ≡ patterns.known_as names.now name.now }
{
    match name {
        None => None,
        Some(name) => names.find(name),
    }
}

/// What a variable is called: its name, or `#1`, `#2` and so on.
pub(crate) fn called(alloc: Global, unnamed: u32, name: &Option<Text>) -> Result<Text, Memory>
    ensures { IfOk result (λ t. t ≡ patterns.called unnamed name.now) }
{
    match name {
        Some(name) => name.try_clone(alloc),
        None => {
            let number = next(unnamed)?;
            match format!(in alloc; "#{number}") {
                Ok(text) => Ok(Text::from_string(text)),
                Err(_) => Err(Memory::Exhausted),
            }
        }
    }
}

/// How many patterns have no name, with one of this name.
pub(crate) fn unnamed_after(unnamed: u32, name: &Option<Text>) -> Result<u32, Memory>
    ensures { IfOk result (λ n. n ≡ patterns.unnamed_after unnamed name.now) }
{
    match name {
        None => next(unnamed),
        Some(_) => Ok(unnamed),
    }
}

/// Appends a name and its variable, if there is a name.
pub(crate) fn push_naming<'t>(
    named: &mut List<NamedVariable<'t>>,
    name: &'t Option<Text>,
    variable: Variable,
) -> Result<(), Memory>
    ensures { IfOk result (λ _. named.new ≡ named.old ++ naming name.now variable) }
{
    match name {
        None => Ok(()),
        Some(name) => named.push(NamedVariable { name, variable }),
    }
}

// Each entry is called by its own copy of the variable's name: so many bytes of them, for the entries of one pattern.
const MOST_CALLED: usize = 16_777_216;

/// Appends the entries of the map of a variable that is called so.
pub(crate) fn push_entries<'t>(
    alloc: Global,
    entries: &mut List<MapEntry<'t>>,
    variable: Variable,
    called: &Text,
    map: &'t [Entry],
) -> Result<(), Memory>
    ensures { IfOk result (λ _. entries.new
        ≡ entries.old ++ entries_of variable called.now map.now) }
{
    if map.len().saturating_mul(called.as_str().len()) > MOST_CALLED {
        return Err(Memory::Limit);
    }
    for entry in map {
        let called = called.try_clone(alloc)?;
        entries.push(MapEntry {
            variable,
            called,
            entry,
        })?;
    }
    Ok(())
}
