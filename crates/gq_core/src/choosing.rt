//! Which node variables the core of a query with trails has. A query whose limits were checked has
//! at most 24 variables, so that lists of them are gone through for each.
ghost use Rattle.std.specs.Prelude.{◌≡◌, ◌++◌, ◌∷◌, filter, flat_map, length, not, slice_get, IfOk};
ghost use Rattle.std.specs.List.{range_with_len};
ghost use Rattle.gq_law_cuts.specs.Cuts as cuts;
ghost use Rattle.gq_law_reaches.specs.Core as core;
ghost use Rattle.gq_plan.specs.Soundness.{has_number};

use crate::trailed::{TrailPattern, Trailed};
use gq_base::{List, Memory};
use gq_plan::{PathPart, has_number};
use gq_scopes::{RelPattern, next};
use std::alloc::Global;

/// The node variables of the core, in order.
pub fn core_nodes(alloc: Global, trailed: &Trailed<'_>) -> Result<List<u32>, Memory>
    ensures { IfOk result (λ vs. vs ≡ core.core_nodes trailed.now) }
{
    let first = first_core(alloc, trailed)?;
    let grown = grown(alloc, first.as_slice(), trailed.trails.as_slice())?;
    let all = numbers_below(alloc, trailed.pattern.names().len())?;
    inside(alloc, grown.as_slice(), all.as_slice())
}

/// The node variables of the core, and then the others of so many, in order.
pub fn core_first(alloc: Global, nodes: &[u32], count: usize) -> Result<List<u32>, Memory>
    ensures { IfOk result (λ vs. vs ≡ nodes.now
        ++ filter (λ v. not (has_number nodes.now v)) (range_with_len 0 count)) }
{
    let all = numbers_below(alloc, count)?;
    let mut order = List::new(alloc);
    order.extend(nodes)?;
    push_outside(&mut order, nodes, all.as_slice())?;
    Ok(order)
}

/// Puts a number before others.
pub fn put_front(numbers: &mut Vec<u32>, number: u32) -> Result<(), Memory>
    ensures { IfOk result (λ _. numbers.new.items ≡ number ∷ numbers.old.items) }
{
    match numbers.insert(0, number) {
        Ok(()) => Ok(()),
        Err(_) => Err(Memory::Exhausted),
    }
}

/// A copy of numbers.
pub fn copied(alloc: Global, numbers: &[u32]) -> Result<Vec<u32>, Memory>
    ensures { IfOk result (λ ns. ns.items ≡ numbers.now) }
{
    match Vec::from_slice(alloc, numbers) {
        Ok(copied) => Ok(copied),
        Err(_) => Err(Memory::Exhausted),
    }
}

// The variables of pieces that have a relationship, and of whole paths of one node.
fn first_core(alloc: Global, trailed: &Trailed<'_>) -> Result<List<u32>, Memory>
    ensures { IfOk result (λ vs. vs ≡ core.first_core trailed.now) }
{
    let mut nodes = List::new(alloc);
    for piece in trailed.pattern.paths() {
        push_joined(&mut nodes, piece, trailed.pattern.rels())?;
    }
    nodes.extend(trailed.alone.as_slice())?;
    Ok(nodes)
}

// The variables of a piece that has a relationship.
fn push_joined(
    nodes: &mut List<u32>,
    piece: &PathPart,
    rels: &[RelPattern<'_>],
) -> Result<(), Memory>
    ensures { IfOk result (λ _. nodes.new
        ≡ nodes.old ++ core.from_first piece.now.first piece.now.rels rels.now) }
{
    let numbers = piece.rels.as_slice();
    match numbers {
        [] => Ok(()),
        [_, ..] => {
            nodes.push(piece.first)?;
            push_rights(nodes, numbers, rels)
        }
    }
}

// The variables at the right of relationships.
fn push_rights(
    nodes: &mut List<u32>,
    numbers: &[u32],
    rels: &[RelPattern<'_>],
) -> Result<(), Memory>
    ensures { IfOk result (λ _. nodes.new
        ≡ nodes.old ++ flat_map (λ y. core.right_at (slice_get rels.now y)) numbers.now) }
{
    for number in numbers {
        push_right(nodes, *number, rels)?;
    }
    Ok(())
}

fn push_right(nodes: &mut List<u32>, number: u32, rels: &[RelPattern<'_>]) -> Result<(), Memory>
    ensures { IfOk result (λ _. nodes.new
        ≡ nodes.old ++ core.right_at (slice_get rels.now number)) }
{
    match rels.get(number as usize) {
        Some(rel) => nodes.push(rel.right),
        None => Ok(()),
    }
}

// The core with the left ends of trails of which neither end is bound when their turn comes.
fn grown(alloc: Global, first: &[u32], trails: &[TrailPattern<'_>]) -> Result<Vec<u32>, Memory>
    ensures { IfOk result (λ vs. vs.items ≡ core.grown first.now first.now trails.now) }
{
    let mut nodes = copied(alloc, first)?;
    let mut bound = copied(alloc, first)?;
    for trail in trails {
        let left = has_number(bound.as_slice(), trail.left as usize);
        let reached = left || has_number(bound.as_slice(), trail.right as usize);
        if !reached {
            put_front(&mut nodes, trail.left)?;
        }
        put_front(&mut bound, trail.right)?;
        put_front(&mut bound, trail.left)?;
    }
    Ok(nodes)
}

// The first numbers, so many.
#[tactic(auto, using(gq_scopes::proofs::RangeLemmas::range_more))]
fn numbers_below(alloc: Global, count: usize) -> Result<List<u32>, Memory>
    ensures { IfOk result (λ ns. ns ≡ range_with_len 0 count) }
{
    let mut numbers = List::new(alloc);
    let mut at = 0;
    for _ in 0..count {
        numbers.push(at)?;
        at = next(at)?;
    }
    Ok(numbers)
}

// Those numbers that stand among these.
fn inside(alloc: Global, nodes: &[u32], numbers: &[u32]) -> Result<List<u32>, Memory>
    ensures { IfOk result (λ vs. vs ≡ filter (has_number nodes.now) numbers.now) }
{
    let mut found = List::new(alloc);
    for number in numbers {
        if has_number(nodes, *number as usize) {
            found.push(*number)?;
        }
    }
    Ok(found)
}

// Those numbers that do not stand among these.
fn push_outside(order: &mut List<u32>, nodes: &[u32], numbers: &[u32]) -> Result<(), Memory>
    ensures { IfOk result (λ _. order.new ≡ order.old
        ++ filter (λ v. not (has_number nodes.now v)) numbers.now) }
{
    for number in numbers {
        if !has_number(nodes, *number as usize) {
            order.push(*number)?;
        }
    }
    Ok(())
}
