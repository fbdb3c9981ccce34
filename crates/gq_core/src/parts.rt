//! How the trails of a query are walked from its core.
ghost use Rattle.std.specs.Prelude.{◌≡◌, ◌++◌, [], filter, flat_map, map, nat_eq, slice_get};
ghost use Rattle.std.specs.Prelude.{if◌then◌else◌, unwrap_or, All, IfOk};
ghost use Rattle.gq_core.specs.Entries.{entry_test};
ghost use Rattle.gq_law_cuts.specs.Cuts.{leads_right};
ghost use Rattle.gq_law_reaches.specs.Core as reached;
ghost use Rattle.gq_law_reaches.specs.Core.{entries_at};
ghost use Rattle.gq_scopes.specs.Patterns as patterns;
ghost use Rattle.gq_ast.specs.Spans.{IsWholeEntry};

use crate::choosing::{copied, core_nodes, put_front};
use crate::copies::{push_texts, text_at};
use crate::cored::Core;
use crate::entries::entry_test;
use crate::trailed::TrailPattern;
use gq_ast::{Arrow, RelPart};
use gq_base::{Direction, List, Memory, Text};
use gq_plan::{NamedExpr, TrailPart, Variable, has_number};
use gq_scopes::{MapEntry, NodePattern, Pattern};
use std::alloc::Global;

/// All trails of a query, which stands in a text, in text order: each is walked from its left end
/// where that is bound when its turn comes, else from its right end.
pub fn trail_parts(alloc: Global, text: &[u8], core: &Core<'_>) -> Result<List<TrailPart>, Memory>
    requires { All (λ e. IsWholeEntry text.now e.entry) core.now.whole.pattern.entries }
    ensures { IfOk result (λ ps. ps ≡ reached.trail_parts (entry_test text.now) core.now.whole) }
{
    let first = core_nodes(alloc, &core.whole)?;
    let trails = core.whole.trails.as_slice();
    parts_from(alloc, text, &core.whole.pattern, first.as_slice(), trails)
}

// The trails, where so much is bound.
fn parts_from(
    alloc: Global,
    text: &[u8],
    pattern: &Pattern<'_>,
    first: &[u32],
    trails: &[TrailPattern<'_>],
) -> Result<List<TrailPart>, Memory>
    requires { All (λ e. IsWholeEntry text.now e.entry) pattern.now.entries }
    ensures { IfOk result (λ ps. ps
        ≡ reached.parts_from (entry_test text.now) pattern.now first.now trails.now) }
{
    let mut bound = copied(alloc, first)?;
    let mut parts = List::new(alloc);
    for trail in trails {
        let left = has_number(bound.as_slice(), trail.left as usize);
        let right = has_number(bound.as_slice(), trail.right as usize);
        let part = part_of(alloc, text, pattern, left, right, trail)?;
        parts.push(part)?;
        put_front(&mut bound, trail.right)?;
        put_front(&mut bound, trail.left)?;
    }
    Ok(parts)
}

// A trail, by whether its ends are bound.
fn part_of(
    alloc: Global,
    text: &[u8],
    pattern: &Pattern<'_>,
    left: bool,
    right: bool,
    trail: &TrailPattern<'_>,
) -> Result<TrailPart, Memory>
    requires { All (λ e. IsWholeEntry text.now e.entry) pattern.now.entries }
    ensures { IfOk result (λ p. p
        ≡ reached.part_of (entry_test text.now) pattern.now left right trail.now) }
{
    let from = chosen(left, trail.left, trail.right);
    let to = chosen(left, trail.right, trail.left);
    let both = left && right;
    Ok(TrailPart {
        kind: kind_of(alloc, trail.part)?,
        low: length_of(trail.range.low)?,
        high: length_of(trail.range.high)?,
        from,
        to,
        clause: trail.clause,
        way: way_of(left, is_right(trail.part.arrow)),
        both,
        labels: labels_for(alloc, pattern, both, to)?,
        tests: tests_for(alloc, text, pattern, both, to)?,
    })
}

fn chosen(first: bool, one: u32, other: u32) -> u32
    ensures { result ≡ if first then one else other }
{
    if first { one } else { other }
}

// The type of a trail's relationships.
fn kind_of(alloc: Global, part: &RelPart) -> Result<Text, Memory>
    ensures { IfOk result (λ k. k ≡ unwrap_or (slice_get part.now.kinds 0) []) }
{
    text_at(alloc, part.kinds.as_slice(), 0)
}

// A number of relationships. So many as do not fit do not fit in memory either.
fn length_of(length: u64) -> Result<u32, Memory>
    ensures { IfOk result (λ n. n ≡ length) }
{
    if length > 4_294_967_295 {
        return Err(Memory::Limit);
    }
    Ok(length as u32)
}

fn is_right(arrow: Arrow) -> bool
    ensures { result ≡ leads_right arrow }
{
    match arrow {
        Arrow::Right => true,
        Arrow::Left => false,
        Arrow::Either => false,
    }
}

fn way_of(left: bool, forward: bool) -> Direction
    ensures { result ≡ reached.way_of left forward }
{
    if left == forward {
        Direction::Forward
    } else {
        Direction::Backward
    }
}

// The labels of a trail's other end, unless both ends are bound.
fn labels_for(
    alloc: Global,
    pattern: &Pattern<'_>,
    both: bool,
    to: u32,
) -> Result<List<Text>, Memory>
    ensures { IfOk result (λ ls. ls ≡ if both then [] else reached.labels_of pattern.now to) }
{
    if both {
        return Ok(List::new(alloc));
    }
    labels_of(alloc, pattern.nodes(), to)
}

// The labels that the node patterns of a variable have.
fn labels_of(alloc: Global, nodes: &[NodePattern<'_>], to: u32) -> Result<List<Text>, Memory>
    ensures { IfOk result (λ ls. ls ≡ flat_map (λ (n : patterns.NodePattern).
        if nat_eq n.variable to then n.part.labels else []) nodes.now) }
{
    let mut labels = List::new(alloc);
    for node in nodes {
        push_labels(alloc, &mut labels, node, to)?;
    }
    Ok(labels)
}

fn push_labels(
    alloc: Global,
    labels: &mut List<Text>,
    node: &NodePattern<'_>,
    to: u32,
) -> Result<(), Memory>
    ensures { IfOk result (λ _. labels.new ≡ labels.old
        ++ (if nat_eq node.now.variable to then node.now.part.labels else [])) }
{
    if node.variable == to {
        push_texts(alloc, node.part.labels.as_slice(), labels)
    } else {
        Ok(())
    }
}

// The tests of the map entries of a trail's other end, unless both ends are bound.
fn tests_for(
    alloc: Global,
    text: &[u8],
    pattern: &Pattern<'_>,
    both: bool,
    to: u32,
) -> Result<List<NamedExpr>, Memory>
    requires { All (λ e. IsWholeEntry text.now e.entry) pattern.now.entries }
    ensures { IfOk result (λ ts. ts
        ≡ if both then [] else map (entry_test text.now) (entries_at pattern.now to)) }
{
    if both {
        return Ok(List::new(alloc));
    }
    tests_of(alloc, text, pattern.entries(), to)
}

// The tests of the map entries that the node patterns of a variable have.
fn tests_of(
    alloc: Global,
    text: &[u8],
    entries: &[MapEntry<'_>],
    to: u32,
) -> Result<List<NamedExpr>, Memory>
    requires { All (λ e. IsWholeEntry text.now e.entry) entries.now }
    ensures { IfOk result (λ ts. ts ≡ map (entry_test text.now)
        (filter (λ (e : patterns.MapEntry). reached.is_node_at to e.variable) entries.now)) }
{
    let mut tests = List::new(alloc);
    for entry in entries {
        if is_node_at(to, entry.variable) {
            let test = entry_test(alloc, text, entry)?;
            tests.push(test)?;
        }
    }
    Ok(tests)
}

fn is_node_at(node: u32, variable: Variable) -> bool
    ensures { result ≡ reached.is_node_at node variable }
{
    match variable {
        Variable::Node(other) => other == node,
        Variable::Rel(_) => false,
    }
}
