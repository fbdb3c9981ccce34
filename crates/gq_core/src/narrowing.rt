//! The patterns of a core, whose variables are numbered first.
ghost use Rattle.std.specs.Prelude.{◌≡◌, filter, nat_lt, take, IfOk};
ghost use Rattle.gq_law_cuts.specs.Cuts as cuts;
ghost use Rattle.gq_law_reaches.specs.Core as core;
ghost use Rattle.gq_plan.specs.declared.PathPart as plan;
ghost use Rattle.gq_scopes.specs.Patterns as patterns;

use gq_base::{List, Memory, Text, TryClone, copy_all};
use gq_plan::{PathPart, Variable};
use gq_scopes::{MapEntry, Names, NodePattern, Pattern, PatternLists};
use std::alloc::Global;

/// The patterns of a core of so many node variables: its paths are the pieces all of whose
/// variables are among them.
pub fn core_pattern<'t>(
    alloc: Global,
    count: u32,
    pattern: &Pattern<'t>,
) -> Result<Pattern<'t>, Memory>
    ensures { IfOk result (λ p. p ≡ cuts.core_of count pattern.now) }
{
    let lists = PatternLists {
        names: first_names(alloc, count, pattern.names())?,
        named: copy_all(alloc, pattern.named())?,
        node_names: copy_all(alloc, pattern.node_names())?,
        rel_names: copy_all(alloc, pattern.rel_names())?,
        unnamed: pattern.unnamed(),
        nodes: nodes_below(alloc, count, pattern.nodes())?,
        rels: copy_all(alloc, pattern.rels())?,
        paths: paths_below(alloc, count, pattern.paths())?,
        entries: entries_below(alloc, count, pattern.entries())?,
    };
    Pattern::of_lists(alloc, lists)
}

fn first_names(alloc: Global, count: u32, names: &[Option<Text>]) -> Result<Names, Memory>
    ensures { IfOk result (λ ns. ns ≡ take count names.now) }
{
    let most = (count as usize).min(names.len());
    copy_names(alloc, &names[..most])
}

fn copy_names(alloc: Global, names: &[Option<Text>]) -> Result<Names, Memory>
    ensures { IfOk result (λ ns. ns ≡ names.now) }
{
    let mut copies = Names::new(alloc);
    for name in names {
        copies.push(name)?;
    }
    Ok(copies)
}

fn nodes_below<'t>(
    alloc: Global,
    count: u32,
    nodes: &[NodePattern<'t>],
) -> Result<List<NodePattern<'t>>, Memory>
    ensures { IfOk result (λ ns.
        ns ≡ filter (λ (n : patterns.NodePattern). nat_lt n.variable count) nodes.now) }
{
    let mut found = List::new(alloc);
    for node in nodes {
        if node.variable < count {
            let copied = node.try_clone(alloc)?;
            found.push(copied)?;
        }
    }
    Ok(found)
}

fn paths_below(alloc: Global, count: u32, paths: &[PathPart]) -> Result<List<PathPart>, Memory>
    ensures { IfOk result (λ xs.
        xs ≡ filter (λ (x : plan.PathPart). nat_lt x.first count) paths.now) }
{
    let mut found = List::new(alloc);
    for path in paths {
        if path.first < count {
            let copied = path.try_clone(alloc)?;
            found.push(copied)?;
        }
    }
    Ok(found)
}

fn entries_below<'t>(
    alloc: Global,
    count: u32,
    entries: &[MapEntry<'t>],
) -> Result<List<MapEntry<'t>>, Memory>
    ensures { IfOk result (λ es. es ≡ filter (core.is_core_entry count) entries.now) }
{
    let mut found = List::new(alloc);
    for entry in entries {
        if is_core_entry(count, entry) {
            let called = entry.called.try_clone(alloc)?;
            found.push(MapEntry {
                variable: entry.variable,
                called,
                entry: entry.entry,
            })?;
        }
    }
    Ok(found)
}

fn is_core_entry(count: u32, entry: &MapEntry<'_>) -> bool
    ensures { result ≡ core.is_core_entry count entry.now }
{
    match entry.variable {
        Variable::Node(node) => node < count,
        Variable::Rel(_) => true,
    }
}
