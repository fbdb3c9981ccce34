//! What assignments are made of: all nodes and all relationships of a graph, and all tuples of
//! them.
ghost use Rattle.std.specs.Prelude.{◌≡◌, ◌∷◌, ◌++◌, map, flat_map, IfOk};
ghost use Rattle.std.specs.List.{range_with_len};
ghost use Rattle.gq_plan.specs.Assignments as assignments;

use gq_base::{List, Memory, NodeId, RelId};
use gq_plain::PlainGraph;
use gq_scopes::number;
use std::alloc::Global;

/// The tuples of so many nodes of a graph, in lexicographic order.
pub(crate) fn node_tuples(
    alloc: Global,
    graph: &PlainGraph,
    count: usize,
) -> Result<List<List<NodeId>>, Memory>
    ensures { IfOk result (λ ts. ts ≡ assignments.tuples count (assignments.all_nodes graph.now)) }
{
    let nodes = all_nodes(alloc, graph)?;
    tuples(alloc, count, nodes.as_slice())
}

/// The tuples of so many relationships of a graph, in lexicographic order.
pub(crate) fn rel_tuples(
    alloc: Global,
    graph: &PlainGraph,
    count: usize,
) -> Result<List<List<RelId>>, Memory>
    ensures { IfOk result (λ ts. ts ≡ assignments.tuples count (assignments.all_rels graph.now)) }
{
    let rels = all_rels(alloc, graph)?;
    tuples(alloc, count, rels.as_slice())
}

// All nodes of a graph, by table and then in row order.
#[tactic(auto, unfolding(gq_plan::specs::Assignments::all_nodes))]
fn all_nodes(alloc: Global, graph: &PlainGraph) -> Result<List<NodeId>, Memory>
    ensures { IfOk result (λ ns. ns ≡ assignments.all_nodes graph.now) }
{
    let mut nodes = List::new(alloc);
    for table in 0..graph.catalog().node_tables() {
        push_nodes(&mut nodes, table, graph.node_rows(table).len())?;
    }
    Ok(nodes)
}

fn push_nodes(nodes: &mut List<NodeId>, table: u32, count: usize) -> Result<(), Memory>
    ensures { IfOk result (λ _. nodes.new
        ≡ nodes.old ++ map (λ row. record { table = table; row = row }) (range_with_len 0 count)) }
{
    for row in 0..number(count)? {
        nodes.push(NodeId { table, row })?;
    }
    Ok(())
}

// All relationships of a graph, by table and then in load order.
#[tactic(auto, unfolding(gq_plan::specs::Assignments::all_rels))]
fn all_rels(alloc: Global, graph: &PlainGraph) -> Result<List<RelId>, Memory>
    ensures { IfOk result (λ rs. rs ≡ assignments.all_rels graph.now) }
{
    let mut rels = List::new(alloc);
    for table in 0..graph.catalog().rel_tables() {
        push_rels(&mut rels, table, graph.rel_rows(table).len())?;
    }
    Ok(rels)
}

fn push_rels(rels: &mut List<RelId>, table: u32, count: usize) -> Result<(), Memory>
    ensures { IfOk result (λ _. rels.new
        ≡ rels.old ++ map (λ row. record { table = table; row = row }) (range_with_len 0 count)) }
{
    for row in 0..number(count)? {
        rels.push(RelId { table, row })?;
    }
    Ok(())
}

// The tuples of so many items, in lexicographic order.
#[tactic(auto, using(crate::proofs::Products::tuples_of_none, crate::proofs::Products::tuples_more))]
fn tuples<T: Copy + Drop>(alloc: Global, count: usize, items: &[T]) -> Result<List<List<T>>, Memory>
    ensures { IfOk result (λ ts. ts ≡ assignments.tuples count items.now) }
{
    let mut tuples = List::new(alloc);
    tuples.push(List::new(alloc))?;
    for _ in 0..count {
        tuples = longer(alloc, items, tuples.as_slice())?;
    }
    Ok(tuples)
}

// The tuples of one item more.
fn longer<T: Copy + Drop>(
    alloc: Global,
    items: &[T],
    tuples: &[List<T>],
) -> Result<List<List<T>>, Memory>
    ensures { IfOk result (λ ts. ts ≡ flat_map (λ x. map (λ l. x ∷ l) tuples.now) items.now) }
{
    let mut longer = List::new(alloc);
    for item in items {
        push_all_with(alloc, *item, tuples, &mut longer)?;
    }
    Ok(longer)
}

fn push_all_with<T: Copy + Drop>(
    alloc: Global,
    first: T,
    tuples: &[List<T>],
    longer: &mut List<List<T>>,
) -> Result<(), Memory>
    ensures { IfOk result (λ _. longer.new ≡ longer.old ++ map (λ l. first ∷ l) tuples.now) }
{
    for tuple in tuples {
        longer.push(with_first(alloc, first, tuple.as_slice())?)?;
    }
    Ok(())
}

fn with_first<T: Copy + Drop>(alloc: Global, first: T, rest: &[T]) -> Result<List<T>, Memory>
    ensures { IfOk result (λ l. l ≡ first ∷ rest.now) }
{
    let mut items = Vec::with_capacity(alloc, rest.len().saturating_add(1))?;
    items.push(first)?;
    items.extend_from_slice(rest)?;
    Ok(List::from_vec(items))
}
