//! Relationships of a type at a node, one after another.
ghost use Rattle.std.specs.Prelude.{◌≡◌, true, slice_get, IfOk};
ghost use Rattle.gq_plan.specs.Assignments.{is_node};
ghost use Rattle.gq_hops.specs.steps.Hops.{AreTables, IsHop, IsLevel, IsMetHere, IsNear, IsNextMet};
ghost use Rattle.gq_hops.specs.steps.Hops.{IsSite, IsStart, far_table, near_table, tables_of};

use crate::hop::{Near, near_at};
use gq_base::{Catalog, Direction, Memory, NodeId, RelId, RelTable, Text};
use gq_store::Graph;
use std::alloc::Global;

/// A relationship that is followed, and the node to which it leads.
#[derive(Clone, Copy)]
pub(crate) struct Hop {
    pub(crate) rel: RelId,
    pub(crate) node: NodeId,
}

/// A relationship that is met at a node: where it stands, by its table, the node's row and its place
/// there, and the node to which it leads. Which one it is, its load number, was not read yet.
#[derive(Clone, Copy)]
pub(crate) struct Met {
    pub(crate) table: u32,
    pub(crate) near: u32,
    pub(crate) place: u32,
    pub(crate) node: NodeId,
}

/// A relationship table, with the node tables at which its relationships are met and to which they
/// lead.
#[derive(Clone, Copy)]
pub(crate) struct Followed {
    pub(crate) table: u32,
    pub(crate) near: u32,
    pub(crate) far: u32,
}

/// Which relationships are followed: those of a type, in a direction.
#[derive(Drop)]
pub(crate) struct Follow<'g> {
    pub(crate) graph: &'g Graph,
    pub(crate) kind: &'g Text,
    pub(crate) way: Direction,
    // The tables of the type.
    pub(crate) tables: Vec<Followed>,
}

/// A node, and the relationship at it that is to be tried next: a table of the type, by its number
/// among these, the rows to which the node's relationships of this table lead, and a place there.
#[derive(Clone, Copy)]
pub(crate) struct Frame<'g> {
    pub(crate) at: NodeId,
    pub(crate) table: usize,
    pub(crate) near: Near<'g>,
    pub(crate) place: u32,
}

/// Finds the tables of a type.
pub(crate) fn follow_type<'g>(
    alloc: Global,
    graph: &'g Graph,
    kind: &'g Text,
    way: Direction,
) -> Result<Follow<'g>, Memory>
    ensures tables { IfOk result AreTables }
    ensures graph { IfOk result (λ f. f.graph.now ≡ graph.now) }
    ensures kind { IfOk result (λ f. f.kind.now ≡ kind.now) }
    ensures way { IfOk result (λ f. f.way ≡ way) }
{
    let tables = tables_in(alloc, graph.catalog(), kind, way)?;
    Ok(Follow {
        graph,
        kind,
        way,
        tables,
    })
}

// The tables of a type.
fn tables_in(
    alloc: Global,
    catalog: &Catalog,
    kind: &Text,
    way: Direction,
) -> Result<Vec<Followed>, Memory>
    ensures { IfOk result (λ tables. tables.items ≡ tables_of kind.now way 0 catalog.now.rels) }
{
    let mut tables = Vec::new(alloc);
    for table in 0..catalog.rel_tables() {
        let found = catalog.rel_table(table);
        if found.name.is(kind.as_str()) {
            tables.push(Followed {
                table,
                near: near_end(found, way),
                far: far_end(found, way),
            })?;
        }
    }
    Ok(tables)
}

fn near_end(table: &RelTable, way: Direction) -> u32
    ensures { result ≡ near_table way table.now }
{
    match way {
        Direction::Forward => table.from,
        Direction::Backward => table.to,
    }
}

fn far_end(table: &RelTable, way: Direction) -> u32
    ensures { result ≡ far_table way table.now }
{
    match way {
        Direction::Forward => table.to,
        Direction::Backward => table.from,
    }
}

/// A node where no relationship of a table was tried yet.
pub(crate) fn level_at<'g>(follow: &Follow<'g>, at: NodeId, table: usize) -> Frame<'g>
    requires tables { AreTables follow.now }
    requires node { is_node follow.now.graph.now at ≡ true }
    ensures level { IsLevel follow.now result }
    ensures start { IsStart at table result }
{
    Frame {
        at,
        table,
        near: near_of(follow, at, table),
        place: 0,
    }
}

// The rows to which the node's relationships of a table lead.
fn near_of<'g>(follow: &Follow<'g>, at: NodeId, table: usize) -> Near<'g>
    requires tables { AreTables follow.now }
    requires node { is_node follow.now.graph.now at ≡ true }
    ensures { IsNear follow.now at table result }
{
    match table_at(follow, table) {
        None => Near::One(None),
        Some(followed) => {
            if followed.near == at.table {
                near_at(follow.graph, followed.table, follow.way, at.row)
            } else {
                Near::One(None)
            }
        }
    }
}

/// The next relationship at a node, if there is one.
pub(crate) fn next_met<'g>(follow: &Follow<'g>, level: &mut Frame<'g>) -> Option<Met>
    requires tables { AreTables follow.now }
    requires level { IsLevel follow.now level.old }
    ensures { IsNextMet follow.now level.old level.new result }
{
    loop {
        if let Some(met) = met_here(follow, level) {
            level.place += 1;
            return Some(met);
        }
        if follow.tables.len() <= level.table {
            return None;
        }
        *level = level_at(follow, level.at, level.table + 1);
    }
}

/// The relationship at a level's place, if its table has one there.
pub(crate) fn met_here(follow: &Follow<'_>, level: &Frame<'_>) -> Option<Met>
    requires tables { AreTables follow.now }
    requires level { IsLevel follow.now level.now }
    ensures { IsMetHere follow.now level.now result }
{
    match table_at(follow, level.table) {
        None => None,
        Some(followed) => match level.near.get(level.place) {
            None => None,
            Some(row) => Some(Met {
                table: followed.table,
                near: level.at.row,
                place: level.place,
                node: NodeId {
                    table: followed.far,
                    row,
                },
            }),
        },
    }
}

// A table of the type, by its number among these.
fn table_at(follow: &Follow<'_>, table: usize) -> Option<Followed>
    ensures { result ≡ slice_get follow.now.tables.items table }
{
    follow.tables.get(table).copied()
}

/// Which relationship it is that is met.
pub(crate) fn hop_of(follow: &Follow<'_>, met: Met) -> Hop
    requires { IsSite follow.now met }
    ensures { IsHop follow.now met result }
{
    let graph = follow.graph;
    let edge = graph.edge_place(met.table, follow.way, met.near, met.place);
    Hop {
        rel: RelId {
            table: met.table,
            row: graph.edge_number(met.table, edge),
        },
        node: met.node,
    }
}
