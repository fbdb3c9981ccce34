//! Relationships at a node, place by place.
ghost use Rattle.std.specs.Prelude.{◌≡◌, ◌^◌, ◌<◌, length, slice_get, IfSome};
ghost use Rattle.gq_base.specs.Directions.{opposite};
ghost use Rattle.gq_store.specs.Neighbours.{near_rows, neighbours};
ghost use Rattle.gq_steps.specs.steps.Hops.{IsHopAt};

use gq_base::Direction;
use gq_store::Graph;

/// A relationship that is followed: its load number, and the row to which it leads.
#[derive(Clone, Copy)]
pub struct Hop {
    pub number: u32,
    pub row: u32,
}

/// The relationship at a place among those of a table that are followed from a row, in load order.
pub(crate) fn hop_at(
    graph: &Graph,
    table: u32,
    direction: Direction,
    row: u32,
    place: u32,
) -> Option<Hop>
    requires within { table < length graph.now.catalog.rels }
    requires row { row < near_rows graph.now table direction }
    ensures { IsHopAt graph.now table direction row place result }
{
    let other = neighbour(graph, table, direction, row, place)?;
    let edge = graph.edge_place(table, direction, row, place);
    Some(Hop {
        number: graph.edge_number(table, edge),
        row: other,
    })
}

/// The row to which the relationship at a place leads, among those that are followed from a row.
pub(crate) fn neighbour(
    graph: &Graph,
    table: u32,
    direction: Direction,
    row: u32,
    place: u32,
) -> Option<u32>
    requires within { table < length graph.now.catalog.rels }
    requires row { row < near_rows graph.now table direction }
    ensures found { result ≡ slice_get (neighbours graph.now table direction row) place }
    ensures ends { IfSome result (λ other. other < near_rows graph.now table (opposite direction)) }
    ensures few { length (neighbours graph.now table direction row) < 2 ^ 32 }
{
    if graph.listed(table, direction) {
        graph
            .list(table, direction, row)
            .get(place as usize)
            .copied()
    } else {
        let only = graph.single(table, direction, row);
        if place == 0 { only } else { None }
    }
}

/// How many relationships of a table are followed from a row.
pub(crate) fn degree(graph: &Graph, table: u32, direction: Direction, row: u32) -> u32
    requires within { table < length graph.now.catalog.rels }
    requires row { row < near_rows graph.now table direction }
    ensures { result ≡ length (neighbours graph.now table direction row) }
{
    if graph.listed(table, direction) {
        graph.list(table, direction, row).len() as u32
    } else {
        match graph.single(table, direction, row) {
            Some(_) => 1,
            None => 0,
        }
    }
}
