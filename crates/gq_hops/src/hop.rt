//! The rows to which a row's relationships of a table lead, as the graph keeps them.
ghost use Rattle.std.specs.Prelude.{◌≡◌, ◌^◌, ◌<◌, All, length, slice_get};
ghost use Rattle.gq_base.specs.Directions.{opposite};
ghost use Rattle.gq_store.specs.Neighbours.{near_rows, neighbours};
ghost use Rattle.gq_hops.specs.steps.Nears.{rows_in};

use gq_base::Direction;
use gq_store::Graph;

/// The rows to which a row's relationships of a table lead: a borrowed list, or one row at most.
#[derive(Clone, Copy)]
pub(crate) enum Near<'g> {
    Many(&'g [u32]),
    One(Option<u32>),
}

impl Near<'_> {
    /// The row at a place.
    pub(crate) fn get(&self, place: u32) -> Option<u32>
        ensures { result ≡ slice_get (rows_in self.now) place }
    {
        match self {
            Near::Many(rows) => rows.get(place as usize).copied(),
            Near::One(row) => { if place == 0 { *row } else { None } }
        }
    }
}

/// The rows to which a row's relationships of a table lead, in load order. Nothing is copied.
pub(crate) fn near_at<'g>(graph: &'g Graph, table: u32, way: Direction, row: u32) -> Near<'g>
    requires within { table < length graph.now.catalog.rels }
    requires row { row < near_rows graph.now table way }
    ensures rows { rows_in result ≡ neighbours graph.now table way row }
    ensures ends { All (λ other. other < near_rows graph.now table (opposite way)) (rows_in result) }
    ensures few { length (rows_in result) < 2 ^ 32 }
{
    if graph.listed(table, way) {
        Near::Many(graph.list(table, way, row))
    } else {
        Near::One(graph.single(table, way, row))
    }
}
