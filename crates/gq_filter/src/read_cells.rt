//! The cells that lanes have in one row as expressions read it.
ghost use Rattle.std.specs.Prelude.{◌≡◌, ◌≤◌, IfSome, length};
ghost use Rattle.gq_filter.specs.steps.ReadCells.{AreFeeds, AreFilled, IsFeed, IsFilled};

use crate::cells::Cells;
use crate::row_cells::{cell_at, rel_lane};
use crate::source::Feed;
use gq_expr::Assigned;
use gq_plan::Variable;
use gq_store::Graph;

/// The most lanes whose cells are read.
pub(crate) const LANES: usize = 4;

/// The cells of the first lanes, each read once.
#[derive(Clone, Copy)]
pub(crate) struct ReadCells {
    cells: [Option<i64>; LANES],
}

impl Cells for ReadCells {
    ghost use Rattle.gq_filter.specs.steps.ReadCells.{lane_in};

    ghost cell = { λ c lane. lane_in c.cells lane };

    fn cell(&self, lane: u32) -> Option<i64> {
        match self.cells.get(lane as usize) {
            Some(cell) => *cell,
            None => None,
        }
    }
}

/// The cells of a row, where what it has at the variables of the feeds is of the feeds' tables.
pub(crate) fn read_cells<R: Assigned>(
    graph: &Graph,
    feeds: &[Feed<'_>],
    row: &R,
) -> Option<ReadCells>
    requires few { length feeds.now ≤ 4 }
    requires feeds { AreFeeds graph.now feeds.now }
    ensures { let filled = AreFilled graph.now (R.assignment row.now) feeds.now (length feeds.now) in
        IfSome result (λ read. filled read.cells) }
{
    let mut cells = [None; LANES];
    for lane in 0..feeds.len() {
        match read_cell(graph, &feeds[lane], row) {
            None => return None,
            Some(cell) => cells[lane] = cell,
        }
    }
    Some(ReadCells { cells })
}

// The cell of a feed in a row, where the row has nothing at the feed's variable, or what is of the
// feed's table.
fn read_cell<R: Assigned>(graph: &Graph, feed: &Feed<'_>, row: &R) -> Option<Option<i64>>
    requires { IsFeed graph.now feed.now }
    ensures { IfSome result (IsFilled graph.now (R.assignment row.now) feed.now) }
{
    let column = feed.column;
    match feed.variable {
        Variable::Node(variable) => match row.node(variable) {
            None => Some(None),
            Some(node) => if node.table == column.table {
                Some(cell_at(feed.property.column(), node.row))
            } else {
                None
            },
        },
        Variable::Rel(variable) => match row.rel(variable) {
            None => Some(None),
            Some(rel) => if rel.table == column.table {
                Some(rel_lane(graph, column, rel.row))
            } else {
                None
            },
        },
    }
}
