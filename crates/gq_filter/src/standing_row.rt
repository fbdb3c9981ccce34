//! A row of variables, in which one node variable takes the rows of a list.
ghost use Rattle.std.specs.Prelude.{◌<◌, length};
ghost use Rattle.gq_filter.specs.steps.RowCells.{AreInside};

use crate::source::Feed;
use gq_plan::Assignment;
use gq_store::Graph;

/// The lanes of variables' properties in a row, in which a node variable takes the rows of a list.
#[derive(Clone, Copy)]
pub(crate) struct StandingRow<'r> {
    pub(crate) graph: &'r Graph,
    pub(crate) feeds: &'r [Feed<'r>],
    pub(crate) row: &'r Assignment,
    pub(crate) variable: u32,
    ghost inside: { AreInside graph.now feeds.now },
    ghost there: { variable < length row.now.nodes },
}
