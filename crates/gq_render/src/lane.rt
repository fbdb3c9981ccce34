//! The text of a value of a line, whether it was read before or not.

ghost use Rattle.std.specs.Prelude.{[], ◌<◌, length, slice_index_or};
ghost use Rattle.gq_base.specs.Values.{null};
ghost use Rattle.gq_cells.specs.Lanes.{lane_val};
ghost use Rattle.gq_io.specs.Causes.{HasCause};
ghost use Rattle.gq_io.specs.Putting.{Puts};
ghost use Rattle.gq_render.specs.Listings.{value_text};
ghost use Rattle.gq_render.specs.steps.Blocks.{HasLine, line_of};

use crate::block::Block;
use crate::value::{put_int, put_value};
use gq_cells::Lane;
use gq_io::{Batch, Failed, Sink};
use gq_store::Graph;

// Puts a value that was read.
#[inline(always)]
fn put_read<O: Sink>(
    batch: &mut Batch,
    out: &mut O,
    graph: &Graph,
    lane: &Lane<'_>,
    place: usize,
) -> Result<(), Failed>
    requires { place < 64 }
    ensures bytes { Puts (O.taken out.old) (O.taken out.new) batch.old batch.new
        (value_text graph.now (lane_val lane.now place)) result }
    ensures cause { HasCause (O.faults out.old) (O.faults out.new) result }
{
    if lane.has_integers {
        put_int(batch, out, lane.integers[place])
    } else {
        put_value(batch, out, graph, &lane.values[place])
    }
}

// Puts the value of a line in a column, which was not read.
#[inline(never)]
fn put_unread<O: Sink>(
    batch: &mut Batch,
    out: &mut O,
    block: &Block<'_, '_>,
    row: usize,
    column: usize,
) -> Result<(), Failed>
    requires row { HasLine block.now row }
    requires column { column < length (line_of block.now row) }
    ensures bytes { let value = slice_index_or (line_of block.now row) column null in
        Puts (O.taken out.old) (O.taken out.new) batch.old batch.new
        (value_text block.now.graph value) result }
    ensures cause { HasCause (O.faults out.old) (O.faults out.new) result }
{
    put_value(batch, out, block.graph(), &block.value(row, column))
}

/// Puts the value of a line in a column.
#[inline(always)]
pub(crate) fn put_at<O: Sink>(
    batch: &mut Batch,
    out: &mut O,
    block: &Block<'_, '_>,
    row: usize,
    column: usize,
) -> Result<(), Failed>
    requires row { HasLine block.now row }
    requires column { column < length (line_of block.now row) }
    ensures bytes { let value = slice_index_or (line_of block.now row) column null in
        Puts (O.taken out.old) (O.taken out.new) batch.old batch.new
        (value_text block.now.graph value) result }
    ensures cause { HasCause (O.faults out.old) (O.faults out.new) result }
{
    match block.lane(column) {
        Some(lane) => put_read(batch, out, block.graph(), lane, block.place(row)),
        None => put_unread(batch, out, block, row, column),
    }
}
