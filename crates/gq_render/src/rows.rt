//! The lines of rows.

ghost use Rattle.std.specs.Prelude.{[], ◌≡◌, ◌+◌, ◌<◌, ◌≤◌, OnOk, codes, drop, flat_map, length, map};
ghost use Rattle.std.specs.Prelude.{slice_index_or, take, ◌-◌};
ghost use Rattle.gq_base.specs.Values.{null};
ghost use Rattle.gq_io.specs.Causes.{HasCause};
ghost use Rattle.gq_io.specs.Putting.{Puts};
ghost use Rattle.gq_render.specs.steps.Blocks.{HasLine, HasLines, line_of};
ghost use Rattle.gq_render.specs.steps.Fronts.{IsFront, IsShared};
ghost use Rattle.gq_render.specs.Listings.{row_text, value_text};
ghost use Rattle.gq_render.specs.Texts.{after_tab, tabbed};

use crate::block::{Block, LINES, read_lines};
use crate::front::{Front, shared};
use crate::lane::put_at;
use gq_cells::Lane;
use gq_io::{Batch, Failed, Sink};
use gq_rows::Listing;
use gq_store::Graph;

// Puts what stands between two names and between two values.
pub(crate) fn put_tab<O: Sink>(batch: &mut Batch, out: &mut O) -> Result<(), Failed>
    ensures bytes { Puts (O.taken out.old) (O.taken out.new) batch.old batch.new
        (codes "\t") result }
    ensures cause { HasCause (O.faults out.old) (O.faults out.new) result }
{
    batch.put(out, b"\t")
}

#[inline(always)]
fn put_next_value<O: Sink>(
    batch: &mut Batch,
    out: &mut O,
    block: &Block<'_, '_>,
    row: usize,
    column: usize,
) -> Result<(), Failed>
    requires row { HasLine block.now row }
    requires column { column < length (line_of block.now row) }
    ensures bytes { let value = slice_index_or (line_of block.now row) column null in
        Puts (O.taken out.old) (O.taken out.new) batch.old batch.new
        (after_tab (value_text block.now.graph value)) result }
    ensures cause { HasCause (O.faults out.old) (O.faults out.new) result }
{
    put_tab(batch, out)?;
    put_at(batch, out, block, row, column)
}

// Puts the values of a line from a column on, each behind a tab.
#[inline(always)]
fn put_other_values<O: Sink>(
    batch: &mut Batch,
    out: &mut O,
    block: &Block<'_, '_>,
    row: usize,
    first: usize,
) -> Result<(), Failed>
    requires row { HasLine block.now row }
    requires first { first ≤ length (line_of block.now row) }
    ensures bytes { let values = drop first (line_of block.now row) in
        Puts (O.taken out.old) (O.taken out.new) batch.old batch.new
        (flat_map (λ value. after_tab (value_text block.now.graph value)) values) result }
    ensures cause { HasCause (O.faults out.old) (O.faults out.new) result }
{
    for column in first..block.width(row) {
        put_next_value(batch, out, block, row, column)?;
    }
    Ok(())
}

// Puts the values of a line from a column on.
#[inline(always)]
fn put_values<O: Sink>(
    batch: &mut Batch,
    out: &mut O,
    block: &Block<'_, '_>,
    row: usize,
    first: usize,
) -> Result<(), Failed>
    requires row { HasLine block.now row }
    ensures bytes { let values = drop first (line_of block.now row) in
        Puts (O.taken out.old) (O.taken out.new) batch.old batch.new
        (tabbed (map (value_text block.now.graph) values)) result }
    ensures cause { HasCause (O.faults out.old) (O.faults out.new) result }
{
    if block.width(row) <= first {
        return Ok(());
    }
    put_at(batch, out, block, row, first)?;
    put_other_values(batch, out, block, row, first + 1)
}

// Puts the line of a row from a column on.
#[inline(always)]
fn put_rest<O: Sink>(
    batch: &mut Batch,
    out: &mut O,
    block: &Block<'_, '_>,
    row: usize,
    first: usize,
) -> Result<(), Failed>
    requires row { HasLine block.now row }
    ensures bytes { Puts (O.taken out.old) (O.taken out.new) batch.old batch.new
        (row_text block.now.graph (drop first (line_of block.now row))) result }
    ensures cause { HasCause (O.faults out.old) (O.faults out.new) result }
{
    put_values(batch, out, block, row, first)?;
    batch.put(out, b"\n")
}

// Puts the line of a row.
#[inline(always)]
pub(crate) fn put_row<O: Sink>(
    batch: &mut Batch,
    out: &mut O,
    block: &Block<'_, '_>,
    row: usize,
) -> Result<(), Failed>
    requires { HasLine block.now row }
    ensures bytes { Puts (O.taken out.old) (O.taken out.new) batch.old batch.new
        (row_text block.now.graph (line_of block.now row)) result }
    ensures cause { HasCause (O.faults out.old) (O.faults out.new) result }
{
    put_rest(batch, out, block, row, 0)
}

// Puts the line of a row, of which the front is the text of the first columns.
#[inline(always)]
fn put_behind_front<O: Sink>(
    batch: &mut Batch,
    out: &mut O,
    block: &Block<'_, '_>,
    row: usize,
    front: &Front,
) -> Result<(), Failed>
    requires row { HasLine block.now row }
    requires front { IsFront block.now.graph (line_of block.now row) front.now }
    ensures bytes { Puts (O.taken out.old) (O.taken out.new) batch.old batch.new
        (row_text block.now.graph (line_of block.now row)) result }
    ensures cause { HasCause (O.faults out.old) (O.faults out.new) result }
{
    if front.held == 0 {
        return put_row(batch, out, block, row);
    }
    batch.put(out, front.text.bytes())?;
    put_rest(batch, out, block, row, front.held)
}

// Puts the line of a row, of which the front has first columns. What columns are found to have in
// common with the next row is left in the front.
#[inline(always)]
fn put_next_row<O: Sink>(
    batch: &mut Batch,
    out: &mut O,
    block: &Block<'_, '_>,
    row: usize,
    front: &mut Front,
) -> Result<(), Failed>
    requires row { HasLine block.now row }
    requires front { IsFront block.now.graph (line_of block.now row) front.old }
    ensures bytes { Puts (O.taken out.old) (O.taken out.new) batch.old batch.new
        (row_text block.now.graph (line_of block.now row)) result }
    ensures cause { HasCause (O.faults out.old) (O.faults out.new) result }
    ensures front { IsFront block.now.graph (line_of block.now (row + 1)) front.new }
{
    let count = found_shared(block, row, front);
    front.fill(block, row, count);
    let result = put_behind_front(batch, out, block, row, front);
    front.cut(count);
    front.note(count);
    result
}

// How many of the first columns a row is found to have in common with the next one. They are not
// looked at where that does not pay.
#[inline(always)]
fn found_shared(block: &Block<'_, '_>, row: usize, front: &Front) -> usize
    requires { HasLine block.now row }
    ensures { IsShared (line_of block.now row) (line_of block.now (row + 1)) result }
{
    if front.rests() { 0 } else { shared(block, row) }
}

// Puts lines, from a row on to below another one. What columns of a row have in common with the next
// one is put once.
#[inline(never)]
fn put_lines<O: Sink>(
    batch: &mut Batch,
    out: &mut O,
    block: &Block<'_, '_>,
    front: &mut Front,
    first: usize,
    end: usize,
) -> Result<(), Failed>
    requires lines { HasLines block.now first end }
    requires front { IsFront block.now.graph (line_of block.now first) front.old }
    ensures bytes { let lines = take (end - first) (drop first block.now.lines) in
        Puts (O.taken out.old) (O.taken out.new) batch.old batch.new
        (flat_map (row_text block.now.graph) lines) result }
    ensures cause { HasCause (O.faults out.old) (O.faults out.new) result }
    ensures front { OnOk result (IsFront block.now.graph (line_of block.now end) front.new) }
{
    for row in first..end {
        put_next_row(batch, out, block, row, front)?;
    }
    Ok(())
}

// The same of at most 64 lines, whose values are read before.
fn put_read_lines<'g, O: Sink>(
    batch: &mut Batch,
    out: &mut O,
    graph: &Graph,
    listing: &Listing<'g>,
    lanes: &mut [Lane<'g>; 8],
    front: &mut Front,
    first: usize,
    end: usize,
) -> Result<(), Failed>
    requires some { first < end }
    requires few { end - first ≤ 64 }
    requires within { end ≤ length listing.now.lines }
    requires front { IsFront graph.now (slice_index_or listing.now.lines first []) front.old }
    ensures bytes { let lines = take (end - first) (drop first listing.now.lines) in
        Puts (O.taken out.old) (O.taken out.new) batch.old batch.new
        (flat_map (row_text graph.now) lines) result }
    ensures cause { HasCause (O.faults out.old) (O.faults out.new) result }
    ensures front { OnOk result
        (IsFront graph.now (slice_index_or listing.now.lines end []) front.new) }
{
    let staying = read_lines(listing, lanes, first, end);
    let block = Block::read(graph, listing, lanes, first, end, staying);
    put_lines(batch, out, &block, front, first, end)
}

// Puts the line of each row, some of them at a time.
#[inline(never)]
fn put_blocks<'g, O: Sink>(
    batch: &mut Batch,
    out: &mut O,
    graph: &Graph,
    listing: &Listing<'g>,
    lanes: &mut [Lane<'g>; 8],
    front: &mut Front,
) -> Result<(), Failed>
    requires none { front.old.held ≡ 0 }
    requires empty { front.old.text ≡ [] }
    ensures bytes { Puts (O.taken out.old) (O.taken out.new) batch.old batch.new
        (flat_map (row_text graph.now) listing.now.lines) result }
    ensures cause { HasCause (O.faults out.old) (O.faults out.new) result }
{
    let len = listing.len();
    let mut first = 0;
    while first < len {
        let end = first + (len - first).min(LINES);
        put_read_lines(batch, out, graph, listing, lanes, front, first, end)?;
        first = end;
    }
    Ok(())
}

/// Puts the line of each row.
pub(crate) fn put_rows<O: Sink>(
    batch: &mut Batch,
    out: &mut O,
    graph: &Graph,
    listing: &Listing<'_>,
) -> Result<(), Failed>
    ensures bytes { Puts (O.taken out.old) (O.taken out.new) batch.old batch.new
        (flat_map (row_text graph.now) listing.now.lines) result }
    ensures cause { HasCause (O.faults out.old) (O.faults out.new) result }
{
    let mut front = Front::new();
    let len = listing.len();
    if len < LINES / 2 || !listing.is_kept() {
        let block = Block::plain(graph, listing);
        return put_lines(batch, out, &block, &mut front, 0, len);
    }
    put_blocks(
        batch,
        out,
        graph,
        listing,
        &mut [Lane::new(); 8],
        &mut front,
    )
}
