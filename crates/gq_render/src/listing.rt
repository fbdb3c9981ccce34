//! Listings: the names of their columns, a line for each row, and how many rows there are.

ghost use Rattle.std.specs.Prelude.{[], ◌≡◌, ◌+◌, ◌<◌, ◌≤◌, codes, drop, flat_map, length, map, slice_index_or};
ghost use Rattle.gq_base.specs.Values.{val};
ghost use Rattle.gq_io.specs.Causes.{HasCause};
ghost use Rattle.gq_io.specs.Outside.{Writes};
ghost use Rattle.gq_io.specs.Putting.{Puts};
ghost use Rattle.gq_render.specs.steps.Fronts.{IsFront};
ghost use Rattle.gq_render.specs.Listings.{column_names, count_text, end_rows_text, ends_text};
ghost use Rattle.gq_render.specs.Listings.{header_text, listing_text, row_text, value_text};
ghost use Rattle.gq_render.specs.Texts.{after_tab, name_text, tabbed};

use crate::block::Block;
use crate::name::put_name;
use crate::rows::{put_row, put_rows, put_tab};
use crate::value::put_count;
use gq_io::{Batch, Failed, Sink};
use gq_plan::{Bound, NamedExpr};
use gq_rows::Listing;
use gq_store::Graph;

fn put_next_name<O: Sink>(batch: &mut Batch, out: &mut O, name: &str) -> Result<(), Failed>
    ensures bytes { Puts (O.taken out.old) (O.taken out.new) batch.old batch.new
        (after_tab (name_text name.now)) result }
    ensures cause { HasCause (O.faults out.old) (O.faults out.new) result }
{
    put_tab(batch, out)?;
    put_name(batch, out, name)
}

// Puts the names of columns, each behind a tab.
fn put_other_names<O: Sink>(
    batch: &mut Batch,
    out: &mut O,
    columns: &[NamedExpr],
) -> Result<(), Failed>
    ensures bytes { Puts (O.taken out.old) (O.taken out.new) batch.old batch.new
        (flat_map (λ column. after_tab (name_text column.name)) columns.now) result }
    ensures cause { HasCause (O.faults out.old) (O.faults out.new) result }
{
    for column in columns {
        put_next_name(batch, out, column.name.as_str())?;
    }
    Ok(())
}

fn put_names<O: Sink>(batch: &mut Batch, out: &mut O, columns: &[NamedExpr]) -> Result<(), Failed>
    ensures bytes { Puts (O.taken out.old) (O.taken out.new) batch.old batch.new
        (tabbed (map name_text (map (λ column. column.name) columns.now))) result }
    ensures cause { HasCause (O.faults out.old) (O.faults out.new) result }
{
    let [first, others @ ..] = columns else {
        return Ok(());
    };
    put_name(batch, out, first.name.as_str())?;
    put_other_names(batch, out, others)
}

// Puts the line of the columns' names.
fn put_header<O: Sink>(batch: &mut Batch, out: &mut O, columns: &[NamedExpr]) -> Result<(), Failed>
    ensures bytes { Puts (O.taken out.old) (O.taken out.new) batch.old batch.new
        (header_text (map (λ column. column.name) columns.now)) result }
    ensures cause { HasCause (O.faults out.old) (O.faults out.new) result }
{
    put_names(batch, out, columns)?;
    batch.put(out, b"\n")
}

// Puts the last line: how many rows there are.
pub(crate) fn put_row_count<O: Sink>(
    batch: &mut Batch,
    out: &mut O,
    count: usize,
) -> Result<(), Failed>
    ensures bytes { Puts (O.taken out.old) (O.taken out.new) batch.old batch.new
        (count_text count) result }
    ensures cause { HasCause (O.faults out.old) (O.faults out.new) result }
{
    batch.put(out, b"rows ")?;
    put_count(batch, out, count)?;
    batch.put(out, b"\n")
}

fn put_listing<O: Sink>(
    batch: &mut Batch,
    out: &mut O,
    graph: &Graph,
    bound: &Bound,
    listing: &Listing<'_>,
) -> Result<(), Failed>
    ensures bytes { Puts (O.taken out.old) (O.taken out.new) batch.old batch.new
        (listing_text (column_names bound.now) graph.now listing.now.lines) result }
    ensures cause { HasCause (O.faults out.old) (O.faults out.new) result }
{
    put_header(batch, out, bound.columns.as_slice())?;
    put_rows(batch, out, graph, listing)?;
    put_row_count(batch, out, listing.len())
}

/// Writes the reply of a query: the names of its columns, as `write_name` writes them, a line for
/// each row with its values, as `write_value` writes them, and `rows N` with the number of rows.
/// One tab stands between names and between values. It takes no memory. After `Failed` the sink
/// took some front of that text.
pub fn write_listing<O: Sink>(
    out: &mut O,
    graph: &Graph,
    bound: &Bound,
    listing: &Listing<'_>,
) -> Result<(), Failed>
    ensures bytes { Writes (O.taken out.old) (O.taken out.new)
        (listing_text (column_names bound.now) graph.now listing.now.lines) result }
    ensures cause { HasCause (O.faults out.old) (O.faults out.new) result }
{
    let mut batch = Batch::new();
    put_listing(&mut batch, out, graph, bound, listing)?;
    batch.flush(out)
}

/// Writes the line of a row, counted from 0, with its LF, as `write_listing` writes it. It takes no
/// memory. After `Failed` the sink took some front of that text.
pub fn write_row<O: Sink>(
    out: &mut O,
    graph: &Graph,
    listing: &Listing<'_>,
    row: usize,
) -> Result<(), Failed>
    requires { row < length listing.now.lines }
    ensures bytes { Writes (O.taken out.old) (O.taken out.new)
        (row_text graph.now (slice_index_or listing.now.lines row [])) result }
    ensures cause { HasCause (O.faults out.old) (O.faults out.new) result }
{
    let mut batch = Batch::new();
    put_row(&mut batch, out, &Block::plain(graph, listing), row)?;
    batch.flush(out)
}

// Puts the line of the first row and that of the last one, if there are rows.
fn put_end_rows<O: Sink>(
    batch: &mut Batch,
    out: &mut O,
    graph: &Graph,
    listing: &Listing<'_>,
) -> Result<(), Failed>
    ensures bytes { Puts (O.taken out.old) (O.taken out.new) batch.old batch.new
        (end_rows_text graph.now listing.now.lines) result }
    ensures cause { HasCause (O.faults out.old) (O.faults out.new) result }
{
    let count = listing.len();
    if count == 0 {
        return Ok(());
    }
    let block = Block::plain(graph, listing);
    put_row(batch, out, &block, 0)?;
    put_row(batch, out, &block, count - 1)
}

fn put_ends<O: Sink>(
    batch: &mut Batch,
    out: &mut O,
    graph: &Graph,
    listing: &Listing<'_>,
) -> Result<(), Failed>
    ensures bytes { Puts (O.taken out.old) (O.taken out.new) batch.old batch.new
        (ends_text graph.now listing.now.lines) result }
    ensures cause { HasCause (O.faults out.old) (O.faults out.new) result }
{
    put_end_rows(batch, out, graph, listing)?;
    put_row_count(batch, out, listing.len())
}

/// Writes the lines of the first and of the last row of a listing, also where they are one row, and
/// `rows N` with the number of rows, as `write_listing` writes them. Where there are no rows it
/// writes `rows 0` alone. It takes no memory. After `Failed` the sink took some front of that text.
pub fn write_ends<O: Sink>(out: &mut O, graph: &Graph, listing: &Listing<'_>) -> Result<(), Failed>
    ensures bytes { Writes (O.taken out.old) (O.taken out.new)
        (ends_text graph.now listing.now.lines) result }
    ensures cause { HasCause (O.faults out.old) (O.faults out.new) result }
{
    let mut batch = Batch::new();
    put_ends(&mut batch, out, graph, listing)?;
    batch.flush(out)
}
