//! The lines that a table of rows answers.
ghost use Rattle.std.specs.Prelude.{◌≡◌, All, IfOk, List, length, true};
ghost use Rattle.gq_kept.specs.Answers.{Lists, at_most, columns_of, most_listed, window};
ghost use Rattle.gq_kept.specs.Tables.{AnswersListings, Holds, StandsForSome};
ghost use Rattle.gq_listed.specs.Listed.{held_in, is_listing};
ghost use Rattle.gq_plan.specs.Outcomes.{Row};
ghost use Rattle.gq_rows.specs.steps.Sinks.{held_by, is_listed};
ghost use Rattle.gq_rows.specs.steps.Arranging.{ArrangesRows, ChoosesRows, IsWindowOf, ListsRows};
ghost use Rattle.gq_values.specs.Keeping.{HoldsOf, held_of};
ghost use Rattle.gq_values.specs.Sorting.{HasFirsts};

use crate::listed_rows::ListedRows;
use crate::listing::{Lines, Listing, Values};
use crate::sink::Sink;
use crate::table::RowTable;
use crate::top_rows::TopRows;
use gq_base::Memory;
use gq_listed::Listed;
use gq_plan::Bound;
use gq_values::{Rows, first_rows, sort};
use std::alloc::Global;

// The rows of which any arrangement answers.
fn chosen_rows<'g>(alloc: Global, bound: &Bound, rows: Rows<'g>) -> Result<Rows<'g>, Memory>
    ensures { IfOk result (ChoosesRows bound.now rows.entry) }
{
    if bound.distinct {
        return first_rows(alloc, rows);
    }
    Ok(rows)
}

// The rows in the order of their keys.
fn arranged<'g>(alloc: Global, bound: &Bound, rows: Rows<'g>) -> Result<Rows<'g>, Memory>
    ensures { IfOk result (ArrangesRows bound.now rows.entry) }
{
    if bound.keys.is_empty() {
        return Ok(rows);
    }
    let most = rows.count;
    let mut all = rows;
    sort(alloc, &mut all, bound, most)?;
    Ok(all)
}

// Where the rows end that may be listed.
fn end_of(bound: &Bound, count: usize) -> usize
    ensures { result ≡ at_most (most_listed bound.now) count }
{
    match bound.limit {
        None => count,
        Some(limit) => count.min(bound.skip.saturating_add(limit) as usize),
    }
}

// The first rows dropped, and at most so many kept.
fn window_of<'g>(bound: &Bound, rows: Rows<'g>) -> Lines<'g>
    requires { (list : List Row) × HoldsOf bound.now list rows }
    ensures window { (list : List Row) → HoldsOf bound.now list rows.entry
        → result ≡ columns_of (window bound.now list) }
    ensures wide { All (λ line. length line ≡ length bound.now.columns) result }
{
    let Rows {
        columns,
        keys: _,
        count,
        seen: _,
        bar: _,
    } = rows;
    Lines {
        values: Values::Made(columns),
        width: bound.columns.len(),
        skip: bound.skip as usize,
        end: end_of(bound, count),
    }
}

// The lines of the rows that are listed as they come.
fn listed_lines<'g>(bound: &Bound, rows: ListedRows<'g>) -> Lines<'g>
    requires listing { is_listing bound.now ≡ true }
    requires holds { (list : List Row) × Holds bound.now list (held_in rows.listed) }
    ensures lists { (list : List Row) → Holds bound.now list (held_in rows.entry.listed)
        → Lists bound.now list result }
    ensures wide { All (λ line. length line ≡ length bound.now.columns) result }
{
    let ListedRows {
        form: _,
        listed,
        done: _,
        finders: _,
        held: _,
    } = rows;
    let Listed { cells, count } = listed;
    // The number of values fits its type.
    let _ = cells.len();
    Lines {
        values: Values::Kept(cells),
        width: bound.columns.len(),
        skip: bound.skip as usize,
        end: end_of(bound, count),
    }
}

// The window of an arrangement of rows.
fn arranged_window<'g>(alloc: Global, bound: &Bound, rows: Rows<'g>) -> Result<Lines<'g>, Memory>
    requires { (list : List Row) × HoldsOf bound.now list rows }
    ensures window { IfOk result (IsWindowOf bound.now rows.entry) }
    ensures wide { IfOk result (λ lines.
        All (λ line. length line ≡ length bound.now.columns) lines) }
{
    let all = arranged(alloc, bound, rows)?;
    Ok(window_of(bound, all))
}

// The lines of the rows that are held.
fn listing_of<'g>(alloc: Global, bound: &Bound, rows: Rows<'g>) -> Result<Lines<'g>, Memory>
    requires { (list : List Row) × Holds bound.now list (held_of rows) }
    ensures lists { IfOk result (ListsRows bound.now rows.entry) }
    ensures wide { IfOk result (λ lines.
        All (λ line. length line ≡ length bound.now.columns) lines) }
{
    let all = chosen_rows(alloc, bound, rows)?;
    arranged_window(alloc, bound, all)
}

// The lines of a sink.
fn lines_in<'g>(alloc: Global, bound: &Bound, sink: Sink<'g>) -> Result<Lines<'g>, Memory>
    requires listing { is_listing bound.now ≡ is_listed sink }
    requires holds { (list : List Row) × Holds bound.now list (held_by sink) }
    ensures lists { IfOk result (λ lines. (list : List Row) →
        Holds bound.now list (held_by sink.entry) → Lists bound.now list lines) }
    ensures wide { IfOk result (λ lines.
        All (λ line. length line ≡ length bound.now.columns) lines) }
{
    match sink {
        Sink::Listed(rows) => Ok(listed_lines(bound, rows)),
        Sink::Kept(rows) => listing_of(alloc, bound, rows),
        Sink::Top(TopRows { most: _, rows }) => listing_of(alloc, bound, rows),
        Sink::Classes(rows) => listing_of(alloc, bound, rows),
    }
}

impl<'g> RowTable<'g> {
    /// The lines that answer the listings of outcomes that the table stands for. A table that
    /// refused an assignment stands for none.
    pub fn finish(self) -> Result<Listing<'g>, Memory>
        requires { StandsForSome self }
        ensures lines { IfOk result (λ l. AnswersListings self.entry l.lines) }
        ensures columns { IfOk result (λ l. l.columns ≡ length self.entry.bound.columns) }
        ensures wide { IfOk result (λ l. All (λ line. length line ≡ l.columns) l.lines) }
        ensures pushed { IfOk result (λ l. l.pushed ≡ self.entry.pushed) }
    {
        let RowTable {
            alloc,
            bound,
            typed: _,
            graph: _,
            limit: _,
            sure: _,
            sink,
            reading: _,
            first: _,
            pushed,
            choice: _,
        } = self;
        match lines_in(alloc, bound, sink) {
            Ok(lines) => Ok(Listing {
                lines,
                columns: bound.columns.len(),
                pushed,
            }),
            Err(memory) => Err(memory),
        }
    }
}
