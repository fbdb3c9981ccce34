//! The lines of a listing as they are put: the values of some lines are read before, column by
//! column, so that what one waits for does not wait for another.

ghost use Rattle.std.specs.Prelude.{[], ◌≡◌, ℕ, ◌+◌, ◌-◌, ◌<◌, ◌≤◌, IfSome, IsTrue, length};
ghost use Rattle.std.specs.Prelude.{slice_index_or};
ghost use Rattle.std.specs.List.{All};
ghost use Rattle.gq_base.specs.Values.{null, val};
ghost use Rattle.gq_render.specs.steps.Blocks.{AllStaying, AreRead, HasLine, HasRead, IsSame};
ghost use Rattle.gq_render.specs.steps.Blocks.{Staying, line_of};

use gq_base::Value;
use gq_cells::Lane;
use gq_rows::Listing;
use gq_store::Graph;
use std::marker::Model;

/// At most so many lines are read at once.
pub(crate) const LINES: usize = 64;

/// Of so many of the first columns values are read before, and of others when they are put.
const COLUMNS: usize = 8;

/// The lines of a listing over a graph, from one on and to below another, as they are put: those of
/// which the values were read, or all of them.
#[derive(Drop)]
pub(crate) struct Block<'b, 'g> {
    graph: &'b Graph,
    listing: &'b Listing<'g>,
    // What was read of these lines, column by column, from column `staying` on.
    lanes: &'b [Lane<'g>],
    first: usize,
    end: usize,
    // In so many of the first columns these lines have the same values.
    staying: usize,
}

impl<'b, 'g> Model for Block<'b, 'g> {
    ghost use Rattle.gq_render.specs.steps.Blocks.{IsBlock, Shown, shown};

    ghost Value = { Shown };

    ghost view = { shown };

    ghost invariant = { IsBlock };
}

impl<'b, 'g> Block<'b, 'g> {
    /// All lines of a listing, of which no values were read.
    pub(crate) fn plain(graph: &'b Graph, listing: &'b Listing<'g>) -> Block<'b, 'g>
        ensures graph { result.graph ≡ graph.now }
        ensures lines { result.lines ≡ listing.now.lines }
        ensures first { result.first ≡ 0 }
        ensures end { result.end ≡ length listing.now.lines }
    {
        Block {
            graph,
            listing,
            lanes: &[],
            first: 0,
            end: listing.len(),
            staying: 0,
        }
    }

    /// The lines of a listing of which the values were read.
    pub(crate) fn read(
        graph: &'b Graph,
        listing: &'b Listing<'g>,
        lanes: &'b [Lane<'g>; 8],
        first: usize,
        end: usize,
        staying: usize,
    ) -> Block<'b, 'g>
        requires { AreRead listing.now.lines first end staying lanes.now }
        ensures graph { result.graph ≡ graph.now }
        ensures lines { result.lines ≡ listing.now.lines }
        ensures first { result.first ≡ first }
        ensures end { result.end ≡ end }
    {
        Block {
            graph,
            listing,
            lanes,
            first,
            end,
            staying,
        }
    }

    /// The graph.
    pub(crate) fn graph(&self) -> &'b Graph
        ensures { result.now ≡ self.now.graph }
    {
        self.graph
    }

    /// How many lines the listing has.
    pub(crate) fn len(&self) -> usize
        ensures { result ≡ length self.now.lines }
    {
        self.listing.len()
    }

    /// How many values a line has.
    pub(crate) fn width(&self, row: usize) -> usize
        requires { row < length self.now.lines }
        ensures { result ≡ length (line_of self.now row) }
    {
        self.listing.width(row)
    }

    /// The value of a line in a column, both counted from 0.
    pub(crate) fn value(&self, row: usize, column: usize) -> Value<'g>
        requires row { row < length self.now.lines }
        requires column { column < length (line_of self.now row) }
        ensures { val result ≡ slice_index_or (line_of self.now row) column null }
    {
        self.listing.value(row, column)
    }

    /// The values of the lines in a column, where they were read.
    #[inline(always)]
    pub(crate) fn lane(&self, column: usize) -> Option<&'b Lane<'g>>
        ensures { IfSome result (λ lane.
            HasRead self.now.lines self.now.first self.now.end column lane.now) }
    {
        if column < self.staying || column >= self.lanes.len() {
            return None;
        }
        Some(&self.lanes[column])
    }

    /// Where a lane has the value of a line.
    #[inline(always)]
    pub(crate) fn place(&self, row: usize) -> usize
        requires { HasLine self.now row }
        ensures { result ≡ row - self.now.first }
    {
        row - self.first
    }

    /// Whether the value of a line in a column, both counted from 0, is kept as that of the line
    /// before is: then they are the same.
    #[inline(always)]
    pub(crate) fn stays(&self, row: usize, column: usize) -> bool
        requires behind { 0 < row }
        requires row { row < length self.now.lines }
        requires column { column < length (slice_index_or self.now.lines row []) }
        ensures { let lines = self.now.lines in IsTrue result
            → slice_index_or (slice_index_or lines (row - 1) []) column null
            ≡ slice_index_or (slice_index_or lines row []) column null }
    {
        self.listing.stays(row, column)
    }

    /// How many of the first values a line has in common with the next one, as far as is known
    /// without a look at them.
    #[inline(always)]
    pub(crate) fn staying(&self, row: usize) -> usize
        requires { HasLine self.now row }
        ensures { Staying self.now.lines row result }
    {
        if self.end - row > 1 { self.staying } else { 0 }
    }
}

/// Reads the values of some lines, and answers how many of the first columns have the same values in
/// all of them.
pub(crate) fn read_lines<'g>(
    listing: &Listing<'g>,
    lanes: &mut [Lane<'g>; 8],
    first: usize,
    end: usize,
) -> usize
    requires some { first < end }
    requires few { end - first ≤ 64 }
    requires within { end ≤ length listing.now.lines }
    ensures { AreRead listing.now.lines first end result lanes.new }
{
    let width = listing.width(first);
    let most = width.saturating_sub(1).min(COLUMNS);
    let staying = staying_columns(listing, first, end, most);
    for column in staying..width.min(COLUMNS) {
        listing.values(first, end - first, column, &mut lanes[column]);
    }
    staying
}

// How many of so many first columns have the same values in some lines, as far as is known.
fn staying_columns(listing: &Listing<'_>, first: usize, end: usize, most: usize) -> usize
    requires some { first < end }
    requires within { end ≤ length listing.now.lines }
    requires columns { All (λ line. most ≤ length line) listing.now.lines }
    ensures most { result ≤ most }
    ensures same { AllStaying listing.now.lines first end result }
{
    for column in 0..most {
        if !stays_in(listing, first, end, column) {
            return column;
        }
    }
    most
}

// Whether the values of a column are known to be the same in some lines.
fn stays_in(listing: &Listing<'_>, first: usize, end: usize, column: usize) -> bool
    requires some { first < end }
    requires within { end ≤ length listing.now.lines }
    requires column { All (λ line. column < length line) listing.now.lines }
    ensures { IsTrue result → IsSame listing.now.lines first end column }
{
    for row in first + 1..end {
        if !listing.stays(row, column) {
            return false;
        }
    }
    true
}
