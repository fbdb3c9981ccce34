//! The text of the first columns of a row, kept for the rows behind that have the same values there.

ghost use Rattle.std.specs.Prelude.{[], ◌≡◌, ◌+◌, ◌++◌, ◌<◌, ◌-◌, ◌≤◌, IfOk, length};
ghost use Rattle.std.specs.Prelude.{slice_index_or, true};
ghost use Rattle.gq_base.specs.Values.{null};
ghost use Rattle.gq_render.specs.Listings.{value_text};
ghost use Rattle.gq_render.specs.steps.Blocks.{HasLine, line_of};
ghost use Rattle.gq_render.specs.steps.Fronts.{AreStarts, IsCut, IsFront, IsShared, before_tab};

use crate::block::Block;
use crate::lane::put_at;
use gq_io::{Batch, Failed, Nowhere};

// A front has so many columns at most.
const MOST: usize = 16;

// Behind so many rows that have no first value in common with the next one ..
const MISSES: usize = 8;

// .. so many rows are put without asking.
const UNASKED: usize = 64;

/// The texts of the first columns of a row, each with its tab behind it. It has no columns where
/// their texts do not fit a batch.
#[derive(Drop)]
pub(crate) struct Front {
    pub(crate) text: Batch,
    pub(crate) held: usize,
    // Where the text of each column begins.
    starts: [usize; 16],
    // How many rows one after another had nothing in common with the next one, as far as is known.
    missed: usize,
}

impl Front {
    /// The front of no columns.
    pub(crate) fn new() -> Front
        ensures held { result.held ≡ 0 }
        ensures text { result.text ≡ [] }
    {
        Front {
            text: Batch::new(),
            held: 0,
            starts: [0; 16],
            missed: 0,
        }
    }

    /// Whether it does not pay to ask what the next row has in common with the one behind: the last
    /// rows that were asked had nothing.
    #[inline(always)]
    pub(crate) fn rests(&self) -> bool {
        self.held == 0 && self.missed >= MISSES && self.missed < MISSES + UNASKED
    }

    /// Notes how many first values a row has in common with the next one, as far as is known.
    #[inline(always)]
    pub(crate) fn note(&mut self, count: usize)
        ensures held { self.new.held ≡ self.old.held }
        ensures text { self.new.text ≡ self.old.text }
        ensures starts { self.new.starts ≡ self.old.starts }
    {
        if count > 0 {
            self.missed = 0;
        } else if self.missed < MISSES + UNASKED {
            self.missed += 1;
        } else {
            self.missed = MISSES;
        }
    }

    /// Puts the texts of further columns of a row, up to so many. Where they do not fit, the front
    /// has no columns.
    #[inline(always)]
    pub(crate) fn fill(&mut self, block: &Block<'_, '_>, row: usize, count: usize)
        requires row { HasLine block.now row }
        requires few { count ≤ length (line_of block.now row) - 1 }
        requires room { count ≤ 16 }
        requires front { IsFront block.now.graph (line_of block.now row) self.old }
        ensures { IsFront block.now.graph (line_of block.now row) self.new }
    {
        for column in self.held..count {
            self.starts[column] = self.text.len();
            match put_behind(&mut self.text, block, row, column) {
                Ok(()) => self.held = column + 1,
                Err(Failed) => {
                    self.text.truncate(0);
                    self.held = 0;
                    return;
                }
            }
        }
    }

    /// Leaves so many columns, or fewer where there are fewer.
    #[inline(always)]
    pub(crate) fn cut(&mut self, count: usize)
        requires room { self.old.held ≤ 16 }
        requires starts { AreStarts self.old }
        ensures { IsCut count self.old self.new }
    {
        if count < self.held {
            self.text.truncate(self.starts[count]);
            self.held = count;
        }
    }
}

// Puts the value of a line in a column and a tab behind a text, where there is room for them.
#[inline(never)]
fn put_behind(
    text: &mut Batch,
    block: &Block<'_, '_>,
    row: usize,
    column: usize,
) -> Result<(), Failed>
    requires row { HasLine block.now row }
    requires column { column < length (line_of block.now row) }
    ensures { let value = slice_index_or (line_of block.now row) column null in
        IfOk result (λ _. text.new ≡ text.old ++ before_tab (value_text block.now.graph value)) }
{
    let mut nowhere = Nowhere::new();
    put_at(text, &mut nowhere, block, row, column)?;
    text.put(&mut nowhere, b"\t")
}

/// How many of the first columns have the same value in a row and in the next one, at most so many
/// as a front has, and not the last column.
#[inline(always)]
pub(crate) fn shared(block: &Block<'_, '_>, row: usize) -> usize
    requires { HasLine block.now row }
    ensures { IsShared (line_of block.now row) (line_of block.now (row + 1)) result }
{
    let count = block.len();
    if count - row < 2 {
        return 0;
    }
    let next = row + 1;
    let width = block.width(row).min(block.width(next));
    let most = width.saturating_sub(1).min(MOST);
    for column in block.staying(row).min(most)..most {
        if !block.stays(next, column) {
            return column;
        }
    }
    most
}
