//! A column that grows at its end, whose cells stand from the first on where they will stay.
ghost use Rattle.std.specs.Prelude.{◌≡◌, [], ◌∷◌, ◌++◌, ◌^◌, ◌<◌, length, IfOk, OnOk};

use crate::Column;
use gq_base::Memory;
use gq_bits::BitList;
use std::alloc::Global;
use std::marker::Model;

/// The cells of a column so far. It is seen as the list of them.
#[derive(Drop)]
pub struct ColumnBuilder {
    // Whether each cell is not null.
    flags: Vec<bool>,
    // The cells that are not null.
    kept: Vec<i64>,
}

impl Model for ColumnBuilder {
    ghost use Rattle.std.specs.Prelude.{◌≡◌, List, ℤ, Option, length, count_by};
    ghost use Rattle.gq_column.specs.steps.Cells.{flagged};

    ghost Value = { List (Option ℤ) };

    ghost view = { λ b. flagged b.flags.items b.kept.items };

    ghost invariant = { λ b. length b.kept.items ≡ count_by (λ on. on) b.flags.items };
}

impl ColumnBuilder {
    /// No cells, with room for so many.
    pub fn with_capacity(alloc: Global, rows: u32) -> Result<ColumnBuilder, Memory>
        ensures { IfOk result (λ cells. cells ≡ []) }
    {
        Ok(ColumnBuilder {
            flags: Vec::with_capacity(alloc, rows as usize)?,
            kept: Vec::with_capacity(alloc, rows as usize + 1)?,
        })
    }

    /// Appends a cell.
    pub fn push(&mut self, cell: Option<i64>) -> Result<(), Memory>
        ensures { OnOk result (self.new ≡ self.old ++ cell ∷ []) }
    {
        // With room for the flag nothing fails behind the cell.
        self.flags.reserve(1)?;
        if let Some(value) = cell {
            self.kept.push(value)?;
            self.flags.push_reserved(true);
        } else {
            self.flags.push_reserved(false);
        }
        Ok(())
    }

    /// The column of the cells. Room that is left over is given back.
    pub fn build(self, alloc: Global) -> Result<Column, Memory>
        requires { length self < 2 ^ 32 }
        ensures { IfOk result (λ column. column ≡ self) }
    {
        let ColumnBuilder { flags, mut kept } = self;
        kept.push(0)?;
        kept.shrink_to_fit();
        let present = BitList::from_bools(alloc, flags.as_slice())?;
        Ok(Column { present, kept })
    }
}
