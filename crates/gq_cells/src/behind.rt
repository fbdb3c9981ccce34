//! Which of the numbers that follow one another stand for values behind a bar. Cells of integers are
//! compared many at once, and no value is made of them.
ghost use Rattle.std.specs.Prelude.{◌≡◌, ◌+◌, ◌<◌, ◌≤◌, ℕ, Some, false, is_some, length, true};
ghost use Rattle.gq_base.specs.Values.{val};
ghost use Rattle.gq_bits.specs.Places.{is_marked};
ghost use Rattle.gq_cells.specs.Behind.{IsBehindBar};
ghost use Rattle.gq_cells.specs.Numbers.{IsNumber, source_val};
ghost use Rattle.gq_cells.specs.steps.Cells.{IsBehindInt};
ghost use Rattle.gq_column.specs.Cells.{cell_at};

use crate::source::Source;
use gq_base::{Kind, Value};
use gq_bits::Marks;
use gq_column::Column;
use gq_lanes::{LaneOp, keep_const};

/// How many numbers are looked at together.
pub const WINDOW: u32 = 128;

/// Of so many numbers from one on, those are marked, by how far they stand from it, whose values are
/// found to come behind the bar in the ascending order, or in the descending one.
pub(crate) fn behind(
    source: &Source<'_>,
    first: u32,
    count: u32,
    down: bool,
    bar: &Value<'_>,
) -> Marks
    requires few { count ≤ WINDOW }
    requires numbers { (k : ℕ) → k < count → IsNumber (Some source.now) (first + k) }
    ensures { (k : ℕ) → is_marked result k ≡ true → (k < count)
        × IsBehindBar down (val bar.now) (source_val source.now (first + k)) }
{
    let Source::Property(property) = *source else {
        return Marks::none();
    };
    if count == 0 {
        return Marks::none();
    }
    let column = property.column();
    match (*bar, property.kind()) {
        (Value::Int(bar), Kind::Int) => integers_behind(column, first, count, down, bar),
        (Value::Null, _) => if down {
            known_among(column, first, count)
        } else {
            Marks::none()
        },
        _ => Marks::none(),
    }
}

// Those of which the cell is known: null comes first in the descending order.
fn known_among(column: &Column, first: u32, count: u32) -> Marks
    requires few { count ≤ WINDOW }
    requires inside { first + count ≤ length column.now }
    ensures { (k : ℕ) → is_marked result k ≡ true → (k < count)
        × (is_some (cell_at column.now (first + k)) ≡ true) }
{
    // For the contract: its length fits 32 bits.
    let _ = column.len();
    let mut cells = [0; WINDOW as usize];
    let mut known = Marks::none();
    column.gather_span(first, first + count, &mut cells, &mut known);
    known
}

// The same of cells of integers.
fn integers_behind(column: &Column, first: u32, count: u32, down: bool, bar: i64) -> Marks
    requires few { count ≤ WINDOW }
    requires inside { first + count ≤ length column.now }
    ensures { (k : ℕ) → is_marked result k ≡ true → (k < count)
        × IsBehindInt down bar (cell_at column.now (first + k)) }
{
    // For the contract: its length fits 32 bits.
    let _ = column.len();
    let mut cells = [0; WINDOW as usize];
    let mut known = Marks::none();
    column.gather_span(first, first + count, &mut cells, &mut known);
    let mut marks = Marks::first(count);
    if down {
        keep_const(LaneOp::Less, &cells, bar, &known, &mut marks);
        return marks;
    }
    let mut ahead = Marks::first(count);
    keep_const(LaneOp::LessEqual, &cells, bar, &known, &mut ahead);
    marks.and_not(&ahead);
    marks
}
