//! What the numbers of cells stand for.
ghost use Rattle.std.specs.Prelude.{◌≡◌, ℕ, ◌<◌, ◌≤◌, IsTrue, None, Some, length, pos};
ghost use Rattle.std.specs.Prelude.{slice_index, slice_index_or};
ghost use Rattle.gq_base.specs.Plain.{cell_val};
ghost use Rattle.gq_base.specs.Values.{int, val};
ghost use Rattle.gq_base.specs.declared.value.Value.TheVariants as value;
ghost use Rattle.gq_cells.specs.Lanes.{lane_val};
ghost use Rattle.gq_cells.specs.Numbers.{IsNumber, source_val};
ghost use Rattle.gq_column.specs.Cells.{cell_at};
ghost use Rattle.gq_store.specs.Columns.{decoded};

use crate::lane::Lane;
use gq_base::{Kind, NodeId, RelId, Value};
use gq_column::Column;
use gq_store::{Graph, Property};

/// What a number stands for.
#[derive(Clone, Copy)]
pub enum Source<'g> {
    /// This value, whatever the number is.
    Value(Value<'g>),
    /// The node of this table in the row of the number.
    Node(u32),
    /// The relationship of this table at the place of the number.
    Rel { graph: &'g Graph, table: u32 },
    /// The cell of this property at the number, which is a row or a place.
    Property(&'g Property),
}

impl<'g> Source<'g> {
    /// What a number stands for.
    #[inline(always)]
    pub(crate) fn value(&self, number: u32) -> Value<'g>
        requires { IsNumber (Some self.now) number }
        ensures { val result ≡ source_val self.now number }
    {
        match *self {
            Source::Value(value) => value,
            Source::Node(table) => Value::Node(NodeId { table, row: number }),
            Source::Rel { graph, table } => {
                let row = graph.edge_number(table, number);
                Value::Rel(RelId { table, row })
            }
            Source::Property(property) => property.value(number),
        }
    }

    /// Reads what numbers stand for, each into its place.
    pub(crate) fn read(&self, numbers: &[u32; 64], count: usize, out: &mut Lane<'g>)
        requires few { count ≤ 64 }
        requires numbers { (k : ℕ) → k < count →
            IsNumber (Some self.now) (slice_index numbers.now k) }
        ensures { (k : ℕ) → k < count → lane_val out.new k
            ≡ source_val self.now (slice_index numbers.now k) }
    {
        let Source::Property(property) = *self else {
            out.has_integers = false;
            return self.values_each(numbers, count, &mut out.values);
        };
        out.has_integers = integers_at(property, numbers, count, &mut out.integers);
        if !out.has_integers {
            property_values(property, numbers, count, &mut out.values);
        }
    }

    // The same of values, whatever the source is.
    fn values_each(&self, numbers: &[u32; 64], count: usize, out: &mut [Value<'g>; 64])
        requires few { count ≤ 64 }
        requires numbers { (k : ℕ) → k < count →
            IsNumber (Some self.now) (slice_index numbers.now k) }
        ensures { (k : ℕ) → k < count → val (slice_index_or out.new k value.Null)
            ≡ source_val self.now (slice_index numbers.now k) }
    {
        for place in 0..count {
            out[place] = self.value(numbers[place]);
        }
    }
}

// The values of a property at numbers, each in its place.
fn property_values<'g>(
    property: &'g Property,
    numbers: &[u32; 64],
    count: usize,
    out: &mut [Value<'g>; 64],
)
    requires few { count ≤ 64 }
    requires numbers { (k : ℕ) → k < count →
        slice_index numbers.now k < length (decoded property.now) }
    ensures { (k : ℕ) → k < count → val (slice_index_or out.new k value.Null)
        ≡ cell_val (slice_index_or (decoded property.now) (slice_index numbers.now k) None) }
{
    for place in 0..count {
        out[place] = property.value(numbers[place]);
    }
}

// Reads the integers of a property at numbers, each into its place. Where one of the values there is
// no integer, the answer is false.
fn integers_at(property: &Property, numbers: &[u32; 64], count: usize, out: &mut [i64; 64]) -> bool
    requires few { count ≤ 64 }
    requires numbers { (k : ℕ) → k < count →
        slice_index numbers.now k < length (decoded property.now) }
    ensures { IsTrue result → (k : ℕ) → k < count → int (slice_index_or out.new k (pos 0))
        ≡ cell_val (slice_index_or (decoded property.now) (slice_index numbers.now k) None) }
{
    match property.kind() {
        Kind::Int => cells_at(property.column(), numbers, count, out),
        Kind::Flag | Kind::Str => false,
    }
}

// Reads the cells of a column at numbers, each into its place. Where one of them is null, the answer
// is false.
fn cells_at(column: &Column, numbers: &[u32; 64], count: usize, out: &mut [i64; 64]) -> bool
    requires few { count ≤ 64 }
    requires numbers { (k : ℕ) → k < count → slice_index numbers.now k < length column.now }
    ensures { IsTrue result → (k : ℕ) → k < count
        → Some (slice_index_or out.new k (pos 0)) ≡ cell_at column.now (slice_index numbers.now k) }
{
    for place in 0..count {
        match column.get(numbers[place]) {
            Some(integer) => out[place] = integer,
            None => return false,
        }
    }
    true
}
