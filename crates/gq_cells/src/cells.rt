//! A list of values, each kept as a number and the place of its source.
ghost use Rattle.std.specs.Prelude.{◌≡◌, ℕ, ◌+◌, ◌*◌, ◌++◌, ◌∷◌, ◌<◌, ◌≤◌, [], IfOk, IsTrue, OnOk, Some};
ghost use Rattle.std.specs.Prelude.{length, nat_eq, slice_get, slice_index, slice_index_or, true};
ghost use Rattle.gq_base.specs.Values.{null, val};
ghost use Rattle.gq_base.specs.declared.value.Value.TheVariants as value;
ghost use Rattle.gq_bits.specs.Places.{is_marked};
ghost use Rattle.gq_cells.specs.Behind.{IsBehindBar};
ghost use Rattle.gq_cells.specs.Lanes.{lane_val};
ghost use Rattle.gq_cells.specs.Numbers.{IsNumber, number_val};
ghost use Rattle.gq_cells.specs.steps.Inner.{cell_of};

use crate::behind::{WINDOW, behind};
use crate::lane::Lane;
use crate::source::Source;
use gq_base::{Kind, Memory, Value};
use gq_bits::Marks;
use std::alloc::Global;
use std::marker::Model;

/// A number, and the place of the source that says what it stands for.
#[derive(Clone, Copy)]
struct Cell {
    source: u32,
    number: u32,
}

/// A list of values that takes eight bytes for each. It is seen as its values, beside the sources
/// that say what their numbers stand for.
#[derive(Drop)]
pub struct Cells<'g> {
    sources: Vec<Source<'g>>,
    cells: Vec<Cell>,
}

impl<'g> Model for Cells<'g> {
    ghost use Rattle.gq_cells.specs.Numbers.{Kept};
    ghost use Rattle.gq_cells.specs.steps.Inner.{AreNumbers, kept_of};

    ghost Value = { Kept };

    ghost view = { kept_of };

    ghost invariant = { AreNumbers };
}

impl<'g> Cells<'g> {
    /// No values and no sources. It takes no memory.
    pub fn new(alloc: Global) -> Cells<'g>
        ensures values { result.values ≡ [] }
        ensures sources { result.sources ≡ [] }
    {
        Cells {
            sources: Vec::new(alloc),
            cells: Vec::new(alloc),
        }
    }

    /// Adds a source, and answers its place.
    pub fn add(&mut self, source: Source<'g>) -> Result<u32, Memory>
        ensures place { IfOk result (λ place. place ≡ length self.old.sources) }
        ensures sources { OnOk result (self.new.sources ≡ self.old.sources ++ source.entry ∷ []) }
        ensures values { self.new.values ≡ self.old.values }
    {
        let place = self.sources.len();
        if place >= u32::MAX as usize {
            return Err(Memory::Limit);
        }
        self.sources.push(source)?;
        Ok(place as u32)
    }

    /// Appends what a number stands for by the source at a place.
    pub fn put(&mut self, source: u32, number: u32) -> Result<(), Memory>
        requires number { IsNumber (slice_get self.old.sources source) number }
        ensures values { OnOk result (self.new.values
            ≡ self.old.values ++ number_val (slice_get self.old.sources source) number ∷ []) }
        ensures sources { self.new.sources ≡ self.old.sources }
    {
        self.cells.push(Cell { source, number })?;
        Ok(())
    }

    /// What a number stands for by the source at a place. It is kept nowhere.
    #[inline(always)]
    pub fn read(&self, source: u32, number: u32) -> Value<'g>
        requires { IsNumber (slice_get self.now.sources source) number }
        ensures { val result ≡ number_val (slice_get self.now.sources source) number }
    {
        self.sources[source as usize].value(number)
    }

    /// Of at most `WINDOW` numbers from one on, those are marked, by how far they stand from it, whose
    /// values by the source at a place are found to come behind the bar.
    pub fn behind(&self, source: u32, first: u32, count: u32, down: bool, bar: &Value<'_>) -> Marks
        requires few { count ≤ WINDOW }
        requires numbers { (k : ℕ) → k < count
            → IsNumber (slice_get self.now.sources source) (first + k) }
        ensures { (k : ℕ) → is_marked result k ≡ true → (k < count)
            × IsBehindBar down (val bar.now)
            (number_val (slice_get self.now.sources source) (first + k)) }
    {
        match self.sources.get(source as usize) {
            None => Marks::none(),
            Some(source) => behind(source, first, count, down, bar),
        }
    }

    /// Whether the source at a place is a property of integers.
    pub fn has_integers(&self, source: u32) -> bool {
        match self.sources.get(source as usize) {
            Some(Source::Property(property)) => is_integer(property.kind()),
            Some(Source::Value(_)) | Some(Source::Node(_)) | Some(Source::Rel { .. }) | None =>
                false,
        }
    }

    /// How many values there are.
    pub fn len(&self) -> usize
        ensures { result ≡ length self.now.values }
    {
        self.cells.len()
    }

    /// Whether there are no values.
    pub fn is_empty(&self) -> bool
        ensures { result ≡ nat_eq (length self.now.values) 0 }
    {
        self.len() == 0
    }

    /// Whether two values, counted from 0, are kept by one source as one number: then they are the
    /// same.
    #[inline(always)]
    pub fn same(&self, one: usize, other: usize) -> bool
        requires one { one < length self.now.values }
        requires other { other < length self.now.values }
        ensures { IsTrue result → slice_index_or self.now.values one null
            ≡ slice_index_or self.now.values other null }
    {
        let first = self.cells[one];
        let second = self.cells[other];
        first.source == second.source && first.number == second.number
    }

    /// A value, counted from 0.
    #[inline(always)]
    pub fn value(&self, index: usize) -> Value<'g>
        requires { index < length self.now.values }
        ensures { val result ≡ slice_index_or self.now.values index null }
    {
        let cell = self.cells[index];
        self.sources[cell.source as usize].value(cell.number)
    }

    /// Reads values that stand so many places from one another, from a place on: in one loop, where
    /// one source has all of them.
    pub fn values(&self, first: usize, step: usize, count: usize, out: &mut Lane<'g>)
        requires few { count ≤ 64 }
        requires within { (k : ℕ) → k < count → first + k * step < length self.now.values }
        ensures { (k : ℕ) → k < count → lane_val out.new k
            ≡ slice_index_or self.now.values (first + k * step) null }
    {
        out.has_integers = false;
        if count == 0 {
            return;
        }
        let source = self.cells[first].source;
        let mut numbers = [0; 64];
        if numbers_of(
            self.cells.as_slice(),
            first,
            step,
            count,
            source,
            &mut numbers,
        ) {
            self.sources[source as usize].read(&numbers, count, out);
        } else {
            self.values_each(first, step, count, &mut out.values);
        }
    }

    // The same, each by its own source.
    fn values_each(&self, first: usize, step: usize, count: usize, out: &mut [Value<'g>; 64])
        requires few { count ≤ 64 }
        requires within { (k : ℕ) → k < count → first + k * step < length self.now.values }
        ensures { (k : ℕ) → k < count → val (slice_index_or out.new k value.Null)
            ≡ slice_index_or self.now.values (first + k * step) null }
    {
        // For the arithmetic: their number fits 64 bits.
        let _ = self.len();
        for place in 0..count {
            out[place] = self.value(first + place * step);
        }
    }
}

// Copies the numbers of cells that stand so many places from one another, from a place on. Where
// one of them has another source, the answer is false.
fn numbers_of(
    cells: &[Cell],
    first: usize,
    step: usize,
    count: usize,
    source: u32,
    numbers: &mut [u32; 64],
) -> bool
    requires few { count ≤ 64 }
    requires within { (k : ℕ) → k < count → first + k * step < length cells.now }
    ensures { IsTrue result → (k : ℕ) → k < count → slice_get cells.now (first + k * step)
        ≡ Some (cell_of source (slice_index numbers.new k)) }
{
    // For the arithmetic: their number fits 64 bits.
    let _ = cells.len();
    for place in 0..count {
        let cell = cells[first + place * step];
        if cell.source != source {
            return false;
        }
        numbers[place] = cell.number;
    }
    true
}

fn is_integer(kind: Kind) -> bool {
    match kind {
        Kind::Int => true,
        Kind::Flag | Kind::Str => false,
    }
}
