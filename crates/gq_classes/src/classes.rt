//! Rows of values, each once.
ghost use Rattle.std.specs.Prelude.{◌≡◌, ◌++◌, ◌≤◌, [], List, flat_map, length, map, slice_index_or};
ghost use Rattle.std.specs.Prelude.{IfOk, OnOk, nat_eq, replicate, take};
ghost use Rattle.gq_base.specs.Values.{Val, val};
ghost use Rattle.gq_classes.specs.Rows.{AreWide, Inserts};
ghost use Rattle.gq_classes.specs.steps.Levels.{CanLead, Fits, Leads, empty_row, keys_of, lists_of};
ghost use Rattle.gq_classes.specs.steps.Levels.{rows_from, texts_of};

use crate::key::Key;
use crate::level::Level;
use gq_base::{Memory, Value};
use indexmap::IndexSet;
use std::alloc::Global;
use std::marker::Model;

/// Rows of values, each once, in the order of their first. A row is held as a path through levels,
/// one for each of its values: it takes no memory of its own, and what it begins with is shared.
#[derive(Drop)]
pub struct Classes<'g> {
    levels: Vec<Level>,
    texts: IndexSet<&'g str>,
    count: usize,
}

impl<'g> Model for Classes<'g> {
    ghost use Rattle.std.specs.Prelude.{List};
    ghost use Rattle.gq_base.specs.Values.{Val};
    ghost use Rattle.gq_classes.specs.steps.Inner.{AreClasses, rows_of};

    ghost Value = { List (List Val) };

    ghost view = { rows_of };

    ghost invariant = { AreClasses };
}

impl<'g> Classes<'g> {
    /// No rows. It takes no memory.
    pub fn new(alloc: Global) -> Classes<'g>
        ensures { result ≡ [] }
    {
        Classes {
            levels: Vec::new(alloc),
            texts: IndexSet::new(alloc),
            count: 0,
        }
    }

    /// How many rows there are.
    pub fn len(&self) -> usize
        ensures { result ≡ length self.now }
    {
        self.count
    }

    /// Whether there are no rows.
    pub fn is_empty(&self) -> bool
        ensures { result ≡ nat_eq (length self.now) 0 }
    {
        self.len() == 0
    }

    /// Adds a row, unless there is one with the same values, and tells whether it was added.
    pub fn insert(&mut self, row: &[Value<'g>]) -> Result<bool, Memory>
        requires wide { AreWide (length row.now) self.old }
        ensures { Inserts self.old (map val row.now) self.new result }
    {
        fit(&mut self.levels, &mut self.count, row.len())?;
        let number = number_behind(self.levels.as_mut_slice(), &mut self.texts, 0, row)? as usize;
        let new = number >= self.count;
        if new {
            self.count += 1;
        }
        Ok(new)
    }

    /// The values of the rows, one row after another. What finds rows is given up before a value is
    /// made.
    pub fn into_values(self, alloc: Global) -> Result<Vec<Value<'g>>, Memory>
        ensures { IfOk result (λ values.
            map val values.items ≡ flat_map (λ row. row) self.entry) }
    {
        let Classes {
            levels,
            texts,
            count,
        } = self;
        let lists = key_lists(alloc, levels)?;
        all_values(alloc, lists.as_slice(), &texts, count)
    }
}

// The keys of levels.
fn key_lists(alloc: Global, levels: Vec<Level>) -> Result<Vec<Vec<Key>>, Memory>
    ensures { IfOk result (λ lists. lists_of lists.items ≡ keys_of levels.items) }
{
    let mut lists = Vec::new(alloc);
    'levels: for level in levels {
        lists.push(key_list(alloc, level)?)?;
    }
    Ok(lists)
}

// The keys of a level.
fn key_list(alloc: Global, level: Level) -> Result<Vec<Key>, Memory>
    ensures { IfOk result (λ keys. keys.items ≡ level.keys.keys) }
{
    let Level { keys, last: _ } = level;
    let mut list = Vec::new(alloc);
    'keys: for key in keys {
        list.push(key)?;
    }
    Ok(list)
}

// The values of so many rows of levels, one row after another.
fn all_values<'g>(
    alloc: Global,
    levels: &[Vec<Key>],
    texts: &IndexSet<&'g str>,
    count: usize,
) -> Result<Vec<Value<'g>>, Memory>
    requires { count ≤ length (rows_from (texts_of texts.now) empty_row (lists_of levels.now)) }
    ensures { let rows = take count (rows_from (texts_of texts.now) empty_row (lists_of levels.now)) in
        IfOk result (λ values. map val values.items ≡ flat_map (λ row. row) rows) }
{
    let mut values = Vec::new(alloc);
    'rows: for number in 0..count {
        append_row(levels, texts, number, &mut values)?;
    }
    Ok(values)
}

// So many levels without keys.
fn empty_levels(alloc: Global, width: usize) -> Result<Vec<Level>, Memory>
    ensures { IfOk result (λ levels. keys_of levels.items ≡ replicate width []) }
{
    let mut levels = Vec::with_capacity(alloc, width)?;
    'levels: for _ in 0..width {
        levels.push(Level::new(alloc))?;
    }
    Ok(levels)
}

// Begins anew where there are not so many levels, as at first.
fn fit(levels: &mut Vec<Level>, count: &mut usize, width: usize) -> Result<(), Memory>
    ensures { Fits width levels.old.items levels.new.items count.old count.new result }
{
    if levels.len() == width {
        return Ok(());
    }
    *levels = empty_levels(*levels.allocator(), width)?;
    *count = 0;
    Ok(())
}

// The number of the front that goes on by values.
fn number_behind<'g>(
    levels: &mut [Level],
    texts: &mut IndexSet<&'g str>,
    front: u32,
    row: &[Value<'g>],
) -> Result<u32, Memory>
    ensures { (fronts : List (List Val))
        → CanLead (texts_of texts.old) fronts (keys_of levels.old) front (map val row.now)
        → Leads (texts_of texts.old) (texts_of texts.new) fronts (keys_of levels.old)
        (keys_of levels.new) front (map val row.now) result }
{
    let Some((level, levels)) = levels.split_first_mut() else {
        return Ok(front);
    };
    let Some((value, row)) = row.split_first() else {
        return Ok(front);
    };
    let number = level.number(front, *value, texts)?;
    number_behind(levels, texts, number, row)
}

// Appends the values of the row of a number.
fn append_row<'g>(
    levels: &[Vec<Key>],
    texts: &IndexSet<&'g str>,
    number: usize,
    values: &mut Vec<Value<'g>>,
) -> Result<(), Memory>
    ensures { let rows = rows_from (texts_of texts.now) empty_row (lists_of levels.now) in
        OnOk result (map val values.new.items
        ≡ map val values.old.items ++ slice_index_or rows number []) }
{
    let [levels @ .., level] = levels else {
        return Ok(());
    };
    let Some(key) = level.get(number) else {
        return Ok(());
    };
    append_row(levels, texts, key.front() as usize, values)?;
    values.push(key.value(texts))?;
    Ok(())
}
