//! The neighbours of one row at a time.
ghost use Rattle.std.specs.Prelude.{◌≡◌, ◌<◌, ℕ, All, IfSome, None, Some, length, false, true};
ghost use Rattle.std.specs.Prelude.{if◌then◌else◌};
ghost use Rattle.gq_near.specs.Rows.{stands_in};
ghost use Rattle.gq_near.specs.steps.Marked.{may_have};
ghost use Rattle.gq_store.specs.Neighbours.{is_listed, near_rows, neighbours};

use gq_base::{Direction, Memory};
use gq_bits::{Marks, VECTOR};
use gq_store::Graph;
use std::alloc::Global;
use std::marker::Model;

/// How many rows of a list may be marked for each row that is asked for: to mark a row takes less
/// than a hundredth of what it takes to try a place of which nothing comes.
const WORTH: usize = 32;

/// The rows to which the relationships of a table lead from one row at a time, as bits. It is seen
/// as where these relationships are: which row they are followed from changes as it is asked.
#[derive(Drop)]
pub struct NearSet<'g> {
    graph: &'g Graph,
    table: u32,
    direction: Direction,
    // From so many rows relationships are followed.
    rows: u32,
    turned: Turned<'g>,
}

impl<'g> Model for NearSet<'g> {
    ghost use Rattle.gq_near.specs.Rows.{RowsAhead};
    ghost use Rattle.gq_near.specs.steps.Marked.{AreMarked, CanList};

    ghost Value = { RowsAhead };

    ghost view = { λ s. record {
      graph = s.graph.now;
      table = s.table;
      direction = s.direction;
    } };

    ghost invariant = { λ s. CanList s.graph.now s.table s.direction s.rows
        × AreMarked s.graph.now s.table s.direction s.turned.marked.items s.turned.of };
}

impl<'g> NearSet<'g> {
    /// The rows that the relationships of a table lead to in a direction, where they stand in lists.
    /// Its memory is taken here, a bit for each row to which they may lead; where there is none,
    /// there is no set.
    pub fn over(
        alloc: Global,
        graph: &'g Graph,
        table: u32,
        direction: Direction,
    ) -> Option<NearSet<'g>>
        requires { table < length graph.now.catalog.rels }
        ensures graph { IfSome result (λ s. s.graph ≡ graph.now) }
        ensures table { IfSome result (λ s. s.table ≡ table) }
        ensures direction { IfSome result (λ s. s.direction ≡ direction) }
    {
        if !graph.listed(table, direction) {
            return None;
        }
        let rows = end_count(graph, table, direction);
        let far = end_count(graph, table, direction.opposite());
        match no_marks(alloc, far) {
            Ok(marked) => Some(NearSet {
                graph,
                table,
                direction,
                rows,
                turned: turned_to_none(marked),
            }),
            Err(_) => None,
        }
    }

    /// Whether it is known that no relationship leads from one row to another. It is found out once
    /// a row was asked about often enough for its list to be worth while. It takes no memory.
    pub fn lacks(&mut self, from: u32, row: u32) -> bool
        ensures lacks { let s = self.old in result ≡ true →
            stands_in (neighbours s.graph s.table s.direction from) row ≡ false }
        ensures same { self.new ≡ self.old }
    {
        if !is_of(self.turned.of, from) {
            if from >= self.rows {
                return false;
            }
            let list = self.graph.list(self.table, self.direction, from);
            if !self.turned.turn(from, list) {
                return false;
            }
        }
        !has(self.turned.marked.as_slice(), row)
    }
}

// The list of one row, whose rows are marked.
#[derive(Drop)]
struct Turned<'g> {
    of: Option<u32>,
    list: &'g [u32],
    marked: Vec<Marks>,
    // The row that was asked about last, and how often.
    last: u32,
    asked: usize,
}

impl<'g> Turned<'g> {
    // Marks the list of a row, where that is worth while by now.
    fn turn(&mut self, from: u32, list: &'g [u32]) -> bool
        ensures of { self.new.of ≡ (if result then Some from else self.old.of) }
        ensures marked { result ≡ true →
            All (λ row. may_have self.new.marked.items row ≡ true) list.now }
        ensures kept { result ≡ false → self.new.marked.items ≡ self.old.marked.items }
    {
        self.asked = if self.last == from {
            self.asked.saturating_add(1)
        } else {
            1
        };
        self.last = from;
        if list.len() / WORTH > self.asked {
            return false;
        }
        unmark(&mut self.marked, self.list);
        mark(&mut self.marked, list);
        self.list = list;
        self.of = Some(from);
        true
    }
}

// No row's list is marked.
fn turned_to_none<'g>(marked: Vec<Marks>) -> Turned<'g>
    ensures { result.of ≡ None }
{
    Turned {
        of: None,
        list: &[],
        marked,
        last: 0,
        asked: 0,
    }
}

// Whether a row is the one that is told.
fn is_of(of: Option<u32>, row: u32) -> bool
    ensures { result ≡ true → of ≡ Some row }
{
    match of {
        None => false,
        Some(told) => told == row,
    }
}

// Whether a row may be marked: it is, or there is no mark for it.
fn has(marked: &[Marks], row: u32) -> bool
    ensures { result ≡ may_have marked.now row }
{
    match marked.get(row as usize / VECTOR as usize) {
        None => true,
        Some(marks) => marks.get(row % VECTOR),
    }
}

// How many rows the table has from which relationships are followed.
fn end_count(graph: &Graph, table: u32, direction: Direction) -> u32
    requires { table < length graph.now.catalog.rels }
    ensures { result ≡ near_rows graph.now table direction }
{
    let rel = graph.catalog().rel_table(table);
    match direction {
        Direction::Forward => graph.node_count(rel.from),
        Direction::Backward => graph.node_count(rel.to),
    }
}

// No marks, for so many rows.
fn no_marks(alloc: Global, rows: u32) -> Result<Vec<Marks>, Memory> {
    let mut marked = Vec::new(alloc);
    for _ in 0..rows.div_ceil(VECTOR) {
        marked.push(Marks::none())?;
    }
    Ok(marked)
}

// Takes the marks of rows away.
fn unmark(marked: &mut Vec<Marks>, rows: &[u32]) {
    for row in rows {
        match marked.get_mut(*row as usize / VECTOR as usize) {
            None => {}
            Some(marks) => marks.set(*row % VECTOR, false),
        }
    }
}

// Marks rows.
fn mark(marked: &mut Vec<Marks>, rows: &[u32])
    ensures { All (λ row. may_have marked.new.items row ≡ true) rows.now }
{
    for row in rows {
        mark_row(marked, *row);
    }
}

// Marks a row.
fn mark_row(marked: &mut Vec<Marks>, row: u32)
    ensures own { may_have marked.new.items row ≡ true }
    ensures others { (k : ℕ) → may_have marked.old.items k ≡ true →
        may_have marked.new.items k ≡ true }
{
    match marked.get_mut(row as usize / VECTOR as usize) {
        None => {}
        Some(marks) => marks.set(row % VECTOR, true),
    }
}
