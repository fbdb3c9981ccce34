//! The rows from which relationships lead to chosen rows.
ghost use Rattle.std.specs.Prelude.{◌≡◌, ◌<◌, ◌≤◌, ◌+◌, ◌*◌, ◌&&◌, ℕ, Bool, All, IfSome, length};
ghost use Rattle.std.specs.Prelude.{true};
ghost use Rattle.gq_bits.specs.Places.{is_marked};
ghost use Rattle.gq_masks.specs.Masks.{AreReached, IsPart, may_have, may_reach, next_end};
ghost use Rattle.gq_store.specs.Neighbours.{near_rows, neighbours};

use crate::marked::Marked;
use gq_base::{Direction, Memory};
use gq_bits::{Marks, VECTOR};
use gq_store::Graph;
use std::alloc::Global;
use std::marker::Model;

/// To how many rows of both tables it takes as long to tell of them as to try one place of which
/// nothing comes.
const WORTH: u32 = 256;

/// The rows to which the relationships of a table lead from chosen rows, as bits. It is told of the
/// chosen rows piece by piece, `VECTOR` rows at a time. It is seen as where these relationships are,
/// of how many rows it is told, and which rows are marked.
#[derive(Drop)]
pub struct Mask<'g> {
    graph: &'g Graph,
    table: u32,
    direction: Direction,
    // From so many rows relationships are followed.
    rows: u32,
    told: u32,
    marked: Marked,
    // How often it is asked for before the first rows are told, and whether it is given up.
    wait: u32,
    ended: bool,
}

impl<'g> Model for Mask<'g> {
    ghost use Rattle.gq_masks.specs.Masks.{RowsReached};
    ghost use Rattle.gq_masks.specs.steps.Told.{IsTold};

    ghost Value = { RowsReached };

    ghost view = { λ m. record {
      graph = m.graph.now;
      table = m.table;
      direction = m.direction;
      told = m.told;
      marked = m.marked.pieces.items;
    } };

    ghost invariant = { λ m. IsTold m.graph.now m.table m.direction m.rows m.told };
}

impl<'g> Mask<'g> {
    /// The rows that the relationships of a table lead to in a direction from chosen rows, of which
    /// it is not told yet. Its memory is taken here, a bit for each row to which they may lead; where
    /// there is none, there is no mask.
    pub fn over(
        alloc: Global,
        graph: &'g Graph,
        table: u32,
        direction: Direction,
    ) -> Option<Mask<'g>>
        requires { table < length graph.now.catalog.rels }
        ensures graph { IfSome result (λ m. m.graph ≡ graph.now) }
        ensures table { IfSome result (λ m. m.table ≡ table) }
        ensures direction { IfSome result (λ m. m.direction ≡ direction) }
        ensures told { IfSome result (λ m. m.told ≡ 0) }
    {
        let rows = end_count(graph, table, direction);
        let far = end_count(graph, table, direction.opposite());
        match Marked::none(alloc, far) {
            Ok(marked) => Some(Mask {
                graph,
                table,
                direction,
                rows,
                told: 0,
                marked,
                wait: rows / WORTH + far / WORTH * 4,
                ended: false,
            }),
            Err(_) => None,
        }
    }

    /// Whether it is told of all rows from which the relationships are followed.
    pub fn is_whole(&self) -> bool
        ensures { let m = self.now in result ≡ true →
            near_rows m.graph m.table m.direction ≤ m.told }
    {
        self.told >= self.rows
    }

    /// Whether a relationship may lead to a row from one of the chosen rows of which it is told.
    pub fn has(&self, row: u32) -> bool
        ensures { result ≡ may_reach self.now row }
    {
        self.marked.has(row)
    }

    /// Of a piece of rows, `VECTOR` to each, keeps those to which a relationship may lead from one of
    /// the chosen rows of which it is told.
    pub fn keep(&self, piece: u32, marks: &mut Marks)
        ensures { (k : ℕ) → k < VECTOR → is_marked marks.new k ≡ (is_marked marks.old k
            && may_reach self.now (VECTOR * piece + k)) }
    {
        self.marked.keep(piece, marks);
    }

    /// Whether it is told of some rows yet: it is not told of all of them, and not given up.
    pub fn is_open(&self) -> bool
        ensures { let m = self.now in result ≡ true →
            m.told < near_rows m.graph m.table m.direction }
    {
        !self.ended && self.told < self.rows
    }

    /// Whether it is time to tell of the next rows: it is asked for often enough for that to be worth
    /// while, and not given up.
    pub fn is_due(&mut self) -> bool
        ensures { self.new ≡ self.old }
    {
        if self.wait > 0 {
            self.wait -= 1;
            return false;
        }
        self.is_open()
    }

    /// Of how many rows it is told.
    pub fn told(&self) -> u32
        ensures { result ≡ self.now.told }
    {
        self.told
    }

    /// Where the piece ends of which it is told next.
    pub fn next_end(&self) -> u32
        ensures end { result ≡ next_end self.now }
        ensures ahead { self.now.told ≤ result }
        ensures few { result ≤ self.now.told + VECTOR }
    {
        self.told + (self.rows - self.told).min(VECTOR)
    }

    /// Tells of the next piece which of its rows are chosen. It is given up where more rows would be
    /// marked than is worth while. It takes no memory.
    pub fn tell(&mut self, chosen: &Marks)
        ensures reached { (all : ℕ → Bool) → AreReached self.old all →
            IsPart all self.old.told (next_end self.old) chosen.now → AreReached self.new all }
        ensures graph { self.new.graph ≡ self.old.graph }
        ensures table { self.new.table ≡ self.old.table }
        ensures direction { self.new.direction ≡ self.old.direction }
    {
        let end = self.next_end();
        if mark_piece(
            self.graph,
            self.table,
            self.direction,
            self.told,
            end,
            chosen,
            &mut self.marked,
        ) {
            self.told = end;
        } else {
            self.ended = true;
        }
    }
}

// Marks the rows to which the relationships of chosen rows lead, of those from one on up to another,
// unless those are more than may be marked.
fn mark_piece(
    graph: &Graph,
    table: u32,
    direction: Direction,
    low: u32,
    high: u32,
    chosen: &Marks,
    marked: &mut Marked,
) -> bool
    requires table { table < length graph.now.catalog.rels }
    requires order { low ≤ high }
    requires few { high ≤ low + VECTOR }
    requires within { high ≤ near_rows graph.now table direction }
    ensures own { result ≡ true → (k : ℕ) → low + k < high → is_marked chosen.now k ≡ true →
        All (λ row. may_have marked.new.pieces.items row ≡ true)
        (neighbours graph.now table direction (low + k)) }
    ensures others { (k : ℕ) → may_have marked.old.pieces.items k ≡ true →
        may_have marked.new.pieces.items k ≡ true }
{
    for place in 0..high - low {
        if chosen.get(place) && !mark_ends(graph, table, direction, low + place, marked) {
            return false;
        }
    }
    true
}

// Marks the rows to which the relationships of a row lead, unless those are more than may be marked.
fn mark_ends(graph: &Graph, table: u32, direction: Direction, row: u32, marked: &mut Marked) -> bool
    requires table { table < length graph.now.catalog.rels }
    requires row { row < near_rows graph.now table direction }
    ensures own { result ≡ true → All (λ other. may_have marked.new.pieces.items other ≡ true)
        (neighbours graph.now table direction row) }
    ensures others { (k : ℕ) → may_have marked.old.pieces.items k ≡ true →
        may_have marked.new.pieces.items k ≡ true }
{
    if graph.listed(table, direction) {
        marked.mark(graph.list(table, direction, row))
    } else {
        marked.mark_one(graph.single(table, direction, row));
        true
    }
}

// How many rows the table has from which relationships are followed.
fn end_count(graph: &Graph, table: u32, direction: Direction) -> u32
    requires { table < length graph.now.catalog.rels }
    ensures { result ≡ near_rows graph.now table direction }
{
    let rel = graph.catalog().rel_table(table);
    match direction {
        Direction::Forward => graph.node_count(rel.from),
        Direction::Backward => graph.node_count(rel.to),
    }
}
