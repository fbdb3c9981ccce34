//! A graph as queries read it.
ghost use Rattle.std.specs.Prelude.{◌≡◌, ◌≢◌, ◌+◌, ◌<◌, ◌≤◌, ◌^◌, ℕ, true, false, length};
ghost use Rattle.std.specs.Prelude.{slice_get, All, IfOk, IfSome, Some, None};
ghost use Rattle.gq_adj.specs.Adjacent.{targets};
ghost use Rattle.gq_base.specs.Directions.{opposite};
ghost use Rattle.gq_base.specs.Plain.{cell_val, rels_at};
ghost use Rattle.gq_base.specs.Valid.{is_valid, row_count};
ghost use Rattle.gq_base.specs.Values.{val};
ghost use Rattle.gq_base.specs.declared.Mult.TheVariants.{ManyMany};
ghost use Rattle.gq_store.specs.Cells.{node_cell, node_fields, rel_cell, rel_fields};
ghost use Rattle.gq_store.specs.Columns.{decoded, node_cells};
ghost use Rattle.gq_store.specs.Neighbours.{is_listed, mult_at, near_ends, near_rows, neighbours};
ghost use Rattle.gq_store.specs.Neighbours.{numbers};
ghost use Rattle.gq_store.specs.Places.{by_source, first_number, number_at};
ghost use Rattle.gq_store.specs.RelColumns.{rel_cells};
ghost use Rattle.gq_store.specs.Singles.{AreSingles};
ghost use Rattle.gq_store.specs.steps.Stored.{IsLinked, IsSide};

use crate::building::{all_nodes, all_rels};
use crate::links::{Links, Places, Side};
use crate::property::{Property, TableCells};
use gq_base::{Catalog, Direction, Memory, Value};
use gq_edges::Single;
use gq_plain::PlainGraph;
use std::alloc::Global;
use std::marker::Model;
use std::snapshot::Snapshot;

/// A valid graph: for each relationship table the neighbours of each row in both directions and the
/// places of the relationships, and for each property a column of its cells, those of nodes by row
/// and those of relationships by place. It is seen as the plain graph of which it was made, which
/// stands for contracts alone.
///
/// Tables, rows and load numbers are counted from 0. The load number of a relationship is its
/// number among those of its table as they stand in the file; its place goes by its ends. The place
/// is the row of the source where a source has one relationship at most, else the row of the target
/// where a target has one at most, else the number in the order of sources and, for each source, of
/// load numbers.
#[derive(Drop)]
pub struct Graph {
    // The plain graph that this one stands for, for contracts alone: it has no bytes.
    of: Snapshot<PlainGraph>,
    catalog: Catalog,
    links: Vec<Links>,
    // The cells of nodes by row, and those of relationships by place.
    nodes: Vec<TableCells>,
    rels: Vec<TableCells>,
}

impl Model for Graph {
    ghost use Rattle.std.specs.Prelude.{◌≡◌, true};
    ghost use Rattle.gq_base.specs.Plain.{Graph as Plain};
    ghost use Rattle.gq_base.specs.Valid.{is_valid};

    ghost Value = { Plain };

    ghost use Rattle.gq_store.specs.steps.Kept.{IsStored};

    ghost view = { λ g. g.of.value };

    ghost invariant = { λ g.
        IsStored g.of.value g.catalog g.nodes.items g.rels.items g.links.items };
}

impl Graph {
    /// Stores a plain graph, which is used up: the rows of a table are dropped once their cells are
    /// kept. It takes some steps for each row and for each relationship, and n log n for n texts of
    /// a property. After `Memory` the plain graph is dropped.
    pub fn build(alloc: Global, plain: PlainGraph) -> Result<Graph, Memory>
        requires { is_valid plain ≡ true }
        ensures { IfOk result (λ graph. graph ≡ plain) }
    {
        let of = Snapshot::of(&plain);
        let mut plain = plain;
        let nodes = all_nodes(alloc, &mut plain)?;
        let mut links = Vec::with_capacity(alloc, plain.catalog().rel_tables() as usize)?;
        let rels = all_rels(alloc, &of, nodes.as_slice(), &mut plain, &mut links)?;
        Ok(Graph {
            of,
            catalog: plain.into_catalog(),
            links,
            nodes,
            rels,
        })
    }

    /// The tables with their fields.
    pub fn catalog(&self) -> &Catalog
        ensures value { result.now ≡ self.now.catalog }
        ensures valid { is_valid self.now ≡ true }
    {
        let _ = &self.links;
        &self.catalog
    }

    /// Nothing is done: a contract that needs it learns here that a stored graph is valid.
    pub fn stands_valid(&self)
        ensures { is_valid self.now ≡ true }
    {
        let _ = &self.links;
    }

    /// How many rows a node table has.
    #[inline(always)]
    pub fn node_count(&self, table: u32) -> u32
        requires { table < length self.now.catalog.nodes }
        ensures { result ≡ row_count self.now.nodes table }
    {
        self.nodes[table as usize].rows
    }

    /// How many relationships a relationship table has.
    #[inline(always)]
    pub fn rel_count(&self, rel: u32) -> u32
        requires { rel < length self.now.catalog.rels }
        ensures { result ≡ length (rels_at self.now rel) }
    {
        self.rels[rel as usize].rows
    }

    /// Whether a row may have many relationships of a table in a direction. It is false forward
    /// where a source has one at most, and backward where a target has one at most.
    pub fn listed(&self, rel: u32, direction: Direction) -> bool
        requires { rel < length self.now.catalog.rels }
        ensures { result ≡ is_listed self.now rel direction }
    {
        matches!(self.side(rel, direction), Side::Listed(_))
    }

    /// The rows that a row's relationships lead to, in load order, where a row may have many.
    /// Nothing is copied.
    pub fn list(&self, rel: u32, direction: Direction, row: u32) -> &[u32]
        requires within { rel < length self.now.catalog.rels }
        requires listed { is_listed self.now rel direction ≡ true }
        requires row { row < near_rows self.now rel direction }
        ensures neighbours { result.now ≡ neighbours self.now rel direction row }
        ensures ends { All (λ other.
            other < near_rows self.now rel (opposite direction)) result.now }
        ensures few { length result.now < 2 ^ 32 }
    {
        match self.side(rel, direction) {
            Side::Listed(lists) => lists.list(row),
            Side::Single(_) => unreachable!(),
        }
    }

    /// The row that a row's relationship leads to, where a row has one at most, or `None` where it
    /// has none.
    pub fn single(&self, rel: u32, direction: Direction, row: u32) -> Option<u32>
        requires within { rel < length self.now.catalog.rels }
        requires single { is_listed self.now rel direction ≡ false }
        requires row { row < near_rows self.now rel direction }
        ensures neighbour { result ≡ slice_get (neighbours self.now rel direction row) 0 }
        ensures one { length (neighbours self.now rel direction row) ≤ 1 }
        ensures ends { IfSome result (λ other.
            other < near_rows self.now rel (opposite direction)) }
    {
        match self.side(rel, direction) {
            Side::Listed(_) => unreachable!(),
            Side::Single(column) => column.get(row),
        }
    }

    /// The rows that the relationships of a table lead to, for each row the one of its only
    /// relationship, where a row has one at most: found once for many rows.
    pub fn singles(&self, rel: u32, direction: Direction) -> &Single
        requires within { rel < length self.now.catalog.rels }
        requires single { is_listed self.now rel direction ≡ false }
        ensures { AreSingles self.now rel direction result.now }
    {
        match self.side(rel, direction) {
            Side::Listed(_) => unreachable!(),
            Side::Single(column) => column,
        }
    }

    /// The place of a row's relationship, by its position among the row's relationships in a
    /// direction.
    pub fn edge_place(&self, rel: u32, direction: Direction, row: u32, position: u32) -> u32
        requires within { rel < length self.now.catalog.rels }
        requires row { row < near_rows self.now rel direction }
        requires position { position < length (neighbours self.now rel direction row) }
        ensures number { number_at self.now rel result
            ≡ slice_get (numbers self.now rel direction row) position }
        ensures there { number_at self.now rel result ≢ None }
    {
        match &self.links(rel).places {
            Places::Sources(_) => self.end(rel, direction, row, position, Direction::Forward),
            Places::Targets(_) => self.end(rel, direction, row, position, Direction::Backward),
            Places::Paged(_) => match direction {
                Direction::Forward => self.forward_place(rel, row, position),
                Direction::Backward => self.backward_place(rel, row, position),
            },
        }
    }

    /// The place of the first of a source's relationships, where the others' places follow it.
    pub fn first_place(&self, rel: u32, row: u32) -> Option<u32>
        requires within { rel < length self.now.catalog.rels }
        requires row { row < near_rows self.now rel Direction.Forward }
        ensures { IfSome result (λ low. (k : ℕ) → k < length (neighbours self.now rel
            Direction.Forward row) → number_at self.now rel (low + k)
            ≡ slice_get (numbers self.now rel Direction.Forward row) k) }
    {
        let links = self.links(rel);
        let Places::Paged(_) = &links.places else {
            return None;
        };
        match &links.forward {
            Side::Listed(lists) => Some(lists.start(row)),
            Side::Single(_) => None,
        }
    }

    /// The load number of the relationship at a place.
    pub fn edge_number(&self, rel: u32, place: u32) -> u32
        requires within { rel < length self.now.catalog.rels }
        requires there { number_at self.now rel place ≢ None }
        ensures number { number_at self.now rel place ≡ Some result }
        ensures below { result < length (rels_at self.now rel) }
    {
        match &self.links(rel).places {
            Places::Sources(_) => self.first_number(rel, Direction::Forward, place),
            Places::Targets(_) => self.first_number(rel, Direction::Backward, place),
            Places::Paged(pages) => pages.number_at(place),
        }
    }

    /// The place of the relationship with a load number.
    pub fn number_place(&self, rel: u32, number: u32) -> u32
        requires within { rel < length self.now.catalog.rels }
        requires number { number < length (rels_at self.now rel) }
        ensures { number_at self.now rel result ≡ Some number }
    {
        match &self.links(rel).places {
            Places::Sources(sources) => sources[number as usize],
            Places::Targets(targets) => targets[number as usize],
            Places::Paged(pages) => pages.place_of(number),
        }
    }

    /// The value of a property of a node, by the property's place in its table: null where the cell
    /// is.
    #[inline(always)]
    pub fn node_value(&self, table: u32, property: u32, row: u32) -> Value<'_>
        requires within { table < length self.now.catalog.nodes }
        requires property { property < length (node_fields self.now table) }
        requires row { row < row_count self.now.nodes table }
        ensures { val result ≡ cell_val (node_cell self.now table property row) }
    {
        self.node_property(table, property).value(row)
    }

    /// A property of a node table, by its place in the table: its cells stand row by row.
    #[inline(always)]
    pub fn node_property(&self, table: u32, property: u32) -> &Property
        requires within { table < length self.now.catalog.nodes }
        requires property { property < length (node_fields self.now table) }
        ensures cells { decoded result.now ≡ node_cells self.now table property }
        ensures kind { IfSome (slice_get (node_fields self.now table) property)
            (λ field. result.now.kind ≡ field.kind) }
    {
        &self.nodes[table as usize].properties[property as usize]
    }

    /// The value of a property of the relationship with a load number, by the property's place in
    /// its table: null where the cell is.
    #[inline(always)]
    pub fn rel_value(&self, rel: u32, property: u32, number: u32) -> Value<'_>
        requires within { rel < length self.now.catalog.rels }
        requires property { property < length (rel_fields self.now rel) }
        requires number { number < length (rels_at self.now rel) }
        ensures { val result ≡ cell_val (rel_cell self.now rel property number) }
    {
        let place = self.number_place(rel, number);
        self.rels[rel as usize].properties[property as usize].value(place)
    }

    /// A property of a relationship table, by its place in the table: its cells stand place by
    /// place, null at a place that has no relationship.
    #[inline(always)]
    pub fn rel_property(&self, rel: u32, property: u32) -> &Property
        requires within { rel < length self.now.catalog.rels }
        requires property { property < length (rel_fields self.now rel) }
        ensures cells { decoded result.now ≡ rel_cells self.now rel property }
        ensures kind { IfSome (slice_get (rel_fields self.now rel) property)
            (λ field. result.now.kind ≡ field.kind) }
    {
        &self.rels[rel as usize].properties[property as usize]
    }

    // How the relationships of a table are kept.
    fn links(&self, rel: u32) -> &Links
        requires { rel < length self.now.catalog.rels }
        ensures valid { is_valid self.now ≡ true }
        ensures linked { IsLinked self.now rel result.now }
    {
        &self.links[rel as usize]
    }

    // The relationships of a table in a direction.
    fn side(&self, rel: u32, direction: Direction) -> &Side
        requires { rel < length self.now.catalog.rels }
        ensures valid { is_valid self.now ≡ true }
        ensures side { IsSide (is_listed self.now rel direction) (near_rows self.now rel direction)
            (near_ends self.now rel direction) (near_ends self.now rel (opposite direction))
            result.now }
    {
        let links = self.links(rel);
        match direction {
            Direction::Forward => &links.forward,
            Direction::Backward => &links.backward,
        }
    }

    // The row that one of a row's relationships leads to.
    fn neighbour(&self, rel: u32, direction: Direction, row: u32, position: u32) -> u32
        requires within { rel < length self.now.catalog.rels }
        requires row { row < near_rows self.now rel direction }
        requires position { position < length (neighbours self.now rel direction row) }
        ensures { slice_get (neighbours self.now rel direction row) position ≡ Some result }
    {
        if self.listed(rel, direction) {
            self.list(rel, direction, row)[position as usize]
        } else {
            match self.single(rel, direction, row) {
                Some(other) => other,
                None => unreachable!(),
            }
        }
    }

    // The row at an end of one of a row's relationships: the end from which relationships are
    // followed in the direction `at`.
    fn end(&self, rel: u32, direction: Direction, row: u32, position: u32, at: Direction) -> u32
        requires within { rel < length self.now.catalog.rels }
        requires row { row < near_rows self.now rel direction }
        requires position { position < length (neighbours self.now rel direction row) }
        ensures { slice_get
            (targets row (near_ends self.now rel direction) (near_ends self.now rel at)) position
            ≡ Some result }
    {
        match (direction, at) {
            (Direction::Forward, Direction::Forward) | (Direction::Backward, Direction::Backward) =>
                row,
            (Direction::Forward, Direction::Backward) | (Direction::Backward, Direction::Forward) =>
                { self.neighbour(rel, direction, row, position) }
        }
    }

    // The place of a source's relationship in pages.
    fn forward_place(&self, rel: u32, row: u32, position: u32) -> u32
        requires within { rel < length self.now.catalog.rels }
        requires many { mult_at self.now rel ≡ Some ManyMany }
        requires row { row < near_rows self.now rel Direction.Forward }
        requires position { position < length (neighbours self.now rel Direction.Forward row) }
        ensures { slice_get (by_source self.now rel) result
            ≡ slice_get (numbers self.now rel Direction.Forward row) position }
    {
        match &self.links(rel).forward {
            Side::Listed(lists) => lists.start(row) + position,
            Side::Single(_) => unreachable!(),
        }
    }

    // The place of a target's relationship in pages.
    fn backward_place(&self, rel: u32, row: u32, position: u32) -> u32
        requires within { rel < length self.now.catalog.rels }
        requires many { mult_at self.now rel ≡ Some ManyMany }
        requires row { row < near_rows self.now rel Direction.Backward }
        requires position { position < length (neighbours self.now rel Direction.Backward row) }
        ensures { slice_get (by_source self.now rel) result
            ≡ slice_get (numbers self.now rel Direction.Backward row) position }
    {
        let links = self.links(rel);
        let Places::Paged(pages) = &links.places else {
            unreachable!()
        };
        let Side::Listed(lists) = &links.backward else {
            unreachable!()
        };
        let source = lists.list(row)[position as usize];
        let offset = lists.notes(row)[position as usize];
        pages.place(source, offset)
    }

    // The load number of the relationship of a row, which has one at most.
    fn first_number(&self, rel: u32, direction: Direction, row: u32) -> u32
        requires within { rel < length self.now.catalog.rels }
        requires single { is_listed self.now rel direction ≡ false }
        requires there { first_number self.now rel direction row ≢ None }
        ensures { first_number self.now rel direction row ≡ Some result }
    {
        let Side::Single(column) = self.side(rel, direction) else {
            unreachable!()
        };
        match column.number(row) {
            Some(number) => number,
            None => unreachable!(),
        }
    }
}
