//! The plain graph: a catalogue and the rows that were loaded, as they stand in the files. Each
//! push appends one row to one table, and the graph tells whether it is valid. The crate stands on
//! `gq_base` alone, which defines what a graph is and which are valid.
#![tactic(auto)]

ghost use Rattle.std.specs.Prelude.{◌≡◌, [], ◌<◌, length, replicate, IfOk, OnOk, OnErr, Some};
ghost use Rattle.std.specs.Prelude.{slice_get, slice_set};
ghost use Rattle.gq_base.specs.Catalogs.{with_node_fields, with_rel_fields};
ghost use Rattle.gq_base.specs.Valid.{is_valid};
ghost use Rattle.gq_plain.specs.Rows.{with_row};

mod distinct;
mod validity;

use gq_base::{Field, List};
pub use gq_base::{Catalog, Cell, Memory, NodeRows, PlainRel, RelRef, RelRows, Row};
use std::alloc::Global;
use std::marker::Model;
use validity::are_valid;

/// A property graph as it was loaded: the catalogue, and a list of rows for each table in the
/// catalogue's order.
#[derive(Debug, Drop)]
pub struct PlainGraph {
    catalog: Catalog,
    nodes: Vec<NodeRows>,
    rels: Vec<RelRows>,
}

impl Model for PlainGraph {
    ghost use Rattle.std.specs.Prelude.{◌≡◌, length};
    ghost use Rattle.gq_base.specs.Plain.{Graph};

    ghost Value = { Graph };

    ghost view = { λ g. record {
      catalog = g.catalog;
      nodes = g.nodes.items;
      rels = g.rels.items;
    } };

    ghost invariant = { λ g. (length g.nodes.items ≡ length g.catalog.nodes)
        × (length g.rels.items ≡ length g.catalog.rels) };
}

impl PlainGraph {
    /// The graph with this catalogue and with no nodes and no relationships.
    pub fn new(alloc: Global, catalog: Catalog) -> Result<PlainGraph, Memory>
        ensures catalog { IfOk result (λ g. g.catalog ≡ catalog) }
        ensures nodes { IfOk result (λ g. g.nodes ≡ replicate (length catalog.nodes) []) }
        ensures rels { IfOk result (λ g. g.rels ≡ replicate (length catalog.rels) []) }
    {
        let nodes = empty_nodes(alloc, catalog.node_tables())?;
        let rels = empty_rels(alloc, catalog.rel_tables())?;
        Ok(PlainGraph {
            catalog,
            nodes,
            rels,
        })
    }

    /// The catalogue. The graph has a list of rows for each of its tables.
    pub fn catalog(&self) -> &Catalog
        ensures value { result.now ≡ self.now.catalog }
        ensures node_tables { length self.now.nodes ≡ length self.now.catalog.nodes }
        ensures rel_tables { length self.now.rels ≡ length self.now.catalog.rels }
    {
        &self.catalog
    }

    /// The catalogue alone. The rows are dropped.
    pub fn into_catalog(self) -> Catalog
        ensures { result ≡ self.catalog }
    {
        self.catalog
    }

    /// The rows of a node table, in load order.
    pub fn node_rows(&self, table: u32) -> &NodeRows
        requires { table < length self.now.nodes }
        ensures { slice_get self.now.nodes table ≡ Some result.now }
    {
        &self.nodes[table as usize]
    }

    /// The relationships of a relationship table, in load order.
    pub fn rel_rows(&self, table: u32) -> &RelRows
        requires { table < length self.now.rels }
        ensures { slice_get self.now.rels table ≡ Some result.now }
    {
        &self.rels[table as usize]
    }

    /// Whether the graph is valid. It is where
    ///
    /// - there are at most 64 node tables and at most 64 relationship tables,
    /// - a table has at most 64 fields, and no two of them have one name,
    /// - a row has one cell for each field of its table, null or of the field's kind,
    /// - a node table has at most 2^24 rows, each with a key (its first cell, which is not null) that no other row has,
    /// - a relationship table has at most 2^25 relationships, their ends are rows of the node tables that it names, and no
    ///   node has more of them than the table's multiplicity allows.
    ///
    /// It takes n log n steps for n rows, and memory for the keys of a table, which are borrowed,
    /// or for a mark for each of its rows. `Memory` may come at any graph.
    pub fn valid(&self, alloc: Global) -> Result<bool, Memory>
        ensures value { IfOk result (λ answer. answer ≡ is_valid self.now) }
    {
        are_valid(
            alloc,
            &self.catalog,
            self.nodes.as_slice(),
            self.rels.as_slice(),
        )
    }

    /// Gives a node table its fields, in place of those that it has.
    pub fn set_node_fields(&mut self, table: u32, fields: List<Field>)
        requires { table < length self.old.nodes }
        ensures catalog { self.new.catalog ≡ record self.old.catalog {
          nodes = with_node_fields table fields self.old.catalog.nodes;
        } }
        ensures nodes { self.new.nodes ≡ self.old.nodes }
        ensures rels { self.new.rels ≡ self.old.rels }
    {
        self.catalog.set_node_fields(table, fields);
    }

    /// Gives a relationship table its fields, in place of those that it has.
    pub fn set_rel_fields(&mut self, table: u32, fields: List<Field>)
        requires { table < length self.old.rels }
        ensures catalog { self.new.catalog ≡ record self.old.catalog {
          rels = with_rel_fields table fields self.old.catalog.rels;
        } }
        ensures nodes { self.new.nodes ≡ self.old.nodes }
        ensures rels { self.new.rels ≡ self.old.rels }
    {
        self.catalog.set_rel_fields(table, fields);
    }

    /// Gives a node table its rows, in place of those that it has. They are moved and not copied.
    pub fn set_node_rows(&mut self, table: u32, rows: NodeRows)
        requires { table < length self.old.nodes }
        ensures nodes { self.new.nodes ≡ slice_set self.old.nodes table rows }
        ensures catalog { self.new.catalog ≡ self.old.catalog }
        ensures rels { self.new.rels ≡ self.old.rels }
    {
        self.nodes[table as usize] = rows;
    }

    /// Gives a relationship table its relationships, in place of those that it has. They are moved
    /// and not copied.
    pub fn set_rel_rows(&mut self, table: u32, rels: RelRows)
        requires { table < length self.old.rels }
        ensures rels { self.new.rels ≡ slice_set self.old.rels table rels }
        ensures catalog { self.new.catalog ≡ self.old.catalog }
        ensures nodes { self.new.nodes ≡ self.old.nodes }
    {
        self.rels[table as usize] = rels;
    }

    /// Appends a row to a node table. After `Memory` the graph is as before.
    pub fn push_node(&mut self, table: u32, row: Row) -> Result<(), Memory>
        requires { table < length self.old.nodes }
        ensures pushed { OnOk result (self.new.nodes ≡ with_row table row self.old.nodes) }
        ensures kept { OnErr result (self.new ≡ self.old) }
        ensures catalog { self.new.catalog ≡ self.old.catalog }
        ensures rels { self.new.rels ≡ self.old.rels }
    {
        self.nodes[table as usize].push(row)
    }

    /// Appends a relationship to a relationship table. After `Memory` the graph is as before.
    pub fn push_rel(&mut self, table: u32, rel: PlainRel) -> Result<(), Memory>
        requires { table < length self.old.rels }
        ensures pushed { OnOk result (self.new.rels ≡ with_row table rel self.old.rels) }
        ensures kept { OnErr result (self.new ≡ self.old) }
        ensures catalog { self.new.catalog ≡ self.old.catalog }
        ensures nodes { self.new.nodes ≡ self.old.nodes }
    {
        self.rels[table as usize].push(rel)
    }
}

// The rows of so many tables without rows.
fn empty_nodes(alloc: Global, count: u32) -> Result<Vec<NodeRows>, Memory>
    ensures { IfOk result (λ tables. tables.items ≡ replicate count []) }
{
    let mut tables = Vec::with_capacity(alloc, count as usize)?;
    for _ in 0..count {
        tables.push(NodeRows::new(alloc))?;
    }
    Ok(tables)
}

// The relationships of so many tables without relationships.
fn empty_rels(alloc: Global, count: u32) -> Result<Vec<RelRows>, Memory>
    ensures { IfOk result (λ tables. tables.items ≡ replicate count []) }
{
    let mut tables = Vec::with_capacity(alloc, count as usize)?;
    for _ in 0..count {
        tables.push(RelRows::new(alloc))?;
    }
    Ok(tables)
}
