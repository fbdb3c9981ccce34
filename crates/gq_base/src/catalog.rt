//! The catalogue: which tables a graph has, and the fields of each.
ghost use Rattle.std.specs.Prelude.{◌≡◌, ◌+◌, ◌^◌, ◌<◌, [], ◌∷◌, ◌++◌, length, slice_get, Some};
ghost use Rattle.std.specs.Prelude.{None, OnOk, OnErr, IfSome, nat_eq};
ghost use Rattle.std.specs.List.{list_any};
ghost use Rattle.std.specs.Cmp.Lexicographic.{pointwise};
ghost use Rattle.gq_base.specs.Catalogs.{find_field, find_rel, find_word, has_label, is_rel_of};
ghost use Rattle.gq_base.specs.Catalogs.{with_node_fields, with_rel_fields};
ghost use Rattle.gq_base.specs.Valid.{is_single};

use crate::direction::Direction;
use crate::list::List;
use crate::memory::Memory;
use crate::text::Text;
use crate::try_clone::TryClone;
use std::alloc::Global;
use std::marker::Model;

/// The kind of a property's values.
#[derive(Clone, Copy, Debug, PartialEq, Eq)]
pub enum Kind {
    Int,
    Str,
    Flag,
}

/// How many relationships of a table a vertex may have: `ManyOne` gives each source at most one,
/// `OneMany` each target, `OneOne` both.
#[derive(Clone, Copy, Debug, PartialEq, Eq)]
pub enum Mult {
    ManyMany,
    ManyOne,
    OneMany,
    OneOne,
}

impl Mult {
    /// Whether a vertex has at most one relationship that is followed from it in a direction.
    pub fn is_single(self, direction: Direction) -> bool
        ensures { result ≡ is_single self direction }
    {
        match (self, direction) {
            (Mult::OneOne, _) => true,
            (Mult::ManyOne, Direction::Forward) => true,
            (Mult::OneMany, Direction::Backward) => true,
            _ => false,
        }
    }
}

/// A property: its name and the kind of its values.
#[derive(Debug, Drop)]
pub struct Field {
    pub name: Text,
    pub kind: Kind,
}

impl TryClone for Field {
    fn try_clone(&self, alloc: Global) -> Result<Field, Memory> {
        Ok(Field {
            name: self.name.try_clone(alloc)?,
            kind: self.kind,
        })
    }
}

/// A table of nodes that have the same labels. Its word is the labels as the manifest spells them,
/// joined by colons, and its first field is the key.
#[derive(Debug, Drop)]
pub struct NodeTable {
    pub word: Text,
    pub labels: List<Text>,
    pub file: Text,
    pub fields: List<Field>,
}

/// A table of relationships of one type, from nodes of one table to nodes of one table. A type may
/// have several tables, no two of which join the same two tables in the same direction.
#[derive(Debug, Drop)]
pub struct RelTable {
    pub name: Text,
    pub from: u32,
    pub to: u32,
    pub mult: Mult,
    pub file: Text,
    pub fields: List<Field>,
}

/// The tables of a graph, numbered from 0 in the order in which they were added.
#[derive(Debug, Drop)]
pub struct Catalog {
    nodes: Vec<NodeTable>,
    rels: Vec<RelTable>,
}

impl Model for Catalog {
    ghost use Rattle.std.specs.Prelude.{◌^◌, ◌<◌, length};
    ghost use Rattle.gq_base.specs.Catalogs.{Tables};

    ghost Value = { Tables };

    ghost view = { λ c. record { nodes = c.nodes.items; rels = c.rels.items } };

    ghost invariant = { λ c. (length c.nodes.items < 2 ^ 32) × (length c.rels.items < 2 ^ 32) };
}

impl Catalog {
    /// The catalogue without tables. It takes no memory.
    pub fn new(alloc: Global) -> Catalog
        ensures nodes { result.nodes ≡ [] }
        ensures rels { result.rels ≡ [] }
    {
        Catalog {
            nodes: Vec::new(alloc),
            rels: Vec::new(alloc),
        }
    }

    /// How many node tables there are.
    pub fn node_tables(&self) -> u32
        ensures { result ≡ length self.now.nodes }
    {
        self.nodes.len() as u32
    }

    /// How many relationship tables there are.
    pub fn rel_tables(&self) -> u32
        ensures { result ≡ length self.now.rels }
    {
        self.rels.len() as u32
    }

    /// The node table of this number.
    pub fn node_table(&self, table: u32) -> &NodeTable
        requires { table < length self.now.nodes }
        ensures { Some result.now ≡ slice_get self.now.nodes table }
    {
        &self.nodes[table as usize]
    }

    /// The relationship table of this number.
    pub fn rel_table(&self, table: u32) -> &RelTable
        requires { table < length self.now.rels }
        ensures { Some result.now ≡ slice_get self.now.rels table }
    {
        &self.rels[table as usize]
    }

    /// Adds a node table, whose word is new. After `Memory` the catalogue is as before.
    pub fn add_node(&mut self, table: NodeTable) -> Result<(), Memory>
        requires fits { length self.old.nodes + 1 < 2 ^ 32 }
        requires fresh { find_word self.old.nodes table.word ≡ None }
        ensures added { OnOk result (self.new.nodes ≡ self.old.nodes ++ table ∷ []) }
        ensures kept { OnErr result (self.new ≡ self.old) }
        ensures rels { self.new.rels ≡ self.old.rels }
    {
        match self.nodes.push(table) {
            Ok(()) => Ok(()),
            Err(_) => Err(Memory::Exhausted),
        }
    }

    /// Adds a relationship table, whose ends are there, and whose type is new between them. After
    /// `Memory` the catalogue is as before.
    pub fn add_rel(&mut self, table: RelTable) -> Result<(), Memory>
        requires fits { length self.old.rels + 1 < 2 ^ 32 }
        requires fresh { find_rel self.old.rels table.name table.from table.to ≡ None }
        requires from { table.from < length self.old.nodes }
        requires to { table.to < length self.old.nodes }
        ensures added { OnOk result (self.new.rels ≡ self.old.rels ++ table ∷ []) }
        ensures kept { OnErr result (self.new ≡ self.old) }
        ensures nodes { self.new.nodes ≡ self.old.nodes }
    {
        match self.rels.push(table) {
            Ok(()) => Ok(()),
            Err(_) => Err(Memory::Exhausted),
        }
    }

    /// Gives a node table its fields, in place of those that it has.
    pub fn set_node_fields(&mut self, table: u32, fields: List<Field>)
        requires { table < length self.old.nodes }
        ensures nodes { self.new.nodes ≡ with_node_fields table fields self.old.nodes }
        ensures rels { self.new.rels ≡ self.old.rels }
    {
        self.nodes[table as usize].fields = fields;
    }

    /// Gives a relationship table its fields, in place of those that it has.
    pub fn set_rel_fields(&mut self, table: u32, fields: List<Field>)
        requires { table < length self.old.rels }
        ensures rels { self.new.rels ≡ with_rel_fields table fields self.old.rels }
        ensures nodes { self.new.nodes ≡ self.old.nodes }
    {
        self.rels[table as usize].fields = fields;
    }

    /// The number of the node table with this word.
    pub fn find_word(&self, word: &str) -> Option<u32>
        ensures { result ≡ find_word self.now.nodes word.now }
    {
        match place_of_word(self.nodes.as_slice(), word) {
            Some(at) => Some(at as u32),
            None => None,
        }
    }

    /// Whether the nodes of this table have a label.
    pub fn has_label(&self, table: u32, label: &str) -> bool
        requires { table < length self.now.nodes }
        ensures { result ≡ has_label (slice_get self.now.nodes table) label.now }
    {
        is_labelled(&self.nodes[table as usize], label)
    }

    /// The number of the relationship table of this type between the node tables of these numbers.
    pub fn find_rel(&self, name: &str, from: u32, to: u32) -> Option<u32>
        ensures { result ≡ find_rel self.now.rels name.now from to }
    {
        match place_of_rel(self.rels.as_slice(), name, from, to) {
            Some(at) => Some(at as u32),
            None => None,
        }
    }
}

fn is_labelled(table: &NodeTable, label: &str) -> bool
    ensures { result ≡ list_any (λ l. pointwise nat_eq l label.now) table.now.labels }
{
    table.labels.as_slice().iter().any(|l| l.is(label))
}

fn place_of_word(tables: &[NodeTable], word: &str) -> Option<usize>
    ensures value { result ≡ find_word tables.now word.now }
    ensures within { IfSome result (λ at. at < length tables.now) }
{
    tables.iter().position(|t| t.word.is(word))
}

fn is_rel_of(table: &RelTable, name: &str, from: u32, to: u32) -> bool
    ensures { result ≡ is_rel_of name.now from to table.now }
{
    table.from == from && table.to == to && table.name.is(name)
}

fn place_of_rel(tables: &[RelTable], name: &str, from: u32, to: u32) -> Option<usize>
    ensures value { result ≡ find_rel tables.now name.now from to }
    ensures within { IfSome result (λ at. at < length tables.now) }
{
    tables.iter().position(|t| is_rel_of(t, name, from, to))
}

/// The place of the first field of a name.
pub fn find_field(fields: &[Field], name: &Text) -> Option<usize>
    ensures value { result ≡ find_field fields.now name.now }
    ensures within { IfSome result (λ place. place < length fields.now) }
{
    fields.iter().position(|field| field.name == *name)
}
