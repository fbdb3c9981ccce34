//! The patterns of a query: their lists, and what is asked of them.
ghost use Rattle.std.specs.Prelude.{◌≡◌, IfOk};
ghost use Rattle.gq_scopes.specs.Scopes.{scope_of};
ghost use Rattle.gq_scopes.specs.Patterns.{no_pattern};

use crate::counts::number;
use crate::elements::{MapEntry, NamedVariable, NodePattern, RelPattern};
use crate::naming::Names;
use crate::rels::{Rels, rels_of};
use crate::scope::{Column, Scope};
use gq_base::{List, Memory, Text};
use gq_plan::PathPart;
use std::alloc::Global;
use std::marker::Model;

/// The lists that make patterns, as those that are read from a query make them.
#[derive(Drop)]
pub struct PatternLists<'t> {
    pub names: Names,
    pub named: List<NamedVariable<'t>>,
    pub node_names: List<Text>,
    pub rel_names: List<Text>,
    pub unnamed: u32,
    pub nodes: List<NodePattern<'t>>,
    pub rels: List<RelPattern<'t>>,
    pub paths: List<PathPart>,
    pub entries: List<MapEntry<'t>>,
}

impl<'t> Model for PatternLists<'t> {
    ghost use Rattle.gq_scopes.specs.Patterns.{Pattern};

    ghost Value = { Pattern };

    ghost view = { λ p. record {
      names = p.names;
      named = p.named;
      node_names = p.node_names;
      rel_names = p.rel_names;
      unnamed = p.unnamed;
      nodes = p.nodes;
      rels = p.rels;
      paths = p.paths;
      entries = p.entries;
    } };
}

/// The patterns of a query with their variables, paths and map entries, in text order.
#[derive(Drop)]
pub struct Pattern<'t> {
    pub(crate) alloc: Global,
    pub(crate) names: Names,
    pub(crate) named: List<NamedVariable<'t>>,
    pub(crate) node_names: List<Text>,
    pub(crate) rel_names: List<Text>,
    pub(crate) unnamed: u32,
    pub(crate) nodes: List<NodePattern<'t>>,
    pub(crate) rels: Rels<'t>,
    pub(crate) paths: List<PathPart>,
    pub(crate) entries: List<MapEntry<'t>>,
}

impl<'t> Model for Pattern<'t> {
    ghost use Rattle.gq_scopes.specs.Patterns.{Pattern};

    ghost Value = { Pattern };

    ghost view = { λ p. record {
      names = p.names;
      named = p.named;
      node_names = p.node_names;
      rel_names = p.rel_names;
      unnamed = p.unnamed;
      nodes = p.nodes;
      rels = p.rels;
      paths = p.paths;
      entries = p.entries;
    } };
}

impl<'t> Pattern<'t> {
    /// No patterns yet.
    pub fn new(alloc: Global) -> Pattern<'t>
        ensures { result ≡ no_pattern }
    {
        Pattern {
            alloc,
            names: Names::new(alloc),
            named: List::new(alloc),
            node_names: List::new(alloc),
            rel_names: List::new(alloc),
            unnamed: 0,
            nodes: List::new(alloc),
            rels: Rels::new(alloc),
            paths: List::new(alloc),
            entries: List::new(alloc),
        }
    }

    /// The patterns that have these lists.
    pub fn of_lists(alloc: Global, lists: PatternLists<'t>) -> Result<Pattern<'t>, Memory>
        ensures { IfOk result (λ p. p ≡ lists.entry) }
    {
        let rels = rels_of(alloc, lists.rels)?;
        Ok(Pattern {
            alloc,
            names: lists.names,
            named: lists.named,
            node_names: lists.node_names,
            rel_names: lists.rel_names,
            unnamed: lists.unnamed,
            nodes: lists.nodes,
            rels,
            paths: lists.paths,
            entries: lists.entries,
        })
    }

    /// What an expression may name: these columns, and the variables of the patterns.
    pub fn scope<'s>(&'s self, columns: &'s [Column]) -> Result<Scope<'s>, Memory>
        ensures { IfOk result (λ s. s ≡ record (scope_of self.now) { columns = columns.now }) }
    {
        let _ = number(self.names.len())?;
        let _ = number(self.rels.len())?;
        Scope::new(self.alloc, columns, &self.names, &self.rels)
    }

    /// The name of each node variable.
    pub fn names(&self) -> &[Option<Text>]
        ensures { result.now ≡ self.now.names }
    {
        self.names.as_slice()
    }

    /// All names in text order, each with its variable.
    pub fn named(&self) -> &[NamedVariable<'t>]
        ensures { result.now ≡ self.now.named }
    {
        self.named.as_slice()
    }

    /// How many patterns have no name.
    pub fn unnamed(&self) -> u32
        ensures { result ≡ self.now.unnamed }
    {
        self.unnamed
    }

    /// The node patterns in text order.
    pub fn nodes(&self) -> &[NodePattern<'t>]
        ensures { result.now ≡ self.now.nodes }
    {
        self.nodes.as_slice()
    }

    /// The relationship patterns in text order; the place of one is its variable.
    pub fn rels(&self) -> &[RelPattern<'t>]
        ensures { result.now ≡ self.now.rels }
    {
        self.rels.as_slice()
    }

    /// What each node variable is called.
    pub fn node_names(&self) -> &[Text]
        ensures { result.now ≡ self.now.node_names }
    {
        self.node_names.as_slice()
    }

    /// What each relationship variable is called.
    pub fn rel_names(&self) -> &[Text]
        ensures { result.now ≡ self.now.rel_names }
    {
        self.rel_names.as_slice()
    }

    /// The entries of the patterns' maps in text order.
    pub fn entries(&self) -> &[MapEntry<'t>]
        ensures { result.now ≡ self.now.entries }
    {
        self.entries.as_slice()
    }

    /// The paths in text order.
    pub fn paths(&self) -> &[PathPart]
        ensures { result.now ≡ self.now.paths }
    {
        self.paths.as_slice()
    }
}
