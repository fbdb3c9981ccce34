//! What stands in the patterns of a query: names, nodes, relationships and entries of maps, each with its variable.

use gq_ast::{Entry, NodePart, RelPart};
use gq_base::{Memory, Text, TryClone};
use gq_plan::Variable;
use std::alloc::Global;
use std::marker::Model;

/// A name that stands in a pattern, and its variable there.
#[derive(Drop)]
pub struct NamedVariable<'t> {
    pub name: &'t Text,
    pub variable: Variable,
}

impl<'t> Model for NamedVariable<'t> {
    ghost use Rattle.gq_scopes.specs.Patterns.{NamedVariable};

    ghost Value = { NamedVariable };

    ghost view = { λ n. record { name = n.name.now; variable = n.variable } };
}

impl<'t> TryClone for NamedVariable<'t> {
    fn try_clone(&self, _alloc: Global) -> Result<NamedVariable<'t>, Memory> {
        Ok(NamedVariable {
            name: self.name,
            variable: self.variable,
        })
    }
}

/// A node pattern and its variable.
#[derive(Drop)]
pub struct NodePattern<'t> {
    pub variable: u32,
    pub part: &'t NodePart,
}

impl<'t> Model for NodePattern<'t> {
    ghost use Rattle.gq_scopes.specs.Patterns.{NodePattern};

    ghost Value = { NodePattern };

    ghost view = { λ n. record { variable = n.variable; part = n.part.now } };
}

impl<'t> TryClone for NodePattern<'t> {
    fn try_clone(&self, _alloc: Global) -> Result<NodePattern<'t>, Memory> {
        Ok(NodePattern {
            variable: self.variable,
            part: self.part,
        })
    }
}

/// A relationship pattern, the number of its MATCH clause, and the node variables at its left and at its right.
#[derive(Drop)]
pub struct RelPattern<'t> {
    pub clause: u32,
    pub left: u32,
    pub right: u32,
    pub part: &'t RelPart,
}

impl<'t> Model for RelPattern<'t> {
    ghost use Rattle.gq_scopes.specs.Patterns.{RelPattern};

    ghost Value = { RelPattern };

    ghost view = { λ r. record {
      clause = r.clause;
      left = r.left;
      right = r.right;
      part = r.part.now;
    } };
}

impl<'t> TryClone for RelPattern<'t> {
    fn try_clone(&self, _alloc: Global) -> Result<RelPattern<'t>, Memory> {
        Ok(RelPattern {
            clause: self.clause,
            left: self.left,
            right: self.right,
            part: self.part,
        })
    }
}

/// An entry of a pattern's map, its variable, and what the variable is called.
#[derive(Drop)]
pub struct MapEntry<'t> {
    pub variable: Variable,
    pub called: Text,
    pub entry: &'t Entry,
}

impl<'t> Model for MapEntry<'t> {
    ghost use Rattle.gq_scopes.specs.Patterns.{MapEntry};

    ghost Value = { MapEntry };

    ghost view = { λ e. record {
      variable = e.variable;
      called = e.called;
      entry = e.entry.now;
    } };
}
