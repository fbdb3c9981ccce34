//! A typed alternative of a query: one table for each node variable, one table and one direction for each relationship.

use crate::bound::NamedExpr;
use gq_base::{List, Memory, TryClone};
use std::alloc::Global;

/// A relationship of an alternative.
#[derive(Clone, Copy, Debug, PartialEq, Eq)]
pub struct TypedRel {
    /// The relationship table.
    pub table: u32,
    /// The node variable at the relationship's source.
    pub source: u32,
    /// The node variable at the relationship's target.
    pub target: u32,
    /// The number of its MATCH clause, counted from 0.
    pub clause: u32,
    /// Whether the relationship is read from the pattern's right node to its left node.
    pub reversed: bool,
    /// Whether its two ends are to be different nodes, as in the backward reading of an undirected pattern.
    pub no_loop: bool,
}

/// A path of a query.
#[derive(Drop)]
pub struct PathPart {
    /// The node variable that the path begins with.
    pub first: u32,
    /// Its relationships from left to right.
    pub rels: List<u32>,
}

impl TryClone for PathPart {
    fn try_clone(&self, alloc: Global) -> Result<PathPart, Memory> {
        Ok(PathPart {
            first: self.first,
            rels: self.rels.try_clone(alloc)?,
        })
    }
}

/// Two relationships that are to be different, the first one less than the second.
#[derive(Clone, Copy, Debug, PartialEq, Eq)]
pub struct RelPair {
    pub first: u32,
    pub second: u32,
}

/// A typed alternative of a query.
#[derive(Drop)]
pub struct Typed {
    /// The node table of each node variable.
    pub nodes: List<u32>,
    /// The relationships, in text order.
    pub rels: List<TypedRel>,
    /// The paths, in text order.
    pub paths: List<PathPart>,
    /// What is to be true: the entries of the pattern's maps, and the conjuncts that cannot fault here.
    pub tests: List<NamedExpr>,
    /// The numbers of the other conjuncts, which are looked at only where nothing else drops a row.
    pub late: List<u32>,
    /// The pairs of relationships of one clause and one table.
    pub pairs: List<RelPair>,
}
