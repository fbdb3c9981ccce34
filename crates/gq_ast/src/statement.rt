//! The trees of statements and patterns.

use crate::expression::Ast;
use crate::span::Span;
use gq_base::{List, Literal, Text};

/// A statement.
#[derive(Drop)]
pub enum Statement {
    Query(Query),
    /// `:schema`.
    Schema,
    /// `:plan` and its query.
    Plan(Query),
    /// `:profile` and its query.
    Profile(Query),
    /// `:param`, the name of a parameter and its value.
    Param(Text, Literal),
}

/// A query.
#[derive(Drop)]
pub struct Query {
    /// At least one, in the order of the text, as all lists of the trees.
    pub clauses: List<Clause>,
    /// The clauses behind OPTIONAL, which all stand behind the others.
    pub optionals: List<Clause>,
    /// Whether the items begin with `*`.
    pub star: bool,
    /// The items but for `*`; without it, at least one.
    pub items: List<Item>,
    pub distinct: bool,
    /// The sort items; none without ORDER BY.
    pub order: List<Sort>,
    pub skip: Option<u64>,
    pub limit: Option<u64>,
}

/// A MATCH clause, behind OPTIONAL or not.
#[derive(Drop)]
pub struct Clause {
    /// At least one.
    pub paths: List<Path>,
    /// What stands behind WHERE.
    pub filter: Option<Ast>,
}

/// A path: a node, and then a relationship and a node any number of times.
#[derive(Drop)]
pub struct Path {
    pub first: NodePart,
    pub hops: List<Hop>,
}

/// A relationship and the node at its right.
#[derive(Drop)]
pub struct Hop {
    pub rel: RelPart,
    pub node: NodePart,
}

/// The pattern of a node.
#[derive(Drop)]
pub struct NodePart {
    pub name: Option<Text>,
    /// The labels that it has to have, each of them.
    pub labels: List<Text>,
    pub map: List<Entry>,
    /// The place of its first byte in the text.
    pub at: u32,
}

/// The pattern of a relationship.
#[derive(Drop)]
pub struct RelPart {
    pub name: Option<Text>,
    /// The types that it may have; none written stands for all.
    pub kinds: List<Text>,
    pub map: List<Entry>,
    pub arrow: Arrow,
    /// How many relationships follow one another, where it is a trail; a trail has an arrow and one type, and neither
    /// name nor map.
    pub trail: Option<Range>,
    /// The place of its first byte in the text.
    pub at: u32,
}

/// How many relationships a trail has: at least `low` and at most `high`, as they are written.
#[derive(Clone, Copy, Debug, PartialEq, Eq)]
pub struct Range {
    pub low: u64,
    pub high: u64,
}

/// Which way a relationship is read.
#[derive(Clone, Copy, Debug, PartialEq, Eq)]
pub enum Arrow {
    /// From the node at the left to the node at the right.
    Right,
    /// From the node at the right to the node at the left.
    Left,
    Either,
}

/// A property that a pattern asks for.
#[derive(Drop)]
pub struct Entry {
    pub key: Text,
    pub value: Literal,
    /// The place of the value in the text.
    pub value_span: Span,
}

/// A column of a query.
#[derive(Drop)]
pub struct Item {
    pub tree: Ast,
    /// The name behind AS.
    pub name: Option<Text>,
}

/// A sort item.
#[derive(Drop)]
pub struct Sort {
    pub tree: Ast,
    /// Whether it sorts from the greatest to the least.
    pub down: bool,
}
