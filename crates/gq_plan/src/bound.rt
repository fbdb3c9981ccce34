//! A query whose names are resolved.

use crate::bound_expr::BoundExpr;
use crate::typed::Typed;
use gq_base::{Direction, List, Text};

/// An expression and what it is called.
#[derive(Drop)]
pub struct NamedExpr {
    pub name: Text,
    pub expr: BoundExpr,
}

/// A key of ORDER BY.
#[derive(Drop)]
pub struct SortExpr {
    pub expr: BoundExpr,
    /// Whether it sorts from the greatest to the least.
    pub down: bool,
}

/// A conjunct that asks whether a path has a match, or whether it has none.
#[derive(Drop)]
pub struct ExistsPart {
    /// It is called by its source text; its expression is the literal true.
    pub text: NamedExpr,
    /// Whether the path is to have a match; false under an odd number of NOTs.
    pub wanted: bool,
    /// The node variables of the query that the path names, in the order of their first appearance
    /// there. They are the first node variables of the alternatives.
    pub nodes: List<u32>,
    /// The typed forms of the path alone; their tests are the entries of its maps.
    pub alternatives: List<Typed>,
}

/// An OPTIONAL MATCH clause. Its alternatives have variables of their own, numbered from 0 in the
/// order of their first appearance in the clause.
#[derive(Drop)]
pub struct OptionalPart {
    /// Which node variable of the query each node variable of the clause is.
    pub nodes: List<u32>,
    /// Which relationship variable of the query each relationship variable of the clause is.
    pub rels: List<u32>,
    /// What the clause's WHERE asks, over the query's variables, in text order.
    pub conjuncts: List<NamedExpr>,
    /// The typed forms of the clause alone; their tests are the entries of its maps.
    pub alternatives: List<Typed>,
}

/// A trail: relationships that follow one another, of which none stands twice. It is walked from a
/// node that is bound when its turn comes.
#[derive(Drop)]
pub struct TrailPart {
    /// The type of its relationships.
    pub kind: Text,
    /// The fewest relationships, at least 1.
    pub low: u32,
    /// The most relationships, at least `low` and at most 16.
    pub high: u32,
    /// The node variable from which it is walked.
    pub from: u32,
    /// The node variable at its other end.
    pub to: u32,
    /// The number of its MATCH clause, counted from 0.
    pub clause: u32,
    /// Whether it is walked along its relationships or against them.
    pub way: Direction,
    /// Whether the other end is bound too when its turn comes.
    pub both: bool,
    /// The labels that the node patterns of the other end ask for, where the trail binds it.
    pub labels: List<Text>,
    /// The tests of the map entries of the other end, where the trail binds it.
    pub tests: List<NamedExpr>,
}

/// A query whose names are resolved. Node variables are numbered from 0 in the order of their first appearance, and
/// relationship variables from 0 in text order; a trail has no variable. Where there are trails, the node variables
/// of the core come first, each in that order, and the alternatives have these alone.
#[derive(Drop)]
pub struct Bound {
    /// What each node variable is called; one without a name is called `#K`, where K counts from 1 the patterns
    /// without a name, those of nodes and of relationships together, in text order.
    pub node_names: List<Text>,
    /// The same of each relationship variable.
    pub rel_names: List<Text>,
    /// What the rows list. A column is called as AS says, else by its source text.
    pub columns: List<NamedExpr>,
    /// What WHERE asks of values, all clauses together, in text order; each is called by its source text.
    pub conjuncts: List<NamedExpr>,
    /// What WHERE asks of paths, all clauses together, in text order.
    pub patterns: List<ExistsPart>,
    /// The OPTIONAL MATCH clauses, in text order.
    pub optionals: List<OptionalPart>,
    /// The trails, in text order.
    pub trails: List<TrailPart>,
    /// What each trail is called: `#K`, as one of the patterns without a name.
    pub trail_names: List<Text>,
    /// What ORDER BY sorts by; none without it.
    pub keys: List<SortExpr>,
    pub distinct: bool,
    /// How many rows are skipped; 0 without SKIP.
    pub skip: u64,
    /// At most how many rows are listed; `None` without LIMIT.
    pub limit: Option<u64>,
    /// The typed forms of the query, or of its core where there are trails: they have no match in common, and together
    /// they have all matches.
    pub alternatives: List<Typed>,
}
