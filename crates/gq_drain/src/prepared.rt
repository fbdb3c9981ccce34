//! What is prepared for a query before its pipelines are drained: the conjuncts over the graph, the
//! tests of paths by their keys, and the matches of the optional clauses.

use crate::testing::Tests;
use gq_base::List;
use gq_optional::{Optionals, RowShape};
use gq_plan::Bound;
use gq_project::Conjunct;
use gq_store::Graph;

/// A graph and a query, its conjuncts over the graph where optional clauses or trails ask them, its tests of paths,
/// and the matches of its optional clauses.
#[derive(Drop)]
pub struct Prepared<'q> {
    pub graph: &'q Graph,
    pub bound: &'q Bound,
    pub conjuncts: List<Conjunct<'q>>,
    /// The variables of its rows.
    pub shape: RowShape,
    pub tests: Tests<'q>,
    pub optionals: Optionals<'q>,
}
