//! What is held of an optional clause: the matches of its alternatives, and its conjuncts.

use gq_base::List;
use gq_eval::Evaluator;
use gq_join::Sealed;
use gq_plan::{OptionalPart, Typed};

/// The matches of an alternative of an optional clause. A build holds their rows and load numbers,
/// to be found by the shared variables.
#[derive(Drop)]
pub struct Matches<'b> {
    pub(crate) typed: &'b Typed,
    pub(crate) build: Sealed,
}

/// An optional clause, its conjuncts over a graph, and the matches of its alternatives.
#[derive(Drop)]
pub struct Clause<'b> {
    pub(crate) part: &'b OptionalPart,
    pub(crate) conjuncts: List<Evaluator<'b>>,
    // Whether each node variable of the clause stood before it.
    pub(crate) shared: List<bool>,
    pub(crate) matches: Vec<Matches<'b>>,
}
