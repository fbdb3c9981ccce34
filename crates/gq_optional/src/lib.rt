//! Optional clauses: what their alternatives list, and the rows that they make of a row, one after
//! another. The crate stands on the pipelines of `gq_pipe`, the builds of `gq_join`, the rows of
//! `gq_outer` and the evaluators of `gq_eval`.
#![tactic(auto)]

mod clause;
mod clause_level;
mod gathering;
mod looking;
mod optional_walk;
mod optionals;
mod placing;
mod walk;

pub use optional_walk::OptionalWalk;
pub use optionals::{Optionals, RowShape};
