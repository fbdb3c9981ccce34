//! The matches of patterns by their definition: all assignments of a small graph, each of which is
//! tested. The crate stands on the matches of `gq_alternatives` and the plain graph of `gq_plain`.
#![tactic(auto)]

mod assignments;
mod brute_force;
mod chosen;
mod conditions;
mod pairs;
mod properties;

pub use brute_force::{Match, matches};
