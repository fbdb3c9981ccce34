//! A query bound over a catalogue: its columns, conditions, keys and typed alternatives; or why it is
//! not, the first of sixteen refusals, as `gq_bound` defines them. The crate stands on the names of
//! `gq_scopes`, the expressions of `gq_resolve`, the alternatives of `gq_alternatives` and, where there are
//! trails, the cores of `gq_core`.
#![tactic(auto)]

mod bound;
mod checks;
mod columns;
mod last_checks;
mod lists;
mod optionals;
mod order;
mod parts;
mod path_tests;
mod pattern_counts;
mod places;
mod read_counts;
mod trails;

pub use bound::bind;
pub use gq_bound::BindRefusal;
