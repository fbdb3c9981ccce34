//! The search of the alternatives of patterns through all choices of tables and directions. The crate
//! stands on the candidates and choices of `gq_alternatives`.
#![tactic(auto)]

mod alternatives;
mod branching;
mod budget;
mod found;
mod narrowing;
mod number_set;
mod search;

pub use alternatives::choices_of;
