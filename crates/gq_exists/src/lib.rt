//! The keys of a path: which nodes its matches have at the variables that it shares with a query.
//! The crate stands on the plans of `gq_plan`, the assignments of `gq_pipe`, the bits of
//! `gq_bits` and the set of `indexmap`.
#![tactic(auto)]

mod gathering;
mod key_set;
mod keys;
mod paths;
mod rows;
mod settled;

pub use key_set::KeySet;
