//! Rows of values, each once, in the order of their first. The crate stands on the values of
//! `gq_base` and on the set of `indexmap`.
#![tactic(auto)]

mod classes;
mod key;
mod level;

pub use classes::Classes;
