//! Relationships by their sources: a column in which each source has its one pair, or the first
//! second one is refused, and pages of 128 sources, by which places and load numbers lead to one
//! another. The crate stands on the adjacency lists of `gq_adj`.
#![tactic(auto)]

mod paged;
mod singles;

pub use paged::Pages;
pub use singles::{Single, SingleRefusal};
