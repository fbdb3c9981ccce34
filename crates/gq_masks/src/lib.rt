//! The rows from which relationships lead to chosen rows, as a set that is told of the chosen rows
//! piece by piece. The crate stands on the lists of `gq_store` and the marks of `gq_bits`.
#![tactic(auto)]

mod marked;
mod mask;

pub use mask::Mask;
