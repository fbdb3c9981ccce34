//! Chains of columns: groups whose steps rows alone decide, since each leads from a row to one row or
//! is a test of rows. Their places are gone along without load numbers, 64 at a time where that pays.
//! The crate stands on the steps of `gq_steps` and the marks of `gq_bits`.
#![tactic(auto)]

mod asked;
mod block_steps;
mod blocks;
mod chain;
mod ends;
mod keeping;

pub use asked::{extended, is_row_test, pair_at, rel_table, scanned, test_at};
pub use chain::are_chained;
pub use keeping::sift_chain;
