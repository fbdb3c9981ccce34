//! Sets of the first rows of a table, one bit a row. They take all their memory when they are made.
//! The crate stands on the marks of `gq_bits`.
#![tactic(auto)]

mod row_set;

pub use row_set::RowSet;
