//! Rows of an outer join, in which a variable may have nothing: what they are, and what optional
//! clauses make of them. The crate stands on the bound queries of `gq_plan`.
#![tactic(auto)]

mod wide_row;

pub use wide_row::WideRow;
