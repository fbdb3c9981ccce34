//! Rows by the number that they have: which rows of a piece have one number, and which pieces have
//! no such row. The crate stands on the marks of `gq_bits`.
#![tactic(auto)]

mod among;
mod by_number;
mod integer;
mod key;
mod pieces;

pub use by_number::RowsByNumber;
pub use integer::number_of;
