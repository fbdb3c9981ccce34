//! Truth values packed 64 to a word: a list of bits with the count of ones before each place, and
//! the marks of one vector. The crate stands on `gq_base` alone.
#![tactic(auto)]

mod ranked;
mod vector_marks;

pub use ranked::BitList;
pub use vector_marks::Marks;

/// How many places a vector has; a multiple of 64.
pub const VECTOR: u32 = 2048;
