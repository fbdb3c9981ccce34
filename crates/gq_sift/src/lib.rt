//! The places of a piece of a group's list that all steps of the group keep: whole pieces at once
//! where rows or relationships decide its tests, as `gq_chains` says where it is a chain, and else
//! one place after another. The crate stands on the steps of `gq_steps` and the marks of `gq_bits`.
#![tactic(auto)]

mod closing;
mod cuts;
mod differing;
mod edge_tests;
mod filtering;
mod finding;
mod keeping;
mod lists;
mod looping;
mod places;
mod reading;
mod remembered;
mod row_tests;

pub use cuts::cut_of;
pub use keeping::{sift, sift_among};
pub use places::keep_place;
pub use remembered::{Remembered, sift_remembered};
