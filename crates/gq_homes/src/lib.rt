//! How a pipeline is laid out: a plan's steps cut into groups, where in the groups the variables
//! live that the steps bind, and the slots of its columns, which it gives back at its end. The
//! crate stands on the steps of `gq_steps`, the groups of `gq_group` and the pool of `gq_pool`.
#![tactic(auto)]

mod groups;
mod homes;
mod spent;

pub use groups::cut_groups;
pub use homes::{Filling, Housing, Keeping, Leading, find_homes};
pub use spent::{Spent, give_back};
