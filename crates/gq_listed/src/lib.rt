//! Rows that are listed as they come, without DISTINCT and without ORDER BY, and held as cells: what
//! stands for the value of a column is found for an assignment, and kept. The crate stands on the
//! definitions of `gq_kept`, on what `gq_project` makes of an assignment, on the chunks of `gq_group`
//! and on the cells of `gq_cells`.
#![tactic(auto)]

mod finder;
mod holding;
mod keys;
mod leads;
mod listed;
mod places;
mod tables;
mod window;

pub use finder::Finder;
pub use holding::hold_columns;
pub use keys::{KeyFinder, hold_key};
pub use listed::{Asked, Listed, find_columns, is_listing};
pub use window::Window;
