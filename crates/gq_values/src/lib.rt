//! Rows that are held as values: all of them, those that come first by ORDER BY, or with DISTINCT the
//! first row of each class. The crate stands on the definitions of `gq_kept`, on what `gq_project`
//! makes of an assignment, and on the classes of `gq_classes`.
#![tactic(auto)]

mod bar;
mod held;
mod sorting;

pub use bar::{FirstBar, are_sure};
pub use held::{Rows, first_rows};
pub use sorting::sort;
