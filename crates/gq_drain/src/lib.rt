//! Drains a pipeline into a table of rows, for a query that was prepared: its tests of paths were made,
//! and the matches of its optional clauses were listed. The crate stands on the assignments of
//! `gq_pipe`, the tests of `gq_exists`, the optional clauses of `gq_optional`, the trails of
//! `gq_trails` and the lines of `gq_rows`.
#![tactic(auto)]

mod behind;
mod chunks;
mod continues;
mod copied;
mod draining;
mod late;
mod prepared;
mod testing;
mod trailing;

pub use draining::drain_all;
pub use prepared::Prepared;
pub use testing::{Test, Tests};
