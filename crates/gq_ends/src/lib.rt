//! The nodes at which a trail may end whose other end is asked for labels or tests: found once, by
//! columns, where they are few; and whether a node is one of them, which is asked once. The crate
//! stands on the tests of lanes of `gq_filter` and the expressions of `gq_eval`.
#![tactic(auto)]

mod answers;
mod end_test;
mod ends;
mod labels;
mod rows;
mod trail_end;

pub use ends::end_nodes;
pub use trail_end::TrailEnd;
