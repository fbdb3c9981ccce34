//! The rows to which the relationships of one row lead, as a set that is turned to another row
//! without memory. The crate stands on the lists of `gq_store` and the marks of `gq_bits`.
#![tactic(auto)]

mod near_set;

pub use near_set::NearSet;
